ghost use Rattle.std.specs.Prelude.{OnOk};
ghost use Rattle.invariant_cache.specs.Counts.{StandsFor};
ghost use Rattle.object_state.specs.Layouts.{layout_of};
ghost use Rattle.object_state.specs.State.{State};
ghost use Rattle.entry_states.specs.Leading.{CanBeTakenBack, taken_back};
ghost use Rattle.soil_changes.specs.Progress.{Lead};

use class_model::ClassModel;
use invariant_cache::Structure;
use object_state::Change;
use std::alloc::AllocError;

/// Tells a structure of changes that were carried out.
pub(crate) fn note_all(
    model: &ClassModel,
    structure: &mut Structure,
    changes: &[Change],
) -> Result<(), AllocError>
    ensures { OnOk result ((s t : State) → StandsFor model.now structure.old s → Lead (layout_of model.now) s changes.now t
        → StandsFor model.now structure.new t) }
{
    'changes: for change in changes {
        structure.note(model, change)?;
    }
    Ok(())
}

/// Tells a structure of changes that were taken back, the last first.
pub(crate) fn note_all_back(
    model: &ClassModel,
    structure: &mut Structure,
    changes: &[Change],
) -> Result<(), AllocError>
    ensures { OnOk result ((s : State) → StandsFor model.now structure.old s → CanBeTakenBack (layout_of model.now) changes.now s
        → StandsFor model.now structure.new (taken_back (layout_of model.now) changes.now s)) }
{
    let mut left = changes.len();
    'changes: while left > 0 {
        left -= 1;
        structure.note_back(model, &changes[left])?;
    }
    Ok(())
}
