ghost use Rattle.std.specs.Prelude.{◌≡◌, ◌+◌, IfOk, OnErr, OnOk};
ghost use Rattle.object_state.specs.Looks.{IsWellMadeLook, class_look, items_look, value_look};
ghost use Rattle.object_state.specs.declared.cell.Cell.TheVariants.{Kind, Slot, Nav, Extent};
ghost use Rattle.object_state.specs.declared.cell.Look.TheVariants as looks;
ghost use Rattle.ocl_eval.specs.Evaluations.{Gives, GivesAs};
ghost use Rattle.ocl_eval.specs.Parts.{scene};
ghost use Rattle.ocl_eval.specs.Scenes.{begin_look, look, within};

use crate::{Meter, Setting, States, Stop};
use class_model::{AssocNo, AttrNo, ClassNo, End};
use object_state::Cell;
use ocl_core::When;
use ocl_values::{ObjNo, Value};
use use_lists::Items;

/// Which state is meant where the one at entry takes the place of the present one.
pub(crate) fn within(at: When, when: When) -> When
    ensures { result ≡ within at when }
{
    match at {
        When::Now => when,
        When::Pre => When::Pre,
    }
}

/// Takes the unit that a look costs, and adds the cell where it is one of the present state. The look
/// itself counts the step.
fn begin_look(when: When, cell: Cell, meter: &mut Meter) -> Result<(), Stop>
    ensures value { Gives (begin_look when cell meter.old) result meter.new }
    ensures fuel { OnOk result (meter.new.fuel + 1 ≡ meter.old.fuel) }
    ensures kept { OnErr result (meter.new.fuel ≡ meter.old.fuel) }
{
    if meter.fuel == 0 {
        return Err(Stop::Exhausted);
    }
    match when {
        When::Now => meter.reads.add(cell)?,
        When::Pre => (),
    }
    meter.fuel -= 1;
    Ok(())
}

pub(crate) fn look_at_kind<S, V: States<S>>(
    setting: &Setting<'_, V>,
    when: When,
    object: ObjNo,
    meter: &mut Meter,
    steps: &mut S,
) -> Result<Option<ClassNo>, Stop>
    ensures value { GivesAs class_look (look (scene V.now V.pre setting.now) when (Kind object) meter.old) result meter.new }
    ensures ticks { V.count steps.new + meter.new.fuel ≡ V.count steps.old + meter.old.fuel }
{
    begin_look(when, Cell::Kind(object), meter)?;
    Ok(setting.states.kind(when, object, steps))
}

pub(crate) fn look_at_slot<S, V: States<S>>(
    setting: &Setting<'_, V>,
    when: When,
    object: ObjNo,
    attr: AttrNo,
    meter: &mut Meter,
    steps: &mut S,
) -> Result<Option<Value>, Stop>
    ensures value { GivesAs value_look (look (scene V.now V.pre setting.now) when (Slot object attr) meter.old) result meter.new }
    ensures well_made { IfOk result (λ value. IsWellMadeLook (value_look value)) }
    ensures ticks { V.count steps.new + meter.new.fuel ≡ V.count steps.old + meter.old.fuel }
{
    begin_look(when, Cell::Slot(object, attr), meter)?;
    let value = setting
        .states
        .slot(setting.alloc, when, object, attr, steps)?;
    Ok(value)
}

pub(crate) fn look_at_nav<S, V: States<S>>(
    setting: &Setting<'_, V>,
    when: When,
    assoc: AssocNo,
    end: End,
    object: ObjNo,
    meter: &mut Meter,
    steps: &mut S,
) -> Result<Option<Items<Value>>, Stop>
    ensures value { GivesAs items_look (look (scene V.now V.pre setting.now) when (Nav assoc end object) meter.old) result meter.new }
    ensures well_made { IfOk result (λ items. IsWellMadeLook (items_look items)) }
    ensures ticks { V.count steps.new + meter.new.fuel ≡ V.count steps.old + meter.old.fuel }
{
    begin_look(when, Cell::Nav(assoc, end, object), meter)?;
    let items = setting
        .states
        .nav(setting.alloc, when, assoc, end, object, steps)?;
    Ok(items)
}

pub(crate) fn look_at_extent<S, V: States<S>>(
    setting: &Setting<'_, V>,
    when: When,
    class: ClassNo,
    meter: &mut Meter,
    steps: &mut S,
) -> Result<Items<Value>, Stop>
    ensures value { GivesAs looks.Items (look (scene V.now V.pre setting.now) when (Extent class) meter.old) result meter.new }
    ensures well_made { IfOk result (λ items. IsWellMadeLook (looks.Items items)) }
    ensures ticks { V.count steps.new + meter.new.fuel ≡ V.count steps.old + meter.old.fuel }
{
    begin_look(when, Cell::Extent(class), meter)?;
    let items = setting.states.extent(setting.alloc, when, class, steps)?;
    Ok(items)
}
