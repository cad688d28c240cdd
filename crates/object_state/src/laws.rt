ghost use Rattle.std.specs.Prelude.{◌≡◌, ◌||◌, ◌↔◌, IsTrue, List};
ghost use Rattle.object_state.specs.declared.cell.Cell.{Cell};
ghost use Rattle.object_state.specs.declared.change.Change.{Change};
ghost use Rattle.object_state.specs.declared.layout.Layout.{Layout};
ghost use Rattle.object_state.specs.Changes.{apply, inverse};
ghost use Rattle.object_state.specs.Faults.{Fits};
ghost use Rattle.object_state.specs.State.{State};
ghost use Rattle.object_state.specs.Touched.{Alters, SetsAnother, has_cell, touched, with_cells};
ghost use Rattle.object_state.specs.Valid.{IsValid};

/// A law: a change that fits a valid state leads to a valid one.
pub fn changes_keep_states_valid()
    ensures { (l : Layout) (s : State) (c : Change) → IsValid l s → Fits l s c → IsValid l (apply l s c) }
{}

/// A law: what takes a change back fits the state after it, and leads back to the very state.
pub fn changes_are_taken_back()
    ensures fits { (l : Layout) (s : State) (c : Change) → IsValid l s → Fits l s c → Fits l (apply l s c) (inverse c) }
    ensures back { (l : Layout) (s : State) (c : Change) → IsValid l s → Fits l s c → apply l (apply l s c) (inverse c) ≡ s }
{}

/// A law: the cells that are touched are exactly those that a change alters, where it sets no slot
/// to the value that it has.
pub fn touched_cells_are_altered()
    ensures { (l : Layout) (s : State) (c : Change) (x : Cell) → IsValid l s → Fits l s c → SetsAnother c
        → (IsTrue (has_cell (touched l c) x) ↔ Alters l s c x) }
{}

/// A law: a set has the cells that were put into it and those that it had.
pub fn sets_have_what_they_are_given()
    ensures { (cells more : List Cell) (x : Cell) → has_cell (with_cells cells more) x ≡ (has_cell cells x || has_cell more x) }
{}
