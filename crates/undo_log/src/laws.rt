ghost use Rattle.std.specs.Prelude.{◌≡◌, [], ◌∷◌, List, take};
ghost use Rattle.object_state.specs.declared.layout.Layout.{Layout};
ghost use Rattle.object_state.specs.State.{State};
ghost use Rattle.object_state.specs.Valid.{IsValid};
ghost use Rattle.entry_states.specs.declared.frame.Frame.{Frame};
ghost use Rattle.undo_log.specs.declared.entry.Entry.{Entry};
ghost use Rattle.undo_log.specs.Kept.{Kept};
ghost use Rattle.entry_states.specs.Leading.{led_on, taken_back};
ghost use Rattle.entry_states.specs.Noting.{AreNoted};
ghost use Rattle.undo_log.specs.Points.{GoesBack, GoesOn, on, point};
ghost use Rattle.undo_log.specs.Steps.{CarriesOut, LedBack, LedOn, TakesBack};
ghost use Rattle.undo_log.specs.Timelines.{IsWhole, advanced, redone, timeline, undone};

/// A law: where the changes of an entry are taken back, each noted before, and then its move, this
/// leads to the point before the entry; and the entry that is then put forward leads on again.
pub fn entries_are_taken_back()
    ensures { (l : Layout) (s : State) (fs gs : List Frame) (e : Entry) → IsValid l s → GoesBack l e (point l s fs) fs
        → AreNoted l s (taken_back l e.changes s) fs gs → TakesBack l s fs gs e }
{}

/// A law: where the changes of an entry are carried out, each noted before, and then its move, this
/// leads to the point after the entry; and the entry that is then put back can be taken back. It
/// tells of a new command what it tells of one that is carried out again.
pub fn entries_are_carried_out_again()
    ensures { (l : Layout) (s : State) (fs gs : List Frame) (e : Entry) → IsValid l s → GoesOn l e (point l s fs)
        → AreNoted l s (led_on l s e.changes) fs gs → CarriesOut l s fs gs e }
{}

/// A law: a history of which the newest entry is taken back means what it meant, one step earlier.
pub fn histories_are_taken_back()
    ensures { (l : Layout) (h k m : Kept) (e again : Entry) (s t : State) (fs hs : List Frame)
        → h ≡ record k { past = e ∷ k.past } → m ≡ record k { future = again ∷ k.future } → IsWhole l h s fs → LedBack l s fs e again t hs
        → IsWhole l m t hs × (timeline l m t hs ≡ undone (timeline l h s fs)) }
{}

/// A law: a history of which the next entry is carried out again means what it meant, one step later.
pub fn histories_are_carried_out_again()
    ensures { (l : Layout) (h k m : Kept) (e kept : Entry) (s t : State) (fs hs : List Frame)
        → h ≡ record k { future = e ∷ k.future } → m ≡ record k { past = kept ∷ k.past } → IsWhole l h s fs
        → kept.changes ≡ e.changes → point l t hs ≡ on l e (point l s fs) → LedOn l s fs kept t hs
        → IsWhole l m t hs × (timeline l m t hs ≡ redone (timeline l h s fs)) }
{}

/// A law: a history that keeps the entry of a new command means what it meant, with one step more.
pub fn a_command_leads_on()
    ensures { (l : Layout) (h m : Kept) (e : Entry) (s t : State) (fs hs : List Frame)
        → m ≡ record h { past = take h.capacity (e ∷ h.past); future = [] } → IsWhole l h s fs → LedOn l s fs e t hs
        → IsWhole l m t hs × (timeline l m t hs ≡ advanced h.capacity (timeline l h s fs) e.changes (point l t hs)) }
{}
