use super::*;
use object_state::Change;
use ocl_values::Value;
use std::alloc::{AllocError, Global};
use std::test::Fail;
use use_lists::Items;

/// An entry whose only change sets a slot of the object of a number.
fn entry(alloc: Global, object: u32) -> Result<Entry, AllocError> {
    let mut changes = Items::new(alloc);
    changes.push(Change::SetSlot {
        object,
        attr: 0,
        old: Value::Null,
        new: Value::Bool(true),
    })?;
    Ok(Entry {
        changes,
        moved: FrameMove::Stay,
    })
}

/// The object of an entry's first change.
fn object_of(entry: &Entry) -> Option<u32> {
    match entry.changes.get(0) {
        Some(Change::SetSlot { object, .. }) => Some(*object),
        _ => None,
    }
}

/// The object of the entry that is taken back next.
fn undone(history: &mut History) -> Option<u32> {
    match history.step_back() {
        Some(entry) => {
            let object = object_of(&entry);
            history.put_forward(entry);
            object
        }
        None => None,
    }
}

/// The object of the entry that is carried out again next.
fn redone(history: &mut History) -> Option<u32> {
    match history.step_forward() {
        Some(entry) => {
            let object = object_of(&entry);
            history.put_back(entry);
            object
        }
        None => None,
    }
}

/// Keeps a new entry, and tells the object of the one that is given back.
fn kept(alloc: Global, history: &mut History, object: u32) -> Result<Option<u32>, AllocError> {
    history.forget_forward();
    match history.keep(entry(alloc, object)?) {
        Some(oldest) => Ok(object_of(&oldest)),
        None => Ok(None),
    }
}

#[test]
fn of_1001_commands_the_newest_1000_are_taken_back(rt: HostRuntime) -> Result<(), Fail> {
    let alloc = rt.alloc();
    let mut history = History::new(alloc, 1_000)?;
    'keep: for object in 1..1_001u32 {
        assert_eq!(rt; kept(alloc, &mut history, object)?, None);
    }
    assert_eq!(rt; kept(alloc, &mut history, 1_001)?, Some(1));
    'undo: for taken in 0..1_000u32 {
        assert_eq!(rt; undone(&mut history), Some(1_001 - taken));
    }
    assert_eq!(rt; undone(&mut history), None);
    assert_eq!(rt; redone(&mut history), Some(2));
    Ok(())
}

#[test]
fn a_new_command_drops_what_could_be_carried_out_again(rt: HostRuntime) -> Result<(), Fail> {
    let alloc = rt.alloc();
    let mut history = History::new(alloc, 3)?;
    kept(alloc, &mut history, 1)?;
    kept(alloc, &mut history, 2)?;
    assert_eq!(rt; undone(&mut history), Some(2));
    assert_eq!(rt; redone(&mut history), Some(2));
    assert_eq!(rt; undone(&mut history), Some(2));
    kept(alloc, &mut history, 3)?;
    assert_eq!(rt; redone(&mut history), None);
    assert_eq!(rt; undone(&mut history), Some(3));
    history.clear();
    assert_eq!(rt; undone(&mut history), None);
    assert_eq!(rt; redone(&mut history), None);
    Ok(())
}

/// A history of 1,001 commands, of which the newest 1,000 are taken back.
fn all_taken_back(alloc: Global) -> Result<History, AllocError> {
    let mut history = History::new(alloc, 1_000)?;
    'keep: for object in 1..1_002u32 {
        kept(alloc, &mut history, object)?;
    }
    'undo: for _ in 0..1_000u32 {
        undone(&mut history);
    }
    Ok(history)
}

#[test]
fn what_was_taken_back_is_carried_out_again_in_order(rt: HostRuntime) -> Result<(), Fail> {
    let mut history = all_taken_back(rt.alloc())?;
    'redo: for object in 2..1_002u32 {
        assert_eq!(rt; redone(&mut history), Some(object));
    }
    assert_eq!(rt; redone(&mut history), None);
    assert_eq!(rt; undone(&mut history), Some(1_001));
    Ok(())
}
