ghost use Rattle.std.specs.Prelude.{◌≡◌, ◌+◌, ◌<◌, [], ◌∷◌, length, take, slice_get, IfOk, MatchOption};

use crate::Entry;
use circular_buffer::HeapCircularBuffer;
use std::alloc::{AllocError, Global};
use std::marker::Model;

/// The entries that can be taken back, the newest first, and those that can be carried out again,
/// the next first. Both lie in rings that are used at their front, so that no call but `new` takes
/// memory.
#[derive(Drop)]
pub struct History {
    past: HeapCircularBuffer<Entry>,
    future: HeapCircularBuffer<Entry>,
}

impl Model for History {
    ghost use Rattle.std.specs.Coded.{codes};
    ghost use Rattle.class_model.specs.contracts.types.OclType as types;
    ghost use Rattle.ocl_values.specs.contracts.value.Value as values;
    ghost use Rattle.undo_log.specs.Kept.{IsWithinCapacity, Kept, kept};

    ghost Value = { Kept };

    ghost coded = { Prim.hlevel (codes, types.the_row.coded, values.the_row.coded) };

    ghost view = { kept };

    ghost invariant = { IsWithinCapacity };
}

impl History {
    /// A history without entries that keeps at most so many.
    pub fn new(alloc: Global, capacity: u32) -> Result<History, AllocError>
        requires { 0 < capacity }
        ensures { IfOk result (λ h. h ≡ record { past = []; future = []; capacity = capacity }) }
    {
        Ok(History {
            past: HeapCircularBuffer::with_capacity(alloc, capacity as usize)?,
            future: HeapCircularBuffer::with_capacity(alloc, capacity as usize)?,
        })
    }

    /// Keeps a new entry, and gives back the oldest one where there were as many as may be kept.
    /// What could be carried out again is to be forgotten before.
    pub fn keep(&mut self, newest: Entry) -> Option<Entry>
        requires { self.old.future ≡ [] }
        ensures kept { self.new ≡ record self.old { past = take self.old.capacity (newest ∷ self.old.past) } }
        ensures oldest { result ≡ slice_get (newest ∷ self.old.past) self.old.capacity }
    {
        self.past.push_front(newest)
    }

    /// Takes out the newest entry of those that can be taken back.
    pub fn step_back(&mut self) -> Option<Entry>
        ensures taken { MatchOption result ((self.old.past ≡ []) × (self.new ≡ self.old)) (λ e. self.old ≡ record self.new { past = e ∷ self.new.past }) }
        ensures room { MatchOption result (self.new ≡ self.old) (λ e. length self.new.past + length self.new.future < self.new.capacity) }
    {
        self.past.pop_front()
    }

    /// Takes out the next entry of those that can be carried out again.
    pub fn step_forward(&mut self) -> Option<Entry>
        ensures taken { MatchOption result ((self.old.future ≡ []) × (self.new ≡ self.old)) (λ e. self.old ≡ record self.new { future = e ∷ self.new.future }) }
        ensures room { MatchOption result (self.new ≡ self.old) (λ e. length self.new.past + length self.new.future < self.new.capacity) }
    {
        self.future.pop_front()
    }

    /// Makes an entry the next that can be taken back. A step has made room for it.
    pub fn put_back(&mut self, entry: Entry)
        requires { length self.old.past + length self.old.future < self.old.capacity }
        ensures { self.new ≡ record self.old { past = entry ∷ self.old.past } }
    {
        self.past.push_front(entry);
    }

    /// Makes an entry the next that can be carried out again. A step has made room for it.
    pub fn put_forward(&mut self, entry: Entry)
        requires { length self.old.past + length self.old.future < self.old.capacity }
        ensures { self.new ≡ record self.old { future = entry ∷ self.old.future } }
    {
        self.future.push_front(entry);
    }

    /// Forgets what could be carried out again.
    pub fn forget_forward(&mut self)
        ensures { self.new ≡ record self.old { future = [] } }
    {
        self.future.clear();
    }

    /// Forgets all entries.
    pub fn clear(&mut self)
        ensures { self.new ≡ record self.old { past = []; future = [] } }
    {
        self.past.clear();
        self.forget_forward();
    }
}
