ghost use Rattle.std.specs.Prelude.{◌≡◌, ◌<◌, ◌≤◌, ◌-◌, ◌^◌, ◌||◌, ℕ, true, false, nat_eq, OnOk};
ghost use Rattle.class_rules.specs.Numbering.{is_among};
ghost use Rattle.class_rules.specs.Ready.{first_ready, is_ready, ready_before};

use std::alloc::{AllocError, Global};
use std::collections::BTreeSet;
use std::marker::Model;

/// The places that are to be looked at: all from one on, and some before it that are to be looked at
/// again. Nothing is kept for a place before it was looked at.
#[derive(Drop)]
pub(crate) struct Ready {
    again: BTreeSet<usize>,
    next: usize,
}

impl Model for Ready {
    ghost use Rattle.std.specs.Prelude.{◌≡◌, ◌<◌, ℕ, true};
    ghost use Rattle.class_rules.specs.Numbering.{is_among};
    ghost use Rattle.class_rules.specs.Ready.{ReadyPlaces};

    ghost Value = { ReadyPlaces };

    ghost view = { λ r. record { again = r.again.keys; next = r.next } };

    ghost invariant = { λ r. (i : ℕ) → is_among r.again.keys i ≡ true → i < r.next };
}

impl Ready {
    /// All places.
    pub(crate) fn all(alloc: Global) -> Ready
        ensures { (i : ℕ) → is_ready result i ≡ true }
    {
        Ready {
            again: BTreeSet::new(alloc),
            next: 0,
        }
    }

    /// The least of the places.
    pub(crate) fn first(&self) -> usize
        ensures first { result ≡ first_ready self.now }
        ensures least { (i : ℕ) → is_ready self.now i ≡ true → result ≤ i }
    {
        match self.again.first() {
            None => self.next,
            Some(place) => *place,
        }
    }

    /// The least of the places was looked at.
    pub(crate) fn drop_first(&mut self)
        requires { first_ready self.old < 2 ^ 64 - 1 }
        ensures kept { (i : ℕ) → is_ready self.old i ≡ (nat_eq i (first_ready self.old) || is_ready self.new i) }
        ensures gone { is_ready self.new (first_ready self.old) ≡ false }
        ensures fewer { (n : ℕ) → first_ready self.old < n → ready_before n self.new < ready_before n self.old }
    {
        if self.again.pop_first().is_none() {
            self.next += 1;
        }
    }

    /// A place is to be looked at again.
    fn add(&mut self, place: usize) -> Result<(), AllocError>
        ensures { OnOk result ((i : ℕ) → is_ready self.new i ≡ (is_ready self.old i || nat_eq i place)) }
    {
        if place < self.next {
            self.again.insert(place)?;
        }
        Ok(())
    }

    /// Some places are to be looked at again.
    pub(crate) fn add_all(&mut self, places: &[usize]) -> Result<(), AllocError>
        ensures { OnOk result ((i : ℕ) → is_ready self.new i ≡ (is_ready self.old i || is_among places.now i)) }
    {
        'places: for place in places {
            self.add(*place)?;
        }
        Ok(())
    }
}
