ghost use Rattle.std.specs.Prelude.{◌≡◌, [], ◌∷◌, ◌++◌, All, IfOk, OnErr, OnOk, MatchOption, ◌<◌, length, slice_get, slice_set, take, unwrap_or};
ghost use Rattle.std.specs.Option.{option_copied};
ghost use Rattle.ocl_values.specs.Shape.{IsWellMade};
ghost use Rattle.ocl_eval.specs.Places.{front};
ghost use Rattle.ocl_values.specs.declared.value.Value.TheVariants.{Invalid};

use ocl_values::Value;
use std::alloc::{AllocError, Global};
use std::marker::Model;

/// Values that evaluation can give. Contracts see the list of them.
#[derive(Debug, Drop)]
pub(crate) struct Values {
    items: Vec<Value>,
}

impl Model for Values {
    ghost use Rattle.std.specs.Coded.{codes};
    ghost use Rattle.std.specs.Prelude.{All, List};
    ghost use Rattle.ocl_values.specs.Shape.{IsWellMade};
    ghost use Rattle.ocl_values.specs.contracts.value.Value as values;
    ghost use Rattle.ocl_values.specs.declared.value.Value as declared;

    ghost Value = { List declared.Value };

    ghost coded = { Prim.hlevel (codes, values.the_row.coded) };

    ghost view = { λ v. v.items.items };

    ghost invariant = { λ v. All IsWellMade v.items.items };
}

impl Values {
    pub(crate) fn new(alloc: Global) -> Values
        ensures { result ≡ [] }
    {
        Values {
            items: Vec::new(alloc),
        }
    }

    /// No values, with room for so many.
    pub(crate) fn with_capacity(alloc: Global, capacity: usize) -> Result<Values, AllocError>
        ensures { IfOk result (λ values. values ≡ []) }
    {
        let items = Vec::with_capacity(alloc, capacity)?;
        Ok(Values { items })
    }

    pub(crate) fn from_vec(items: Vec<Value>) -> Values
        requires { All IsWellMade items.items }
        ensures { result ≡ items.items }
    {
        Values { items }
    }

    /// The value at a place, if there is one.
    #[inline]
    pub(crate) fn get(&self, at: usize) -> Option<&Value>
        ensures { option_copied result ≡ slice_get self.now at }
    {
        self.items.get(at)
    }

    /// Puts a value before all others.
    pub(crate) fn put_first(&mut self, value: Value) -> Result<(), AllocError>
        requires { IsWellMade value }
        ensures { OnOk result (self.new ≡ value ∷ self.old) }
    {
        self.items.insert(0, value)?;
        Ok(())
    }

    #[inline(always)]
    pub(crate) fn push(&mut self, value: Value) -> Result<(), AllocError>
        requires { IsWellMade value }
        ensures added { OnOk result (self.new ≡ self.old ++ value ∷ []) }
        ensures refused { OnErr result (self.new ≡ self.old) }
    {
        self.items.push(value)?;
        Ok(())
    }

    #[inline]
    pub(crate) fn pop(&mut self) -> Option<Value>
        ensures { MatchOption result ((self.old ≡ []) × (self.new ≡ [])) (λ last. self.old ≡ self.new ++ last ∷ []) }
    {
        self.items.pop()
    }

    /// Puts a value in the place of the last one.
    #[inline]
    pub(crate) fn set_last(&mut self, value: Value)
        requires some { 0 < length self.old }
        requires well_made { IsWellMade value }
        ensures { self.new ≡ front 1 self.old ++ value ∷ [] }
    {
        let last = self.items.len() - 1;
        self.items[last] = value;
    }

    /// Puts two values in the places of the last two.
    #[inline]
    pub(crate) fn set_last_two(&mut self, before: Value, last: Value)
        requires some { 1 < length self.old }
        requires before { IsWellMade before }
        requires last { IsWellMade last }
        ensures { self.new ≡ front 2 self.old ++ before ∷ last ∷ [] }
    {
        let at = self.items.len() - 1;
        self.items[at - 1] = before;
        self.items[at] = last;
    }

    /// Takes the last value away.
    pub(crate) fn drop_last(&mut self)
        requires { 0 < length self.old }
        ensures { self.new ≡ front 1 self.old }
    {
        self.items.pop();
    }

    pub(crate) fn set(&mut self, at: usize, value: Value)
        requires within { at < length self.old }
        requires well_made { IsWellMade value }
        ensures { self.new ≡ slice_set self.old at value }
    {
        self.items[at] = value;
    }

    pub(crate) fn truncate(&mut self, len: usize)
        ensures { self.new ≡ take len self.old }
    {
        self.items.truncate(len);
    }

    #[inline]
    pub(crate) fn as_slice(&self) -> &[Value]
        ensures items { result.now ≡ self.now }
        ensures well_made { All IsWellMade result.now }
    {
        self.items.as_slice()
    }

    pub(crate) fn into_vec(self) -> Vec<Value>
        ensures items { result.items ≡ self }
        ensures well_made { All IsWellMade result.items }
    {
        let Values { items } = self;
        items
    }

    /// A copy of the value at a place, or invalid past the end.
    #[inline]
    pub(crate) fn copy_of(&self, alloc: Global, at: u32) -> Result<Value, AllocError>
        ensures value { IfOk result (λ v. v ≡ unwrap_or (slice_get self.now at) Invalid) }
        ensures well_made { IfOk result IsWellMade }
    {
        match self.items.get(at as usize) {
            Some(value) => value.try_copy(alloc),
            None => Ok(Value::Invalid),
        }
    }
}
