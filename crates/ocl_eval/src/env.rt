ghost use Rattle.std.specs.Prelude.{◌≡◌, ◌∷◌, ◌++◌, ◌<◌, [], All, IfSome, OnErr, OnOk, length, slice_get, take, slice_set};
ghost use Rattle.std.specs.Option.{option_copied};
ghost use Rattle.ocl_values.specs.Shape.{IsWellMade};

use crate::Values;
use ocl_values::Value;
use std::alloc::{AllocError, Global};
use std::marker::Model;
use use_lists::Items;

/// What is bound where an expression is evaluated, the outermost first. Contracts see the list of it.
#[derive(Debug, Drop)]
pub struct Env {
    pub(crate) values: Values,
}

impl Model for Env {
    ghost use Rattle.std.specs.Coded.{codes};
    ghost use Rattle.std.specs.Prelude.{List};
    ghost use Rattle.ocl_values.specs.contracts.value.Value as value_contracts;
    ghost use Rattle.ocl_values.specs.declared.value.Value as declared;

    ghost Value = { List declared.Value };

    ghost coded = { Prim.hlevel (codes, value_contracts.the_row.coded) };

    ghost view = { λ v. v.values };
}

impl Env {
    pub fn new(items: Items<Value>) -> Env
        requires { All IsWellMade items }
        ensures { result ≡ items }
    {
        Env {
            values: Values::from_vec(items.into_vec()),
        }
    }

    pub(crate) fn as_slice(&self) -> &[Value]
        ensures items { result.now ≡ self.now }
        ensures well_made { All IsWellMade result.now }
    {
        self.values.as_slice()
    }

    /// How many values are bound.
    pub fn len(&self) -> usize
        ensures { result ≡ length self.now }
    {
        self.values.as_slice().len()
    }

    /// The value at a place.
    pub fn get(&self, at: usize) -> Option<&Value>
        ensures value { option_copied result ≡ slice_get self.now at }
        ensures well_made { IfSome result (λ v. IsWellMade v.now) }
    {
        self.values.as_slice().get(at)
    }

    /// Binds one more value, innermost.
    pub fn push(&mut self, value: Value) -> Result<(), AllocError>
        requires { IsWellMade value }
        ensures added { OnOk result (self.new ≡ self.old ++ value ∷ []) }
        ensures refused { OnErr result (self.new ≡ self.old) }
    {
        self.values.push(value)
    }

    /// Binds another value at a place.
    pub fn set(&mut self, at: usize, value: Value)
        requires within { at < length self.old }
        requires well_made { IsWellMade value }
        ensures { self.new ≡ slice_set self.old at value }
    {
        self.values.set(at, value);
    }

    /// Unbinds all values from a place on.
    pub fn truncate(&mut self, len: usize)
        ensures { self.new ≡ take len self.old }
    {
        self.values.truncate(len);
    }
}
