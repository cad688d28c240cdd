ghost use Rattle.std.specs.Prelude.{◌≡◌, IfOk, OnOk, map, slice_get};
ghost use Rattle.std.specs.Option.{option_copied};
ghost use Rattle.model_check.specs.Adding.{next_name, nothing_checked, with_body, with_contract, with_derived, with_invariant};

use class_model::{ClassModel, DerNo, OpNo};
use ocl_core::{Contract, Expr, Invariant, OpBody};
use ocl_values::{Text, Value};
use std::alloc::{AllocError, Global};
use std::mem;
use use_lists::Items;

/// What is checked of a model so far.
#[derive(Drop)]
pub(crate) struct Checked {
    pub(crate) invariants: Items<Invariant>,
    pub(crate) contracts: Items<Contract>,
    /// For each operation.
    pub(crate) bodies: Items<OpBody>,
    /// For each derived attribute.
    pub(crate) derived: Items<Expr>,
}

/// For each operation no body.
fn no_bodies(alloc: Global, model: &ClassModel) -> Result<Items<OpBody>, AllocError>
    ensures { IfOk result (λ bodies. bodies ≡ map (λ op. OpBody.None) model.now.ops) }
{
    let ops = model.as_model().ops.as_slice();
    let mut bodies = Items::new(alloc);
    'ops: for _op in ops {
        bodies.push(OpBody::None)?;
    }
    Ok(bodies)
}

/// For each derived attribute the value that it has without a body.
fn no_values(alloc: Global, model: &ClassModel) -> Result<Items<Expr>, AllocError>
    ensures { IfOk result (λ all. all ≡ map (λ d. Expr.Literal Value.Invalid) model.now.derived) }
{
    let attributes = model.as_model().derived.as_slice();
    let mut all = Items::new(alloc);
    'attributes: for _attribute in attributes {
        all.push(Expr::Literal(Value::Invalid))?;
    }
    Ok(all)
}

/// The name at a place.
fn name_at(names: &[Text], at: usize) -> Option<&Text>
    ensures { option_copied result ≡ slice_get names.now at }
{
    names.get(at)
}

impl Checked {
    /// Nothing yet.
    pub(crate) fn new(alloc: Global, model: &ClassModel) -> Result<Checked, AllocError>
        ensures { IfOk result (λ c. c ≡ nothing_checked model.now) }
    {
        Ok(Checked {
            invariants: Items::new(alloc),
            contracts: Items::new(alloc),
            bodies: no_bodies(alloc, model)?,
            derived: no_values(alloc, model)?,
        })
    }

    /// One invariant more.
    pub(crate) fn add_invariant(&mut self, invariant: Invariant) -> Result<(), AllocError>
        ensures { OnOk result (self.new ≡ with_invariant self.old invariant) }
    {
        self.invariants.push(invariant)
    }

    /// One contract more.
    pub(crate) fn add_contract(&mut self, contract: Contract) -> Result<(), AllocError>
        ensures { OnOk result (self.new ≡ with_contract self.old contract) }
    {
        self.contracts.push(contract)
    }

    /// An operation has this body.
    pub(crate) fn set_body(&mut self, alloc: Global, op: OpNo, body: OpBody)
        ensures { self.new ≡ with_body self.old op body }
    {
        let mut bodies = mem::replace(&mut self.bodies, Items::new(alloc)).into_vec();
        if let Some(found) = bodies.get_mut(op as usize) {
            *found = body;
        }
        self.bodies = Items::from_vec(bodies);
    }

    /// A derived attribute has this body.
    pub(crate) fn set_derived(&mut self, alloc: Global, number: DerNo, body: Expr)
        ensures { self.new ≡ with_derived self.old number body }
    {
        let mut derived = mem::replace(&mut self.derived, Items::new(alloc)).into_vec();
        if let Some(found) = derived.get_mut(number as usize) {
            *found = body;
        }
        self.derived = Items::from_vec(derived);
    }

    /// The name of the next invariant or contract: as many stand before it as are checked.
    pub(crate) fn next_name<'a>(&self, names: &'a [Text]) -> Option<&'a Text>
        ensures { option_copied result ≡ next_name names.now self.now }
    {
        let invariants = self.invariants.len();
        let contracts = self.contracts.len();
        let count = names.len();
        if count <= invariants {
            return None;
        }
        let room = count - invariants;
        if room <= contracts {
            return None;
        }
        name_at(names, invariants + contracts)
    }
}
