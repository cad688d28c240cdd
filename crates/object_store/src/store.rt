ghost use Rattle.std.specs.Prelude.{◌≡◌, IfOk, filter};
ghost use Rattle.object_state.specs.Looks.{has_at};
ghost use Rattle.object_state.specs.State.{empty};

use crate::link_table::LinkTable;
use crate::object_table::ObjectTable;
use crate::text_map::TextMap;
use class_model::{AssocNo, End};
use object_state::{Layout, Variable};
use ocl_values::ObjNo;
use std::alloc::{AllocError, Global};
use std::marker::Model;

/// A state with indexes. A change costs the logarithm of what there is, and its own values.
#[derive(Drop)]
pub struct Store {
    pub(crate) alloc: Global,
    pub(crate) objects: ObjectTable,
    pub(crate) links: LinkTable,
    pub(crate) variables: TextMap<Variable>,
    pub(crate) next_object: u32,
    pub(crate) next_stamp: u32,
    /// What the state weighs.
    pub(crate) weight: u64,
}

impl Model for Store {
    ghost use Rattle.std.specs.Prelude.{◌≡◌};
    ghost use Rattle.std.specs.Coded.{codes};
    ghost use Rattle.class_model.specs.contracts.types.OclType as types;
    ghost use Rattle.ocl_values.specs.contracts.value.Value as values;
    ghost use Rattle.object_state.specs.State.{Diagram};
    ghost use Rattle.object_state.specs.Valid.{IsValid};
    ghost use Rattle.object_state.specs.Weights.{weight};

    ghost Value = { Diagram };

    ghost coded = { Prim.hlevel (codes, types.the_row.coded, values.the_row.coded) };

    ghost use Rattle.object_store.specs.Held.{IsKept, diagram};

    ghost view = { diagram };

    ghost invariant = { IsKept };
}

impl Store {
    /// A store without objects, links and variables.
    pub fn new(alloc: Global, layout: Layout) -> Store
        ensures layout { result.layout ≡ layout }
        ensures state { result.state ≡ empty }
    {
        Store {
            alloc,
            objects: ObjectTable::new(alloc, layout),
            links: LinkTable::new(alloc),
            variables: TextMap::new(alloc),
            next_object: 1,
            next_stamp: 1,
            weight: 0,
        }
    }

    /// The links of an association that have an object at an end, by stamps: of each its association and
    /// stamp, and the objects that it joins.
    pub fn links_at(
        &self,
        alloc: Global,
        assoc: AssocNo,
        end: End,
        object: ObjNo,
    ) -> Result<Vec<((AssocNo, u32), (ObjNo, ObjNo))>, AllocError>
        ensures { IfOk result (λ v. v.items ≡ filter (has_at assoc end object) self.now.state.links) }
    {
        self.links.at(alloc, assoc, end, object)
    }
}
