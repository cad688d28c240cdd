ghost use Rattle.std.specs.Prelude.{◌≡◌};
ghost use Rattle.object_state.specs.State.{empty};

use crate::entries::Entries;
use crate::{Layout, LinkKey, Object, Variable};
use ocl_values::{ObjNo, Text};
use std::alloc::Global;
use std::marker::Model;

/// A state in plain lists. Each call looks through them.
#[derive(Drop)]
pub struct PlainStore {
    pub(crate) alloc: Global,
    pub(crate) layout: Layout,
    pub(crate) objects: Entries<ObjNo, Object>,
    pub(crate) links: Entries<LinkKey, (ObjNo, ObjNo)>,
    pub(crate) variables: Entries<Text, Variable>,
    pub(crate) next_object: u32,
    pub(crate) next_stamp: u32,
}

impl Model for PlainStore {
    ghost use Rattle.std.specs.Coded.{codes};
    ghost use Rattle.class_model.specs.contracts.types.OclType as types;
    ghost use Rattle.ocl_values.specs.contracts.value.Value as values;
    ghost use Rattle.object_state.specs.State.{Diagram};
    ghost use Rattle.object_state.specs.Valid.{IsValid};

    ghost Value = { Diagram };

    ghost coded = { Prim.hlevel (codes, types.the_row.coded, values.the_row.coded) };

    ghost view = { λ s. record {
      layout = s.layout;
      state = record {
        objects = s.objects;
        links = s.links;
        variables = s.variables;
        next_object = s.next_object;
        next_stamp = s.next_stamp;
      };
    } };

    ghost invariant = { λ s. IsValid s.layout (record {
      objects = s.objects;
      links = s.links;
      variables = s.variables;
      next_object = s.next_object;
      next_stamp =
          s.next_stamp;
    }) };
}

impl PlainStore {
    /// A store without objects, links and variables.
    pub fn new(alloc: Global, layout: Layout) -> PlainStore
        ensures layout { result.layout ≡ layout }
        ensures state { result.state ≡ empty }
    {
        PlainStore {
            alloc,
            layout,
            objects: Entries::new(alloc),
            links: Entries::new(alloc),
            variables: Entries::new(alloc),
            next_object: 1,
            next_stamp: 1,
        }
    }
}
