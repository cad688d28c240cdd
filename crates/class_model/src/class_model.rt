ghost use Rattle.std.specs.Prelude.{◌≡◌, ◌<◌, ◌≤◌, ℕ, IfOk, length};
ghost use Rattle.std.specs.HashMap.{get_by_text};
ghost use Rattle.std.specs.Option.{option_copied};
ghost use Rattle.class_model.specs.Features.{assoc_named, class_named, enum_named, literal, only_literal};
ghost use Rattle.class_model.specs.Indexes.{AreIndexes, IsIndexOf, IsTable};
ghost use Rattle.class_model.specs.InRange.{IsInRange};
ghost use Rattle.class_model.specs.Inheritance.{is_a, parents_of};
ghost use Rattle.class_model.specs.Parts.{literal_count};

use crate::by_name::{ByName, numbers_by_name};
use crate::class_index::{ClassIndex, class_index};
use crate::inheritance::{is_above, table};
use crate::literals::{OnlyLiterals, literals_by_name, only_literals};
use crate::{AssocNo, ClassNo, EnumNo, LitNo, ObjectModel};
use std::alloc::{AllocError, Global};
use std::marker::Model;
use use_lists::Items;

/// An object model, indexed: what is asked of it is found without a search.
#[derive(Drop)]
pub struct ClassModel {
    model: ObjectModel,
    /// For each class, which classes it inherits from.
    table: Items<Items<bool>>,
    classes: Vec<ClassIndex>,
    classes_by_name: ByName<ClassNo>,
    enums_by_name: ByName<EnumNo>,
    assocs_by_name: ByName<AssocNo>,
    literals: Vec<ByName<LitNo>>,
    only_literals: OnlyLiterals,
}

impl Model for ClassModel {
    ghost use Rattle.class_model.specs.declared.object_model.ObjectModel.{ObjectModel};

    ghost Value = { ObjectModel };

    ghost use Rattle.class_model.specs.contracts.types.OclType as of_types;
    ghost use Rattle.std.specs.Coded.{codes};

    ghost coded = { Prim.hlevel (codes, of_types.the_row.coded) };

    ghost view = { λ m. m.model };

    ghost use Rattle.class_model.specs.Indexed.{IsIndexed};

    ghost invariant = { IsIndexed };
}

fn class_indexes(
    alloc: Global,
    model: &ObjectModel,
    rows: &[Items<bool>],
) -> Result<Vec<ClassIndex>, AllocError>
    requires table { IsTable (parents_of model.now) rows.now }
    requires in_range { IsInRange model.now }
    ensures { IfOk result (λ v. AreIndexes model.now v.items) }
{
    let mut indexes = Vec::new(alloc);
    'classes: for class in 0..model.classes.len() as u32 {
        indexes.push(class_index(alloc, model, rows, class)?)?;
    }
    Ok(indexes)
}

impl ClassModel {
    /// A model to be asked.
    pub fn of(alloc: Global, model: ObjectModel) -> Result<ClassModel, AllocError>
        requires { IsInRange model }
        ensures { IfOk result (λ m. m ≡ model) }
    {
        let table = table(alloc, model.classes.as_slice())?;
        let classes = class_indexes(alloc, &model, table.as_slice())?;
        let classes_by_name = numbers_by_name(alloc, model.classes.as_slice())?;
        let enums_by_name = numbers_by_name(alloc, model.enums.as_slice())?;
        let assocs_by_name = numbers_by_name(alloc, model.assocs.as_slice())?;
        let literals = literals_by_name(alloc, model.enums.as_slice())?;
        let only_literals = only_literals(alloc, model.enums.as_slice(), literals.as_slice())?;
        Ok(ClassModel {
            model,
            table,
            classes,
            classes_by_name,
            enums_by_name,
            assocs_by_name,
            literals,
            only_literals,
        })
    }

    /// The model itself.
    pub fn as_model(&self) -> &ObjectModel
        ensures { result.now ≡ self.now }
    {
        &self.model
    }

    /// The numbers in a model are in range, and it has no more of anything than it may have: a law,
    /// which costs nothing.
    pub fn has_numbers_in_range(&self)
        ensures { IsInRange self.now }
    {
        let _ = &self.model;
    }

    /// What a class has.
    pub(crate) fn index(&self, class: ClassNo) -> &ClassIndex
        requires { class < length self.now.classes }
        ensures { IsIndexOf self.now class result.now }
    {
        &self.classes[class as usize]
    }

    /// The class of a name.
    pub fn class_by_name(&self, name: &str) -> Option<ClassNo>
        ensures { result ≡ class_named self.now name.now }
    {
        self.classes_by_name.get(name).copied()
    }

    /// The enumeration of a name.
    pub fn enum_by_name(&self, name: &str) -> Option<EnumNo>
        ensures { result ≡ enum_named self.now name.now }
    {
        self.enums_by_name.get(name).copied()
    }

    /// The association of a name.
    pub fn assoc_by_name(&self, name: &str) -> Option<AssocNo>
        ensures { result ≡ assoc_named self.now name.now }
    {
        self.assocs_by_name.get(name).copied()
    }

    /// Whether a class is another or inherits from it.
    pub fn is_a(&self, class: ClassNo, other: ClassNo) -> bool
        ensures { result ≡ is_a self.now class other }
    {
        is_above(self.table.as_slice(), class, other)
    }

    /// The literal of a name in an enumeration.
    pub fn literal(&self, number: EnumNo, name: &str) -> Option<LitNo>
        requires { number < length self.now.enums }
        ensures { result ≡ literal self.now number name.now }
    {
        self.literals[number as usize].get(name).copied()
    }

    /// The literal of a name where one enumeration alone has it, with that enumeration.
    pub fn only_literal(&self, name: &str) -> Option<(EnumNo, LitNo)>
        ensures { result ≡ only_literal self.now name.now }
    {
        match self.only_literals.get(name) {
            None => None,
            Some(literal) => *literal,
        }
    }
}

/// What there is.
impl ClassModel {
    /// The name of the model.
    pub fn name(&self) -> &str
        ensures { result.now ≡ self.now.name }
    {
        self.model.name.as_str()
    }

    pub fn class_count(&self) -> u32
        ensures { result ≡ length self.now.classes }
    {
        self.model.classes.len() as u32
    }

    pub fn enum_count(&self) -> u32
        ensures { result ≡ length self.now.enums }
    {
        self.model.enums.len() as u32
    }

    pub fn assoc_count(&self) -> u32
        ensures { result ≡ length self.now.assocs }
    {
        self.model.assocs.len() as u32
    }

    /// How many stored attributes there are.
    pub fn attr_count(&self) -> u32
        ensures { result ≡ length self.now.attrs }
    {
        self.model.attrs.len() as u32
    }

    /// How many derived attributes there are.
    pub fn derived_count(&self) -> u32
        ensures { result ≡ length self.now.derived }
    {
        self.model.derived.len() as u32
    }

    /// How many declarations of operations there are.
    pub fn op_count(&self) -> u32
        ensures { result ≡ length self.now.ops }
    {
        self.model.ops.len() as u32
    }

    /// How many literals an enumeration has.
    pub fn literal_count(&self, number: EnumNo) -> u32
        requires { number < length self.now.enums }
        ensures { result ≡ literal_count self.now number }
    {
        self.model.enums.as_slice()[number as usize].literals.len() as u32
    }
}
