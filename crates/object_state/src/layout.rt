ghost use Rattle.std.specs.Prelude.{◌≡◌, ◌<◌, length, map, IfOk};
ghost use Rattle.std.specs.List.{enumerate_from};
ghost use Rattle.std.specs.Option.{option_copied};
ghost use Rattle.object_state.specs.Layouts.{ancestors, assoc_layouts, attrs, class_at, class_layout, class_layouts, is_a, is_abstract, layout_of, may_stand, place, slot};

use crate::Object;
use class_model::{AssocNo, Association, AttrNo, ClassModel, ClassNo, End};
use ocl_values::Value;
use std::alloc::{AllocError, Global};
use use_lists::Items;

/// What states need of a class.
#[derive(Debug, Drop)]
pub struct ClassLayout {
    pub is_abstract: bool,
    /// Its stored attributes, in the order in which its objects keep their values.
    pub attrs: Items<AttrNo>,
    /// The class itself and its ancestors.
    pub ancestors: Items<ClassNo>,
}

/// The classes at the ends of an association.
#[derive(Clone, Copy, Debug, PartialEq, Eq)]
pub struct AssocLayout {
    pub first: ClassNo,
    pub second: ClassNo,
}

/// What states need of their model, so that they need no model at hand.
#[derive(Debug, Drop)]
pub struct Layout {
    pub classes: Items<ClassLayout>,
    pub assocs: Items<AssocLayout>,
}

impl AssocLayout {
    /// The class at an end.
    pub fn class_at(self, end: End) -> ClassNo
        ensures { result ≡ class_at self end }
    {
        match end {
            End::First => self.first,
            End::Second => self.second,
        }
    }
}

/// What states need of a class of a model.
fn class_layout(
    alloc: Global,
    model: &ClassModel,
    class: ClassNo,
    is_abstract: bool,
) -> Result<ClassLayout, AllocError>
    requires { class < length model.now.classes }
    ensures { IfOk result (λ layout. layout ≡ class_layout model.now class is_abstract) }
{
    Ok(ClassLayout {
        is_abstract,
        attrs: Items::from_slice(alloc, model.attrs(class))?,
        ancestors: Items::from_slice(alloc, model.ancestors(class))?,
    })
}

/// What states need of all classes of a model.
fn class_layouts(alloc: Global, model: &ClassModel) -> Result<Items<ClassLayout>, AllocError>
    ensures { IfOk result (λ layouts. layouts ≡ class_layouts model.now) }
{
    model.has_numbers_in_range();
    let mut layouts = Items::new(alloc);
    'classes: for (class, known) in model.as_model().classes.as_slice().iter().enumerate() {
        let layout = class_layout(alloc, model, class as u32, known.is_abstract)?;
        layouts.push(layout)?;
    }
    Ok(layouts)
}

/// The classes at the ends of all associations of a model.
fn assoc_layouts(alloc: Global, assocs: &[Association]) -> Result<Items<AssocLayout>, AllocError>
    ensures { IfOk result (λ layouts. layouts ≡ assoc_layouts assocs.now) }
{
    let mut layouts = Items::new(alloc);
    'assocs: for assoc in assocs {
        layouts.push(AssocLayout {
            first: assoc.first.class,
            second: assoc.second.class,
        })?;
    }
    Ok(layouts)
}

impl Layout {
    /// The layout of a model.
    pub fn of(alloc: Global, model: &ClassModel) -> Result<Layout, AllocError>
        ensures { IfOk result (λ layout. layout ≡ layout_of model.now) }
    {
        let classes = class_layouts(alloc, model)?;
        let assocs = assoc_layouts(alloc, model.as_model().assocs.as_slice())?;
        Ok(Layout { classes, assocs })
    }

    /// Whether a class is abstract; what is no class is not.
    pub fn is_abstract(&self, class: ClassNo) -> bool
        ensures { result ≡ is_abstract self.now class }
    {
        match self.classes.get(class as usize) {
            None => false,
            Some(known) => known.is_abstract,
        }
    }

    /// The stored attributes of a class, in the order in which its objects keep their values.
    pub fn attrs(&self, class: ClassNo) -> &[AttrNo]
        ensures { result.now ≡ attrs self.now class }
    {
        match self.classes.get(class as usize) {
            None => &[],
            Some(known) => known.attrs.as_slice(),
        }
    }

    /// A class and its ancestors.
    pub fn ancestors(&self, class: ClassNo) -> &[ClassNo]
        ensures { result.now ≡ ancestors self.now class }
    {
        match self.classes.get(class as usize) {
            None => &[],
            Some(known) => known.ancestors.as_slice(),
        }
    }

    /// Whether a class is another or inherits from it.
    pub fn is_a(&self, class: ClassNo, other: ClassNo) -> bool
        ensures { result ≡ is_a self.now class other }
    {
        self.ancestors(class).contains(&other)
    }

    /// Whether objects of a class may stand at an end of an association.
    pub fn may_stand(&self, assoc: AssocNo, end: End, class: ClassNo) -> bool
        ensures { result ≡ may_stand self.now assoc end class }
    {
        match self.assocs.get(assoc as usize) {
            None => false,
            Some(ends) => self.is_a(class, ends.class_at(end)),
        }
    }

    /// Where objects of a class keep an attribute.
    pub(crate) fn place(&self, class: ClassNo, attr: AttrNo) -> Option<usize>
        ensures { result ≡ place self.now class attr }
    {
        self.attrs(class).iter().position(|own| attr == *own)
    }

    /// The value of an attribute that an object has.
    pub fn slot<'a>(&self, object: &'a Object, attr: AttrNo) -> Option<&'a Value>
        ensures { option_copied result ≡ slot self.now object.now attr }
    {
        match self.place(object.class, attr) {
            None => None,
            Some(place) => object.slots.get(place),
        }
    }
}
