ghost use Rattle.std.specs.Prelude.{◌≡◌, ◌<◌, ◌^◌, [], ◌∷◌, length, map, OnOk};
ghost use Rattle.std.specs.List.{enumerate_from, flat_map};
ghost use Rattle.class_model.specs.declared.numbers.End.TheVariants.{First, Second};
ghost use Rattle.object_state.specs.declared.cell.Cell.TheVariants.{Kind, Slot, Nav, Extent};
ghost use Rattle.object_state.specs.Touched.{cells_of, navs, navs_to, touched, with_cells};

use crate::{AssocLayout, Cell, Cells, Change, Layout, LinkChange, ObjectChange};
use class_model::{AssocNo, AttrNo, ClassNo, End};
use ocl_values::ObjNo;
use std::alloc::AllocError;

fn add_slots(object: ObjNo, attrs: &[AttrNo], out: &mut Cells) -> Result<(), AllocError>
    ensures { OnOk result (out.new ≡ with_cells out.old (map (Slot object) attrs.now)) }
{
    'attrs: for attr in attrs {
        out.add(Cell::Slot(object, *attr))?;
    }
    Ok(())
}

fn add_extents(classes: &[ClassNo], out: &mut Cells) -> Result<(), AllocError>
    ensures { OnOk result (out.new ≡ with_cells out.old (map Extent classes.now)) }
{
    'classes: for class in classes {
        out.add(Cell::Extent(*class))?;
    }
    Ok(())
}

/// The navigation from one end of an association to the other.
fn add_nav(
    layout: &Layout,
    change: &ObjectChange,
    assoc: AssocNo,
    ends: AssocLayout,
    from: End,
    to: End,
    out: &mut Cells,
) -> Result<(), AllocError>
    ensures { OnOk result (out.new ≡ with_cells out.old (navs_to layout.now change.now assoc ends from to)) }
{
    if layout.is_a(change.class, ends.class_at(from)) {
        out.add(Cell::Nav(assoc, to, change.object))?;
    }
    Ok(())
}

fn add_navs(
    layout: &Layout,
    change: &ObjectChange,
    assoc: AssocNo,
    ends: AssocLayout,
    out: &mut Cells,
) -> Result<(), AllocError>
    ensures { OnOk result (out.new ≡ with_cells out.old (navs layout.now change.now assoc ends)) }
{
    add_nav(layout, change, assoc, ends, End::Second, End::First, out)?;
    add_nav(layout, change, assoc, ends, End::First, End::Second, out)
}

fn add_all_navs(layout: &Layout, change: &ObjectChange, out: &mut Cells) -> Result<(), AllocError>
    requires { length layout.now.assocs < 2 ^ 32 }
    ensures { OnOk result (out.new ≡ with_cells out.old (flat_map (λ a. navs layout.now change.now a.0 a.1) (enumerate_from 0 layout.now.assocs))) }
{
    'assocs: for (assoc, ends) in layout.assocs.as_slice().iter().enumerate() {
        add_navs(layout, change, assoc as u32, *ends, out)?;
    }
    Ok(())
}

/// The cells of an object that comes or goes.
fn add_object(layout: &Layout, change: &ObjectChange, out: &mut Cells) -> Result<(), AllocError>
    requires { length layout.now.assocs < 2 ^ 32 }
    ensures { OnOk result (out.new ≡ with_cells out.old (cells_of layout.now change.now)) }
{
    out.add(Cell::Kind(change.object))?;
    add_slots(change.object, layout.attrs(change.class), out)?;
    add_all_navs(layout, change, out)?;
    add_extents(layout.ancestors(change.class), out)?;
    Ok(())
}

/// The two navigations of a link.
fn add_link(change: &LinkChange, out: &mut Cells) -> Result<(), AllocError>
    ensures { OnOk result (out.new ≡ with_cells out.old (Nav change.now.assoc First change.now.second ∷ Nav change.now.assoc Second change.now.first ∷ [])) }
{
    out.add(Cell::Nav(change.assoc, End::First, change.second))?;
    out.add(Cell::Nav(change.assoc, End::Second, change.first))
}

/// Adds the cells that a change alters, where it fits and sets no slot to an equal value.
pub fn touched(layout: &Layout, change: &Change, out: &mut Cells) -> Result<(), AllocError>
    requires { length layout.now.assocs < 2 ^ 32 }
    ensures { OnOk result (out.new ≡ with_cells out.old (touched layout.now change.now)) }
{
    match change {
        Change::Create(new) => add_object(layout, new, out),
        Change::Remove(old) => add_object(layout, old, out),
        Change::SetSlot { object, attr, .. } => out.add(Cell::Slot(*object, *attr)),
        Change::Link(new) => add_link(new, out),
        Change::Unlink(old) => add_link(old, out),
        Change::Bind { .. } => Ok(()),
        Change::Unbind { .. } => Ok(()),
    }
}
