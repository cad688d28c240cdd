ghost use Rattle.std.specs.Prelude.{◌≡◌, All, List, false};
ghost use Rattle.ocl_values.specs.declared.value.Kind.{Kind};
ghost use Rattle.ocl_values.specs.declared.value.Value.{Value};
ghost use Rattle.ocl_values.specs.declared.value.Value.TheVariants.{Coll};
ghost use Rattle.ocl_values.specs.Shape.{IsWellMade, elements, some_invalid};

/// A law: the elements of a well-made collection are well made, and none is invalid.
pub fn elements_are_well_made()
    ensures listed { (kind : Kind) (items : List Value) → IsWellMade (Coll kind items) → All IsWellMade items }
    ensures of_value { (v : Value) → IsWellMade v → All IsWellMade (elements v) }
    ensures valid { (kind : Kind) (items : List Value) → IsWellMade (Coll kind items) → some_invalid items ≡ false }
{}
