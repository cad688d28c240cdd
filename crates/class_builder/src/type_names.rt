ghost use Rattle.std.specs.Prelude.{◌≡◌, ◌≤◌, ◌^◌, List, ℕ, IfOk, OnOk, Some, None, length, map, unwrap_or};
ghost use Rattle.std.specs.HashMap.{get_by_text};
ghost use Rattle.std.specs.List.{position_from};
ghost use Rattle.std.specs.Map.{lookup};
ghost use Rattle.std.specs.Option.{option_or};
ghost use Rattle.class_decls.specs.Texts.{same_text};
ghost use Rattle.class_model.specs.declared.types.OclType.{OclType};
ghost use Rattle.class_model.specs.declared.types.OclType.TheVariants as T;
ghost use Rattle.class_builder.specs.Models.{class_names, enum_names, named_in, nested, plain_names};
ghost use Rattle.class_builder.specs.Tables.{type_in};

use class_decls::{ClassDecl, EnumDecl, TypeDecl};
use class_model::{ByName, ClassNo, Kind, OclType, add_first};
use std::alloc::{AllocError, Global};
use std::collections::HashMap;
use use_lists::Boxed;

/// What the names of types stand for.
pub(crate) type TypeNames = ByName<OclType>;

fn add_plain_types(alloc: Global, names: &mut TypeNames) -> Result<(), AllocError>
    ensures { OnOk result ((t : List ℕ) → get_by_text names.new t ≡ option_or (get_by_text names.old t) (lookup (λ name. same_text name t) plain_names)) }
{
    add_first(alloc, names, "Boolean", OclType::Bool)?;
    add_first(alloc, names, "Integer", OclType::Int)?;
    add_first(alloc, names, "String", OclType::Str)?;
    add_first(alloc, names, "OclAny", OclType::Any)?;
    add_first(alloc, names, "OclVoid", OclType::Void)?;
    Ok(())
}

fn add_enums(alloc: Global, enums: &[EnumDecl], names: &mut TypeNames) -> Result<(), AllocError>
    requires { length enums.now ≤ 2 ^ 32 }
    ensures { OnOk result ((t : List ℕ) → get_by_text names.new t ≡ option_or (get_by_text names.old t) (lookup (λ name. same_text name t)
        (enum_names enums.now))) }
{
    'enums: for (i, decl) in enums.iter().enumerate() {
        add_first(
            alloc,
            names,
            decl.name.text.as_str(),
            OclType::Enum(i as u32),
        )?;
    }
    Ok(())
}

fn add_classes(
    alloc: Global,
    classes: &[&ClassDecl],
    names: &mut TypeNames,
) -> Result<(), AllocError>
    requires { length classes.now ≤ 2 ^ 32 }
    ensures { OnOk result ((t : List ℕ) → get_by_text names.new t ≡ option_or (get_by_text names.old t) (lookup (λ name. same_text name t) (class_names (map
        (λ c. c.now) classes.now)))) }
{
    'classes: for (i, class) in classes.iter().enumerate() {
        add_first(
            alloc,
            names,
            class.name.text.as_str(),
            OclType::Class(i as u32),
        )?;
    }
    Ok(())
}

/// What the names of types stand for: plain types, enumerations, and classes in the order of their
/// numbers.
pub(crate) fn type_names(
    alloc: Global,
    enums: &[EnumDecl],
    classes: &[&ClassDecl],
) -> Result<TypeNames, AllocError>
    requires enums { length enums.now ≤ 2 ^ 32 }
    requires classes { length classes.now ≤ 2 ^ 32 }
    ensures { IfOk result (λ names. (t : List ℕ) → get_by_text names t ≡ named_in enums.now (map (λ c. c.now) classes.now) t) }
{
    let mut names = HashMap::new(alloc);
    add_plain_types(alloc, &mut names)?;
    add_enums(alloc, enums, &mut names)?;
    add_classes(alloc, classes, &mut names)?;
    Ok(names)
}

fn named(alloc: Global, names: &TypeNames, name: &str) -> Result<OclType, AllocError>
    ensures { IfOk result (λ t. t ≡ unwrap_or (get_by_text names.now name.now) T.Any) }
{
    match names.get(name) {
        None => Ok(OclType::Any),
        Some(of_type) => of_type.try_copy(alloc),
    }
}

/// A type in collections of these kinds, from the outside in.
fn nested(alloc: Global, kinds: &[Kind], of_type: OclType) -> Result<OclType, AllocError>
    ensures { IfOk result (λ t. t ≡ nested kinds.now of_type) }
{
    let mut of_type = of_type;
    let mut i = kinds.len();
    'kinds: while i > 0 {
        i -= 1;
        of_type = OclType::Coll(kinds[i], Boxed::new(alloc, of_type)?);
    }
    Ok(of_type)
}

/// The type that a declaration writes.
pub(crate) fn type_of(
    alloc: Global,
    names: &TypeNames,
    decl: &TypeDecl,
) -> Result<OclType, AllocError>
    ensures { IfOk result (λ t. t ≡ type_in names.now decl.now) }
{
    let named = named(alloc, names, decl.name.text.as_str())?;
    nested(alloc, decl.kinds.as_slice(), named)
}

/// The numbers of classes by name.
pub(crate) fn class_numbers(
    alloc: Global,
    classes: &[&ClassDecl],
) -> Result<ByName<ClassNo>, AllocError>
    requires { length classes.now ≤ 2 ^ 32 }
    ensures { IfOk result (λ m. (t : List ℕ) → get_by_text m t ≡ position_from (λ d. same_text d.now.name.text t) 0 classes.now) }
{
    let mut map = HashMap::new(alloc);
    'classes: for (i, class) in classes.iter().enumerate() {
        add_first(alloc, &mut map, class.name.text.as_str(), i as u32)?;
    }
    Ok(map)
}
