ghost use Rattle.std.specs.Prelude.{◌≡◌, List, ℕ, OnErr, OnOk, None, Some};
ghost use Rattle.std.specs.HashMap.{get_by_text};
ghost use Rattle.std.specs.Map.{update};
ghost use Rattle.std.specs.Str.{bytes_eq};

use ocl_values::ObjNo;
use std::alloc::{AllocError, Global};
use std::collections::HashMap;

/// The numbers of objects by their names. Nothing asks for their order, and a look costs one
/// comparison of names, where an ordered map makes twenty.
pub(crate) type Numbers = HashMap<String, ObjNo>;

/// Puts a number at a name, of which it makes a copy.
pub(crate) fn put_name(
    alloc: Global,
    numbers: &mut Numbers,
    name: &str,
    number: ObjNo,
) -> Result<(), AllocError>
    ensures ok { OnOk result ((n : List ℕ) → get_by_text numbers.new n ≡ update bytes_eq (get_by_text numbers.old) name.now (Some number) n) }
    ensures err { OnErr result ((n : List ℕ) → get_by_text numbers.new n ≡ get_by_text numbers.old n) }
{
    let key = String::from_str(alloc, name)?;
    numbers.insert(key, number)?;
    Ok(())
}

/// Takes a name out.
pub(crate) fn take_name(numbers: &mut Numbers, name: &str)
    ensures { (n : List ℕ) → get_by_text numbers.new n ≡ update bytes_eq (get_by_text numbers.old) name.now None n }
{
    numbers.remove(name);
}
