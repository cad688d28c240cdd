ghost use Rattle.std.specs.Prelude.{◌≡◌, map};
ghost use Rattle.ocl_rules.specs.CollectionForms.{collection_forms};
ghost use Rattle.ocl_rules.specs.ValueForms.{value_forms};

use crate::{COLLECTION_OPERATIONS, VALUE_OPERATIONS};

/// Each operation of values has its name, source, parameters and result.
pub fn value_operations_are_stated()
    ensures { map (λ row. (row.0.now, row.1)) VALUE_OPERATIONS ≡ value_forms }
{}

/// Each operation of collections has its name, source, parameters and result.
pub fn collection_operations_are_stated()
    ensures { map (λ row. (row.0.now, row.1)) COLLECTION_OPERATIONS ≡ collection_forms }
{}
