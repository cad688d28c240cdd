//! The rules of types, each at one node whose parts are typed.
#![tactic(auto)]

mod arguments;
mod collection_operations;
mod collection_table;
mod fault;
mod forms;
mod iterators;
mod laws;
mod operators;
mod properties;
mod typed;
mod value_operations;
mod value_table;

pub use arguments::{broken_arguments, exprs_of};
pub use collection_operations::{collection_call_rule, collection_operation, innermost};
pub use collection_table::{
    COLLECTION_OPERATIONS, CollectionOperation, Gives, Param, Params, Sources,
};
pub use fault::{TypeFault, breaks_n, breaks_t};
pub use forms::{collection_rule, if_rule, let_rule, level_rule, levels};
pub use iterators::{iterate_rule, iterator_rule};
pub use laws::{collection_operations_are_stated, value_operations_are_stated};
pub use operators::{binary_rule, unary_rule};
pub use properties::{
    Feature, has_property, is_new_rule, operation_of_type, property_rule, query_rule,
    type_test_rule,
};
pub use typed::{Typed, TypedPart};
pub use value_operations::{value_operation, value_rule};
pub use value_table::{PlainType, VALUE_OPERATIONS, ValueOperation, ValueParams, ValueResult};
