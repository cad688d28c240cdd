use class_model::OclType;
use ocl_rules::*;
use std::test::Fail;

#[test]
fn levels_of_collections_are_counted(rt: HostRuntime) -> Result<(), Fail> {
    assert_eq!(rt; levels(&OclType::Int), 0);
    Ok(())
}

#[test]
fn operations_of_collections_are_found_by_name(rt: HostRuntime) -> Result<(), Fail> {
    assert!(rt; collection_operation("including").is_some());
    assert!(rt; collection_operation("abs").is_none());
    Ok(())
}
