use ocl_core::{BinaryOp, Value};
use ocl_operations::decided;
use std::test::Fail;

#[test]
fn a_false_left_side_decides(rt: HostRuntime) -> Result<(), Fail> {
    assert!(rt; decided(BinaryOp::And, &Value::Bool(false)) == Some(Value::Bool(false)));
    assert!(rt; decided(BinaryOp::Or, &Value::Bool(false)).is_none());
    Ok(())
}
