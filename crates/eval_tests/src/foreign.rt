use eval_scene::rows_hold_elsewhere;
use std::test::Fail;

#[test]
fn numbers_past_those_of_the_program_are_invalid(rt: HostRuntime) -> Result<(), Fail> {
    rows_hold_elsewhere(rt.alloc())?;
    Ok(())
}
