use eval_scene::{cells_of, end_of, in_turn, without_last};
use std::test::Fail;

/// A query whose budget is spent where four values are bound in it.
const BOUND: &str = "? let x = 1, y = 2 in Sequence{1..2}->forAll(a, b | a + b + ada.loop > x + y)";

#[test]
fn an_exhausted_evaluation_leaves_its_environment(rt: HostRuntime) -> Result<(), Fail> {
    let texts = in_turn(rt.alloc(), BOUND, "? tail.size()")?;
    assert_eq!(rt; texts.as_str(), "exhausted, 10 values, 0");
    Ok(())
}

#[test]
fn cells_are_added_to_those_that_were_read(rt: HostRuntime) -> Result<(), Fail> {
    let cells = cells_of(rt.alloc(), "? ada.age", "? Team.allInstances()")?;
    assert_eq!(rt; cells.as_str(), " Kind(9) Slot(1,1) Extent(3)");
    Ok(())
}

#[test]
fn a_name_stands_for_a_place_of_the_environment(rt: HostRuntime) -> Result<(), Fail> {
    let texts = without_last(rt.alloc(), "? tail")?;
    assert_eq!(rt; texts.as_str(), "invalid, 7, true");
    Ok(())
}

#[test]
fn the_largest_value_spends_all_units(rt: HostRuntime) -> Result<(), Fail> {
    let last = end_of(rt.alloc(), "? tail", 999_999)?;
    let first = end_of(rt.alloc(), "? tail", 1_000_000)?;
    assert_eq!(rt; last.as_str(), "a value");
    assert_eq!(rt; first.as_str(), "exhausted");
    Ok(())
}
