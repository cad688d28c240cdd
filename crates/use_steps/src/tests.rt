ghost use Rattle.std.specs.Prelude.{◌≡◌, ◌<◌};

use super::*;
use std::marker::Brand;
use std::test::Fail;

fn ticked_by<L: Ledger>(blank: Blank, count: u64) -> bool
    requires name { blank.name ≡ L.name }
    requires parts { blank.parts ≡ L.parts }
    requires some { 0 < blank.parts }
{
    let mut steps = Steps::<L>::new(blank);
    steps.tick_by(count);
    true
}

fn ticked<L: Ledger>(blank: Blank) -> bool
    requires name { blank.name ≡ L.name }
    requires parts { blank.parts ≡ L.parts }
    requires some { 0 < blank.parts }
{
    let mut steps = Steps::<L>::new(blank);
    steps.tick();
    true
}

#[test]
fn a_counter_ticks(rt: HostRuntime) -> Result<(), Fail> {
    assert!(rt; ticked::<Brand>(Blank::new(1)));
    Ok(())
}

#[test]
fn a_counter_takes_many_steps_at_once(rt: HostRuntime) -> Result<(), Fail> {
    assert!(rt; ticked_by::<Brand>(Blank::new(1), u64::MAX));
    Ok(())
}
