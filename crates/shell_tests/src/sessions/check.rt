mod budgets;
mod counted;
mod doubled;
mod extents;
mod kept;
mod missing;
mod others;
mod verdicts;

use super::wrong_line;
use budgets::{BUDGETS, RANGES};
use counted::{COUNTED, STAFF};
use doubled::{DOUBLED, FEW_EMPLOYERS};
use extents::{DIAMOND, EXTENTS};
use kept::{KEPT, WORK};
use missing::{MISSING, ONE_EMPLOYER};
use others::{OTHERS, TWO};
use std::marker::Brand;
use std::sync::ledger::Blank;
use std::test::Fail;
use verdicts::{PEOPLE, VERDICTS};

#[test]
fn an_invariant_fails_and_is_repaired(rt: HostRuntime) -> Result<(), Fail> {
    assert_eq!(rt;
        wrong_line::<Brand>(rt.alloc(), PEOPLE.as_bytes(), VERDICTS, Blank::new(1))?,
        None
    );
    Ok(())
}

#[test]
fn of_several_objects_the_gravest_verdict_is_told(rt: HostRuntime) -> Result<(), Fail> {
    assert_eq!(rt;
        wrong_line::<Brand>(rt.alloc(), RANGES.as_bytes(), BUDGETS, Blank::new(1))?,
        None
    );
    Ok(())
}

#[test]
fn objects_of_a_class_and_its_subclasses_are_judged(rt: HostRuntime) -> Result<(), Fail> {
    assert_eq!(rt;
        wrong_line::<Brand>(rt.alloc(), DIAMOND.as_bytes(), EXTENTS, Blank::new(1))?,
        None
    );
    assert_eq!(rt;
        wrong_line::<Brand>(rt.alloc(), TWO.as_bytes(), OTHERS, Blank::new(1))?,
        None
    );
    Ok(())
}

#[test]
fn links_are_counted_at_each_end(rt: HostRuntime) -> Result<(), Fail> {
    assert_eq!(rt;
        wrong_line::<Brand>(rt.alloc(), STAFF.as_bytes(), COUNTED, Blank::new(1))?,
        None
    );
    assert_eq!(rt;
        wrong_line::<Brand>(rt.alloc(), ONE_EMPLOYER.as_bytes(), MISSING, Blank::new(1))?,
        None
    );
    assert_eq!(rt;
        wrong_line::<Brand>(rt.alloc(), FEW_EMPLOYERS.as_bytes(), DOUBLED, Blank::new(1))?,
        None
    );
    Ok(())
}

#[test]
fn a_check_judges_the_present_state_and_is_not_kept(rt: HostRuntime) -> Result<(), Fail> {
    assert_eq!(rt;
        wrong_line::<Brand>(rt.alloc(), WORK.as_bytes(), KEPT, Blank::new(1))?,
        None
    );
    Ok(())
}
