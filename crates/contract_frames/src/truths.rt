ghost use Rattle.std.specs.Prelude.{◌≡◌, IfOk, map};
ghost use Rattle.contract_frames.specs.Holding.{Answers, all_true, broken_by, fault_of, first_fault, is_true, judged};

use crate::FrameFault;
use ocl_core::ContractNo;
use ocl_eval::Outcome;
use ocl_values::Value;
use std::alloc::{AllocError, Global};
use use_lists::Items;

/// What a condition's value counts as: true, false, null or invalid.
pub fn judged(value: &Value) -> Value
    ensures { result ≡ judged value.now }
{
    match value {
        Value::Bool(holds) => Value::Bool(*holds),
        Value::Null => Value::Null,
        _ => Value::Invalid,
    }
}

pub fn is_true(value: &Value) -> bool
    ensures { result ≡ is_true value.now }
{
    match value {
        Value::Bool(holds) => *holds,
        _ => false,
    }
}

/// Why a condition of this value is broken.
fn broken_by(number: ContractNo, value: &Value) -> Option<FrameFault>
    ensures { result ≡ broken_by number value.now }
{
    if is_true(value) {
        None
    } else {
        Some(FrameFault::Broken(number, judged(value)))
    }
}

/// Why a condition of this outcome does not hold.
fn fault_of(number: ContractNo, outcome: &Outcome) -> Option<FrameFault>
    ensures { result ≡ fault_of number outcome.now }
{
    match outcome {
        Outcome::Done(value) => broken_by(number, value),
        Outcome::Exhausted => Some(FrameFault::Over(number)),
    }
}

/// Why the first contract is broken that is not true.
pub fn first_fault(outcomes: &[(ContractNo, Outcome)]) -> Option<FrameFault>
    ensures { result ≡ first_fault outcomes.now }
{
    'outcomes: for outcome in outcomes {
        let fault = fault_of(outcome.0, &outcome.1);
        if fault.is_some() {
            return fault;
        }
    }
    None
}

/// The numbers of some contracts.
fn numbers_of(
    alloc: Global,
    outcomes: &[(ContractNo, Outcome)],
) -> Result<Items<ContractNo>, AllocError>
    ensures { IfOk result (λ ns. ns ≡ map (λ o. o.0) outcomes.now) }
{
    let mut numbers = Items::new(alloc);
    'outcomes: for outcome in outcomes {
        numbers.push(outcome.0)?;
    }
    Ok(numbers)
}

/// The numbers of contracts that are all true, or the first that is not.
pub fn all_true(
    alloc: Global,
    outcomes: &[(ContractNo, Outcome)],
) -> Result<Items<ContractNo>, FrameFault>
    ensures { Answers (all_true outcomes.now) result }
{
    match first_fault(outcomes) {
        Some(fault) => Err(fault),
        None => Ok(numbers_of(alloc, outcomes)?),
    }
}
