ghost use Rattle.std.specs.Prelude.{◌≡◌, ◌++◌, ◌<◌, OnOk, codes, length};
ghost use Rattle.std.specs.List.{flat_map, list_all};
ghost use Rattle.use_text.specs.Codes.{code_text};
ghost use Rattle.use_text.specs.Places.{place_text};
ghost use Rattle.contract_texts.specs.ContractLines.{broken_line, contract_text, is_met, judged_text, kind_text, name_text, outcome_text, post_line, pre_line};

use contract_frames::is_true;
use ocl_core::{Contract, ContractNo};
use ocl_eval::Outcome;
use ocl_program::Program;
use ocl_values::Value;
use std::alloc::{AllocError, Global};
use use_text::Refusal;

/// `CLASS::NAME` of a contract.
fn append_name(program: &Program, contract: &Contract, out: &mut Vec<u8>) -> Result<(), AllocError>
    requires { contract.now.op < length program.now.model.ops }
    ensures { OnOk result (out.new.items ≡ out.old.items ++ name_text program.now.model contract.now) }
{
    let model = program.model();
    model.has_numbers_in_range();
    let class = model.op_class(contract.op);
    out.extend_from_slice(model.class_name(class).as_bytes())?;
    out.extend_from_slice(b"::")?;
    out.extend_from_slice(contract.name.as_str().as_bytes())
}

/// `CLASS::NAME` of the contract of a number.
fn append_contract(
    program: &Program,
    number: ContractNo,
    out: &mut Vec<u8>,
) -> Result<(), AllocError>
    ensures { OnOk result (out.new.items ≡ out.old.items ++ contract_text program.now number) }
{
    program.is_checked();
    match program.as_parts().contracts.as_slice().get(number as usize) {
        None => Ok(()),
        Some(contract) => append_name(program, contract, out),
    }
}

/// The word for what the condition of a contract comes to.
fn judged_text(value: &Value) -> &'static str
    ensures { result.now ≡ judged_text value.now }
{
    match value {
        Value::Bool(true) => "true",
        Value::Bool(false) => "false",
        Value::Null => "null",
        _ => "invalid",
    }
}

/// The word for what the condition of a contract comes to, or that its budget is spent.
fn outcome_text(outcome: &Outcome) -> &'static str
    ensures { result.now ≡ outcome_text outcome.now }
{
    match outcome {
        Outcome::Done(value) => judged_text(value),
        Outcome::Exhausted => "exhausted",
    }
}

/// `pre CLASS::NAME: true` for each of some preconditions.
pub fn append_pres(
    program: &Program,
    numbers: &[ContractNo],
    out: &mut Vec<u8>,
) -> Result<(), AllocError>
    ensures { OnOk result (out.new.items ≡ out.old.items ++ flat_map (pre_line program.now) numbers.now) }
{
    'contracts: for number in numbers {
        out.extend_from_slice(b"pre ")?;
        append_contract(program, *number, out)?;
        out.extend_from_slice(b": true\n")?;
    }
    Ok(())
}

/// `post CLASS::NAME: VALUE` for each of some postconditions.
pub fn append_posts(
    program: &Program,
    outcomes: &[(ContractNo, Outcome)],
    out: &mut Vec<u8>,
) -> Result<(), AllocError>
    ensures { OnOk result (out.new.items ≡ out.old.items ++ flat_map (post_line program.now) outcomes.now) }
{
    'contracts: for outcome in outcomes {
        out.extend_from_slice(b"post ")?;
        append_contract(program, outcome.0, out)?;
        out.extend_from_slice(b": ")?;
        out.extend_from_slice(outcome_text(&outcome.1).as_bytes())?;
        out.extend_from_slice(b"\n")?;
    }
    Ok(())
}

/// Whether a contract is true.
fn is_met(outcome: &(ContractNo, Outcome)) -> bool
    ensures { result ≡ is_met outcome.now }
{
    match &outcome.1 {
        Outcome::Done(value) => is_true(value),
        Outcome::Exhausted => false,
    }
}

/// Whether all of some contracts are true.
pub fn are_met(outcomes: &[(ContractNo, Outcome)]) -> bool
    ensures { result ≡ list_all is_met outcomes.now }
{
    'contracts: for outcome in outcomes {
        if !is_met(outcome) {
            return false;
        }
    }
    true
}

/// Whether C1 or C2 is told.
fn kind_text(number: u8) -> &'static str
    ensures { result.now ≡ kind_text number }
{
    if number == 1 {
        "precondition "
    } else {
        "postcondition "
    }
}

/// `refused C1 at LINE:COLUMN: `
fn append_refused(alloc: Global, refusal: Refusal, out: &mut Vec<u8>) -> Result<(), AllocError>
    ensures { OnOk result (out.new.items ≡ out.old.items ++ (codes "refused " ++ code_text refusal.code ++ codes " at " ++ place_text refusal.place ++ codes ": ")) }
{
    let head = format!(in alloc; "refused {} at {}: ", refusal.code, refusal.place)?;
    out.extend_from_slice(head.as_bytes())
}

/// `precondition CLASS::NAME is VALUE`, and likewise of a postcondition, with the end of the line.
fn append_judged(
    program: &Program,
    number: u8,
    contract: ContractNo,
    value: &Value,
    out: &mut Vec<u8>,
) -> Result<(), AllocError>
    ensures { OnOk result (out.new.items
        ≡ out.old.items ++ kind_text number ++ contract_text program.now contract ++ codes " is " ++ judged_text value.now ++ codes "\n") }
{
    out.extend_from_slice(kind_text(number).as_bytes())?;
    append_contract(program, contract, out)?;
    out.extend_from_slice(b" is ")?;
    out.extend_from_slice(judged_text(value).as_bytes())?;
    out.extend_from_slice(b"\n")
}

/// `refused C1 at LINE:COLUMN: precondition CLASS::NAME is VALUE`, and likewise C2 of a postcondition.
pub fn append_broken(
    alloc: Global,
    program: &Program,
    refusal: Refusal,
    contract: ContractNo,
    value: &Value,
    out: &mut Vec<u8>,
) -> Result<(), AllocError>
    ensures { OnOk result (out.new.items ≡ out.old.items ++ broken_line program.now refusal contract value.now) }
{
    append_refused(alloc, refusal, out)?;
    append_judged(program, refusal.code.number, contract, value, out)
}
