ghost use Rattle.std.specs.Prelude.{◌≡◌, ◌++◌, OnOk, IfOk};
ghost use Rattle.contract_texts.specs.ContractLines.{broken_line};
ghost use Rattle.use_session.specs.Answers.{refusal_line, value_line};
ghost use Rattle.use_session.specs.declared.session.Turn.TheVariants as turn;

use crate::Turn;
use class_model::{ClassModel, OclType};
use contract_texts::append_broken;
use object_referrers::ReferrerStore;
use ocl_core::ContractNo;
use ocl_program::Program;
use ocl_values::Value;
use std::alloc::{AllocError, Global};
use use_info::{append_type, append_value};
use use_text::{Code, Place, Refusal};

/// Appends a value with its type, as the answer to a query.
pub(crate) fn append_value_line(
    alloc: Global,
    model: &ClassModel,
    store: &ReferrerStore,
    value: &Value,
    of_type: &OclType,
    out: &mut Vec<u8>,
) -> Result<(), AllocError>
    ensures { OnOk result (out.new.items ≡ out.old.items ++ value_line model.now store.now.state value.now of_type.now) }
{
    out.extend_from_slice(b"-> ")?;
    append_value(alloc, model, store, value, out)?;
    out.extend_from_slice(b" : ")?;
    append_type(model, of_type, out)?;
    out.extend_from_slice(b"\n")
}

/// Appends a refusal.
fn append_refusal(refusal: Refusal, out: &mut Vec<u8>) -> Result<(), AllocError>
    ensures { OnOk result (out.new.items ≡ out.old.items ++ refusal_line refusal) }
{
    refusal.append_to(out)?;
    out.extend_from_slice(b"\n")
}

/// Answers a command that is refused.
pub(crate) fn refuse(refusal: Refusal, out: &mut Vec<u8>) -> Result<Turn, AllocError>
    ensures bytes { OnOk result (out.new.items ≡ out.old.items ++ refusal_line refusal) }
    ensures turn { IfOk result (λ t. t ≡ turn.Refused refusal.code) }
{
    append_refusal(refusal, out)?;
    Ok(Turn::Refused(refusal.code))
}

/// Answers a command that is refused by a rule, at a place.
pub(crate) fn refuse_at(code: Code, place: Place, out: &mut Vec<u8>) -> Result<Turn, AllocError>
    ensures bytes { OnOk result (out.new.items ≡ out.old.items ++ refusal_line (record { code = code; place = place })) }
    ensures turn { IfOk result (λ t. t ≡ turn.Refused code) }
{
    refuse(Refusal { code, place }, out)
}

/// Answers a command that a contract refuses, which is named with its value.
pub(crate) fn refuse_broken(
    alloc: Global,
    program: &Program,
    refusal: Refusal,
    contract: ContractNo,
    value: &Value,
    out: &mut Vec<u8>,
) -> Result<Turn, AllocError>
    ensures bytes { OnOk result (out.new.items ≡ out.old.items ++ broken_line program.now refusal contract value.now) }
    ensures turn { IfOk result (λ t. t ≡ turn.Refused refusal.code) }
{
    append_broken(alloc, program, refusal, contract, value, out)?;
    Ok(Turn::Refused(refusal.code))
}
