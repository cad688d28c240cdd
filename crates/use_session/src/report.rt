ghost use Rattle.std.specs.Prelude.{◌≡◌, ◌<◌, ◌++◌, All, OnOk, length};
ghost use Rattle.std.specs.Fmt.{decimal};
ghost use Rattle.std.specs.List.{flat_map, zip};
ghost use Rattle.use_session.specs.Reports.{check_text, instance_line, finds_nothing, named, structure_lines, summary_line, verdict_line, verdict_lines, violation_line};

use class_model::ClassModel;
use invariant_cache::{Instance, Judged, Report, Violation};
use itoa::Buffer;
use object_referrers::ReferrerStore;
use ocl_core::Invariant;
use ocl_program::Program;
use ocl_values::{ObjNo, Value};
use std::alloc::{AllocError, Global};
use use_info::append_value;

fn append(text: &str, out: &mut Vec<u8>) -> Result<(), AllocError>
    ensures { OnOk result (out.new.items ≡ out.old.items ++ text.now) }
{
    out.extend_from_slice(text.as_bytes())
}

fn append_number(number: usize, out: &mut Vec<u8>) -> Result<(), AllocError>
    ensures { OnOk result (out.new.items ≡ out.old.items ++ decimal number) }
{
    let mut digits = Buffer::new();
    append(digits.format(number), out)
}

/// Appends the name of a live object.
fn append_name(
    alloc: Global,
    model: &ClassModel,
    store: &ReferrerStore,
    object: ObjNo,
    out: &mut Vec<u8>,
) -> Result<(), AllocError>
    ensures { OnOk result (out.new.items ≡ out.old.items ++ named store.now.state object) }
{
    append_value(alloc, model, store, &Value::Obj(object), out)
}

/// Appends the line of a multiplicity that is broken.
fn append_violation(
    alloc: Global,
    model: &ClassModel,
    store: &ReferrerStore,
    found: Violation,
    out: &mut Vec<u8>,
) -> Result<(), AllocError>
    requires { found.assoc < length model.now.assocs }
    ensures { OnOk result (out.new.items ≡ out.old.items ++ violation_line model.now store.now.state found) }
{
    append("structure: ", out)?;
    append(model.assoc_name(found.assoc), out)?;
    append(".", out)?;
    append(model.role_name(found.assoc, found.end), out)?;
    append(": ", out)?;
    append_name(alloc, model, store, found.object, out)?;
    append(" has ", out)?;
    append_number(found.count as usize, out)?;
    append(", expected ", out)?;
    append(model.multiplicity(found.assoc, found.end).spec(), out)?;
    append("\n", out)
}

/// Appends the lines of the multiplicities that are broken, or that there are none.
fn append_structure(
    alloc: Global,
    model: &ClassModel,
    store: &ReferrerStore,
    broken: &[Violation],
    out: &mut Vec<u8>,
) -> Result<(), AllocError>
    requires { All (λ v. v.assoc < length model.now.assocs) broken.now }
    ensures { OnOk result (out.new.items ≡ out.old.items ++ structure_lines model.now store.now.state broken.now) }
{
    if broken.is_empty() {
        return append("structure: OK\n", out);
    }
    'broken: for found in broken {
        append_violation(alloc, model, store, *found, out)?;
    }
    Ok(())
}

/// Appends the line of an invariant.
fn append_verdict(
    model: &ClassModel,
    invariant: &Invariant,
    judged: &Judged,
    out: &mut Vec<u8>,
) -> Result<(), AllocError>
    requires { invariant.now.class < length model.now.classes }
    ensures { OnOk result (out.new.items ≡ out.old.items ++ verdict_line model.now invariant.now judged.now) }
{
    append("inv ", out)?;
    append(model.class_name(invariant.class), out)?;
    append("::", out)?;
    append(invariant.name.as_str(), out)?;
    append(": ", out)?;
    append(judged.verdict.text(), out)?;
    append("\n", out)
}

/// Appends the line of an instance for which an invariant does not hold.
fn append_instance(
    alloc: Global,
    model: &ClassModel,
    store: &ReferrerStore,
    found: (ObjNo, Instance),
    out: &mut Vec<u8>,
) -> Result<(), AllocError>
    ensures { OnOk result (out.new.items ≡ out.old.items ++ instance_line store.now.state found) }
{
    append("  ", out)?;
    append_name(alloc, model, store, found.0, out)?;
    append(": ", out)?;
    append(found.1.text(), out)?;
    append("\n", out)
}

/// Appends the lines of the instances for which an invariant does not hold.
fn append_instances(
    alloc: Global,
    model: &ClassModel,
    store: &ReferrerStore,
    bad: &[(ObjNo, Instance)],
    out: &mut Vec<u8>,
) -> Result<(), AllocError>
    ensures { OnOk result (out.new.items ≡ out.old.items ++ flat_map (instance_line store.now.state) bad.now) }
{
    'bad: for found in bad {
        append_instance(alloc, model, store, *found, out)?;
    }
    Ok(())
}

/// Appends the lines of an invariant, with the instances for which it does not hold where they are
/// asked for.
fn append_judged(
    alloc: Global,
    model: &ClassModel,
    store: &ReferrerStore,
    detail: bool,
    invariant: &Invariant,
    judged: &Judged,
    out: &mut Vec<u8>,
) -> Result<(), AllocError>
    requires { invariant.now.class < length model.now.classes }
    ensures { OnOk result (out.new.items ≡ out.old.items ++ verdict_lines model.now store.now.state detail (invariant.now, judged.now)) }
{
    append_verdict(model, invariant, judged, out)?;
    if detail {
        append_instances(alloc, model, store, judged.bad.as_slice(), out)
    } else {
        Ok(())
    }
}

/// Appends the lines of all invariants.
fn append_verdicts(
    alloc: Global,
    program: &Program,
    store: &ReferrerStore,
    detail: bool,
    lines: &[Judged],
    out: &mut Vec<u8>,
) -> Result<(), AllocError>
    ensures { OnOk result (out.new.items ≡ out.old.items ++ flat_map (verdict_lines program.now.model store.now.state detail) (zip program.now.invariants lines.now)) }
{
    program.is_checked();
    let invariants = program.invariants();
    let count = invariants.len().min(lines.len());
    'lines: for index in 0..count {
        append_judged(
            alloc,
            program.model(),
            store,
            detail,
            &invariants[index],
            &lines[index],
            out,
        )?;
    }
    Ok(())
}

/// Appends how many invariants there are, were evaluated, and are not OK.
fn append_summary(report: &Report, out: &mut Vec<u8>) -> Result<(), AllocError>
    ensures { OnOk result (out.new.items ≡ out.old.items ++ summary_line report.now) }
{
    append_number(report.lines.len(), out)?;
    append(" invariants, ", out)?;
    append_number(report.evaluated, out)?;
    append(" evaluated, ", out)?;
    append_number(report.not_ok(), out)?;
    append(" not OK\n", out)
}

/// Appends what `check` writes.
pub(crate) fn append_check(
    alloc: Global,
    program: &Program,
    store: &ReferrerStore,
    detail: bool,
    broken: &[Violation],
    report: &Report,
    out: &mut Vec<u8>,
) -> Result<(), AllocError>
    requires { All (λ v. v.assoc < length program.now.model.assocs) broken.now }
    ensures { OnOk result (out.new.items ≡ out.old.items ++ check_text program.now store.now.state detail broken.now report.now) }
{
    append_structure(alloc, program.model(), store, broken, out)?;
    append_verdicts(alloc, program, store, detail, report.lines.as_slice(), out)?;
    append_summary(report, out)
}

/// Whether a check found nothing to complain of.
pub(crate) fn finds_nothing(broken: &[Violation], report: &Report) -> bool
    ensures { result ≡ finds_nothing broken.now report.now }
{
    broken.is_empty() && report.not_ok() == 0
}
