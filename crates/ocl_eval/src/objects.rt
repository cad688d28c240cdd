ghost use Rattle.std.specs.Prelude.{◌≡◌, ◌+◌, All, IfOk};
ghost use Rattle.ocl_values.specs.Shape.{IsWellMade};
ghost use Rattle.ocl_eval.specs.Parts.{scene};
ghost use Rattle.ocl_eval.specs.Evaluations.{Gives};
ghost use Rattle.ocl_eval.specs.Nodes.{class_of, instances, is_new, linked, of_object, slot, test_object, test_value};

use crate::looks::{look_at_extent, look_at_kind, look_at_nav, look_at_slot, within};
use crate::{Meter, Setting, States, Stop};
use class_model::{AssocNo, AttrNo, ClassNo, End, OclType};
use ocl_collections::make;
use ocl_core::{Kind, TypeTest, When};
use ocl_operations::{navigated, plain_tested, tested};
use ocl_values::{ObjNo, Value};

/// The class of an object.
#[tactic(auto, unfolding(crate::specs::Nodes::class_of))]
pub(crate) fn class_of<S, V: States<S>>(
    setting: &Setting<'_, V>,
    when: When,
    object: ObjNo,
    meter: &mut Meter,
    steps: &mut S,
) -> Result<Option<ClassNo>, Stop>
    ensures value { Gives (class_of (scene V.now V.pre setting.now) setting.now.at when object meter.old) result meter.new }
    ensures ticks { V.count steps.new + meter.new.fuel ≡ V.count steps.old + meter.old.fuel }
{
    let class = look_at_kind(setting, within(setting.at, when), object, meter, steps)?;
    Ok(class)
}

#[tactic(auto, unfolding(crate::specs::Nodes::slot))]
fn slot<S, V: States<S>>(
    setting: &Setting<'_, V>,
    number: AttrNo,
    when: When,
    object: ObjNo,
    meter: &mut Meter,
    steps: &mut S,
) -> Result<Value, Stop>
    ensures value { Gives (slot (scene V.now V.pre setting.now) setting.now.at number when object meter.old) result meter.new }
    ensures well_made { IfOk result IsWellMade }
    ensures ticks { V.count steps.new + meter.new.fuel ≡ V.count steps.old + meter.old.fuel }
{
    let seen = look_at_slot(
        setting,
        within(setting.at, when),
        object,
        number,
        meter,
        steps,
    )?;
    if number < setting.program.model.attr_count() {
        Ok(seen.unwrap_or(Value::Invalid))
    } else {
        Ok(Value::Invalid)
    }
}

/// A stored attribute of a value.
#[inline(never)]
pub(crate) fn slot_of<S, V: States<S>>(
    setting: &Setting<'_, V>,
    number: AttrNo,
    when: When,
    x: &Value,
    meter: &mut Meter,
    steps: &mut S,
) -> Result<Value, Stop>
    ensures value { Gives (of_object x.now (slot (scene V.now V.pre setting.now) setting.now.at number when) meter.old) result meter.new }
    ensures well_made { IfOk result IsWellMade }
    ensures ticks { V.count steps.new + meter.new.fuel ≡ V.count steps.old + meter.old.fuel }
{
    match x {
        Value::Obj(object) => slot(setting, number, when, *object, meter, steps),
        _ => Ok(Value::Invalid),
    }
}

#[tactic(auto, unfolding(crate::specs::Nodes::linked))]
fn linked<S, V: States<S>>(
    setting: &Setting<'_, V>,
    assoc: AssocNo,
    end: End,
    when: When,
    object: ObjNo,
    meter: &mut Meter,
    steps: &mut S,
) -> Result<Value, Stop>
    ensures value { Gives (linked (scene V.now V.pre setting.now) setting.now.at assoc end when object meter.old) result meter.new }
    ensures well_made { IfOk result IsWellMade }
    ensures ticks { V.count steps.new + meter.new.fuel ≡ V.count steps.old + meter.old.fuel }
{
    let seen = look_at_nav(
        setting,
        within(setting.at, when),
        assoc,
        end,
        object,
        meter,
        steps,
    )?;
    match seen {
        Some(items) => {
            let model = &setting.program.model;
            let value = navigated(setting.alloc, model, assoc, end, items.into_vec())?;
            Ok(value)
        }
        None => Ok(Value::Invalid),
    }
}

/// What stands at an end of a value.
#[inline(never)]
pub(crate) fn linked_with<S, V: States<S>>(
    setting: &Setting<'_, V>,
    assoc: AssocNo,
    end: End,
    when: When,
    x: &Value,
    meter: &mut Meter,
    steps: &mut S,
) -> Result<Value, Stop>
    ensures value { Gives (of_object x.now (linked (scene V.now V.pre setting.now) setting.now.at assoc end when) meter.old) result meter.new }
    ensures well_made { IfOk result IsWellMade }
    ensures ticks { V.count steps.new + meter.new.fuel ≡ V.count steps.old + meter.old.fuel }
{
    match x {
        Value::Obj(object) => linked(setting, assoc, end, when, *object, meter, steps),
        _ => Ok(Value::Invalid),
    }
}

/// The instances of a class.
#[tactic(auto, unfolding(crate::specs::Nodes::instances))]
#[inline(never)]
pub(crate) fn instances<S, V: States<S>>(
    setting: &Setting<'_, V>,
    class: ClassNo,
    when: When,
    meter: &mut Meter,
    steps: &mut S,
) -> Result<Value, Stop>
    ensures value { Gives (instances (scene V.now V.pre setting.now) setting.now.at class when meter.old) result meter.new }
    ensures well_made { IfOk result IsWellMade }
    ensures ticks { V.count steps.new + meter.new.fuel ≡ V.count steps.old + meter.old.fuel }
{
    let seen = look_at_extent(setting, within(setting.at, when), class, meter, steps)?;
    if class < setting.program.model.class_count() {
        let value = make(setting.alloc, Kind::Set, seen.into_vec())?;
        Ok(value)
    } else {
        Ok(Value::Invalid)
    }
}

#[tactic(auto, unfolding(crate::specs::Nodes::test_object))]
fn test_object<S, V: States<S>>(
    setting: &Setting<'_, V>,
    test: TypeTest,
    asked: &OclType,
    when: When,
    object: ObjNo,
    meter: &mut Meter,
    steps: &mut S,
) -> Result<Value, Stop>
    ensures value { Gives (test_object (scene V.now V.pre setting.now) setting.now.at test asked.now when object meter.old) result meter.new }
    ensures well_made { IfOk result IsWellMade }
    ensures ticks { V.count steps.new + meter.new.fuel ≡ V.count steps.old + meter.old.fuel }
{
    let class = class_of(setting, when, object, meter, steps)?;
    match class {
        Some(class) => {
            let own = Some(OclType::Class(class));
            Ok(tested(&setting.program.model, test, asked, own, Value::Obj(object)))
        }
        None => Ok(Value::Invalid),
    }
}

/// The answer about the type of a value.
#[inline(never)]
pub(crate) fn test_value<S, V: States<S>>(
    setting: &Setting<'_, V>,
    test: TypeTest,
    asked: &OclType,
    when: When,
    x: Value,
    meter: &mut Meter,
    steps: &mut S,
) -> Result<Value, Stop>
    requires well { IsWellMade x }
    ensures value { Gives (test_value (scene V.now V.pre setting.now) setting.now.at test asked.now when x meter.old) result meter.new }
    ensures well_made { IfOk result IsWellMade }
    ensures ticks { V.count steps.new + meter.new.fuel ≡ V.count steps.old + meter.old.fuel }
{
    match x {
        Value::Obj(object) => test_object(setting, test, asked, when, object, meter, steps),
        value => Ok(plain_tested(&setting.program.model, test, asked, value)),
    }
}

#[tactic(auto, unfolding(crate::specs::Nodes::is_new))]
fn is_new<S, V: States<S>>(
    setting: &Setting<'_, V>,
    object: ObjNo,
    meter: &mut Meter,
    steps: &mut S,
) -> Result<Value, Stop>
    ensures value { Gives (is_new (scene V.now V.pre setting.now) setting.now.at object meter.old) result meter.new }
    ensures well_made { IfOk result IsWellMade }
    ensures ticks { V.count steps.new + meter.new.fuel ≡ V.count steps.old + meter.old.fuel }
{
    let now = class_of(setting, When::Now, object, meter, steps)?;
    let pre = class_of(setting, When::Pre, object, meter, steps)?;
    Ok(Value::Bool(now.is_some() && !pre.is_some()))
}

/// Whether a value is an object that was not there at entry.
#[inline(never)]
pub(crate) fn new_object<S, V: States<S>>(
    setting: &Setting<'_, V>,
    x: &Value,
    meter: &mut Meter,
    steps: &mut S,
) -> Result<Value, Stop>
    ensures value { Gives (of_object x.now (is_new (scene V.now V.pre setting.now) setting.now.at) meter.old) result meter.new }
    ensures well_made { IfOk result IsWellMade }
    ensures ticks { V.count steps.new + meter.new.fuel ≡ V.count steps.old + meter.old.fuel }
{
    match x {
        Value::Obj(object) => is_new(setting, *object, meter, steps),
        _ => Ok(Value::Invalid),
    }
}
