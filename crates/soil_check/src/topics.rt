ghost use Rattle.std.specs.Prelude.{◌≡◌};
ghost use Rattle.ocl_rules.specs.Typings.{Tells};
ghost use Rattle.soil_scope.specs.Scenes.{scene};
ghost use Rattle.soil_check.specs.Topics.{check, check_switched, info, subject, topic_named, topic_of, view, view_dropped, view_number};

use crate::{Checked, Topic};
use class_decls::Name;
use ocl_rules::{TypeFault, breaks_n};
use soil_scope::Setting;
use soil_types::class_wanted;
use use_nodes::{CheckNode, InfoNode, NodeRef, ViewNode};
use use_text::TokenKind;

/// The only switch of `check` is `-d`: another breaks N3.
fn check_switched(name: &Name) -> Result<Checked, TypeFault>
    ensures { Tells (check_switched name.now) result }
{
    if name.text.as_str() == "d" {
        Ok(Checked::Check { detail: true })
    } else {
        Err(breaks_n(3, name.place))
    }
}

/// `check`
#[tactic(auto, unfolding(crate::specs::Topics::check))]
pub(crate) fn check(setting: &Setting<'_>, node: &CheckNode<'_>) -> Result<Checked, TypeFault>
    ensures { Tells (check setting.now.lexed.now node.now) result }
{
    match &node.option {
        None => Ok(Checked::Check { detail: false }),
        Some(option) => check_switched(&setting.lexed.name_at(setting.alloc, option)?),
    }
}

/// The topic that a name stands for.
fn topic_named(name: &str) -> Option<Topic>
    ensures { result ≡ topic_named name.now }
{
    if name == "state" {
        Some(Topic::State)
    } else if name == "vars" {
        Some(Topic::Vars)
    } else if name == "opstack" {
        Some(Topic::Opstack)
    } else if name == "script" {
        Some(Topic::Script)
    } else if name == "use" {
        Some(Topic::Use)
    } else {
        None
    }
}

/// The topic of one word: another breaks N3.
#[tactic(auto, unfolding(crate::specs::Topics::subject))]
fn subject(setting: &Setting<'_>, node: &NodeRef<'_>) -> Result<Topic, TypeFault>
    ensures { Tells (subject setting.now.lexed.now node.now) result }
{
    if node.is_token(TokenKind::Model) {
        return Ok(Topic::Model);
    }
    let name = setting.lexed.name_at(setting.alloc, node)?;
    match topic_named(name.text.as_str()) {
        None => Err(breaks_n(3, name.place)),
        Some(topic) => Ok(topic),
    }
}

#[tactic(auto, unfolding(crate::specs::Topics::topic_of))]
fn topic_of(setting: &Setting<'_>, node: &InfoNode<'_>) -> Result<Topic, TypeFault>
    ensures { Tells (topic_of (scene setting.now) node.now node.now.class) result }
{
    match &node.class {
        None => subject(setting, &node.subject),
        Some(class) => {
            let name = setting.lexed.name_at(setting.alloc, class)?;
            Ok(Topic::Class(class_wanted(setting.model, &name)?))
        }
    }
}

/// `info`
#[tactic(auto, unfolding(crate::specs::Topics::info))]
pub(crate) fn info(setting: &Setting<'_>, node: &InfoNode<'_>) -> Result<Checked, TypeFault>
    ensures { Tells (info (scene setting.now) node.now) result }
{
    Ok(Checked::Info(topic_of(setting, node)?))
}

/// The number of a view; one that no view has is 0.
fn view_number(number: Option<i128>) -> u32
    ensures { result ≡ view_number number }
{
    match number {
        None => 0,
        Some(number) => u32::try_from(number).unwrap_or(0),
    }
}

/// The only word before the number is `drop`: another breaks N3.
fn view_dropped(name: &Name, number: u32) -> Result<Checked, TypeFault>
    ensures { Tells (view_dropped name.now number) result }
{
    if name.text.as_str() == "drop" {
        Ok(Checked::Drop(number))
    } else {
        Err(breaks_n(3, name.place))
    }
}

/// `view`
#[tactic(auto, unfolding(crate::specs::Topics::view))]
pub(crate) fn view(setting: &Setting<'_>, node: &ViewNode<'_>) -> Result<Checked, TypeFault>
    ensures { Tells (view setting.now.lexed.now node.now) result }
{
    let number = view_number(setting.lexed.number_at(&node.number));
    if node.subject.is_token(TokenKind::Int) {
        return Ok(Checked::Show(number));
    }
    view_dropped(
        &setting.lexed.name_at(setting.alloc, &node.subject)?,
        number,
    )
}
