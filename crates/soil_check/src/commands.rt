ghost use Rattle.std.specs.Prelude.{◌≡◌, ◌<◌, ◌^◌, All, IfOk, length};
ghost use Rattle.std.specs.Option.{option_copied};
ghost use Rattle.use_text.specs.Tokens.{IsWithin};
ghost use Rattle.grammar_core.specs.Arena.{root_tree};
ghost use Rattle.ocl_rules.specs.Typings.{Tells};
ghost use Rattle.soil_scope.specs.Scenes.{scene};
ghost use Rattle.soil_check.specs.Checks.{IsCommandOf, IsScopeOf, TakesNames};
ghost use Rattle.soil_check.specs.Commands.{asked, command_in, enter, exit, form, form_at, form_in, form_of, query, statements, topic, word};
ghost use Rattle.soil_check.specs.Seen.{result_of};

use crate::calls::{entered, left};
use crate::seen::values_seen;
use crate::shell::shell_names;
use crate::topics::{check, info, view};
use crate::{Bindings, Checked, Scope};
use class_model::{ClassModel, OclType};
use ocl_program::Program;
use ocl_rules::{TypeFault, Typed};
use ocl_values::Text;
use soil_scope::{Call, Setting, Variables, expression_at, first_leaf};
use soil_types::command_statements;
use std::alloc::{AllocError, Global};
use use_decls::Lexed;
use use_lists::Items;
use use_nodes::{
    BlockNode, CheckNode, CommandNode, EnterNode, ExecuteNode, ExitNode, InfoNode, NodeRef,
    QueryNode, ViewNode,
};
use use_syntax::{Parsed, Rule};
use use_text::{Token, TokenKind};

fn copied(alloc: Global, names: &[Text]) -> Result<Items<Text>, AllocError>
    ensures { IfOk result (λ all. all ≡ names.now) }
{
    let mut all = Items::new(alloc);
    'names: for name in names {
        all.push(Text::copy_of(alloc, name.as_str())?)?;
    }
    Ok(all)
}

fn asked(is_explained: bool, typed: Typed, shell: Items<Text>) -> Checked
    ensures { result ≡ asked is_explained typed shell }
{
    let Typed { expr, of_type } = typed;
    if is_explained {
        Checked::Explain {
            expr,
            of_type,
            shell,
        }
    } else {
        Checked::Query {
            expr,
            of_type,
            shell,
        }
    }
}

/// `? e` and `?? e`
#[tactic(auto, unfolding(crate::specs::Commands::query))]
fn query(
    setting: &Setting<'_>,
    mut seen: Variables,
    node: &QueryNode<'_>,
) -> Result<Checked, TypeFault>
    requires { seen.environment.size < 2 ^ 31 }
    ensures { Tells (query (scene setting.now) seen node.now) result }
{
    let placed = expression_at(setting, &mut seen.environment, false, &node.expression)?;
    let shell = copied(setting.alloc, setting.shell.names())?;
    Ok(asked(node.explained.is_some(), placed.typed, shell))
}

/// A block of statements.
#[tactic(auto, unfolding(crate::specs::Commands::statements))]
fn statements(
    setting: &Setting<'_>,
    seen: Variables,
    node: &NodeRef<'_>,
) -> Result<Checked, TypeFault>
    ensures { Tells (statements (scene setting.now) seen node.now) result }
{
    let body = command_statements(setting, seen, node)?;
    let shell = copied(setting.alloc, setting.shell.names())?;
    Ok(Checked::Statements { body, shell })
}

/// `openter`
#[tactic(auto, unfolding(crate::specs::Commands::enter))]
fn enter(
    setting: &Setting<'_>,
    mut seen: Variables,
    node: &EnterNode<'_>,
) -> Result<Checked, TypeFault>
    requires { seen.environment.size < 2 ^ 31 }
    ensures { Tells (enter (scene setting.now) seen node.now) result }
{
    let Call { receiver, op, args } = entered(setting, &mut seen.environment, node)?;
    let shell = copied(setting.alloc, setting.shell.names())?;
    Ok(Checked::Enter {
        receiver,
        op,
        args,
        shell,
    })
}

/// `opexit`
#[tactic(auto, unfolding(crate::specs::Commands::exit))]
fn exit(
    setting: &Setting<'_>,
    mut seen: Variables,
    result_type: Option<&OclType>,
    form: &NodeRef<'_>,
    node: &ExitNode<'_>,
) -> Result<Checked, TypeFault>
    requires { seen.environment.size < 2 ^ 31 }
    ensures { Tells (exit (scene setting.now) seen (option_copied result_type.entry) form.now node.now) result }
{
    let value = left(setting, &mut seen.environment, result_type, form, node)?;
    let shell = copied(setting.alloc, setting.shell.names())?;
    Ok(Checked::Exit { value, shell })
}

/// The commands of one word.
fn word(node: &NodeRef<'_>) -> Checked
    ensures { result ≡ word node.now }
{
    if node.is_token(TokenKind::Undo) {
        Checked::Undo
    } else if node.is_token(TokenKind::Redo) {
        Checked::Redo
    } else if node.is_token(TokenKind::Reset) {
        Checked::Reset
    } else {
        Checked::Quit
    }
}

/// `check`, `info`, `view` and the commands of one word.
#[tactic(auto, unfolding(crate::specs::Commands::topic))]
fn topic(setting: &Setting<'_>, node: &NodeRef<'_>) -> Result<Checked, TypeFault>
    ensures { Tells (topic (scene setting.now) node.now) result }
{
    if let Some(node) = CheckNode::of(node) {
        return check(setting, &node);
    }
    if let Some(node) = InfoNode::of(node) {
        return info(setting, &node);
    }
    if let Some(node) = ViewNode::of(node) {
        return view(setting, &node);
    }
    Ok(word(node))
}

/// A form of a command.
#[tactic(auto, unfolding(crate::specs::Commands::form))]
fn form(
    setting: &Setting<'_>,
    seen: Variables,
    result_type: Option<&OclType>,
    node: &NodeRef<'_>,
) -> Result<Checked, TypeFault>
    requires { seen.environment.size < 2 ^ 31 }
    ensures { Tells (form (scene setting.now) seen (option_copied result_type.entry) node.now) result }
{
    if BlockNode::of(node).is_some() {
        return statements(setting, seen, node);
    }
    if let Some(call) = EnterNode::of(node) {
        return enter(setting, seen, &call);
    }
    if let Some(result) = ExitNode::of(node) {
        return exit(setting, seen, result_type, node, &result);
    }
    if let Some(asked) = QueryNode::of(node) {
        return query(setting, seen, &asked);
    }
    topic(setting, node)
}

/// The form of a command, if it has one.
fn form_of<'a>(root: &NodeRef<'a>) -> Option<NodeRef<'a>>
    ensures { result ≡ form_of root.now }
{
    match CommandNode::of(root) {
        None => None,
        Some(command) => command.form,
    }
}

/// The same without `!`.
fn form_at<'a>(node: &NodeRef<'a>) -> NodeRef<'a>
    ensures { result ≡ form_at node.now }
{
    match ExecuteNode::of(node) {
        None => node.copy(),
        Some(execute) => execute.form,
    }
}

fn result_of(frame: Option<&Bindings>) -> Option<&OclType>
    ensures { option_copied result ≡ result_of (option_copied frame.entry) }
{
    match frame {
        None => None,
        Some(bindings) => bindings.result_type.as_ref(),
    }
}

/// A form of a command among the names that it takes from the shell.
#[tactic(auto, unfolding(crate::specs::Commands::form_in))]
fn form_in<S: Scope>(
    alloc: Global,
    model: &ClassModel,
    scope: &S,
    parsed: &Parsed,
    node: &NodeRef<'_>,
) -> Result<Checked, TypeFault>
    requires { All (IsWithin (length parsed.now.text)) parsed.now.tokens }
    ensures { Tells (form_in model.now (S.known scope.now) (S.bound scope.now) (record { text = parsed.now.text; tokens = parsed.now.tokens }) node.now) result }
{
    let lexed = Lexed::of(parsed);
    let is_block = node.is_rule(Rule::Block);
    let shell = shell_names(
        alloc,
        scope,
        is_block,
        parsed.text.as_slice(),
        parsed.tokens.as_slice(),
    )?;
    let place = lexed.place_at(&first_leaf(node));
    let seen = values_seen(alloc, scope, shell.names(), place)?;
    let setting = Setting {
        alloc,
        model,
        lexed: &lexed,
        shell: &shell,
    };
    form(&setting, seen, result_of(scope.frame()), node)
}

/// A command that was read, checked: its names and types among what the names of the shell stand for,
/// or the first rule of N and T that it breaks, with its place. Where what the names stand for, and what
/// the open operation binds, are the model's, so is the command.
pub fn check_command<S: Scope>(
    alloc: Global,
    program: &Program,
    scope: &S,
    parsed: &Parsed,
) -> Result<Checked, TypeFault>
    requires { All (IsWithin (length parsed.now.text)) parsed.now.tokens }
    ensures told { Tells (command_in program.now (S.known scope.now) (S.bound scope.now) parsed.now.text parsed.now.tokens (root_tree parsed.now.tree)) result }
    ensures in_range { IsScopeOf program.now.model (S.known scope.now) (S.bound scope.now) → IfOk result (IsCommandOf program.now.model) }
    ensures names { IfOk result TakesNames }
{
    program.model().has_numbers_in_range();
    match form_of(&NodeRef::root(&parsed.tree)) {
        None => Ok(Checked::Empty),
        Some(form) => form_in(alloc, program.model(), scope, parsed, &form_at(&form)),
    }
}
