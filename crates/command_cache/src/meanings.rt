ghost use Rattle.std.specs.Prelude.{◌≡◌, ◌++◌, All, IfOk, IsTrue, OnOk, length, map};
ghost use Rattle.std.specs.Option.{option_map};
ghost use Rattle.std.specs.Str.Lossy.{utf8_lossy};
ghost use Rattle.use_text.specs.Tokens.{IsWithin};
ghost use Rattle.soil_check.specs.Scopes.{known_as};
ghost use Rattle.soil_check.specs.Shell.{name_of};
ghost use Rattle.command_cache.specs.Meanings.{IsMeant, listed, names_in, stood};
ghost use Rattle.command_cache.specs.declared.meanings.Meaning.TheVariants as meanings;
ghost use Rattle.command_cache.specs.declared.meanings.Named.{Named};

use crate::types::are_same;
use class_model::{ClassNo, OclType};
use ocl_values::Text;
use soil_check::{Scope, ShellName};
use std::alloc::{AllocError, Global};
use use_decls::is_name_kind;
use use_lists::Items;
use use_text::Token;

/// What a name of the shell stood for.
#[derive(Debug, Drop)]
pub enum Meaning {
    Nothing,
    /// A live object of this class.
    Object(ClassNo),
    /// A variable of this type.
    Variable(OclType),
}

/// A name of a command's text, and what it stood for.
#[derive(Debug, Drop)]
pub struct Named {
    pub name: Text,
    pub meaning: Meaning,
}

fn meaning_of(alloc: Global, known: Option<ShellName<'_>>) -> Result<Meaning, AllocError>
    ensures { IfOk result (λ m. option_map known_as known.entry ≡ stood m) }
{
    match known {
        None => Ok(Meaning::Nothing),
        Some(ShellName::Object(class)) => Ok(Meaning::Object(class)),
        Some(ShellName::Variable(of_type)) => Ok(Meaning::Variable(of_type.try_copy(alloc)?)),
    }
}

/// Whether a name that stands for nothing did so before.
fn was_nothing(meaning: &Meaning) -> bool
    ensures { IsTrue result → meaning.now ≡ meanings.Nothing }
{
    match meaning {
        Meaning::Nothing => true,
        _ => false,
    }
}

fn was_object(class: ClassNo, meaning: &Meaning) -> bool
    ensures { IsTrue result → meaning.now ≡ meanings.Object class }
{
    match meaning {
        Meaning::Object(before) => *before == class,
        _ => false,
    }
}

fn was_variable(of_type: &OclType, meaning: &Meaning) -> bool
    ensures { IsTrue result → meaning.now ≡ meanings.Variable of_type.now }
{
    match meaning {
        Meaning::Variable(before) => are_same(of_type, before),
        _ => false,
    }
}

/// Whether a name stands for what it stood for.
fn is_meant(known: Option<ShellName<'_>>, meaning: &Meaning) -> bool
    ensures { IsTrue result → option_map known_as known.entry ≡ stood meaning.now }
{
    match known {
        None => was_nothing(meaning),
        Some(ShellName::Object(class)) => was_object(class, meaning),
        Some(ShellName::Variable(of_type)) => was_variable(of_type, meaning),
    }
}

/// Whether a name of a text stands for what it stood for.
fn means_same<S: Scope>(scope: &S, named: &Named) -> bool
    ensures { IsTrue result → S.known scope.now named.now.name ≡ stood named.now.meaning }
{
    is_meant(scope.shell(named.name.as_str()), &named.meaning)
}

/// Whether all names stand for what they stood for.
pub(crate) fn are_meant<S: Scope>(scope: &S, names: &[Named]) -> bool
    ensures { IsTrue result → All (IsMeant (S.known scope.now)) names.now }
{
    'names: for named in names {
        if !means_same(scope, named) {
            return false;
        }
    }
    true
}

/// The name that some bytes are.
fn name_in(alloc: Global, bytes: &[u8]) -> Result<Text, AllocError>
    ensures { IfOk result (λ t. t ≡ utf8_lossy bytes.now) }
{
    Ok(Text::from_string(String::from_utf8_lossy(alloc, bytes)?))
}

/// The name that some bytes are, and what it stands for.
fn name_of_bytes<S: Scope>(alloc: Global, scope: &S, bytes: &[u8]) -> Result<Named, AllocError>
    ensures name { IfOk result (λ n. n.name ≡ utf8_lossy bytes.now) }
    ensures meant { IfOk result (λ n. S.known scope.now n.name ≡ stood n.meaning) }
{
    let name = name_in(alloc, bytes)?;
    let meaning = meaning_of(alloc, scope.shell(name.as_str()))?;
    Ok(Named { name, meaning })
}

fn add_name<S: Scope>(
    alloc: Global,
    scope: &S,
    text: &[u8],
    token: &Token,
    names: &mut Items<Named>,
) -> Result<(), AllocError>
    requires within { IsWithin (length text.now) token.now }
    requires meant { All (IsMeant (S.known scope.now)) names.old }
    ensures names { OnOk result (map (λ (n : Named). n.name) names.new ≡ map (λ (n : Named). n.name) names.old ++ listed (name_of text.now token.now)) }
    ensures meant { OnOk result (All (IsMeant (S.known scope.now)) names.new) }
{
    if !is_name_kind(token.kind) {
        return Ok(());
    }
    let bytes = &text[token.start as usize..token.end as usize];
    let named = name_of_bytes(alloc, scope, bytes)?;
    names.push(named)
}

/// The names of a command's text, and what they stand for.
pub(crate) fn names_of<S: Scope>(
    alloc: Global,
    scope: &S,
    text: &[u8],
    tokens: &[Token],
) -> Result<Items<Named>, AllocError>
    requires { All (IsWithin (length text.now)) tokens.now }
    ensures names { IfOk result (λ ns. map (λ (n : Named). n.name) ns ≡ names_in text.now tokens.now) }
    ensures meant { IfOk result (All (IsMeant (S.known scope.now))) }
{
    let mut names = Items::new(alloc);
    'tokens: for token in tokens {
        add_name(alloc, scope, text, token, &mut names)?;
    }
    Ok(names)
}
