ghost use Rattle.std.specs.Prelude.{◌≡◌, All, IfOk, OnOk, Some, length};
ghost use Rattle.std.specs.Str.Lossy.{utf8_lossy};
ghost use Rattle.use_text.specs.Tokens.{IsWithin};
ghost use Rattle.soil_check.specs.Shell.{is_taken, name_of, shell_names, taken_by};

use crate::Scope;
use soil_scope::ShellNames;
use std::alloc::{AllocError, Global};
use std::str;
use use_decls::is_name_kind;
use use_text::Token;

#[tactic(auto, using(crate::proofs::Taken::some_mapped))]
fn is_taken<S: Scope>(scope: &S, is_block: bool, name: &str) -> bool
    ensures { result ≡ is_taken (S.known scope.now) is_block name.now }
{
    is_block || scope.shell(name).is_some()
}

/// Adds a name, if a command takes it from the shell and it is not listed yet.
fn add_taken<S: Scope>(
    alloc: Global,
    scope: &S,
    is_block: bool,
    names: &mut ShellNames,
    name: &str,
) -> Result<(), AllocError>
    ensures { OnOk result (names.new ≡ taken_by (S.known scope.now) is_block names.old (Some name.now)) }
{
    if is_taken(scope, is_block, name) {
        names.add(alloc, name)
    } else {
        Ok(())
    }
}

/// The same of the name that some bytes are.
#[tactic(auto, using(crate::proofs::Taken::whole_lossy))]
fn add_bytes<S: Scope>(
    alloc: Global,
    scope: &S,
    is_block: bool,
    names: &mut ShellNames,
    bytes: &[u8],
) -> Result<(), AllocError>
    ensures { OnOk result (names.new ≡ taken_by (S.known scope.now) is_block names.old (Some (utf8_lossy bytes.now))) }
{
    match str::from_utf8(bytes) {
        Ok(name) => add_taken(alloc, scope, is_block, names, name),
        Err(_) => {
            let name = String::from_utf8_lossy(alloc, bytes)?;
            add_taken(alloc, scope, is_block, names, name.as_str())
        }
    }
}

/// The same of the name that a token is, if it is one.
fn add_token<S: Scope>(
    alloc: Global,
    scope: &S,
    is_block: bool,
    names: &mut ShellNames,
    text: &[u8],
    token: &Token,
) -> Result<(), AllocError>
    requires { IsWithin (length text.now) token.now }
    ensures { OnOk result (names.new ≡ taken_by (S.known scope.now) is_block names.old (name_of text.now token.now)) }
{
    if !is_name_kind(token.kind) {
        return Ok(());
    }
    let bytes = &text[token.start as usize..token.end as usize];
    add_bytes(alloc, scope, is_block, names, bytes)
}

/// The names that a command takes from the shell, in the order of its environment.
pub(crate) fn shell_names<S: Scope>(
    alloc: Global,
    scope: &S,
    is_block: bool,
    text: &[u8],
    tokens: &[Token],
) -> Result<ShellNames, AllocError>
    requires { All (IsWithin (length text.now)) tokens.now }
    ensures { IfOk result (λ names. names ≡ shell_names (S.known scope.now) is_block (record { text = text.now; tokens = tokens.now })) }
{
    let mut names = ShellNames::new(alloc);
    'tokens: for token in tokens {
        add_token(alloc, scope, is_block, &mut names, text, token)?;
    }
    Ok(names)
}
