ghost use Rattle.std.specs.Prelude.{◌≡◌, All, IfOk, length};
ghost use Rattle.use_text.specs.Tokens.{IsWithin};
ghost use Rattle.grammar_core.specs.Arena.{root_tree};
ghost use Rattle.use_decls.specs.Declarations.{decls_of, file_decls, no_decls};

use crate::conds::all_conds;
use crate::declared::all_declared;
use crate::lexed::Lexed;
use crate::positions::named;
use class_decls::{Decls, Name};
use ocl_values::Text;
use std::alloc::{AllocError, Global};
use use_lists::Items;
use use_nodes::{FileNode, NodeRef};
use use_syntax::Parsed;
use use_text::Place;

fn no_decls(alloc: Global) -> Decls
    ensures { result ≡ no_decls }
{
    Decls {
        name: Name {
            text: Text::from_string(String::new(alloc)),
            place: Place { line: 0, col: 0 },
        },
        enums: Items::new(alloc),
        classes: Items::new(alloc),
        assocs: Items::new(alloc),
        conds: Items::new(alloc),
        context_heads: Items::new(alloc),
    }
}

fn file_decls(alloc: Global, lexed: &Lexed<'_>, file: FileNode<'_>) -> Result<Decls, AllocError>
    ensures { IfOk result (λ d. d ≡ file_decls lexed.now file.entry) }
{
    let mut context_heads = Items::new(alloc);
    let conds = all_conds(alloc, lexed, file.declarations.copy(), &mut context_heads)?;
    Ok(Decls {
        name: lexed.name_at(alloc, &file.name)?,
        enums: all_declared(alloc, lexed, file.declarations.copy())?,
        classes: all_declared(alloc, lexed, file.declarations.copy())?,
        assocs: all_declared(alloc, lexed, file.declarations)?,
        conds: named(alloc, context_heads.as_slice(), conds)?,
        context_heads,
    })
}

/// What a model that was read declares, in the order of its text. A role that is not written is its
/// class's name with the first letter in ASCII lower case, or that name where this would be a reserved
/// word. An invariant that is not named is `inv` and its number from 1 among the invariants of its
/// class; a contract is `pre` or `post` and its number among those of its kind of the operations of
/// this name in the class.
pub fn decls(alloc: Global, parsed: &Parsed) -> Result<Decls, AllocError>
    requires { All (IsWithin (length parsed.now.text)) parsed.now.tokens }
    ensures { IfOk result (λ d. d ≡ decls_of parsed.now.text parsed.now.tokens (root_tree parsed.now.tree)) }
{
    match FileNode::of(&NodeRef::root(&parsed.tree)) {
        None => Ok(no_decls(alloc)),
        Some(file) => file_decls(alloc, &Lexed::of(parsed), file),
    }
}
