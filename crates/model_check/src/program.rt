ghost use Rattle.std.specs.Prelude.{◌≡◌, ◌<◌, ◌^◌, All, IfOk, length, map};
ghost use Rattle.use_text.specs.Tokens.{IsWithin};
ghost use Rattle.use_text.specs.Codes.{code_of};
ghost use Rattle.use_text.specs.Refusals.{refusal_at};
ghost use Rattle.use_text.specs.declared.code.Family.TheVariants.{M};
ghost use Rattle.grammar_core.specs.Arena.{root_tree};
ghost use Rattle.ocl_rules.specs.Typings.{Tells};
ghost use Rattle.model_check.specs.Adding.{Adds, each_added};
ghost use Rattle.model_check.specs.Few.{HasFewParameters};
ghost use Rattle.model_check.specs.Programs.{Checks, checked_by, program_in, reading_by};
ghost use Rattle.model_check.specs.Walk.{declaration, file, reading};

use crate::ModelFault;
use crate::checked::Checked;
use crate::classes::add_class;
use crate::contexts::add_constraints;
use crate::source::Source;
use class_builder::build;
use class_decls::CondDecl;
use class_model::ClassModel;
use ocl_core::ProgramParts;
use ocl_program::Program;
use ocl_rules::TypeFault;
use ocl_values::Text;
use soil_scope::{Setting, ShellNames};
use std::alloc::{AllocError, Global};
use use_decls::{Lexed, decls};
use use_lists::Items;
use use_nodes::{FileNode, NodeRef, Parts};
use use_syntax::Parsed;
use use_text::{Code, Family, Place, Refusal};

/// More invariants and contracts than numbers of 32 bits; no text that is read has so many.
const MAX_CONDITIONS: usize = 1 << 32;

/// What is checked of a declaration.
#[tactic(auto, unfolding(crate::specs::Walk::declaration))]
fn add_declaration(
    source: &Source<'_>,
    node: &NodeRef<'_>,
    found: &mut Checked,
) -> Result<(), TypeFault>
    requires { HasFewParameters source.now.setting.model.now }
    ensures { Adds (declaration (reading source.now) found.old node.now) result found.new }
{
    add_class(source, node, found)?;
    add_constraints(source, node, found)
}

fn add_declarations(
    source: &Source<'_>,
    nodes: Parts<'_>,
    found: &mut Checked,
) -> Result<(), TypeFault>
    requires { HasFewParameters source.now.setting.model.now }
    ensures { Adds (each_added (declaration (reading source.now)) found.old nodes.entry) result found.new }
{
    'nodes: for node in nodes {
        add_declaration(source, &node, found)?;
    }
    Ok(())
}

/// What is checked in a file.
#[tactic(auto, unfolding(crate::specs::Walk::file))]
fn checked(source: &Source<'_>, root: &NodeRef<'_>) -> Result<Checked, TypeFault>
    requires { HasFewParameters source.now.setting.model.now }
    ensures { Tells (file (reading source.now) root.now) result }
{
    let mut found = Checked::new(source.setting.alloc, source.setting.model)?;
    match FileNode::of(root) {
        None => Ok(found),
        Some(file) => {
            add_declarations(source, file.declarations, &mut found)?;
            Ok(found)
        }
    }
}

/// The bodies, invariants and contracts of a model, these under their names.
fn checked_in<'a>(
    alloc: Global,
    model: &'a ClassModel,
    parsed: &'a Parsed,
    names: &'a [Text],
) -> Result<Checked, TypeFault>
    requires few { HasFewParameters model.now }
    requires within { All (IsWithin (length parsed.now.text)) parsed.now.tokens }
    ensures { Tells (file (reading_by model.now (record { text = parsed.now.text; tokens = parsed.now.tokens }) names.now) (root_tree parsed.now.tree)) result }
{
    let lexed = Lexed::of(parsed);
    let shell = ShellNames::new(alloc);
    let source = Source {
        setting: Setting {
            alloc,
            model,
            lexed: &lexed,
            shell: &shell,
        },
        names,
    };
    checked(&source, &NodeRef::root(&parsed.tree))
}

/// The names of invariants and contracts.
fn cond_names(alloc: Global, conds: &[CondDecl]) -> Result<Items<Text>, AllocError>
    ensures { IfOk result (λ names. names ≡ map (λ c. c.name.text) conds.now) }
{
    let mut names = Items::new(alloc);
    'conds: for cond in conds {
        names.push(Text::copy_of(alloc, cond.name.text.as_str())?)?;
    }
    Ok(names)
}

/// The program of a model that is well formed.
fn program_of(
    alloc: Global,
    model: ClassModel,
    parsed: &Parsed,
    names: &[Text],
) -> Result<Program, ModelFault>
    requires parameters { HasFewParameters model }
    requires contracts { length names.now < 2 ^ 32 }
    requires within { All (IsWithin (length parsed.now.text)) parsed.now.tokens }
    ensures { Checks (checked_by model (record { text = parsed.now.text; tokens = parsed.now.tokens }) names.now (root_tree parsed.now.tree)) result }
{
    let Checked {
        invariants,
        contracts,
        bodies,
        derived,
    } = checked_in(alloc, &model, parsed, names)?;
    model.has_numbers_in_range();
    let parts = ProgramParts {
        model,
        invariants,
        contracts,
        bodies,
        derived,
    };
    Ok(Program::new(alloc, parts)?)
}

fn too_many_contracts(place: Place) -> ModelFault
    ensures { result ≡ ModelFault.Refused (refusal_at (code_of M 17) place) }
{
    ModelFault::Refused(Refusal {
        code: Code {
            family: Family::M,
            number: 17,
        },
        place,
    })
}

/// The program of a model that was read (OCL 2.3.1, clause 7; USE manual), or the first rule that it
/// breaks: of M1 to M18 the least, at its first place; else the first of N and T in the order of the
/// text.
pub fn check_model(alloc: Global, parsed: &Parsed) -> Result<Program, ModelFault>
    requires { All (IsWithin (length parsed.now.text)) parsed.now.tokens }
    ensures { Checks (program_in parsed.now.text parsed.now.tokens (root_tree parsed.now.tree)) result }
{
    let decls = decls(alloc, parsed)?;
    let place = decls.name.place;
    let names = cond_names(alloc, decls.conds.as_slice())?;
    let model = build(alloc, decls)?;
    if names.len() >= MAX_CONDITIONS {
        return Err(too_many_contracts(place));
    }
    program_of(alloc, model, parsed, names.as_slice())
}
