ghost use Rattle.std.specs.Prelude.{◌≡◌, ◌+◌, ◌++◌, ◌≤◌, ◌<◌, [], ◌∷◌, length, map, IfOk, IfErr, OnOk};
ghost use Rattle.grammar_core.specs.declared.fault.GrammarFault.TheVariants.{Memory};
ghost use Rattle.use_text.specs.Kinds.{number_of};
ghost use Rattle.use_syntax.specs.declared.row.Symbol.TheVariants.{Production as OfProduction};
ghost use Rattle.use_syntax.specs.Forms.{branch_of, form_of, place_of, prod_of};
ghost use Rattle.use_syntax.specs.Language.{all_prods, bodies, call_prods, command_prods, expression_prods, language, model_prods, nests, statement_prods, token_prods, type_prods};

use crate::commands::{COMMAND_ROWS, QUERY_ROWS, REPORT_ROWS};
use crate::expressions::{
    ARGS_ROWS, ARITHMETIC_ROWS, COLLECTION_ROWS, COMPARISON_ROWS, DOT_ROWS, ITEM_ROWS, LOGIC_ROWS,
    NAMED_ROWS, POSTFIX_ROWS, PRIMARY_ROWS, UNARY_ROWS,
};
use crate::models::{
    ASSOC_ROWS, CLASS_ROWS, CONTEXT_ROWS, END_ROWS, FILE_ROWS, HEAD_ROWS, OPER_ROWS,
};
use crate::production::Production;
use crate::row::{Row, Symbol};
use crate::rules::RULES;
use crate::statements::{BLOCK_ROWS, CHANGE_ROWS, CONTROL_ROWS, STATEMENT_ROWS};
use crate::types::{NAME_ROWS, TYPE_ROWS};
use grammar_core::{Branch, Grammar, GrammarFault, Prod};
use std::alloc::{AllocError, Global};
use use_lists::Items;
use use_text::TokenKind;

/// How many kinds of token there are. The production of that number is one token of the kind.
const TOKENS: u16 = 96;

/// How many rules there are. Their productions stand behind those of the tokens.
const RULE_COUNT: u16 = 63;

fn place_of(symbol: Symbol) -> u16
    ensures { result ≡ place_of symbol }
{
    match symbol {
        Symbol::Token(kind) => kind.number(),
        Symbol::Rule(rule) => TOKENS + rule.number(),
        Symbol::Production(production) => TOKENS + RULE_COUNT + production.number(),
    }
}

fn places_of(alloc: Global, symbols: &[Symbol]) -> Result<Items<u16>, AllocError>
    ensures { IfOk result (λ it. it ≡ map place_of symbols.now) }
{
    let mut places = Vec::new(alloc);
    'symbols: for symbol in symbols {
        places.push(place_of(*symbol))?;
    }
    Ok(Items::from_vec(places))
}

fn kinds_of(alloc: Global, kinds: &[TokenKind]) -> Result<Items<u16>, AllocError>
    ensures { IfOk result (λ it. it ≡ map number_of kinds.now) }
{
    let mut numbers = Vec::new(alloc);
    'kinds: for kind in kinds {
        numbers.push(kind.number())?;
    }
    Ok(Items::from_vec(numbers))
}

fn branch_of(alloc: Global, kinds: &[TokenKind], symbol: Symbol) -> Result<Branch, AllocError>
    ensures { IfOk result (λ b. b ≡ branch_of kinds.now symbol) }
{
    Ok(Branch {
        firsts: kinds_of(alloc, kinds)?,
        to: place_of(symbol),
    })
}

fn branches_of(
    alloc: Global,
    branches: &[(&'static [TokenKind], Symbol)],
) -> Result<Items<Branch>, AllocError>
    ensures { IfOk result (λ it. it ≡ map (λ b. branch_of b.0.now b.1) branches.now) }
{
    let mut all = Vec::new(alloc);
    'branches: for (kinds, symbol) in branches {
        all.push(branch_of(alloc, kinds, *symbol)?)?;
    }
    Ok(Items::from_vec(all))
}

fn one_branch(
    alloc: Global,
    kinds: &[TokenKind],
    symbol: Symbol,
) -> Result<Items<Branch>, AllocError>
    ensures { IfOk result (λ it. it ≡ branch_of kinds.now symbol ∷ []) }
{
    let mut all = Items::new(alloc);
    all.push(branch_of(alloc, kinds, symbol)?)?;
    Ok(all)
}

fn prod_of(alloc: Global, row: Row) -> Result<Prod, AllocError>
    ensures { IfOk result (λ p. p ≡ prod_of (form_of row)) }
{
    match row {
        Row::Each(symbols) => Ok(Prod::Seq(places_of(alloc, symbols)?)),
        Row::Choice(branches) => Ok(Prod::Case(branches_of(alloc, branches)?, None)),
        Row::OrElse(branches, other) => {
            Ok(Prod::Case(branches_of(alloc, branches)?, Some(place_of(other))))
        }
        Row::Optional(kinds, symbol) => Ok(Prod::Case(
            one_branch(alloc, kinds, symbol)?,
            Some(place_of(Symbol::Production(Production::Nothing))),
        )),
        Row::Repeated(kinds, symbol) => {
            Ok(Prod::Star(kinds_of(alloc, kinds)?, place_of(symbol)))
        }
    }
}

fn push_rows(alloc: Global, rows: &[Row], prods: &mut Vec<Prod>) -> Result<(), AllocError>
    ensures { OnOk result (prods.new.items ≡ prods.old.items ++ map (λ r. prod_of (form_of r)) rows.now) }
{
    'rows: for row in rows {
        prods.push(prod_of(alloc, *row)?)?;
    }
    Ok(())
}

/// One token of each kind.
fn push_tokens(prods: &mut Vec<Prod>) -> Result<(), AllocError>
    ensures { OnOk result (prods.new.items ≡ prods.old.items ++ token_prods) }
{
    'kinds: for kind in 0..TOKENS {
        prods.push(Prod::Tok(kind))?;
    }
    Ok(())
}

/// Each rule.
fn push_calls(prods: &mut Vec<Prod>) -> Result<(), AllocError>
    ensures { OnOk result (prods.new.items ≡ prods.old.items ++ call_prods) }
{
    'rules: for rule in 0..RULE_COUNT {
        prods.push(Prod::Call(rule))?;
    }
    Ok(())
}

fn push_types(alloc: Global, prods: &mut Vec<Prod>) -> Result<(), AllocError>
    ensures { OnOk result (prods.new.items ≡ prods.old.items ++ type_prods) }
{
    push_rows(alloc, &NAME_ROWS, prods)?;
    push_rows(alloc, &TYPE_ROWS, prods)?;
    Ok(())
}

fn push_expressions(alloc: Global, prods: &mut Vec<Prod>) -> Result<(), AllocError>
    ensures { OnOk result (prods.new.items ≡ prods.old.items ++ expression_prods) }
{
    push_rows(alloc, &ITEM_ROWS, prods)?;
    push_rows(alloc, &ARGS_ROWS, prods)?;
    push_rows(alloc, &COLLECTION_ROWS, prods)?;
    push_rows(alloc, &NAMED_ROWS, prods)?;
    push_rows(alloc, &PRIMARY_ROWS, prods)?;
    push_rows(alloc, &DOT_ROWS, prods)?;
    push_rows(alloc, &POSTFIX_ROWS, prods)?;
    push_rows(alloc, &UNARY_ROWS, prods)?;
    push_rows(alloc, &ARITHMETIC_ROWS, prods)?;
    push_rows(alloc, &COMPARISON_ROWS, prods)?;
    push_rows(alloc, &LOGIC_ROWS, prods)?;
    Ok(())
}

fn push_statements(alloc: Global, prods: &mut Vec<Prod>) -> Result<(), AllocError>
    ensures { OnOk result (prods.new.items ≡ prods.old.items ++ statement_prods) }
{
    push_rows(alloc, &BLOCK_ROWS, prods)?;
    push_rows(alloc, &CHANGE_ROWS, prods)?;
    push_rows(alloc, &CONTROL_ROWS, prods)?;
    push_rows(alloc, &STATEMENT_ROWS, prods)?;
    Ok(())
}

fn push_commands(alloc: Global, prods: &mut Vec<Prod>) -> Result<(), AllocError>
    ensures { OnOk result (prods.new.items ≡ prods.old.items ++ command_prods) }
{
    push_rows(alloc, &QUERY_ROWS, prods)?;
    push_rows(alloc, &REPORT_ROWS, prods)?;
    push_rows(alloc, &COMMAND_ROWS, prods)?;
    Ok(())
}

fn push_models(alloc: Global, prods: &mut Vec<Prod>) -> Result<(), AllocError>
    ensures { OnOk result (prods.new.items ≡ prods.old.items ++ model_prods) }
{
    push_rows(alloc, &HEAD_ROWS, prods)?;
    push_rows(alloc, &OPER_ROWS, prods)?;
    push_rows(alloc, &CLASS_ROWS, prods)?;
    push_rows(alloc, &END_ROWS, prods)?;
    push_rows(alloc, &ASSOC_ROWS, prods)?;
    push_rows(alloc, &CONTEXT_ROWS, prods)?;
    push_rows(alloc, &FILE_ROWS, prods)?;
    Ok(())
}

/// All the productions: tokens, calls of rules, and those with names.
fn productions(alloc: Global) -> Result<Vec<Prod>, AllocError>
    ensures { IfOk result (λ prods. prods.items ≡ all_prods) }
{
    let mut prods = Vec::new(alloc);
    push_tokens(&mut prods)?;
    push_calls(&mut prods)?;
    push_types(alloc, &mut prods)?;
    push_expressions(alloc, &mut prods)?;
    push_statements(alloc, &mut prods)?;
    push_commands(alloc, &mut prods)?;
    push_models(alloc, &mut prods)?;
    Ok(prods)
}

fn places_of_rules(alloc: Global, rules: &[(Production, bool)]) -> Result<Vec<u16>, AllocError>
    ensures { IfOk result (λ places. places.items ≡ map (λ b. place_of (OfProduction b.0)) rules.now) }
{
    let mut places = Vec::new(alloc);
    'rules: for (production, _) in rules {
        places.push(place_of(Symbol::Production(*production)))?;
    }
    Ok(places)
}

fn flags_of_rules(alloc: Global, rules: &[(Production, bool)]) -> Result<Vec<bool>, AllocError>
    ensures { IfOk result (λ flags. flags.items ≡ map (λ b. b.1) rules.now) }
{
    let mut flags = Vec::new(alloc);
    'rules: for (_, nests) in rules {
        flags.push(*nests)?;
    }
    Ok(flags)
}

/// The production of each rule.
fn rule_places(alloc: Global) -> Result<Vec<u16>, AllocError>
    ensures { IfOk result (λ places. places.items ≡ bodies) }
{
    places_of_rules(alloc, &RULES)
}

/// Whether each rule nests.
fn rule_nests(alloc: Global) -> Result<Vec<bool>, AllocError>
    ensures { IfOk result (λ flags. flags.items ≡ nests) }
{
    flags_of_rules(alloc, &RULES)
}

/// The grammar of the language. It is not tested: that no production is unfit is known.
pub fn grammar(alloc: Global) -> Result<Grammar, GrammarFault>
    ensures ok { IfOk result (λ g. g ≡ language) }
    ensures err { IfErr result (λ e. e ≡ Memory) }
{
    let prods = productions(alloc)?;
    let places = rule_places(alloc)?;
    let nests = rule_nests(alloc)?;
    Ok(Grammar::of_fit(alloc, prods, places, nests)?)
}
