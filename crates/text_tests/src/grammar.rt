ghost use Rattle.std.specs.Prelude.{◌≡◌, ◌<◌, length, IfOk, IfSome};
ghost use Rattle.grammar_core.specs.Unfit.{all_inside};

use grammar_core::*;
use std::alloc::{AllocError, Global};
use std::test::Fail;
use use_lists::Items;
use use_text::{Place, Token};

const END: u16 = 0;

const NAME: u16 = 1;

const PLUS: u16 = 2;

const OPEN: u16 = 3;

const CLOSE: u16 = 4;

/// A production, with slices in place of lists.
#[derive(Clone, Copy)]
enum Row {
    Tok(u16),
    Call(u16),
    Seq(&'static [u16]),
    Case(&'static [(u16, u16)], Option<u16>),
    Star(u16, u16),
}

fn branches_of(alloc: Global, pairs: &[(u16, u16)]) -> Result<Items<Branch>, AllocError> {
    let mut branches = Vec::new(alloc);
    'pairs: for (kind, to) in pairs {
        branches.push(Branch {
            firsts: Items::from_slice(alloc, &[*kind])?,
            to: *to,
        })?;
    }
    Ok(Items::from_vec(branches))
}

fn prod_of(alloc: Global, row: Row) -> Result<Prod, AllocError> {
    match row {
        Row::Tok(kind) => Ok(Prod::Tok(kind)),
        Row::Call(rule) => Ok(Prod::Call(rule)),
        Row::Seq(ps) => Ok(Prod::Seq(Items::from_slice(alloc, ps)?)),
        Row::Case(pairs, other) => Ok(Prod::Case(branches_of(alloc, pairs)?, other)),
        Row::Star(kind, q) => Ok(Prod::Star(Items::from_slice(alloc, &[kind])?, q)),
    }
}

fn prods_of(alloc: Global, rows: &[Row]) -> Result<Vec<Prod>, AllocError> {
    let mut prods = Vec::new(alloc);
    'rows: for row in rows {
        prods.push(prod_of(alloc, *row)?)?;
    }
    Ok(prods)
}

fn are_inside(count: usize, rules: &[u16]) -> bool
    ensures { result ≡ all_inside count rules.now }
{
    'rules: for q in rules {
        if *q as usize >= count {
            return false;
        }
    }
    true
}

// a grammar with these rules, or the first production that is unfit
fn grammar_of(
    alloc: Global,
    rows: &[Row],
    rules: &[u16],
    nests: &[bool],
) -> Result<Result<Grammar, u16>, Fail>
    ensures { IfOk result (λ r. IfOk r (λ g. g.rules ≡ rules.now)) }
{
    let prods = prods_of(alloc, rows)?;
    if prods.len() > 65536 || rules.len() != nests.len() || !are_inside(prods.len(), rules) {
        return Err(Fail::from("no table"));
    }
    let rules = Vec::from_slice(alloc, rules)?;
    let nests = Vec::from_slice(alloc, nests)?;
    match Grammar::new(alloc, prods, rules, nests) {
        Ok(g) => Ok(Ok(g)),
        Err(GrammarFault::Unfit { prod }) => Ok(Err(prod)),
        Err(GrammarFault::Memory) => Err(Fail::from("memory")),
    }
}

// the first unfit production, if there is one
fn first_unfit(
    alloc: Global,
    rows: &[Row],
    rules: &[u16],
    nests: &[bool],
) -> Result<Option<u16>, Fail> {
    match grammar_of(alloc, rows, rules, nests)? {
        Ok(_) => Ok(None),
        Err(prod) => Ok(Some(prod)),
    }
}

fn token_of(kind: u16) -> Token {
    Token {
        kind,
        start: 0,
        end: 0,
        place: Place { line: 1, col: 1 },
    }
}

fn tokens_of(alloc: Global, kinds: &[u16]) -> Result<Vec<Token>, AllocError> {
    let mut tokens = Vec::new(alloc);
    'kinds: for kind in kinds {
        tokens.push(token_of(*kind))?;
    }
    Ok(tokens)
}

// a tree as text: a token by its place, a rule as its number and what is below it
fn show(t: &Tree, n: NodeNo, out: &mut String) -> Result<(), AllocError>
    requires { n < length t.now }
{
    if let Some(at) = t.token(n) {
        return write!(out, "{at}");
    }
    write!(out, "({}", t.kind(n))?;
    'children: for i in 0..t.children(n) {
        if let Some(m) = t.child(n, i) {
            out.push_str(" ")?;
            show(t, m, out)?;
        }
    }
    out.push_str(")")
}

fn answer_of(alloc: Global, given: &Result<Tree, ParseFault>) -> Result<String, AllocError> {
    match given {
        Ok(t) => {
            let mut out = String::new(alloc);
            show(t, t.root(), &mut out)?;
            Ok(out)
        }
        Err(e) => format!(in alloc; "{e}"),
    }
}

// what the rule 0 of a table makes of tokens of these kinds
fn parsed(
    alloc: Global,
    rows: &[Row],
    rules: &[u16],
    nests: &[bool],
    kinds: &[u16],
) -> Result<String, Fail> {
    let tokens = tokens_of(alloc, kinds)?;
    if rules.is_empty() || tokens.len() > 1_000_000 {
        return Err(Fail::from("no rule, or too long"));
    }
    match grammar_of(alloc, rows, rules, nests)? {
        Ok(g) => Ok(answer_of(alloc, &parse(alloc, &g, 0, tokens.as_slice()))?),
        Err(_) => Err(Fail::from("unfit")),
    }
}

// file := sum End;  sum := atom { '+' atom };  atom := NAME | '(' sum ')', where atom nests
const SUMS: [Row; 13] = [
    Row::Seq(&[1, 2]),
    Row::Call(1),
    Row::Tok(END),
    Row::Seq(&[4, 5]),
    Row::Call(2),
    Row::Star(PLUS, 6),
    Row::Seq(&[7, 4]),
    Row::Tok(PLUS),
    Row::Case(&[(NAME, 9), (OPEN, 10)], None),
    Row::Tok(NAME),
    Row::Seq(&[11, 1, 12]),
    Row::Tok(OPEN),
    Row::Tok(CLOSE),
];

#[test]
fn sums_have_the_trees_that_the_table_derives(rt: HostRuntime) -> Result<(), Fail> {
    let rows: [(&[u16], &str); 12] = [
        (&[NAME, END], "(0 (1 (2 0)) 1)"),
        (&[NAME, PLUS, NAME, END], "(0 (1 (2 0) 1 (2 2)) 3)"),
        (
            &[NAME, PLUS, NAME, PLUS, NAME, END],
            "(0 (1 (2 0) 1 (2 2) 3 (2 4)) 5)",
        ),
        (&[OPEN, NAME, CLOSE, END], "(0 (1 (2 0 (1 (2 1)) 2)) 3)"),
        (
            &[OPEN, NAME, PLUS, NAME, CLOSE, PLUS, NAME, END],
            "(0 (1 (2 0 (1 (2 1) 2 (2 3)) 4) 5 (2 6)) 7)",
        ),
        (&[END], "no branch allows token 0"),
        (&[PLUS, END], "no branch allows token 0"),
        (&[NAME, PLUS, END], "no branch allows token 2"),
        (&[NAME, NAME, END], "no branch allows token 1"),
        (&[OPEN, NAME, END], "no branch allows token 2"),
        (&[NAME, END, NAME, END], "no branch allows token 2"),
        (&[NAME], "no branch allows token 1"),
    ];
    'rows: for (kinds, want) in rows {
        let got = parsed(rt.alloc(), &SUMS, &[0, 3, 8], &[false, false, true], kinds)?;
        assert_eq!(rt; got.as_str(), want);
    }
    Ok(())
}

// a name in that many parentheses
fn nested_kinds(alloc: Global, depth: u32) -> Result<Vec<u16>, AllocError> {
    let mut kinds = Vec::new(alloc);
    'open: for _ in 0..depth {
        kinds.push(OPEN)?;
    }
    kinds.push(NAME)?;
    'close: for _ in 0..depth {
        kinds.push(CLOSE)?;
    }
    kinds.push(END)?;
    Ok(kinds)
}

#[test]
fn two_hundred_levels_are_read_and_one_more_is_too_deep(rt: HostRuntime) -> Result<(), Fail> {
    'depths: for (depth, want) in [(199u32, None), (200, Some(200u32)), (300, Some(200))] {
        let kinds = nested_kinds(rt.alloc(), depth)?;
        let got = parsed(
            rt.alloc(),
            &SUMS,
            &[0, 3, 8],
            &[false, false, true],
            kinds.as_slice(),
        )?;
        match want {
            None => assert!(rt;
                got.as_str().starts_with("(0 (1 (2 0 (1 (2 1"),
                "at {depth}"
            ),
            Some(token) => assert_eq!(rt;
                got,
                format!(in rt.alloc(); "token {token} is nested too deep")?,
                "at {depth}"
            ),
        }
    }
    Ok(())
}

#[test]
fn the_first_unfit_production_is_named(rt: HostRuntime) -> Result<(), Fail> {
    let rows: [(&[Row], bool, Option<u16>); 8] = [
        // a number outside its table, before and behind other unfit productions
        (
            &[Row::Tok(1), Row::Seq(&[0, 4]), Row::Call(1), Row::Seq(&[3])],
            false,
            Some(1),
        ),
        (&[Row::Tok(1), Row::Call(1), Row::Seq(&[9])], false, Some(1)),
        // a Star whose body may derive nothing, and one whose body may not
        (
            &[Row::Star(1, 1), Row::Star(1, 2), Row::Tok(1)],
            false,
            Some(0),
        ),
        (&[Row::Star(1, 1), Row::Seq(&[2]), Row::Tok(1)], false, None),
        // a production that comes back to itself without a Call
        (
            &[
                Row::Tok(1),
                Row::Seq(&[0, 2]),
                Row::Case(&[(1, 1)], Some(0)),
            ],
            false,
            Some(1),
        ),
        (&[Row::Tok(1), Row::Star(1, 1)], false, Some(1)),
        // a Call that comes back to its rule, unless the rule nests
        (
            &[Row::Seq(&[1, 2]), Row::Tok(1), Row::Call(0)],
            false,
            Some(2),
        ),
        (&[Row::Seq(&[1, 2]), Row::Tok(1), Row::Call(0)], true, None),
    ];
    'rows: for (prods, nests, want) in rows {
        assert_eq!(rt; first_unfit(rt.alloc(), prods, &[0], &[nests])?, want);
    }
    Ok(())
}

#[test]
fn an_optional_part_is_entered_if_its_first_token_is_next(rt: HostRuntime) -> Result<(), Fail> {
    // [ NAME '+' ] End: of two branches that list a token the first is taken
    let table = [
        Row::Seq(&[1, 6]),
        Row::Case(&[(NAME, 2), (NAME, 4)], Some(3)),
        Row::Seq(&[4, 5]),
        Row::Seq(&[]),
        Row::Tok(NAME),
        Row::Tok(PLUS),
        Row::Tok(END),
    ];
    let rows: [(&[u16], &str); 3] = [
        (&[END], "(0 0)"),
        (&[NAME, PLUS, END], "(0 0 1 2)"),
        (&[NAME, END], "no branch allows token 1"),
    ];
    'rows: for (kinds, want) in rows {
        let got = parsed(rt.alloc(), &table, &[0], &[false], kinds)?;
        assert_eq!(rt; got.as_str(), want);
    }
    Ok(())
}

// a sum of one name and so many more
fn long_kinds(alloc: Global, more: u32) -> Result<Vec<u16>, AllocError> {
    let mut kinds = Vec::new(alloc);
    kinds.push(NAME)?;
    'more: for _ in 0..more {
        kinds.push(PLUS)?;
        kinds.push(NAME)?;
    }
    kinds.push(END)?;
    Ok(kinds)
}

// how many nodes are right below the first node below the root
fn first_children(alloc: Global, kinds: &[u16]) -> Result<u64, Fail> {
    let tokens = tokens_of(alloc, kinds)?;
    if tokens.len() > 1_000_000 {
        return Err(Fail::from("too long"));
    }
    match grammar_of(alloc, &SUMS, &[0, 3, 8], &[false, false, true])? {
        Ok(g) => match parse(alloc, &g, 0, tokens.as_slice()) {
            Ok(t) => match t.child(t.root(), 0) {
                Some(m) => Ok(t.children(m)),
                None => Ok(0),
            },
            Err(_) => Err(Fail::from("no tree")),
        },
        Err(_) => Err(Fail::from("unfit")),
    }
}

#[test]
fn a_long_list_is_read_to_its_end(rt: HostRuntime) -> Result<(), Fail> {
    let kinds = long_kinds(rt.alloc(), 450_000)?;
    assert_eq!(rt; first_children(rt.alloc(), kinds.as_slice())?, 900_001);
    Ok(())
}

#[test]
fn a_parser_reads_one_list_after_another(rt: HostRuntime) -> Result<(), Fail> {
    let alloc = rt.alloc();
    let rows: [(&[u16], &str); 4] = [
        (&[OPEN, NAME, CLOSE, END], "(0 (1 (2 0 (1 (2 1)) 2)) 3)"),
        (&[OPEN, NAME, END], "no branch allows token 2"),
        (&[NAME, END], "(0 (1 (2 0)) 1)"),
        (&[NAME, PLUS, NAME, END], "(0 (1 (2 0) 1 (2 2)) 3)"),
    ];
    let Ok(g) = grammar_of(alloc, &SUMS, &[0, 3, 8], &[false, false, true])? else {
        return Err(Fail::from("unfit"));
    };
    let mut parser = Parser::new(alloc);
    'rows: for (kinds, want) in rows {
        let tokens = tokens_of(alloc, kinds)?;
        if tokens.len() > 1000 {
            return Err(Fail::from("too long"));
        }
        let given = parser.parse(&g, 0, tokens.as_slice());
        assert_eq!(rt; answer_of(alloc, &given)?.as_str(), want);
        if let Ok(tree) = given {
            parser.take_back(tree);
        }
    }
    Ok(())
}
