ghost use Rattle.std.specs.Prelude.{◌≡◌, ◌<◌, length};
ghost use Rattle.use_syntax.specs.Language.{language};

use grammar_core::{Grammar, NodeNo};
use std::alloc::{AllocError, Global};
use std::str;
use std::test::Fail;
use use_syntax::*;
use use_text::Token;

// The text of a token.
fn text_of<'a>(text: &'a [u8], token: &Token) -> &'a str {
    let (start, end) = (token.start as usize, token.end as usize);
    if start > end || end > text.len() {
        return "";
    }
    match str::from_utf8(&text[start..end]) {
        Ok(word) => word,
        Err(_) => "",
    }
}

// A node as text: a token as it is written, a node over another alone as that one, and else what is
// below it between brackets.
fn show(parsed: &Parsed, n: NodeNo, out: &mut String) -> Result<(), AllocError>
    requires { n < length parsed.now.tree }
{
    if let Some(at) = parsed.tree.token(n) {
        return match parsed.tokens.get(at as usize) {
            Some(token) => out.push_str(text_of(parsed.text.as_slice(), token)),
            None => Ok(()),
        };
    }
    let count = parsed.tree.children(n);
    if count != 1 {
        out.push_str("[")?;
    }
    'children: for i in 0..count {
        if i > 0 {
            out.push_str(" ")?;
        }
        if let Some(m) = parsed.tree.child(n, i) {
            show(parsed, m, out)?;
        }
    }
    if count != 1 {
        out.push_str("]")?;
    }
    Ok(())
}

fn outcome_shown(alloc: Global, given: &Result<Parsed, SyntaxFault>) -> Result<String, AllocError> {
    match given {
        Ok(parsed) => {
            let mut out = String::new(alloc);
            show(parsed, parsed.tree.root(), &mut out)?;
            Ok(out)
        }
        Err(SyntaxFault::Refused(refusal)) => {
            format!(in alloc; "{} at {}", refusal.code, refusal.place)
        }
        Err(SyntaxFault::Memory) => String::from_str(alloc, "memory"),
    }
}

// What becomes of a model or a command: its tree, or the code and the place of its refusal.
fn shown(alloc: Global, g: &Grammar, is_model: bool, text: &str) -> Result<String, AllocError>
    requires { g.now ≡ language }
{
    if text.len() > 4_194_304 {
        return String::from_str(alloc, "too long");
    }
    if is_model {
        outcome_shown(alloc, &read_model(alloc, g, text.as_bytes()))
    } else {
        outcome_shown(alloc, &read_command(alloc, g, text.as_bytes(), 1))
    }
}

// The first text that does not become what stands beside it.
fn first_other(
    alloc: Global,
    is_model: bool,
    rows: &[(&'static str, &'static str)],
) -> Result<Option<&'static str>, Fail> {
    let g = grammar(alloc)?;
    'rows: for (text, want) in rows {
        if shown(alloc, &g, is_model, text)?.as_str() != *want {
            return Ok(Some(*text));
        }
    }
    Ok(None)
}

// The first text that is refused.
fn first_refused(
    alloc: Global,
    is_model: bool,
    texts: &[&'static str],
) -> Result<Option<&'static str>, Fail> {
    let g = grammar(alloc)?;
    'texts: for text in texts {
        let outcome = shown(alloc, &g, is_model, text)?;
        if outcome.as_str().starts_with("S") {
            return Ok(Some(*text));
        }
    }
    Ok(None)
}

// These and the models below take each of the 342 ways through the 185 productions with names: each
// branch, each optional part taken and not, each repeated part not at all, once and more often.
const COMMANDS: &[&str] = &[
    "",
    "!",
    "? 1",
    "?? 1 + 2",
    "check",
    "check -v",
    "info class C",
    "info model",
    "info state",
    "view 1",
    "view invariants 2",
    "undo",
    "redo",
    "reset",
    "quit",
    "exit",
    "openter p raise(1)",
    "openter check exit()",
    "opexit",
    "opexit 1",
    "!openter p leave()",
    "!opexit 2",
    "!create a : C",
    "!create a, b : C; create c, d, e : C",
    "!set x := 1",
    "!set p.n := new C",
    "!new C",
    "!new C('a')",
    "!new C()",
    "!destroy a",
    "!destroy a, b; destroy a, b, c",
    "!insert (a, b) into A",
    "!delete (a, b) from A",
    "!declare x : Integer",
    "!declare x, y : Set(Bag(Sequence(OrderedSet(String))))",
    "!if true then x := 1 else x := 2 end",
    "!if true then end",
    "!for x in Set{1} do x := 2 end",
    "!while false do f() end",
    "!x := 1;; y := 2;",
    "!p.f(1)",
    "!x := new C",
    "? 'a' = 'b' <> true",
    "? false and null or Undefined xor invalid implies true",
    "? 1 and 2 and 3 or 4 or 5 or 6 xor 7 xor 8 implies 9 implies 10",
    "? 1 = 2 = 3 < 4 <= 5 > 6 >= 7",
    "? 1 + 2 - 3 * 4 div 5 mod 6",
    "? not - not x",
    "? let x = 1 in x",
    "? let x : Integer = 1, y = 2, z = 3 in x",
    "? Set{}",
    "? OrderedSet{1}",
    "? Bag{1..2, 3}",
    "? Sequence{1, 2, 3}",
    "? #red",
    "? Color::red",
    "? (1)",
    "? if true then 1 else 2 endif",
    "? x@pre.y@pre",
    "? x.f().g@pre(1).h",
    "? x.div(1).mod(2)",
    "? x->size()->first->last()",
    "? x->f(1, 2, 3)",
    "? x->iterate(a : Integer; b : Integer = 0 | a)",
    "? x->forAll(a, b | true)",
    "? x->select(a | a > 1)",
    "? x->f(a : T)",
    "? x.create.set.open.exit.quit",
    "? check.info.opexit.openter.redo.reset.undo.view",
    "? Integer.allInstances@pre()",
    "? let x = 1, y = 2 in x",
    "? 1 * 2",
];

const MODELS: &[&str] = &[
    "model M",
    "model M enum E {a} enum F {a, b}; enum G {a, b, c}",
    "model M class A end class B < A end class C < A, B end abstract class D end",
    "model M class A attributes end class B attributes a : T end class C attributes a : T; b : Set(T) = 1 + 2; end",
    "model M class A operations end class B operations f() end class C operations f() : T; g(a : T, b : T, c : T) = 1 h(x : T) begin y := 1 end; end",
    "model M class A operations f() pre: true end class B operations f() : T = 1; pre a: true post b: true post: 1 end",
    "model M class A constraints end class B constraints inv: true end class C constraints inv a: 1 inv check: 2 end",
    "model M association X between A[*] B[1] end aggregation Y between A[0..1, 2..*, 3] role r ordered; B[1, 2] ordered end composition Z between A[1] role r; B[*]; end",
    "model M constraints constraints context A inv: true context x : A inv n: x = x inv: true context A inv: 1 inv: 2",
    "model M constraints context A::f() pre: true context A::g(a : T) : T pre p: true post: a context A::h(a : T, b : T) post: a pre: b",
    "model view class check end",
    "model M constraints context A inv: 1 constraints",
];

#[test]
fn every_production_is_read(rt: HostRuntime) -> Result<(), Fail> {
    assert_eq!(rt; first_refused(rt.alloc(), false, COMMANDS)?, None);
    assert_eq!(rt; first_refused(rt.alloc(), true, MODELS)?, None);
    Ok(())
}

const TREES: &[(&str, &str)] = &[
    ("? 1 + 2", "[[? [1 + 2]] ]"),
    ("? a < b < c", "[[? [a < b < c]] ]"),
    ("? not a = b", "[[? [[not a] = b]] ]"),
    (
        "? a or b implies c and not d implies e",
        "[[? [[a or b] implies [c and [not d]] implies e]] ]",
    ),
    ("? 1 - 2 * 3 - -4", "[[? [1 - [2 * 3] - [- 4]]] ]"),
    (
        "? x.f(1)->size()",
        "[[? [x [. f [( 1 )]] [-> size [( )]]]] ]",
    ),
    (
        "? p.name@pre.size()",
        "[[? [p [. name @pre] [. size [( )]]]] ]",
    ),
    (
        "? let x = 1, y : T = 2 in x + y",
        "[[? [let [x = 1] , [y : T = 2] in [x + y]]] ]",
    ),
    (
        "? if a then 1 else 2 endif",
        "[[? [if a then 1 else 2 endif]] ]",
    ),
    ("? Set{1..2, 3}", "[[? [Set { [1 .. 2] , 3 }]] ]"),
    (
        "!create a, b : C; a.n := 1;",
        "[[! [[create [a , b] : C] ; [[a [. n]] := 1] ;]] ]",
    ),
    (
        "!for x in y do destroy x end",
        "[[! [for x in y do [destroy x] end]] ]",
    ),
    ("check -v", "[[check - v] ]"),
    ("!insert (a, b) into A", "[[! [insert ( a , b ) into A]] ]"),
    ("openter p raise(5)", "[[openter p raise [( 5 )]] ]"),
];

#[test]
fn trees_are_those_of_the_grammar(rt: HostRuntime) -> Result<(), Fail> {
    assert_eq!(rt; first_other(rt.alloc(), false, TREES)?, None);
    Ok(())
}

const EMPLOYEES: &str = "model Employees
enum Grade {junior, senior}
abstract class Being
attributes
  name : String
end
class Person < Being
attributes
  age : Integer
  salary : Integer
  grade : Grade
operations
  raise(amount : Integer) : Integer
  begin
    self.salary := self.salary + amount;
    result := self.salary
  end
    pre positive: amount > 0
    post paid: self.salary = self.salary@pre + amount
  label() : String = self.name.concat('!')
end
class Department < Being
attributes
  budget : Integer
end
class Project < Being
end
association WorksIn between
  Person[*] role staff
  Department[1] role dept
end
association WorksOn between
  Person[*] role member
  Project[*] role project ordered
end
composition Controls between
  Department[1] role owner
  Project[*] role owned
end
constraints
context Person
  inv adult: age >= 18
  inv paid: salary > 0
context Department
  inv afford: budget >= staff.salary->sum()
  inv named: name.size() > 0
context Project
  inv staffed: member->notEmpty()
  inv local: member->forAll(m | m.dept = owner)
";

#[test]
fn a_model_is_read_whole(rt: HostRuntime) -> Result<(), Fail> {
    assert_eq!(rt; first_refused(rt.alloc(), true, &[EMPLOYEES])?, None);
    Ok(())
}

const REFUSED_COMMANDS: &[(&str, &str)] = &[
    ("?", "S1 at 1:2"),
    ("? 1 +", "S1 at 1:6"),
    ("1", "S1 at 1:1"),
    ("create a : C", "S1 at 1:1"),
    ("? 1 2", "S1 at 1:5"),
    ("!x :=", "S1 at 1:6"),
    ("!if true then x := 1 endif", "S1 at 1:22"),
    ("? if true then 1 else 2 end", "S1 at 1:25"),
    ("? a < b <", "S1 at 1:10"),
    ("? not", "S1 at 1:6"),
    ("? x.", "S1 at 1:5"),
    ("? Set{1,}", "S1 at 1:9"),
    ("!insert (a, b) from A", "S1 at 1:16"),
    ("view x", "S1 at 1:7"),
    ("info", "S1 at 1:5"),
    ("check v", "S1 at 1:7"),
    ("? a]", "S1 at 1:4"),
    ("?\n  (1\n  + ", "S1 at 3:4"),
];

const REFUSED_MODELS: &[(&str, &str)] = &[
    ("", "S1 at 1:1"),
    ("model", "S1 at 1:6"),
    ("model M class A", "S1 at 1:16"),
    ("model M class A attributes a end", "S1 at 1:30"),
    ("model M end", "S1 at 1:9"),
    ("model M class A operations f() = end", "S1 at 1:34"),
    ("model M association A between B[] C[1] end", "S1 at 1:33"),
    ("model M\nconstraints context A\n", "S1 at 2:22"),
];

#[test]
fn a_token_that_no_branch_allows_is_refused(rt: HostRuntime) -> Result<(), Fail> {
    assert_eq!(rt; first_other(rt.alloc(), false, REFUSED_COMMANDS)?, None);
    assert_eq!(rt; first_other(rt.alloc(), true, REFUSED_MODELS)?, None);
    Ok(())
}

// Some parts, one behind the other, between two texts.
#[derive(Clone, Copy)]
struct Nested {
    front: &'static str,
    part: &'static str,
    count: u32,
    back: &'static str,
    want: &'static str,
}

fn text_of_nested(alloc: Global, nested: &Nested) -> Result<String, AllocError> {
    let mut text = String::from_str(alloc, nested.front)?;
    'parts: for _ in 0..nested.count {
        text.push_str(nested.part)?;
    }
    text.push_str(nested.back)?;
    Ok(text)
}

// The first whose text does not become what is wanted.
fn first_other_nested(alloc: Global, rows: &[Nested]) -> Result<Option<&'static str>, Fail> {
    let g = grammar(alloc)?;
    'rows: for row in rows {
        let text = text_of_nested(alloc, row)?;
        if shown(alloc, &g, false, text.as_str())?.as_str() != row.want {
            return Ok(Some(row.part));
        }
    }
    Ok(None)
}

const fn row_of(
    front: &'static str,
    part: &'static str,
    count: u32,
    back: &'static str,
    want: &'static str,
) -> Nested {
    Nested {
        front,
        part,
        count,
        back,
        want,
    }
}

// Each parenthesis is one `expr` and one `unary`, and 200 rules that nest may be open.
#[test]
fn nesting_is_limited(rt: HostRuntime) -> Result<(), Fail> {
    let rows = [
        row_of("? ", "(", 99, "", "S1 at 1:102"),
        row_of("? ", "(", 100, "", "S2 at 1:103"),
        row_of("? ", "(", 100, "]", "S2 at 1:103"),
        row_of("? ", "not ", 198, "", "S1 at 1:794"),
        row_of("? ", "not ", 199, "", "S2 at 1:798"),
        row_of("!declare x : ", "Set(", 198, "T", "S1 at 1:807"),
        row_of("!declare x : ", "Set(", 200, "T", "S2 at 1:810"),
        row_of("!", "while a do ", 198, "]", "S1 at 1:2180"),
        row_of("!", "while a do ", 199, "]", "S2 at 1:2186"),
    ];
    assert_eq!(rt; first_other_nested(rt.alloc(), &rows)?, None);
    Ok(())
}

// Whether a reader that has read other texts reads a command as `read_command` does.
fn reads_alike(
    alloc: Global,
    g: &Grammar,
    reader: &mut Reader,
    text: &str,
) -> Result<bool, AllocError>
    requires { g.now ≡ language }
{
    if text.len() > 4_194_304 {
        return Ok(false);
    }
    match (
        read_command(alloc, g, text.as_bytes(), 1),
        reader.read_command(g, text.as_bytes(), 1),
    ) {
        (Ok(parsed), Ok(read)) => {
            let trees = format!(in alloc; "{:?}", parsed.tree)?
                == format!(in alloc; "{:?}", read.tree)?;
            let tokens = parsed.tokens == read.tokens;
            reader.take_back(read);
            Ok(trees && tokens)
        }
        (Err(one), Err(other)) => Ok(one == other),
        _ => Ok(false),
    }
}

#[test]
fn a_reader_reads_one_text_after_another(rt: HostRuntime) -> Result<(), Fail> {
    let g = grammar(rt.alloc())?;
    let mut reader = Reader::new(rt.alloc());
    'rows: for (text, _) in TREES {
        assert!(rt; reads_alike(rt.alloc(), &g, &mut reader, text)?, "{text}");
    }
    'refused: for (text, _) in REFUSED_COMMANDS {
        assert!(rt; reads_alike(rt.alloc(), &g, &mut reader, text)?, "{text}");
    }
    assert!(rt; reader.read_model(&g, EMPLOYEES.as_bytes()).is_ok());
    Ok(())
}
