ghost use Rattle.std.specs.Prelude.{◌≡◌, ◌+◌, ◌-◌, ◌<◌, ◌^◌, ◌++◌, [], ◌∷◌, IfOk, List, ℕ, length, map, reverse, MatchResult, None, Some, option_to_list, slice_get, true};
ghost use Rattle.grammar_core.specs.Answers.{of_production, whole};
ghost use Rattle.grammar_core.specs.Arena.{read_trees};
ghost use Rattle.grammar_core.specs.Derives.{kinds};
ghost use Rattle.grammar_core.specs.Tasks.{AreTasks, Begun, Ended, Ends, IsStar, IsTask, Stepped, answer_at, left, reads, rule_tasks, task, Meets};
ghost use Rattle.grammar_core.specs.declared.machine.Task.TheVariants.{Read, Repeat};
ghost use Rattle.grammar_core.specs.Unfit.{IsFit};
ghost use Rattle.grammar_core.specs.declared.table.Prod.TheVariants.{Call};

use crate::builder::Builder;
use crate::chains::Link;
use crate::lookup::{level_in, next_is};
use crate::repeated::Parts;
use crate::{Grammar, ParseFault, Prod};
use use_text::Token;

/// What is still to be done.
#[derive(Clone, Copy, Debug, PartialEq, Eq)]
pub(crate) enum Task {
    /// Read a production, at a level of nesting.
    Read(u16, u8),
    /// Put the trees from a place on below a rule.
    Close(u16, u64),
    /// Read a repetition, at a level of nesting, and then put the trees from a place on below a rule.
    Repeat(u16, u8, u16, u64),
}

/// Where a production is read: its number, the level of nesting, and the place of the next token.
#[derive(Clone, Copy)]
pub(crate) struct Position {
    pub(crate) prod: u16,
    pub(crate) level: u8,
    pub(crate) at: u32,
}

/// What a parse works on: the tasks that are left, the next one last, and the trees so far.
#[derive(Drop)]
pub(crate) struct Work {
    pub(crate) stack: Vec<Task>,
    pub(crate) built: Builder,
}

/// A step that was done: where it ended, and the task that comes next, unless it is the last one that
/// is left.
#[derive(Clone, Copy, Debug, PartialEq, Eq)]
pub(crate) struct Done {
    pub(crate) at: u32,
    pub(crate) next: Option<Task>,
}

fn put(stack: &mut Vec<Task>, task: Task) -> Result<(), ParseFault>
    ensures { MatchResult result (λ u. stack.new.items ≡ stack.old.items ++ task ∷ []) (λ e. e ≡ ParseFault.Memory) }
{
    match stack.push(task) {
        Ok(()) => Ok(()),
        Err(_) => Err(ParseFault::Memory),
    }
}

fn put_all(stack: &mut Vec<Task>, level: u8, ps: &[u16]) -> Result<(), ParseFault>
    ensures { MatchResult result (λ u. stack.new.items ≡ stack.old.items ++ reverse (reads level ps.now)) (λ e. e ≡ ParseFault.Memory) }
{
    let mut i = ps.len();
    'parts: while i > 0 {
        i -= 1;
        put(stack, Task::Read(ps[i], level))?;
    }
    Ok(())
}

/// Leaves the reading of each production in turn. The first one comes next.
fn put_seq(stack: &mut Vec<Task>, level: u8, ps: &[u16]) -> Result<Option<Task>, ParseFault>
    ensures { MatchResult result (λ next. stack.new.items ++ option_to_list next ≡ stack.old.items ++ reverse (reads level ps.now))
        (λ e. e ≡ ParseFault.Memory) }
{
    match ps {
        [] => Ok(None),
        [first, rest @ ..] => {
            put_all(stack, level, rest)?;
            Ok(Some(Task::Read(*first, level)))
        }
    }
}

/// Leaves the end of a rule to be done, and says what it reads first.
fn put_rule(g: &Grammar, r: u16, to: u16, level: u8, work: &mut Work) -> Result<u16, ParseFault>
    requires fit { IsFit g.now }
    requires inside { to < length g.now.prods }
    ensures { MatchResult result (λ first. (work.new.stack.items ++ Read first level ∷ []
        ≡ work.old.stack.items ++ rule_tasks g.now r to level (length (read_trees work.old.built)))
        × (work.new.built ≡ work.old.built)) (λ e. e ≡ ParseFault.Memory) }
{
    let start = work.built.len() as u64;
    match g.parts(to) {
        Some(Parts { first, repeated }) => {
            put(&mut work.stack, Task::Repeat(repeated, level, r, start))?;
            Ok(first)
        }
        None => {
            put(&mut work.stack, Task::Close(r, start))?;
            Ok(to)
        }
    }
}

/// Leaves the ends of rules that begin at a place to be done.
fn put_links(stack: &mut Vec<Task>, level: u8, start: u64, links: &[Link]) -> Result<(), ParseFault>
    ensures { MatchResult result (λ u. stack.new.items ≡ stack.old.items ++ map (λ l. Repeat l.repeated level l.rule start) links.now)
        (λ e. e ≡ ParseFault.Memory) }
{
    'links: for link in links {
        put(stack, Task::Repeat(link.repeated, level, link.rule, start))?;
    }
    Ok(())
}

/// Begins the rules that are read first here, and says what the last of them reads first.
fn begin_chain(g: &Grammar, here: Position, work: &mut Work) -> Result<Position, ParseFault>
    requires fit { IsFit g.now }
    requires all { AreTasks g.now (work.old.stack.items ++ Read here.prod here.level ∷ []) }
    ensures { MatchResult result (λ next. ((ks : List ℕ) → Begun g.now ks here next work.old.stack.items work.new.stack.items (read_trees work.old.built))
        × (work.new.built ≡ work.old.built)) (λ e. e ≡ ParseFault.Memory) }
{
    let start = work.built.len() as u64;
    match g.chain(here.prod) {
        None => Ok(here),
        Some(chain) => {
            put_links(&mut work.stack, here.level, start, chain.links.as_slice())?;
            Ok(Position {
                prod: chain.end,
                level: here.level,
                at: here.at,
            })
        }
    }
}

/// Begins a rule, and the rules that are its first part.
fn step_rule(
    g: &Grammar,
    tokens: &[Token],
    r: u16,
    here: Position,
    work: &mut Work,
) -> Result<Done, ParseFault>
    requires fit { IsFit g.now }
    requires is { slice_get g.now.prods here.prod ≡ Some (Call r) }
    requires all { AreTasks g.now work.old.stack.items }
    ensures { Stepped g.now (kinds tokens.now) result work.old work.new (answer_at g.now (kinds tokens.now) (Call r) here (read_trees work.old.built)) }
{
    let rule = g.rule_in(r);
    match level_in(rule, here.level) {
        Some(level) => {
            let prod = put_rule(g, r, rule.to, level, work)?;
            let inner = Position {
                prod,
                level,
                at: here.at,
            };
            let next = begin_chain(g, inner, work)?;
            Ok(Done {
                at: here.at,
                next: Some(Task::Read(next.prod, next.level)),
            })
        }
        None => Err(ParseFault::Deep { token: here.at }),
    }
}

/// Does one production, and leaves its parts to be done.
fn step_production(
    g: &Grammar,
    tokens: &[Token],
    x: &Prod,
    here: Position,
    work: &mut Work,
) -> Result<Done, ParseFault>
    requires fit { IsFit g.now }
    requires is { slice_get g.now.prods here.prod ≡ Some x.now }
    requires all { AreTasks g.now work.old.stack.items }
    requires few { length tokens.now < 2 ^ 32 }
    ensures { Stepped g.now (kinds tokens.now) result work.old work.new (answer_at g.now (kinds tokens.now) x.now here (read_trees work.old.built)) }
{
    let Position { prod, level, at } = here;
    match x {
        Prod::Tok(kind) => {
            if next_is(tokens, at, *kind) {
                work.built.push_token(*kind, at)?;
                Ok(Done {
                    at: at + 1,
                    next: None,
                })
            } else {
                Err(ParseFault::Stuck { token: at })
            }
        }
        Prod::Call(r) => step_rule(g, tokens, *r, here, work),
        Prod::Seq(ps) => {
            let next = put_seq(&mut work.stack, level, ps.as_slice())?;
            Ok(Done { at, next })
        }
        Prod::Case(branches, other) => {
            match g.branch_at(tokens, at, prod, branches.as_slice(), *other) {
                Some(q) => Ok(Done {
                    at,
                    next: Some(Task::Read(q, level)),
                }),
                None => Err(ParseFault::Stuck { token: at }),
            }
        }
        Prod::Star(firsts, q) => {
            if g.goes_on(tokens, at, prod, firsts.as_slice(), *q) {
                put(&mut work.stack, Task::Read(prod, level))?;
                Ok(Done {
                    at,
                    next: Some(Task::Read(*q, level)),
                })
            } else {
                Ok(Done { at, next: None })
            }
        }
    }
}

/// Does a repetition that is the last part of a rule, and ends the rule where it goes on no more.
fn step_repeat(
    g: &Grammar,
    tokens: &[Token],
    rule: u16,
    start: u64,
    here: Position,
    work: &mut Work,
) -> Result<Done, ParseFault>
    requires fit { IsFit g.now }
    requires star { IsStar g.now here.prod }
    requires all { AreTasks g.now work.old.stack.items }
    ensures { Stepped g.now (kinds tokens.now) result work.old work.new
        (task g.now (kinds tokens.now) (Repeat here.prod here.level rule start) here.at (read_trees work.old.built) 0) }
{
    let Position { prod, level, at } = here;
    match g.prod(prod) {
        Prod::Star(firsts, q) => {
            if g.goes_on(tokens, at, prod, firsts.as_slice(), *q) {
                put(&mut work.stack, Task::Repeat(prod, level, rule, start))?;
                Ok(Done {
                    at,
                    next: Some(Task::Read(*q, level)),
                })
            } else {
                work.built.close(rule, start)?;
                Ok(Done { at, next: None })
            }
        }
        _ => unreachable!(),
    }
}

fn step(
    g: &Grammar,
    tokens: &[Token],
    next: Task,
    at: u32,
    work: &mut Work,
) -> Result<Done, ParseFault>
    requires fit { IsFit g.now }
    requires inside { IsTask g.now next }
    requires all { AreTasks g.now work.old.stack.items }
    requires few { length tokens.now < 2 ^ 32 }
    ensures { Stepped g.now (kinds tokens.now) result work.old work.new (task g.now (kinds tokens.now) next at (read_trees work.old.built) 0) }
{
    match next {
        Task::Read(prod, level) => {
            let here = Position { prod, level, at };
            step_production(g, tokens, g.prod(prod), here, work)
        }
        Task::Close(rule, start) => {
            work.built.close(rule, start)?;
            Ok(Done { at, next: None })
        }
        Task::Repeat(prod, level, rule, start) => {
            let here = Position { prod, level, at };
            step_repeat(g, tokens, rule, start, here, work)
        }
    }
}

/// Whether a rule ends here whose last part is this repetition.
fn ends(g: &Grammar, tokens: &[Token], prod: u16, at: u32) -> bool
    requires star { IsStar g.now prod }
    ensures { result ≡ true → Ends g.now (kinds tokens.now) prod at }
{
    match g.prod(prod) {
        Prod::Star(firsts, q) => !g.goes_on(tokens, at, prod, firsts.as_slice(), *q),
        _ => unreachable!(),
    }
}

/// Does the ends of rules that come next, and takes the task behind them.
fn end_rules(
    g: &Grammar,
    tokens: &[Token],
    at: u32,
    work: &mut Work,
) -> Result<Option<Task>, ParseFault>
    requires fit { IsFit g.now }
    requires all { AreTasks g.now work.old.stack.items }
    ensures ended { MatchResult result (λ next. Ended g.now (kinds tokens.now) work.old.stack.items (left work.new.stack.items next) at
        (read_trees work.old.built) (read_trees work.new.built)) (λ e. e ≡ ParseFault.Memory) }
    ensures none { IfOk result (λ next. next ≡ None → work.new.stack.items ≡ []) }
{
    'rules: while let Some(task) = work.stack.pop() {
        match task {
            Task::Read(_, _) => return Ok(Some(task)),
            Task::Close(rule, start) => {
                work.built.close(rule, start)?;
            }
            Task::Repeat(prod, _, rule, start) => {
                if !ends(g, tokens, prod, at) {
                    return Ok(Some(task));
                }
                work.built.close(rule, start)?;
            }
        }
    }
    Ok(None)
}

/// The task that comes next: this one, or what is left behind the ends of rules.
fn take_next(
    g: &Grammar,
    tokens: &[Token],
    done: Done,
    work: &mut Work,
) -> Result<Option<Task>, ParseFault>
    requires fit { IsFit g.now }
    requires all { AreTasks g.now (left work.old.stack.items done.next) }
    ensures ended { MatchResult result (λ next. Ended g.now (kinds tokens.now) (left work.old.stack.items done.next) (left work.new.stack.items next) done.at
        (read_trees work.old.built) (read_trees work.new.built)) (λ e. e ≡ ParseFault.Memory) }
    ensures none { IfOk result (λ next. next ≡ None → work.new.stack.items ≡ []) }
{
    match done.next {
        Some(task) => Ok(Some(task)),
        None => end_rules(g, tokens, done.at, work),
    }
}

/// Reads a rule from the first token on, with a stack of its own, and says where it ends.
pub(crate) fn run(
    g: &Grammar,
    tokens: &[Token],
    start: u16,
    work: &mut Work,
) -> Result<u32, ParseFault>
    requires fit { IsFit g.now }
    requires rule { start < length g.now.rules }
    requires few { length tokens.now < 2 ^ 32 }
    requires none { work.old.stack.items ≡ [] }
    requires empty { read_trees work.old.built ≡ [] }
    ensures { Meets result (read_trees work.new.built) (of_production g.now (kinds tokens.now) (whole g.now (kinds tokens.now)) 0 (Some (Call start)) 0 [] 0) }
{
    let rule = g.rule_in(start);
    let Some(level) = level_in(rule, 0) else {
        return Err(ParseFault::Deep { token: 0 });
    };
    put(&mut work.stack, Task::Close(start, 0))?;
    let mut next = Some(Task::Read(rule.to, level));
    let mut at = 0;
    'steps: while let Some(task) = next {
        let done = match step(g, tokens, task, at, work) {
            Ok(done) => done,
            Err(e) => return Err(e),
        };
        at = done.at;
        next = take_next(g, tokens, done, work)?;
    }
    Ok(at)
}
