ghost use Rattle.std.specs.Prelude.{◌≡◌, ◌<◌, length, Bool, IsTrue, List, ℕ};
ghost use Rattle.grammar_core.specs.declared.table.Table.{Table};
ghost use Rattle.grammar_core.specs.Derives.{Derives, GivesOnce, Holds, HoldsOnce};
ghost use Rattle.grammar_core.specs.Parses.{verdict};
ghost use Rattle.grammar_core.specs.Trees.{ParseTree, leaves, numbered};
ghost use Rattle.grammar_core.specs.Unfit.{IsFit, IsTable};
ghost use Rattle.grammar_core.specs.Certificate.{are_certified};

/// A law: over a fit table each production gives exactly one outcome.
pub fn gives_once()
    ensures { (g : Table) (ks : List ℕ) (p level at : ℕ) → IsFit g → p < length g.prods → GivesOnce g ks p level at }
{}

/// A law: over a fit table the tokens have one tree as a rule, or are stuck at one place, or are too
/// deep at one place.
pub fn holds_once()
    ensures { (g : Table) (ks : List ℕ) (r : ℕ) → IsFit g → r < length g.rules → HoldsOnce g ks r }
{}

/// A law: the leaves of a tree, from left to right, are all the tokens.
pub fn leaves_are_tokens()
    ensures { (g : Table) (ks : List ℕ) (r : ℕ) (tree : ParseTree) → Derives g ks r tree → leaves tree ≡ numbered 0 ks }
{}

/// A law: a table is fit where ranks and marks show it, row by row. Where the table is a literal, so
/// does a computation.
pub fn certified_tables_are_fit()
    ensures { (g : Table) (ranks : List ℕ) (seen : List Bool) → IsTable g → IsTrue (are_certified g ranks seen 0 g.prods) → IsFit g }
{}

/// A law: over a fit table the verdict that is computed is the one that holds.
pub fn verdict_holds()
    ensures { (g : Table) (ks : List ℕ) (r : ℕ) → IsFit g → r < length g.rules → Holds g ks r (verdict g ks r) }
{}
