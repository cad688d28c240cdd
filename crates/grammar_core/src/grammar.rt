ghost use Rattle.std.specs.Prelude.{◌≡◌, ◌≤◌, ◌<◌, length, slice_get, Some, IfOk, IfErr, IfSome, IsTrue};
ghost use Rattle.grammar_core.specs.declared.table.Prod.TheVariants.{Case, Star};
ghost use Rattle.grammar_core.specs.Derives.{begins, branch_of, kinds};
ghost use Rattle.grammar_core.specs.Chains.{Leads};
ghost use Rattle.grammar_core.specs.Repetitions.{repeated_parts};
ghost use Rattle.grammar_core.specs.Tables.{rule_at, table_of};
ghost use Rattle.grammar_core.specs.Unfit.{all_inside, IsGrammarFault, IsFit};

use crate::chains::{Chain, all_chains};
use crate::choices::{Cells, all_cells, told_choice};
use crate::fitness::first_unfit;
use crate::lookup::{begins, branch_of};
use crate::repeated::{Parts, all_parts};
use crate::{Branch, GrammarFault, Prod, Rule, Table};
use std::alloc::{AllocError, Global};
use std::marker::Model;
use use_lists::Items;
use use_text::Token;

/// A table in which no production is unfit, so that each parse ends with exactly one answer.
#[derive(Debug, Drop)]
pub struct Grammar {
    table: Table,
    /// What each choice leads to, by the kind of the next token.
    cells: Vec<Cells>,
    /// The parts of each production that is one part and a repetition.
    parts: Vec<Option<Parts>>,
    /// The rules that each production begins, one as the first part of another.
    chains: Items<Chain>,
}

impl Model for Grammar {
    ghost use Rattle.grammar_core.specs.declared.table.Table.{Table};
    ghost use Rattle.grammar_core.specs.Choices.{AreByKind};
    ghost use Rattle.grammar_core.specs.Chains.{AreChains};
    ghost use Rattle.grammar_core.specs.Repetitions.{all_parts};
    ghost use Rattle.grammar_core.specs.Unfit.{IsFit};
    ghost use Rattle.std.specs.Prelude.{◌≡◌};

    ghost Value = { Table };

    ghost view = { λ g. g.table };

    ghost invariant = { λ g. IsFit g.table × AreByKind g.table.prods g.cells.items × (g.parts.items ≡ all_parts g.table) × AreChains g.table g.chains };
}

impl Grammar {
    /// Tests a table: `rules` has the production of each rule, and `nests` whether the rule counts
    /// as a level of nesting.
    pub fn new(
        alloc: Global,
        prods: Vec<Prod>,
        rules: Vec<u16>,
        nests: Vec<bool>,
    ) -> Result<Grammar, GrammarFault>
        requires few { length prods.items ≤ 65536 }
        requires paired { length nests.items ≡ length rules.items }
        requires inside { IsTrue (all_inside (length prods.items) rules.items) }
        ensures ok { IfOk result (λ g. g ≡ table_of prods.items rules.items nests.items) }
        ensures fit { IfOk result (λ g. IsFit g) }
        ensures err { IfErr result (IsGrammarFault (table_of prods.items rules.items nests.items)) }
    {
        let table = Table {
            prods: Items::from_vec(prods),
            rules: Items::from_vec(rules),
            nests: Items::from_vec(nests),
        };
        match first_unfit(alloc, &table)? {
            None => Ok(Grammar::of_table(alloc, table)?),
            Some(prod) => Err(GrammarFault::Unfit { prod }),
        }
    }

    /// A table that is known to be fit, which is not tested.
    pub fn of_fit(
        alloc: Global,
        prods: Vec<Prod>,
        rules: Vec<u16>,
        nests: Vec<bool>,
    ) -> Result<Grammar, AllocError>
        requires { IsFit (table_of prods.items rules.items nests.items) }
        ensures is { IfOk result (λ g. g ≡ table_of prods.items rules.items nests.items) }
        ensures fit { IfOk result (λ g. IsFit g) }
    {
        Grammar::of_table(
            alloc,
            Table {
                prods: Items::from_vec(prods),
                rules: Items::from_vec(rules),
                nests: Items::from_vec(nests),
            },
        )
    }

    fn of_table(alloc: Global, table: Table) -> Result<Grammar, AllocError>
        requires { IsFit table }
        ensures { IfOk result (λ g. g ≡ table) }
    {
        let cells = all_cells(alloc, table.prods.as_slice())?;
        let parts = all_parts(alloc, &table)?;
        let chains = Items::from_vec(all_chains(alloc, &table)?);
        Ok(Grammar {
            table,
            cells,
            parts,
            chains,
        })
    }

    pub(crate) fn table(&self) -> &Table
        ensures is { result.now ≡ self.now }
        ensures fit { IsFit self.now }
    {
        &self.table
    }

    /// The production of a number.
    pub(crate) fn prod(&self, p: u16) -> &Prod
        requires { p < length self.now.prods }
        ensures { slice_get self.now.prods p ≡ Some result.now }
    {
        &self.table.prods.as_slice()[p as usize]
    }

    /// The rule of a number.
    pub(crate) fn rule_in(&self, r: u16) -> Rule
        requires rules { r < length self.now.rules }
        requires nests { r < length self.now.nests }
        ensures { rule_at self.now r ≡ Some result }
    {
        let to = self.table.rules.as_slice()[r as usize];
        let nests = self.table.nests.as_slice()[r as usize];
        Rule { to, nests }
    }

    /// The parts of a production that is one part and a repetition.
    pub(crate) fn parts(&self, p: u16) -> Option<Parts>
        requires { p < length self.now.prods }
        ensures { result ≡ repeated_parts self.now p }
    {
        self.parts[p as usize]
    }

    /// The rules that a production begins, if they are kept.
    pub(crate) fn chain(&self, p: u16) -> Option<&Chain>
        ensures { IfSome result (λ c. Leads self.now p c.now.links c.now.end) }
    {
        self.chains.get(p as usize)
    }

    /// The production of the branch that is taken at a place.
    pub(crate) fn branch_at(
        &self,
        tokens: &[Token],
        at: u32,
        p: u16,
        branches: &[Branch],
        other: Option<u16>,
    ) -> Option<u16>
        requires { slice_get self.now.prods p ≡ Some (Case branches.now other) }
        ensures { result ≡ branch_of (kinds tokens.now) at branches.now other }
    {
        match told_choice(self.cells.as_slice(), tokens, at, p) {
            Some(choice) => choice,
            None => branch_of(tokens, at, branches, other),
        }
    }

    /// Whether a production is read once more at a place.
    #[inline]
    pub(crate) fn goes_on(&self, tokens: &[Token], at: u32, p: u16, firsts: &[u16], q: u16) -> bool
        requires { slice_get self.now.prods p ≡ Some (Star firsts.now q) }
        ensures { result ≡ begins (kinds tokens.now) at firsts.now }
    {
        match told_choice(self.cells.as_slice(), tokens, at, p) {
            Some(choice) => choice.is_some(),
            None => begins(tokens, at, firsts),
        }
    }
}
