use use_lists::Items;

/// The kinds of token that a branch begins with, and its production.
#[derive(Debug, Drop, PartialEq, Eq)]
pub struct Branch {
    pub firsts: Items<u16>,
    pub to: u16,
}

/// A production. A number in `Seq`, `Case` and `Star` is a place in the table of productions.
#[derive(Debug, Drop, PartialEq, Eq)]
pub enum Prod {
    /// One token of this kind.
    Tok(u16),
    /// The rule of this number.
    Call(u16),
    /// Each in turn.
    Seq(Items<u16>),
    /// The first branch that lists the next token's kind, or else the other production.
    Case(Items<Branch>, Option<u16>),
    /// As often as the next token is of one of these kinds.
    Star(Items<u16>, u16),
}

/// Productions, and rules by number: the production of each, and whether it nests.
#[derive(Debug, Drop, PartialEq, Eq)]
pub struct Table {
    pub prods: Items<Prod>,
    pub rules: Items<u16>,
    pub nests: Items<bool>,
}

/// The production of a rule, and whether the rule counts as a level of nesting.
#[derive(Clone, Copy, Debug, PartialEq, Eq)]
pub struct Rule {
    pub to: u16,
    pub nests: bool,
}
