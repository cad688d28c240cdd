ghost use Rattle.std.specs.Prelude.{List, ℕ};
ghost use Rattle.grammar_core.specs.Derives.{Derives};
ghost use Rattle.grammar_core.specs.Trees.{ParseTree};
ghost use Rattle.use_syntax.specs.declared.rule.Rule.{Rule};
ghost use Rattle.use_syntax.specs.Language.{language};
ghost use Rattle.use_syntax.specs.Numbers.{number_of_rule};
ghost use Rattle.use_syntax.specs.Reading.{read_command, read_model};
ghost use Rattle.use_nodes.specs.Depth.{IsShallow, ReadIsShallow};
ghost use Rattle.use_nodes.specs.Typed.{IsTyped, ReadIsTyped};
ghost use Rattle.use_nodes.specs.Whole.{IsWhole, ReadIsWhole};
ghost use Rattle.use_nodes.specs.Written.{IntegersAreNumbers};

/// A law: no node of a tree that the grammar derives, at any depth, lacks a part that its rule
/// requires. So in what a text is read as, each node has its parts.
pub fn trees_are_whole()
    ensures derived { (ks : List ℕ) (start : Rule) (tree : ParseTree) → Derives language ks (number_of_rule start) tree → IsWhole tree }
    ensures model { (text : List ℕ) → ReadIsWhole (read_model text) }
    ensures command { (first_line : ℕ) (text : List ℕ) → ReadIsWhole (read_command first_line text) }
{}

/// A law: each node of a tree that the grammar derives, at any depth, has below it what the grammar
/// gives its rule: the rule or the kind of token of each part, the least lengths of lists, what there
/// is once at most, and one operand more than operators.
pub fn trees_are_typed()
    ensures derived { (ks : List ℕ) (start : Rule) (tree : ParseTree) → Derives language ks (number_of_rule start) tree → IsTyped tree }
    ensures model { (text : List ℕ) → ReadIsTyped (read_model text) }
    ensures command { (first_line : ℕ) (text : List ℕ) → ReadIsTyped (read_command first_line text) }
{}

/// A law: in a tree that the grammar derives at most 200 nodes of rules that nest stand one in another:
/// types, unaries, expressions and statements.
pub fn trees_are_shallow()
    ensures derived { (ks : List ℕ) (start : Rule) (tree : ParseTree) → Derives language ks (number_of_rule start) tree → IsShallow tree }
    ensures model { (text : List ℕ) → ReadIsShallow (read_model text) }
    ensures command { (first_line : ℕ) (text : List ℕ) → ReadIsShallow (read_command first_line text) }
{}

/// A law: each token of a text that is an Integer's writes a number, for one that is too large is
/// refused before.
pub fn integers_are_numbers()
    ensures { IntegersAreNumbers }
{}
