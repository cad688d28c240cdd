ghost use Rattle.std.specs.Prelude.{ℕ, List};
ghost use Rattle.use_text.specs.declared.place.Place.{Place};
ghost use Rattle.use_syntax.specs.Reading.{read_command, read_model};
ghost use Rattle.ocl_syntax.specs.Expressions.{written};
ghost use Rattle.ocl_syntax.specs.InTexts.{ReadHasTokenPlaces};
ghost use Rattle.ocl_syntax.specs.Places.{first_place, place};
ghost use Rattle.ocl_syntax.specs.Standing.{IsTokenPlaceOrZero, StandsIn};

use crate::Written;
use use_decls::Lexed;
use use_nodes::NodeRef;

/// A law: each place that stands in an expression that is written at a node is that of a token of the
/// text, or 0:0, which is told where the tree lacks a part or nests more than 1,000 forms. The function
/// does nothing; what it ensures is the law.
pub fn places_are_those_of_tokens(lexed: &Lexed<'_>, node: &NodeRef<'_>)
    ensures { (p : Place) → StandsIn p (written lexed.now node.now) → IsTokenPlaceOrZero lexed.now.tokens p }
{}

/// A law: each place that stands in an expression of a text that was read, of a model's or a command's,
/// is that of a token of the text, and not 0:0. So its tree lacks no part, and nests at most 1,000 forms.
/// The function does nothing; what it ensures is the law.
pub fn places_in_texts_are_those_of_tokens()
    ensures model { (text : List ℕ) → ReadHasTokenPlaces text (read_model text) }
    ensures command { (first_line : ℕ) (text : List ℕ) → ReadHasTokenPlaces text (read_command first_line text) }
{}

/// A law: the place of the first token of an expression, and that at which rules speak of it, stand in
/// it. The function does nothing; what it ensures is the law.
pub fn places_stand_in_expressions(expression: &Written)
    ensures first { StandsIn (first_place expression.now) expression.now }
    ensures spoken_of { StandsIn (place expression.now) expression.now }
{}
