ghost use Rattle.use_syntax.specs.declared.rule.Rule.TheVariants as r;
ghost use Rattle.grammar_core.specs.Unfit.{IsFit};
ghost use Rattle.use_syntax.specs.Language.{language};
ghost use Rattle.use_syntax.specs.Reading.{IsReadAsHeld, RefusalsStandAtTokens};

/// A law: no production of the language's grammar is unfit.
pub fn language_is_fit()
    ensures { IsFit language }
{}

/// A law: the tree or the refusal that tokens of a model or of a command are read as is the one that
/// the relation of derivations gives for them: `Derives`, `Stuck` or `Deep`, and exactly one holds.
pub fn readings_are_held()
    ensures model { IsReadAsHeld r.File }
    ensures command { IsReadAsHeld r.Command }
{}

/// A law: where the grammar refuses the tokens of a model or of a command, it does so at one of them,
/// so that the refusal's place is the place of a token, and never 0:0 for want of one.
pub fn refusals_stand_at_tokens()
    ensures model { RefusalsStandAtTokens r.File }
    ensures command { RefusalsStandAtTokens r.Command }
{}
