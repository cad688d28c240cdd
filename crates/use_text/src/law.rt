ghost use Rattle.use_text.specs.Lexemes.{LexemesExist, LexemesAreUnique, TokensAreLexemes};

/// What the tokens of a text are, beside how they are read. From the text's start lexemes stand one
/// behind another, which are white space, comments and tokens, each the longest that stands there.
/// There is one such list for each text, and the tokens are its. Where a lexeme is past its limit, or
/// the lexemes end before the text does, the text is refused there.
pub fn tokens_are_the_lexemes()
    ensures exist { LexemesExist }
    ensures unique { LexemesAreUnique }
    ensures tokens { TokensAreLexemes }
{}
