use grammar_core::Tree;
use use_text::{Bytes, Tokens};

/// A text that was read: its tree, its tokens, which the tree's leaves name by their places, and the
/// text, in which the tokens stand.
#[derive(Debug, Drop)]
pub struct Parsed {
    pub tree: Tree,
    pub tokens: Tokens,
    pub text: Bytes,
}

/// A text that was read, without the text: its tree, and its tokens, which the tree's leaves name by
/// their places.
#[derive(Debug, Drop)]
pub struct TokenTree {
    pub tree: Tree,
    pub tokens: Tokens,
}
