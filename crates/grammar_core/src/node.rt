/// A node of a tree. The nodes below a rule stand side by side, before it.
#[derive(Clone, Copy, Debug, PartialEq, Eq)]
pub enum Node {
    /// A token: its kind, and its place in the list.
    Token(u16, u32),
    /// A rule: its number, the place of the first node below it, and how many are below it.
    Rule(u16, u64, u64),
}
