//! What is printed beside replies and audit lines.

/// What is printed beside replies and audit lines.
#[derive(Clone, Copy)]
pub struct Shown {
    /// After each reply, what it says in words.
    pub is_decoded: bool,
    /// After each audit line, the name of the call's procedure and the path of its file.
    pub is_named: bool,
}
