// Which maps roots get.

/// Which maps roots get.
#[derive(Clone, Copy, PartialEq, Eq, Debug)]
pub enum Maps {
    /// Those that the text names.
    AsIs,
    /// A block map over its own box for each.
    Block,
    /// A cyclic map from its least members for each.
    Cyclic,
}
