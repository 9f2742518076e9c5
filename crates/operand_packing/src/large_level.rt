//! A level that would be too large.

/// A level that would have more positions than may be: that of a tensor, of whose levels the top one is number 1. The result is tensor 0.
#[derive(Clone, Copy, Debug, PartialEq, Eq, Drop)]
pub struct LargeLevel {
    pub tensor: usize,
    pub level: usize,
    /// How many positions it would have.
    pub count: u128,
}
