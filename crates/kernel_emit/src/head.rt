//! What the test of a loop is made from.

use level_location::LoopCursor;
use loop_code::{LoopCode, Seek};
use term_code::Places;

/// A loop where it begins.
#[derive(Drop)]
pub(crate) struct Head<'a> {
    /// Where each access is kept before the loop.
    pub places: &'a Places,
    pub body: &'a LoopCode,
    /// The levels that cursors go over.
    pub walked: &'a [Seek],
    pub cursors: &'a [LoopCursor],
    pub variable: u64,
}
