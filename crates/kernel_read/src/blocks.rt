// Blocks that are open, the innermost one last.
use kernel_code::{KExpr, KStmt, LoopKind};
use trees::Items;

/// How a block that is open began.
#[derive(Debug, Drop)]
pub enum Opening {
    /// As a loop.
    Loop(LoopKind, KExpr),
    /// As the first body of an `if`.
    Then(KExpr),
    /// As the second body of an `if`, behind this first one.
    Second(KExpr, Items<KStmt>),
}

/// A block that is open: the statements before it in the block around it, and how it began.
#[derive(Debug, Drop)]
pub struct Block {
    pub before: Items<KStmt>,
    pub opening: Opening,
}
