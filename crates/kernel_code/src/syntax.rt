use trees::{Boxed, Items};

/// The name of an array. T0 is the result and T1 and on are the operands; levels count from 1, keys of
/// a workspace from 0. A kernel writes T0's `Ends`, `Coordinates`, `Width` and `Values`, and the arrays
/// of workspaces and scratch lists.
#[derive(Clone, Copy, Debug, PartialEq, Eq, Drop)]
pub enum Arr {
    /// `range`: one word for each variable of the statement.
    Range,
    /// `Tn_val`: the values of tensor n.
    Values(u64),
    /// `Tn_k_dim`: one word, the size of dense level k of tensor n.
    Dimension(u64, u64),
    /// `Tn_k_pos`: the ends of the segments of compressed level k of tensor n.
    Ends(u64, u64),
    /// `Tn_k_crd`: the coordinates of compressed, singleton or hashed level k of tensor n.
    Coordinates(u64, u64),
    /// `Tn_k_wid`: one word, the width of the segments of hashed level k of tensor n.
    Width(u64, u64),
    /// `wn_keyk`: key k of the rows of workspace n.
    Key(u64, u64),
    /// `wn_val`: the values of the rows of workspace n.
    Sums(u64),
    /// `gn_crd`: the coordinates of the rows of scratch list n.
    ListCoordinates(u64),
    /// `gn_pos`: the positions of the rows of scratch list n.
    ListPositions(u64),
}

/// What a loop is for. Turns are counted for each kind.
#[derive(Clone, Copy, Debug, PartialEq, Eq, Drop)]
pub enum LoopKind {
    /// Over the coordinates of a variable.
    Merge,
    /// Over the positions of a group of duplicates.
    Skip,
    /// Over the slots of a hashed segment, into a scratch list.
    Gather,
    /// Over the rows of a workspace.
    Drain,
    /// In search of one coordinate.
    Probe,
}

/// An operator of two words. `Add`, `Sub` and `Mul` are modulo 2^64, `BitAnd` goes bit by bit, and the
/// others answer 1 or 0. The second operand of `And` counts only where the first isn't 0, that of `Or`
/// only where the first is 0.
#[derive(Clone, Copy, Debug, PartialEq, Eq, Drop)]
pub enum Op {
    Add,
    Sub,
    Mul,
    BitAnd,
    Less,
    Equal,
    NotEqual,
    And,
    Or,
}

/// An operator of two values: their sum or their product, by the kernel's semiring.
#[derive(Clone, Copy, Debug, PartialEq, Eq, Drop)]
pub enum ValueOp {
    Plus,
    Times,
}

/// An expression, whose value is a word.
#[derive(Debug, Drop)]
pub enum KExpr {
    /// The number.
    Num(u64),
    /// The value of a variable.
    Var(u64),
    /// The word of an array at an index.
    At(Arr, Boxed<KExpr>),
    /// The number of words of an array.
    Len(Arr),
    /// An operator of two words.
    Bin(Op, Boxed<KExpr>, Boxed<KExpr>),
    /// The least of two words.
    Min(Boxed<KExpr>, Boxed<KExpr>),
    /// The smallest power of two that is at least 2 and at least twice the word. A word above 2^62 has
    /// none.
    Width(Boxed<KExpr>),
}

/// A statement.
#[derive(Debug, Drop)]
pub enum KStmt {
    /// Gives a variable a value.
    Set(u64, KExpr),
    /// Gives a variable the sum or the product of two values. It stands in kernels over another semiring than the ring alone.
    Combine(u64, ValueOp, KExpr, KExpr),
    /// Stores at an index, given first, a word.
    Put(Arr, KExpr, KExpr),
    /// Adds, at an index, a word.
    AddTo(Arr, KExpr, KExpr),
    /// Appends a word.
    Push(Arr, KExpr),
    /// Appends so many copies, the number given first, of a word.
    Extend(Arr, KExpr, KExpr),
    /// Keeps the first so many words.
    Cut(Arr, KExpr),
    /// Sorts the rows of a scratch list by their coordinates; rows with equal ones stay in order.
    Sort(u64),
    /// Sorts the rows of a workspace by their keys; rows with equal keys become one with the sum of
    /// their values.
    SortSum(u64),
    /// The first body where the test isn't 0, else the second.
    If(KExpr, Items<KStmt>, Items<KStmt>),
    /// The body again and again while the test isn't 0. A turn is one start of the body.
    While(LoopKind, KExpr, Items<KStmt>),
}

/// The semiring that a kernel's values are of. It tells by which sums and products `Combine`, `AddTo` of values and `SortSum` go.
#[derive(Debug, Drop)]
pub enum KernelSemiring {
    /// The whole numbers modulo 2^64: values are added and multiplied as words are.
    Ring,
    /// Another one, of this name, in small letters.
    Named(Items<u8>),
}

/// A kernel: the semiring of its values, the number of keys of each workspace, the number of scratch lists, and the code.
#[derive(Debug, Drop)]
pub struct Kernel {
    pub semiring: KernelSemiring,
    pub workspaces: Items<u64>,
    pub lists: u64,
    pub body: Items<KStmt>,
}

/// How many turns loops of each kind made. A count that has reached the last word stays there.
#[derive(Clone, Copy, Debug, PartialEq, Eq, Drop)]
pub struct Turns {
    pub merge: u64,
    pub skip: u64,
    pub gather: u64,
    pub drain: u64,
    pub probe: u64,
}

/// Where a growth was refused: a level of the result, 0 where its order is 0, or a workspace.
#[derive(Clone, Copy, Debug, PartialEq, Eq, Drop)]
pub enum Place {
    Level(usize),
    Workspace,
}
