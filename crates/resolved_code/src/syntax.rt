use kernel_code::{Arr, KExpr, LoopKind, ValueOp};
use trees::Items;

/// An expression whose operands are read where they stand, if it has one of these forms, and else an expression as it is.
#[derive(Debug, Drop)]
pub enum Value {
    /// The number.
    Number(u64),
    /// The value of a variable.
    Variable(u64),
    /// A variable and a number, added.
    AddNumber(u64, u64),
    /// Two variables, added.
    Add(u64, u64),
    /// Whether a variable is less than a number.
    LessNumber(u64, u64),
    /// Whether a variable is less than another.
    Less(u64, u64),
    /// Whether two variables are equal.
    Equal(u64, u64),
    /// The least of two variables.
    Least(u64, u64),
    /// The word of an array at the index that a variable has.
    Word(Arr, u64),
    /// The word of an array at a variable and a number, added.
    WordAfter(Arr, u64, u64),
    /// The word of an array at the word of another, given behind it, at a variable.
    WordOfWord(Arr, Arr, u64),
    /// Whether a variable is less than the word of an array at a number.
    LessWord(u64, Arr, u64),
    /// Whether a variable is less than the word of an array at another variable and a number, added.
    LessWordAfter(u64, Arr, u64, u64),
    /// The words of two arrays at variables, multiplied.
    Product(Arr, u64, Arr, u64),
    /// The word of an array at a variable, multiplied by that of another at the word of a third at a variable.
    ProductOfWord(Arr, u64, Arr, Arr, u64),
    /// Any other expression.
    Other(KExpr),
}

/// A statement whose expressions are resolved.
#[derive(Debug, Drop)]
pub enum Resolved {
    /// Adds a number to a variable.
    Count(u64, u64),
    /// Gives a variable a value.
    Set(u64, Value),
    /// Gives a variable the sum or the product of two values.
    Combine(u64, ValueOp, Value, Value),
    /// Stores at an index, given first, a word.
    Put(Arr, Value, Value),
    /// Adds, at an index, a word.
    AddTo(Arr, Value, Value),
    /// Appends a word.
    Push(Arr, Value),
    /// Appends so many copies, the number given first, of a word.
    Extend(Arr, Value, Value),
    /// Keeps the first so many words.
    Cut(Arr, Value),
    /// Sorts the rows of a scratch list.
    Sort(u64),
    /// Sorts the rows of a workspace, and adds those with equal keys.
    SortSum(u64),
    /// The first body where the test isn't 0, else the second.
    If(Value, Items<Resolved>, Items<Resolved>),
    /// The body again and again while the test isn't 0.
    While(LoopKind, Value, Items<Resolved>),
}
