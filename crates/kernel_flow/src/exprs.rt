// Expressions: which keep their value while a variable or an array changes.
ghost use Rattle.std.specs.Prelude.{◌≡◌, ◌≢◌, ◌%◌, IsTrue};
ghost use Rattle.std.specs.Int.{bit_at};
ghost use Rattle.kernel_code.specs.Arrays.{may_write};
ghost use Rattle.kernel_code.specs.Keeps.{Mentions};
ghost use Rattle.kernel_flow.specs.Steady.{AnyVariable, Covers, IsReadOnly, IsWithin};
ghost use Rattle.simplifier.specs.Folded.{number_of};

use kernel_code::{Arr, KExpr};

/// The number that an expression is, if it is one.
pub(crate) fn number(e: &KExpr) -> Option<u64>
    ensures { result ≡ number_of e.now }
{
    match e {
        KExpr::Num(n) => Some(*n),
        _ => None,
    }
}

/// Whether an array holds the ranges.
pub(crate) fn is_range(array: Arr) -> bool
    ensures { IsTrue result → array ≡ Arr.Range }
{
    match array {
        Arr::Range => true,
        _ => false,
    }
}

/// Whether no kernel writes an array.
pub(crate) fn is_read_only(array: Arr) -> bool
    ensures { IsTrue result → IsReadOnly array }
{
    match array {
        Arr::Range => true,
        Arr::Dimension(_, _) => true,
        Arr::Values(tensor) => tensor != 0,
        Arr::Ends(tensor, _) => tensor != 0,
        Arr::Coordinates(tensor, _) => tensor != 0,
        Arr::Width(tensor, _) => tensor != 0,
        Arr::Key(_, _) => false,
        Arr::Sums(_) => false,
        Arr::ListCoordinates(_) => false,
        Arr::ListPositions(_) => false,
    }
}

/// Whether an expression mentions neither this variable nor an array that may be written.
pub(crate) fn is_steady(e: &KExpr, x: u64) -> bool
    ensures { IsTrue result → Mentions (λ y. x ≢ y) IsReadOnly e.now }
{
    match e {
        KExpr::Num(_) => true,
        KExpr::Var(y) => *y != x,
        KExpr::At(array, i) => is_read_only(*array) && is_steady(i.get(), x),
        KExpr::Len(array) => is_read_only(*array),
        KExpr::Bin(_, a, b) => is_steady(a.get(), x) && is_steady(b.get(), x),
        KExpr::Min(a, b) => is_steady(a.get(), x) && is_steady(b.get(), x),
        KExpr::Width(e) => is_steady(e.get(), x),
    }
}

/// Whether an expression mentions no array that may be written.
pub(crate) fn is_fixed(e: &KExpr) -> bool
    ensures { IsTrue result → Mentions AnyVariable IsReadOnly e.now }
{
    match e {
        KExpr::Num(_) => true,
        KExpr::Var(_) => true,
        KExpr::At(array, i) => is_read_only(*array) && is_fixed(i.get()),
        KExpr::Len(array) => is_read_only(*array),
        KExpr::Bin(_, a, b) => is_fixed(a.get()) && is_fixed(b.get()),
        KExpr::Min(a, b) => is_fixed(a.get()) && is_fixed(b.get()),
        KExpr::Width(e) => is_fixed(e.get()),
    }
}

/// The bits of the variables that an expression mentions, each at the variable's remainder by 64, beside bits that were noted; every bit,
/// if it mentions an array that may be written.
pub(crate) fn bits_of(e: &KExpr, noted: u64) -> u64
    ensures covers { Covers result e.now }
    ensures within { IsWithin noted result }
{
    match e {
        KExpr::Num(_) => noted,
        KExpr::Var(x) => noted | (1 << (*x % 64)),
        KExpr::At(array, i) if is_read_only(*array) => bits_of(i.get(), noted),
        KExpr::At(_, _) => u64::MAX,
        KExpr::Len(array) if is_read_only(*array) => noted,
        KExpr::Len(_) => u64::MAX,
        KExpr::Bin(_, a, b) => {
            let first = bits_of(a.get(), noted);
            bits_of(b.get(), first)
        }
        KExpr::Min(a, b) => {
            let first = bits_of(a.get(), noted);
            bits_of(b.get(), first)
        }
        KExpr::Width(e) => bits_of(e.get(), noted),
    }
}

/// Whether the bit of a variable is 0.
pub(crate) fn is_clear(bits: u64, x: u64) -> bool
    ensures { IsTrue result → bit_at bits (x % 64) ≡ 0 }
{
    (bits >> (x % 64)) & 1 == 0
}
