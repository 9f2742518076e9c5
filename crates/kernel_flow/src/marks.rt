// A number for an expression, by which most others are told apart from it at once. No contract tells it: expressions of one mark are
// compared.
use kernel_code::{Arr, KExpr, Op};

/// A number of two, in order.
fn mixed(first: u64, second: u64) -> u64 {
    first
        .wrapping_mul(6_364_136_223_846_793_005)
        .wrapping_add(second)
        .wrapping_mul(1_442_695_040_888_963_407)
}

fn mark_of_array(array: Arr) -> u64 {
    match array {
        Arr::Range => 1,
        Arr::Dimension(tensor, level) => mixed(mixed(2, tensor), level),
        Arr::Values(tensor) => mixed(3, tensor),
        Arr::Ends(tensor, level) => mixed(mixed(4, tensor), level),
        Arr::Coordinates(tensor, level) => mixed(mixed(5, tensor), level),
        Arr::Width(tensor, level) => mixed(mixed(6, tensor), level),
        Arr::Key(workspace, key) => mixed(mixed(7, workspace), key),
        Arr::Sums(workspace) => mixed(8, workspace),
        Arr::ListCoordinates(list) => mixed(9, list),
        Arr::ListPositions(list) => mixed(10, list),
    }
}

fn mark_of_operator(op: Op) -> u64 {
    match op {
        Op::Add => 1,
        Op::Sub => 2,
        Op::Mul => 3,
        Op::BitAnd => 4,
        Op::Less => 5,
        Op::Equal => 6,
        Op::NotEqual => 7,
        Op::And => 8,
        Op::Or => 9,
    }
}

/// The mark of an expression: equal ones have equal marks.
pub(crate) fn mark_of(e: &KExpr) -> u64 {
    match e {
        KExpr::Num(n) => mixed(1, *n),
        KExpr::Var(x) => mixed(2, *x),
        KExpr::At(array, i) => mixed(mark_of_array(*array), mark_of(i.get())),
        KExpr::Len(array) => mixed(3, mark_of_array(*array)),
        KExpr::Bin(op, a, b) => {
            let operands = mixed(mark_of(a.get()), mark_of(b.get()));
            mixed(operands, mark_of_operator(*op))
        }
        KExpr::Min(a, b) => mixed(mark_of(a.get()), mark_of(b.get())),
        KExpr::Width(e) => mixed(4, mark_of(e.get())),
    }
}
