//! Arrays, operators and loops by their names.
use kernel_code::{Arr, LoopKind, Op};

/// The arrays that a run may write, each with the number of zeros that it starts with.
pub(crate) const OWN: [(&'static str, (Arr, usize)); 8] = [
    ("T0_val", (Arr::Values(0), 1)),
    ("T0_1_pos", (Arr::Ends(0, 1), 2)),
    ("T0_1_crd", (Arr::Coordinates(0, 1), 0)),
    ("T0_2_wid", (Arr::Width(0, 2), 0)),
    ("w0_key0", (Arr::Key(0, 0), 0)),
    ("w0_val", (Arr::Sums(0), 0)),
    ("g0_crd", (Arr::ListCoordinates(0), 0)),
    ("g0_pos", (Arr::ListPositions(0), 0)),
];

/// The other arrays that cases name.
const OTHERS: [(&'static str, Arr); 22] = [
    ("range", Arr::Range),
    ("T0_1_wid", Arr::Width(0, 1)),
    ("T0_2_pos", Arr::Ends(0, 2)),
    ("T0_2_crd", Arr::Coordinates(0, 2)),
    ("T1_val", Arr::Values(1)),
    ("T1_1_dim", Arr::Dimension(1, 1)),
    ("T1_1_pos", Arr::Ends(1, 1)),
    ("T1_1_crd", Arr::Coordinates(1, 1)),
    ("T1_1_wid", Arr::Width(1, 1)),
    ("T1_2_dim", Arr::Dimension(1, 2)),
    ("T1_2_pos", Arr::Ends(1, 2)),
    ("T1_2_crd", Arr::Coordinates(1, 2)),
    ("T1_3_pos", Arr::Ends(1, 3)),
    ("T1_3_crd", Arr::Coordinates(1, 3)),
    ("T2_1_pos", Arr::Ends(2, 1)),
    ("T3_4_wid", Arr::Width(3, 4)),
    ("T10_12_crd", Arr::Coordinates(10, 12)),
    ("w0_key1", Arr::Key(0, 1)),
    ("w1_val", Arr::Sums(1)),
    ("w12_key3", Arr::Key(12, 3)),
    ("g1_crd", Arr::ListCoordinates(1)),
    ("g1_pos", Arr::ListPositions(1)),
];

pub(crate) const OPERATORS: [(&'static str, Op); 9] = [
    ("+", Op::Add),
    ("-", Op::Sub),
    ("*", Op::Mul),
    ("&", Op::BitAnd),
    ("<", Op::Less),
    ("==", Op::Equal),
    ("!=", Op::NotEqual),
    ("&&", Op::And),
    ("||", Op::Or),
];

pub(crate) const LOOPS: [(&'static str, LoopKind); 5] = [
    ("merge", LoopKind::Merge),
    ("skip", LoopKind::Skip),
    ("gather", LoopKind::Gather),
    ("drain", LoopKind::Drain),
    ("probe", LoopKind::Probe),
];

/// What a name stands for, if it is in the table.
pub(crate) fn named<T: Copy>(table: &[(&'static str, T)], name: &str) -> Option<T> {
    for entry in table {
        if entry.0 == name {
            return Some(entry.1);
        }
    }
    None
}

/// The array of a name.
pub(crate) fn array(name: &str) -> Option<Arr> {
    match named(&OWN, name) {
        Some((array, _zeros)) => Some(array),
        None => named(&OTHERS, name),
    }
}
