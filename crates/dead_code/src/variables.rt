// How many variables code sets: those past the greatest number that is kept count as read.
use kernel_code::KStmt;

/// The greatest number of variables that are looked at.
const MOST: usize = 1 << 16;

#[cycle(count)]
fn count_in(s: &KStmt) -> usize {
    match s {
        KStmt::Set(x, _) | KStmt::Combine(x, _, _, _) => {
            if *x < MOST as u64 {
                *x as usize + 1
            } else {
                MOST
            }
        }
        KStmt::If(_, first, second) => {
            let first = count_variables(first.as_slice());
            first.max(count_variables(second.as_slice()))
        }
        KStmt::While(_, _, body) => count_variables(body.as_slice()),
        _ => 0,
    }
}

/// One more than the greatest variable that code sets, and at most 2^16.
#[cycle(count)]
pub(crate) fn count_variables(code: &[KStmt]) -> usize {
    let mut count = 0;
    for s in code {
        count = count.max(count_in(s));
    }
    count
}
