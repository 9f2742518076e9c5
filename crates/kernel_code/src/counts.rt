//! How many statements begin in code.
ghost use Rattle.std.specs.Prelude.{◌≡◌};
ghost use Rattle.kernel_code.specs.Arrays.{word_count};
ghost use Rattle.kernel_code.specs.Meaning.{statements_in, statements_in_list};

use crate::syntax::KStmt;

/// How many statements begin in a statement: itself and those of its bodies. The number stays at the last word.
#[cycle(count)]
#[tactic(auto, unfolding(crate::specs::Arrays::word_count))]
fn count_in(s: &KStmt) -> u64
    ensures { result ≡ word_count (statements_in s.now) }
{
    match s {
        KStmt::If(_, first, second) => {
            let first = count_statements(first.as_slice());
            let second = count_statements(second.as_slice());
            first.saturating_add(second).saturating_add(1)
        }
        KStmt::While(_, _, body) => count_statements(body.as_slice()).saturating_add(1),
        KStmt::Set(..) | KStmt::Combine(..) | KStmt::Put(..) | KStmt::AddTo(..) => 1,
        KStmt::Push(..) | KStmt::Extend(..) | KStmt::Cut(..) => 1,
        KStmt::Sort(_) | KStmt::SortSum(_) => 1,
    }
}

/// How many statements begin in code: its own and those of their bodies. The number stays at the last word. It takes time linear in
/// the code's size, and calls itself as deep as statements are nested.
#[cycle(count)]
pub fn count_statements(statements: &[KStmt]) -> u64
    ensures { result ≡ word_count (statements_in_list statements.now) }
{
    let mut count: u64 = 0;
    for s in statements {
        count = count.saturating_add(count_in(s));
    }
    count
}
