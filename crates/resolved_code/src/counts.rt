//! How many statements begin in resolved code.
ghost use Rattle.std.specs.Prelude.{◌≡◌, map};
ghost use Rattle.kernel_code.specs.Arrays.{word_count};
ghost use Rattle.kernel_code.specs.Meaning.{statements_in, statements_in_list};
ghost use Rattle.resolved_code.specs.Erase.{erase};

use crate::syntax::Resolved;

/// How many statements begin in a statement: itself and those of its bodies. The number stays at the last word.
#[cycle(count)]
#[tactic(auto, unfolding(kernel_code::specs::Arrays::word_count))]
fn count_in(s: &Resolved) -> u64
    ensures { result ≡ word_count (statements_in (erase s.now)) }
{
    match s {
        Resolved::If(_, first, second) => {
            let first = count_resolved(first.as_slice());
            let second = count_resolved(second.as_slice());
            first.saturating_add(second).saturating_add(1)
        }
        Resolved::While(_, _, body) => count_resolved(body.as_slice()).saturating_add(1),
        Resolved::Count(..) | Resolved::Set(..) | Resolved::Combine(..) => 1,
        Resolved::Put(..) | Resolved::AddTo(..) | Resolved::Push(..) => 1,
        Resolved::Extend(..) | Resolved::Cut(..) => 1,
        Resolved::Sort(_) | Resolved::SortSum(_) => 1,
    }
}

/// How many statements begin in code: its own and those of their bodies. The number stays at the last word. It takes time linear in
/// the code's size, and calls itself as deep as statements are nested.
#[cycle(count)]
pub fn count_resolved(statements: &[Resolved]) -> u64
    ensures { result ≡ word_count (statements_in_list (map erase statements.now)) }
{
    let mut count: u64 = 0;
    for s in statements {
        count = count.saturating_add(count_in(s));
    }
    count
}
