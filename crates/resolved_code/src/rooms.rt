//! The greatest variable of resolved code, so that each can be given a place before a run.
ghost use Rattle.std.specs.Prelude.{◌≡◌, max};
ghost use Rattle.resolved_code.specs.Rooms.{room_to, room_of_value, room_of_statement, room_of_code};

use crate::syntax::{Resolved, Value};

/// The greater of two variables, as far as there are any.
fn greater(a: Option<u64>, b: Option<u64>) -> Option<u64>
    ensures { room_to result ≡ max (room_to a) (room_to b) }
{
    match (a, b) {
        (Some(x), Some(y)) => Some(x.max(y)),
        (Some(x), None) => Some(x),
        (None, b) => b,
    }
}

/// The greatest variable that an expression reads where it stands.
fn greatest_of(v: &Value) -> Option<u64>
    ensures { room_to result ≡ room_of_value v.now }
{
    match v {
        Value::Number(_) | Value::Other(_) => None,
        Value::Variable(x) | Value::AddNumber(x, _) | Value::LessNumber(x, _) => Some(*x),
        Value::Word(_, x) | Value::WordAfter(_, x, _) | Value::WordOfWord(_, _, x) => Some(*x),
        Value::LessWord(x, _, _) => Some(*x),
        Value::Add(x, y) | Value::Less(x, y) | Value::Equal(x, y) | Value::Least(x, y) => {
            greater(Some(*x), Some(*y))
        }
        Value::LessWordAfter(x, _, y, _)
        | Value::Product(_, x, _, y)
        | Value::ProductOfWord(_, x, _, _, y) => greater(Some(*x), Some(*y)),
    }
}

/// The greatest variable of two expressions.
fn greatest_of_both(v: &Value, w: &Value) -> Option<u64>
    ensures { room_to result ≡ max (room_of_value v.now) (room_of_value w.now) }
{
    let first = greatest_of(v);
    let second = greatest_of(w);
    greater(first, second)
}

/// The greatest variable that a statement sets, or reads where it stands.
#[cycle(greatest)]
fn greatest_in(s: &Resolved) -> Option<u64>
    ensures { room_to result ≡ room_of_statement s.now }
{
    match s {
        Resolved::Count(x, _) => Some(*x),
        Resolved::Set(x, v) => greater(Some(*x), greatest_of(v)),
        Resolved::Combine(x, _, v, w) => greater(Some(*x), greatest_of_both(v, w)),
        Resolved::Put(_, i, v) => greatest_of_both(i, v),
        Resolved::AddTo(_, i, v) => greatest_of_both(i, v),
        Resolved::Extend(_, count, v) => greatest_of_both(count, v),
        Resolved::Push(_, v) => greatest_of(v),
        Resolved::Cut(_, v) => greatest_of(v),
        Resolved::Sort(_) | Resolved::SortSum(_) => None,
        Resolved::If(v, first, second) => {
            let first = greatest_variable(first.as_slice());
            let second = greatest_variable(second.as_slice());
            greater(greatest_of(v), greater(first, second))
        }
        Resolved::While(_, v, body) => {
            let body = greatest_variable(body.as_slice());
            greater(greatest_of(v), body)
        }
    }
}

/// The greatest variable that code sets, or reads where it stands; none where there is no such variable. It takes time linear in the
/// code's size, and calls itself as deep as statements are nested.
#[cycle(greatest)]
pub fn greatest_variable(code: &[Resolved]) -> Option<u64>
    ensures { room_to result ≡ room_of_code code.now }
{
    let mut greatest = None;
    for s in code {
        greatest = greater(greatest, greatest_in(s));
    }
    greatest
}
