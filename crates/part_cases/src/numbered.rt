//! Statements by their numbers, and whether they are well formed.
use case_files::{Answer, keyword_of};
use index_notation::{Access, Expr, Name, Operator, Statement, binary};
use trees::Items;

fn names_of(answer: &mut Answer, count: u64) -> Items<Name> {
    let mut names = Items::new(answer.alloc());
    for _ in 0..count {
        let bytes = Items::from_slice(answer.alloc(), b"n");
        if let Some(bytes) = answer.made(bytes) {
            answer.note(names.push(Name { bytes }));
        }
    }
    names
}

/// An access `TENSOR VARIABLE ..`.
fn access_of(answer: &mut Answer, text: &str) -> Option<Access> {
    let (tensor, words) = keyword_of(text.trim());
    let mut vars = Items::new(answer.alloc());
    for word in words.split_whitespace() {
        answer.note(vars.push(word.parse::<usize>().ok()?));
    }
    let tensor = tensor.parse::<usize>().ok()?;
    Some(Access { tensor, vars })
}

/// The product of the first so many accesses.
fn product_of(answer: &mut Answer, factors: u64) -> Option<Expr> {
    let mut expr = Expr::Access(0);
    for n in 1..factors {
        let factor = Expr::Access(n as usize);
        expr = binary(answer.alloc(), Operator::Mul, expr, factor).ok()?;
    }
    Some(expr)
}

/// What the checks say of a statement of so many tensors, variables and factors, and of its accesses, the left one first.
pub(crate) fn tell_numbered(answer: &mut Answer, text: &str) -> Option<()> {
    let mut parts = text.split('|');
    let counts = answer.numbers(parts.next()?)?;
    let [tensors, vars, factors] = counts.as_slice() else {
        return None;
    };
    let expr = product_of(answer, *factors)?;
    let left = access_of(answer, parts.next()?)?;
    let mut accesses = Items::new(answer.alloc());
    for part in parts {
        let access = access_of(answer, part)?;
        answer.note(accesses.push(access));
    }
    let tensors = names_of(answer, *tensors);
    let vars = names_of(answer, *vars);
    let sums = Items::new(answer.alloc());
    let statement = Statement::new(tensors, vars, left, false, accesses, sums, expr);
    answer.tell("numbered ");
    answer.show(&statement.is_numbered_with_sums());
    answer.tell(", well named ");
    answer.show(&statement.is_well_named());
    Some(())
}
