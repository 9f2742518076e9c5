//! Statements and their groups, as they are told.
use case_files::Answer;
use expr_terms::{Term, check_names, expand, groups};
use index_notation::{Access, Expr, Name, Operator, Statement, copy_access, copy_expr, copy_name};
use notation_reader::parse;

/// Each name, by way of a copy.
fn tell_names(answer: &mut Answer, names: &[Name]) -> Option<()> {
    for name in names {
        let name = copy_name(answer.alloc(), name);
        let name = answer.made(name)?;
        answer.escape(name.bytes.as_slice());
        answer.tell(" ");
    }
    answer.tell("| ");
    Some(())
}

fn sign_of(operator: Operator) -> &'static str {
    match operator {
        Operator::Add => "+",
        Operator::Sub => "-",
        Operator::Mul => "*",
    }
}

/// Each operation in brackets, and accesses by their numbers behind `#`.
pub(crate) fn tell_expr(answer: &mut Answer, expr: &Expr) {
    match expr {
        Expr::Num(n) => answer.show(n),
        Expr::Access(n) => {
            answer.tell("#");
            answer.show(n);
        }
        Expr::Binary(operator, first, second) => {
            answer.tell("(");
            tell_expr(answer, first.get());
            answer.tell(sign_of(*operator));
            tell_expr(answer, second.get());
            answer.tell(")");
        }
        Expr::Neg(inner) => {
            answer.tell("-");
            tell_expr(answer, inner.get());
        }
    }
}

/// The tensor and the variables of an access, by way of a copy.
fn tell_access(answer: &mut Answer, access: &Access) -> Option<()> {
    let access = copy_access(answer.alloc(), access);
    let access = answer.made(access)?;
    answer.show(&access.tensor);
    answer.show(access.vars.as_slice());
    Some(())
}

/// The tensors, the variables, the left access, those of the right side, and the expression, all by way of copies; behind it the nested
/// sums, each with its variable and its inside.
pub(crate) fn tell_statement(answer: &mut Answer, statement: &Statement) -> Option<()> {
    tell_names(answer, statement.tensors.as_slice())?;
    tell_names(answer, statement.vars.as_slice())?;
    tell_access(answer, &statement.left)?;
    answer.tell(if statement.accumulate { " +=" } else { " =" });
    for access in statement.accesses.as_slice() {
        answer.tell(" ");
        tell_access(answer, access)?;
    }
    answer.tell(" | ");
    let expr = copy_expr(answer.alloc(), &statement.expr);
    let expr = answer.made(expr)?;
    tell_expr(answer, &expr);
    for sum in statement.sums.as_slice() {
        answer.tell("; sum ");
        answer.show(&sum.var);
        answer.tell(" ");
        tell_expr(answer, &sum.inside);
    }
    Some(())
}

/// Whether it is taken away or added, and the term.
pub(crate) fn tell_term(answer: &mut Answer, term: &Term) {
    answer.tell(if term.negated { "-" } else { "+" });
    tell_expr(answer, &term.expr);
}

fn tell_terms(answer: &mut Answer, terms: &[Term]) {
    for term in terms {
        answer.tell(" ");
        tell_term(answer, term);
    }
    answer.tell("\n");
}

/// Whether the names of a text's statement pass, or their fault.
pub(crate) fn tell_named(answer: &mut Answer, text: &str) -> Option<()> {
    let statement = parse(answer.alloc(), text).ok()?;
    answer.show(&check_names(&statement));
    Some(())
}

/// What a text's statement stands for.
pub(crate) fn tell_expanded(answer: &mut Answer, text: &str) -> Option<()> {
    let statement = parse(answer.alloc(), text).ok()?;
    let whole = expand(answer.alloc(), statement);
    let whole = answer.made(whole)?;
    tell_statement(answer, &whole)
}

/// The groups of a text's statement, in order.
pub(crate) fn tell_groups(answer: &mut Answer, text: &str) -> Option<()> {
    let statement = parse(answer.alloc(), text).ok()?;
    let groups = groups(answer.alloc(), &statement);
    let groups = answer.made(groups)?;
    for group in groups.list.as_slice() {
        answer.show(group.vars.as_slice());
        tell_terms(answer, group.terms.as_slice());
    }
    Some(())
}
