//! The loops of statements, in concrete notation.
use crate::graphs::formats_for;
use crate::statements::tell_term;
use case_files::Answer;
use concrete_notation::{Concrete, concretize};
use expr_terms::groups;
use index_notation::Statement;
use iteration_graph::{edges, order};

/// The loops of a concrete statement. What is done one after another inside a loop stands in brackets.
fn tell_loops(answer: &mut Answer, tree: &Concrete, is_inside: bool) {
    match tree {
        Concrete::Add(term) => tell_term(answer, term),
        Concrete::Forall(var, body) => {
            answer.tell("forall ");
            answer.show(var);
            answer.tell(" ");
            tell_loops(answer, body.get(), true);
        }
        Concrete::Both(first, second) => {
            answer.tell(if is_inside { "(" } else { "" });
            tell_loops(answer, first.get(), false);
            answer.tell("; ");
            tell_loops(answer, second.get(), false);
            answer.tell(if is_inside { ")" } else { "" });
        }
        Concrete::Where(keys, body) => {
            answer.tell("workspace ");
            answer.show(keys.as_slice());
            answer.tell(" ");
            tell_loops(answer, body.get(), true);
        }
    }
}

/// The loop order of a statement under the formats of words, and its concrete form.
pub(crate) fn tell_form(answer: &mut Answer, statement: &Statement, words: &str) -> Option<()> {
    let formats = formats_for(answer, statement, words)?;
    let formats = formats.as_slice();
    if !statement.is_numbered() || !statement.is_well_named() {
        return None;
    }
    let edges = edges(answer.alloc(), statement, formats).ok()?;
    let groups = groups(answer.alloc(), statement).ok()?;
    let Ok(order) = order(answer.alloc(), statement.vars.len(), edges.as_slice()) else {
        return None;
    };
    let vars = order.as_slice();
    let tree = concretize(answer.alloc(), statement, &groups, vars, formats).ok()?;
    answer.show(vars);
    answer.tell(" ");
    tell_loops(answer, &tree, false);
    Some(())
}
