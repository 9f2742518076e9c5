//! Graphs, and the edges and lattices of statements.
ghost use Rattle.std.specs.Prelude.{◌↔◌, IfSome, IsTrue};
ghost use Rattle.lists.specs.Each.{Each};
ghost use Rattle.iteration_graph.specs.Edges.{HasFormat};

use crate::formats::format_of;
use crate::statements::tell_expr;
use case_files::{Answer, keyword_of};
use format_spec::Format;
use index_notation::{Access, Statement};
use iteration_graph::{OrderFault, edges, order};
use merge_lattice::lattice;

/// The edges that words `FROM-TO` stand for.
fn edges_of(answer: &mut Answer, words: &str) -> Option<Vec<(usize, usize)>> {
    let mut edges = Vec::new(answer.alloc());
    for word in words.split_whitespace() {
        let (from, to) = word.split_once('-')?;
        answer.note(edges.push((from.parse::<usize>().ok()?, to.parse::<usize>().ok()?)));
    }
    Some(edges)
}

/// The order of so many variables with some edges, or their cycle.
pub(crate) fn tell_graph(answer: &mut Answer, text: &str) -> Option<()> {
    let (vars, words) = keyword_of(text);
    let edges = edges_of(answer, words)?;
    match order(
        answer.alloc(),
        vars.parse::<usize>().ok()?,
        edges.as_slice(),
    ) {
        Ok(found) => {
            answer.tell("order");
            answer.show_all(found.as_slice());
        }
        Err(OrderFault::Cycle(cycle)) => {
            answer.tell("cycle");
            answer.show_all(cycle.as_slice());
        }
        Err(OrderFault::Memory(_)) => return None,
    }
    Some(())
}

/// Whether an access has a format of its order.
fn has_format(formats: &[Format], access: &Access) -> bool
    ensures { IsTrue result ↔ HasFormat formats.now access.now }
{
    access.tensor < formats.len() && formats[access.tensor].order() == access.vars.len()
}

/// Whether each access has a format of its order.
fn have_formats(formats: &[Format], accesses: &[Access]) -> bool
    ensures { IsTrue result ↔ Each (HasFormat formats.now) accesses.now }
{
    for access in accesses {
        if !has_format(formats, access) {
            return false;
        }
    }
    true
}

/// The formats of words, one of the order of each tensor of a statement.
pub(crate) fn formats_for(
    answer: &mut Answer,
    statement: &Statement,
    words: &str,
) -> Option<Vec<Format>>
    ensures left { IfSome result (λ formats. HasFormat formats.items statement.now.left) }
    ensures right { IfSome result (λ formats. Each (HasFormat formats.items) statement.now.accesses) }
{
    let mut formats = Vec::new(answer.alloc());
    for word in words.split_whitespace() {
        let word = if word == "-" { "" } else { word };
        let format = format_of(answer, word, None)?.ok()?;
        answer.note(formats.push(format));
    }
    let are_whole = has_format(formats.as_slice(), &statement.left)
        && have_formats(formats.as_slice(), statement.accesses.as_slice());
    if are_whole { Some(formats) } else { None }
}

/// The edges of a statement under the formats of words.
pub(crate) fn tell_edges(answer: &mut Answer, statement: &Statement, words: &str) -> Option<()> {
    let formats = formats_for(answer, statement, words)?;
    let edges = edges(answer.alloc(), statement, formats.as_slice());
    let edges = answer.made(edges)?;
    answer.show(edges.as_slice());
    Some(())
}

/// The points of the lattice of a statement's right side at a variable, under the formats of words: of each its accesses, what is left,
/// and the places of the points below it.
pub(crate) fn tell_lattice(answer: &mut Answer, statement: &Statement, text: &str) -> Option<()> {
    let (var, words) = keyword_of(text);
    let var = var.parse::<usize>().ok()?;
    let formats = formats_for(answer, statement, words)?;
    let made = lattice(
        answer.alloc(),
        statement,
        &statement.expr,
        var,
        formats.as_slice(),
    );
    let lattice = answer.made(made)?;
    answer.tell("points");
    for (place, point) in lattice.points.as_slice().iter().enumerate() {
        let below = lattice.below(answer.alloc(), place);
        let below = answer.made(below)?;
        answer.show_all(point.iterators.as_slice());
        answer.tell(" ");
        tell_expr(answer, &point.expr);
        answer.tell(" over");
        answer.show_all(below.as_slice());
        answer.tell(";");
    }
    Some(())
}
