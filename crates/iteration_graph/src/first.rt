ghost use Rattle.std.specs.Prelude.{◌≡◌, ℕ, not};
ghost use Rattle.iteration_graph.specs.Graphs.{leads, has_edge, is_among, waits_for, first_awaited, is_free, first_free, first_below, step};

/// Whether an edge leads from one variable to another.
fn is_edge(edge: (usize, usize), from: usize, to: usize) -> bool
    ensures { result ≡ leads from to edge }
{
    edge.0 == from && edge.1 == to
}

/// Whether one of the edges leads from one variable to another.
fn contains_edge(edges: &[(usize, usize)], from: usize, to: usize) -> bool
    ensures { result ≡ has_edge edges.now from to }
{
    for edge in edges {
        if is_edge(*edge, from, to) {
            return true;
        }
    }
    false
}

/// Whether a variable waits for another: an edge leads from that one, which isn't placed yet.
fn waits(edges: &[(usize, usize)], placed: &[usize], variable: usize, other: usize) -> bool
    ensures { result ≡ waits_for edges.now placed.now variable other }
{
    !placed.contains(&other) && contains_edge(edges, other, variable)
}

/// The first variable that this one waits for.
pub(crate) fn awaited(
    vars: usize,
    edges: &[(usize, usize)],
    placed: &[usize],
    variable: usize,
) -> Option<usize>
    ensures { result ≡ first_awaited vars edges.now placed.now variable }
{
    for other in 0..vars {
        if waits(edges, placed, variable, other) {
            return Some(other);
        }
    }
    None
}

/// Whether a variable isn't placed yet and waits for none.
fn can_be_placed(vars: usize, edges: &[(usize, usize)], placed: &[usize], variable: usize) -> bool
    ensures { result ≡ is_free vars edges.now placed.now variable }
{
    !placed.contains(&variable) && awaited(vars, edges, placed, variable).is_none()
}

/// The first variable that can be placed.
pub(crate) fn next_to_place(
    vars: usize,
    edges: &[(usize, usize)],
    placed: &[usize],
) -> Option<usize>
    ensures { result ≡ first_free vars edges.now placed.now }
{
    for variable in 0..vars {
        if can_be_placed(vars, edges, placed, variable) {
            return Some(variable);
        }
    }
    None
}

/// The first variable that isn't placed.
pub(crate) fn first_left(vars: usize, placed: &[usize]) -> Option<usize>
    ensures { result ≡ first_below vars (λ v. not (is_among placed.now v)) }
{
    for variable in 0..vars {
        if !placed.contains(&variable) {
            return Some(variable);
        }
    }
    None
}

/// From a variable to the first one that it waits for, if it waits.
pub(crate) fn step_back(
    vars: usize,
    edges: &[(usize, usize)],
    placed: &[usize],
    variable: usize,
) -> usize
    ensures { result ≡ step vars edges.now placed.now variable }
{
    awaited(vars, edges, placed, variable).unwrap_or(variable)
}
