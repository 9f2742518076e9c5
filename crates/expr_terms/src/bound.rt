//! What tells the range of a variable: the places at which it stands, and what an operand tells of a mode.
ghost use Rattle.std.specs.Prelude.{◌≡◌, ◌++◌, IfOk, OnOk};
ghost use Rattle.expr_terms.specs.Ranges.{places_from, places_in, least_of};
ghost use Rattle.expr_terms.specs.Told.{bound_at, given_at};

use index_notation::Access;
use std::alloc::{AllocError, Global};

/// What a tensor tells of the range of one of its modes.
#[derive(Debug, Clone, Copy)]
pub enum Bound {
    /// Its size.
    Exact(u64),
    /// Its greatest coordinate, counted from 1, and 0 where there is none.
    AtLeast(u64),
}

/// A mode of a tensor.
#[derive(Debug, Clone, Copy)]
pub struct Place {
    pub tensor: usize,
    pub mode: usize,
}

/// The bound for a range that is not told to be exact.
pub(crate) fn least_of(bound: Bound) -> u64
    ensures { result ≡ least_of bound }
{
    match bound {
        Bound::Exact(_) => 0,
        Bound::AtLeast(coordinate) => coordinate,
    }
}

/// What a place tells: the bounds are those of tensor 1, tensor 2 and so on, for each by its modes.
pub(crate) fn bound_at(bounds: &[Vec<Bound>], place: Place) -> Bound
    ensures { result ≡ bound_at bounds.now place.tensor place.mode }
{
    if place.tensor == 0 {
        return Bound::AtLeast(0);
    }
    let Some(modes) = bounds.get(place.tensor - 1) else {
        return Bound::AtLeast(0);
    };
    match modes.get(place.mode) {
        Some(bound) => *bound,
        None => Bound::AtLeast(0),
    }
}

/// The range that a word gives a variable, if one does.
pub(crate) fn given_at(given: &[Option<u64>], var: usize) -> Option<u64>
    ensures { result ≡ given_at given.now var }
{
    match given.get(var) {
        Some(range) => *range,
        None => None,
    }
}

/// Puts the places of a variable in an access behind others.
fn push_places(places: &mut Vec<Place>, access: &Access, var: usize) -> Result<(), AllocError>
    ensures { OnOk result (places.new.items ≡ places.old.items ++ places_from access.now.tensor 0 access.now.vars var) }
{
    let tensor = access.tensor;
    for (mode, other) in access.vars.as_slice().iter().enumerate() {
        if *other == var {
            places.push(Place { tensor, mode })?;
        }
    }
    Ok(())
}

/// The places of a variable in some accesses, in text order, and those of an access by its modes. Refused only for want
/// of memory.
pub fn places_in(alloc: Global, accesses: &[Access], var: usize) -> Result<Vec<Place>, AllocError>
    ensures { IfOk result (λ places. places.items ≡ places_in accesses.now var) }
{
    let mut places = Vec::new(alloc);
    for access in accesses {
        push_places(&mut places, access, var)?;
    }
    Ok(places)
}
