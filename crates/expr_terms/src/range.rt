//! The ranges of a statement's variables.
ghost use Rattle.std.specs.Prelude.{◌≡◌, Ok, map, option_to_list, IfOk, IfErr};
ghost use Rattle.expr_terms.specs.Ranges.{exact_ranges, first_other, first_above, unless_above, bounded_range, settled, range_of};
ghost use Rattle.expr_terms.specs.Ranges.{greatest_of, least_of, ranges_of};
ghost use Rattle.expr_terms.specs.Told.{bound_at, given_at, MayRefuseRanges};

use crate::bound::{Bound, Place, bound_at, given_at, least_of, places_in};
use crate::range_fault::RangeFault;
use index_notation::Statement;
use std::alloc::{AllocError, Global};
use trees::Items;

/// The range of a word, if there is one, in a row.
fn row_of(alloc: Global, word: Option<u64>) -> Result<Vec<u64>, AllocError>
    ensures { IfOk result (λ row. row.items ≡ option_to_list word) }
{
    let mut row = Vec::new(alloc);
    if let Some(range) = word {
        row.push(range)?;
    }
    Ok(row)
}

/// The exact ranges of a variable: that of its word, and then those of its places.
fn exact_ranges(
    alloc: Global,
    given: Option<u64>,
    bounds: &[Vec<Bound>],
    places: &[Place],
) -> Result<Vec<u64>, AllocError>
    ensures { IfOk result (λ exact. exact.items ≡ exact_ranges given (bound_at bounds.now) places.now) }
{
    let mut exact = row_of(alloc, given)?;
    for place in places {
        if let Bound::Exact(size) = bound_at(bounds, *place) {
            exact.push(size)?;
        }
    }
    Ok(exact)
}

/// The first of some ranges that differs from one.
fn first_other(range: u64, ranges: &[u64]) -> Option<u64>
    ensures { result ≡ first_other range ranges.now }
{
    for other in ranges {
        if *other != range {
            return Some(*other);
        }
    }
    None
}

/// The first of some places whose bound is above a range.
fn first_above(range: u64, bounds: &[Vec<Bound>], places: &[Place]) -> Option<Place>
    ensures { result ≡ first_above range (bound_at bounds.now) places.now }
{
    for place in places {
        if range < least_of(bound_at(bounds, *place)) {
            return Some(*place);
        }
    }
    None
}

/// The greatest bound of some places.
fn greatest_bound(bounds: &[Vec<Bound>], places: &[Place]) -> u64
    ensures { result ≡ greatest_of (map (λ p. least_of (bound_at bounds.now p.tensor p.mode)) places.now) }
{
    let mut greatest = 0;
    for place in places {
        greatest = least_of(bound_at(bounds, *place)).max(greatest);
    }
    greatest
}

/// An exact range, unless the bound of a place is above it.
fn within_bounds(range: u64, bounds: &[Vec<Bound>], places: &[Place]) -> Result<u64, RangeFault>
    ensures { result ≡ unless_above range (bound_at bounds.now) (first_above range (bound_at bounds.now) places.now) }
{
    let Some(place) = first_above(range, bounds, places) else {
        return Ok(range);
    };
    Err(RangeFault::OutOfRange {
        tensor: place.tensor,
        coordinate: least_of(bound_at(bounds, place)),
        range,
    })
}

/// The range of a variable that has no exact one.
fn bounded_range(var: usize, bounds: &[Vec<Bound>], places: &[Place]) -> Result<u64, RangeFault>
    ensures { result ≡ bounded_range var (bound_at bounds.now) places.now }
{
    if places.is_empty() {
        return Err(RangeFault::NoRange { var });
    }
    Ok(greatest_bound(bounds, places))
}

/// The range of a variable by its exact ranges and its places.
fn settled(
    var: usize,
    exact: &[u64],
    bounds: &[Vec<Bound>],
    places: &[Place],
) -> Result<u64, RangeFault>
    ensures { result ≡ settled var exact.now (bound_at bounds.now) places.now }
{
    let Some((first, others)) = exact.split_first() else {
        return bounded_range(var, bounds, places);
    };
    if let Some(other) = first_other(*first, others) {
        return Err(RangeFault::RangeConflict {
            var,
            first: *first,
            other,
        });
    }
    within_bounds(*first, bounds, places)
}

/// The range of a variable, or its refusal.
fn range_of(
    alloc: Global,
    statement: &Statement,
    given: &[Option<u64>],
    bounds: &[Vec<Bound>],
    var: usize,
) -> Result<u64, RangeFault>
    ensures range { IfOk result (λ range. range_of statement.now (given_at given.now) (bound_at bounds.now) var ≡ Ok range) }
    ensures fault { IfErr result (MayRefuseRanges (range_of statement.now (given_at given.now) (bound_at bounds.now) var)) }
{
    let places = places_in(alloc, statement.accesses.as_slice(), var)?;
    let exact = exact_ranges(alloc, given_at(given, var), bounds, places.as_slice())?;
    settled(var, exact.as_slice(), bounds, places.as_slice())
}

/// The range of each variable of a statement. `given` has the range of each variable to which a word gives one.
/// `bounds` has what tensor 1, tensor 2 and so on tell of their modes. A variable past the end of `given` has no word,
/// and a mode past the end of its bounds has no coordinate.
///
/// The sources of a variable are its word, which is exact, and its places on the right side. With exact sources the
/// range is theirs, otherwise it is the greatest bound. Variables are settled in standing order, and refused with the
/// first fault, where for each variable the faults are tried in the order of `RangeFault`; with `Memory` for want of
/// memory alone.
pub fn ranges(
    alloc: Global,
    statement: &Statement,
    given: &[Option<u64>],
    bounds: &[Vec<Bound>],
) -> Result<Vec<u64>, RangeFault>
    ensures ranges { IfOk result (λ found. ranges_of statement.now (given_at given.now) (bound_at bounds.now) ≡ Ok found.items) }
    ensures fault { IfErr result (MayRefuseRanges (ranges_of statement.now (given_at given.now) (bound_at bounds.now))) }
{
    let mut ranges = Items::new(alloc);
    for var in 0..statement.vars.len() {
        ranges.push(range_of(alloc, statement, given, bounds, var)?)?;
    }
    Ok(ranges.into_vec())
}
