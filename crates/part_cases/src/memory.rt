//! Cases of memory that is refused, and of memory that is given back.
ghost use Rattle.std.specs.Prelude.{◌<◌};

use case_files::Answer;
use seg_buffer::{Segment, Twin};
use std::alloc::{AllocError, Global};

/// Takes four blocks for so many elements and gives them back, two of them where they are too small for one more.
fn take_and_give(alloc: Global, room: usize) -> Result<(), AllocError>
    requires { 0 < room }
{
    let mut segment = Segment::with_room(alloc, room)?;
    segment.push_reserved(1u64);
    segment.reserve(room)?;
    let mut twin = Twin::new(alloc);
    twin.reserve(room)?;
    twin.push_pair_reserved(1u64, 2u64);
    twin.reserve(room)
}

/// Takes blocks and gives them back, so many times. No clause can say that each is given back: here one that is forgotten, turn
/// after turn, passes the address space of 2^47 bytes.
pub(crate) fn tell_blocks(answer: &mut Answer, case: &str) -> Option<()> {
    let numbers = answer.numbers(case)?;
    let [times, room] = numbers.as_slice() else {
        return None;
    };
    if *room == 0 {
        return None;
    }
    for _ in 0..*times {
        let taken = take_and_give(answer.alloc(), *room as usize);
        answer.made(taken)?;
    }
    answer.tell("given back");
    Some(())
}

/// Pushes an element where memory for it isn't refused. It answers whether it did that, or all is as before.
fn push_or_keep(segment: &mut Segment<u64>, x: u64) -> bool {
    let (len, spare) = (segment.len(), segment.spare());
    match segment.reserve(1) {
        Ok(()) => {
            segment.push_reserved(x);
            segment.len() == len + 1
        }
        Err(_) => (segment.len(), segment.spare()) == (len, spare),
    }
}

/// Pushes a pair where memory for it isn't refused. It answers whether it did that, or all is as before.
fn push_pair_or_keep(twin: &mut Twin<u64, u64>, x: u64) -> bool {
    let (len, spare) = (twin.len(), twin.spare());
    match twin.reserve(1) {
        Ok(()) => {
            twin.push_pair_reserved(x, x);
            twin.len() == len + 1
        }
        Err(_) => (twin.len(), twin.spare()) == (len, spare),
    }
}

/// The right answer, or want of memory, with all as it was before. `bench/case-refusals` makes each allocation fail in turn, and only
/// that one, so one element at most is missing.
pub(crate) fn tell_refusals(answer: &mut Answer, case: &str) -> Option<()> {
    let count = case.parse::<u64>().ok()?;
    let mut segment = Segment::new(answer.alloc());
    let mut twin = Twin::new(answer.alloc());
    for x in 0..count {
        if !push_or_keep(&mut segment, x) || !push_pair_or_keep(&mut twin, x) {
            return None;
        }
    }
    let pushed = segment.len() as u64 + twin.len() as u64;
    if pushed < count.saturating_mul(2).saturating_sub(1) {
        return None;
    }
    answer.tell("pushed or refused");
    Some(())
}
