//! Cases of segments of memory, of two lists that grow together, and of words in four bytes or in eight.
ghost use Rattle.std.specs.Prelude.{◌≡◌, ◌<◌, [], ◌∷◌, ◌++◌, length, reverse, slice_index_or, IfOk, OnErr, IsTrue};
ghost use Rattle.seg_buffer.specs.WordBuffer.{FitsWord};

use crate::steps::{Steps, tell_refusal, tell_steps};
use case_files::Answer;
use seg_buffer::{Lent, Segment, Twin, Words};
use std::alloc::AllocError;
use std::fmt::Debug;

/// What a segment has as elements.
pub(crate) trait Element: Copy + Debug {
    /// The element that a number stands for.
    fn of(word: u64) -> Self;
}

impl Element for u64 {
    fn of(word: u64) -> Self {
        word
    }
}

impl Element for u32 {
    fn of(word: u64) -> Self {
        (word & 0xffff_ffff) as u32
    }
}

impl Element for u8 {
    fn of(word: u64) -> Self {
        (word & 0xff) as u8
    }
}

impl Element for () {
    fn of(_word: u64) -> Self {}
}

// What a caller's proof can use: this closes with no file, and so do the next two.
fn append<T: Copy>(segment: &mut Segment<T>, x: T) -> Result<(), AllocError>
    ensures ok { IfOk result (λ _. segment.new.items ≡ segment.old.items ++ x ∷ []) }
    ensures err { OnErr result (segment.new ≡ segment.old) }
{
    segment.reserve(1)?;
    segment.push_reserved(x);
    Ok(())
}

fn at<T: Copy>(segment: &Segment<T>, i: usize) -> T
    requires { i < length segment.now.items }
    ensures { result ≡ slice_index_or segment.now.items i result }
{
    segment.get(i)
}

fn turn<T: Copy>(segment: &mut Segment<T>)
    ensures items { segment.new.items ≡ reverse segment.old.items }
    ensures spare { segment.new.spare ≡ segment.old.spare }
{
    segment.as_mut_slice().reverse();
}

/// Puts a segment in the place of another, if there is memory for it.
fn put<T>(
    segment: &mut Segment<T>,
    made: Result<Segment<T>, AllocError>,
) -> Result<(), AllocError> {
    *segment = made?;
    Ok(())
}

/// Reads or writes the element at a place, if it is one.
fn do_at<T: Element>(
    answer: &mut Answer,
    segment: &mut Segment<T>,
    place: usize,
    written: Option<u64>,
) -> Option<()> {
    if place >= segment.len() {
        return None;
    }
    match written {
        Some(word) => segment.set(place, T::of(word)),
        None => {
            answer.tell(" ");
            answer.show(at(segment, place));
        }
    }
    Some(())
}

/// Appends an element, if there is room for it.
fn push<T: Copy>(segment: &mut Segment<T>, x: T) -> Option<()> {
    if segment.spare() == 0 {
        return None;
    }
    segment.push_reserved(x);
    Some(())
}

impl<T: Element> Steps for Segment<T> {
    fn step(&mut self, answer: &mut Answer, word: &str, numbers: &[u64]) -> Option<()> {
        let alloc = answer.alloc();
        let first = numbers.first().copied().unwrap_or(0);
        let second = numbers.get(1).copied();
        let size = first as usize;
        match word {
            "room" => tell_refusal(answer, put(self, Segment::with_room(alloc, size))),
            "filled" => {
                let made = Segment::filled(alloc, size, T::of(second?));
                tell_refusal(answer, put(self, made));
            }
            "reserve" => tell_refusal(answer, self.reserve(size)),
            "append" => tell_refusal(answer, append(self, T::of(first))),
            "push" => return push(self, T::of(first)),
            "set" => return do_at(answer, self, size, Some(second?)),
            "get" => return do_at(answer, self, size, None),
            "turn" => turn(self),
            "truncate" => self.truncate(size),
            "len" => answer.show_all(&[self.len()]),
            "spare" => answer.show_all(&[self.spare()]),
            _ => return None,
        }
        Some(())
    }
}

impl Steps for Twin<u64, u32> {
    fn step(&mut self, answer: &mut Answer, word: &str, numbers: &[u64]) -> Option<()> {
        let first = numbers.first().copied().unwrap_or(0);
        match word {
            "reserve" => tell_refusal(answer, self.reserve(first as usize)),
            "push" => {
                if self.spare() == 0 {
                    return None;
                }
                self.push_pair_reserved(first, u32::of(*numbers.get(1)?));
            }
            "truncate" => self.truncate(first as usize),
            "len" => answer.show_all(&[self.len()]),
            "spare" => answer.show_all(&[self.spare()]),
            _ => return None,
        }
        Some(())
    }
}

/// Whether words hold a number: narrow ones do so below 2^32.
fn holds(words: &Words, x: u64) -> bool
    ensures { IsTrue result → FitsWord words.now.wide x }
{
    words.is_wide() || x < 0x1_0000_0000
}

/// Appends a word, if there is room for it and it fits.
fn push_word(words: &mut Words, x: u64) -> Option<()> {
    if words.spare() == 0 || !holds(words, x) {
        return None;
    }
    words.push_reserved(x);
    Some(())
}

/// Puts a word at a place, if it is one and the word fits.
fn set_word(words: &mut Words, place: usize, x: u64) -> Option<()> {
    if place >= words.len() || !holds(words, x) {
        return None;
    }
    words.set(place, x);
    Some(())
}

/// Tells the word at a place, if it is one.
fn get_word(answer: &mut Answer, words: &Words, place: usize) -> Option<()> {
    if place >= words.len() {
        return None;
    }
    answer.show_all(&[words.get(place)]);
    Some(())
}

impl Steps for Words {
    fn step(&mut self, answer: &mut Answer, word: &str, numbers: &[u64]) -> Option<()> {
        let first = numbers.first().copied().unwrap_or(0);
        match word {
            "reserve" => tell_refusal(answer, self.reserve(first as usize)),
            "push" => return push_word(self, first),
            "set" => return set_word(self, first as usize, *numbers.get(1)?),
            "get" => return get_word(answer, self, first as usize),
            "truncate" => self.truncate(first as usize),
            "len" => answer.show_all(&[self.len()]),
            "spare" => answer.show_all(&[self.spare()]),
            _ => return None,
        }
        Some(())
    }
}

/// What is done with words in eight bytes, or in four.
fn tell_words(answer: &mut Answer, wide: bool, steps: &str) -> Option<()> {
    let mut words = Words::new(answer.alloc(), wide);
    tell_steps(answer, &mut words, steps)?;
    match words.lent() {
        Lent::Narrow(items) => answer.show(items),
        Lent::Wide(items) => answer.show(items),
    }
    answer.tell(", spare");
    answer.show_all(&[words.spare()]);
    Some(())
}

/// What is done with a segment of these elements.
fn tell_segment<T: Element>(answer: &mut Answer, steps: &str) -> Option<()> {
    let mut segment: Segment<T> = Segment::new(answer.alloc());
    tell_steps(answer, &mut segment, steps)?;
    answer.show(segment.as_slice());
    answer.tell(", spare");
    answer.show_all(&[segment.spare()]);
    Some(())
}

/// What is done with two lists that grow together.
pub(crate) fn tell_twin(answer: &mut Answer, steps: &str) -> Option<()> {
    let mut twin: Twin<u64, u32> = Twin::new(answer.alloc());
    tell_steps(answer, &mut twin, steps)?;
    answer.show(twin.first());
    answer.tell(" ");
    answer.show(twin.second());
    answer.tell(", spare");
    answer.show_all(&[twin.spare()]);
    Some(())
}

/// What is done with a segment, whose elements the text names first.
pub(crate) fn tell_segments(answer: &mut Answer, text: &str) -> Option<()> {
    let (element, steps) = text.split_once(':')?;
    match element {
        "u64" => tell_segment::<u64>(answer, steps),
        "u32" => tell_segment::<u32>(answer, steps),
        "u8" => tell_segment::<u8>(answer, steps),
        "unit" => tell_segment::<()>(answer, steps),
        "narrow" => tell_words(answer, false, steps),
        "wide" => tell_words(answer, true, steps),
        _ => None,
    }
}
