// Cuts a text into lines, in whatever pieces it comes.
ghost use Rattle.std.specs.Prelude.{◌≡◌, ◌≢◌, ◌+◌, ◌<◌, ◌≤◌, [], ◌∷◌, ◌++◌, Some, All, IsTrue};
ghost use Rattle.std.specs.Prelude.{IfOk, IfSome, MatchOption, length, take, not, true, false};
ghost use Rattle.std.specs.Prelude.{vec_len, vec_capacity};
ghost use Rattle.std.specs.List.{position};
ghost use Rattle.std.specs.Str.Lines.{strip_carriage_return};
ghost use Rattle.limits.specs.Limits.{greatest_line_bytes};
ghost use Rattle.text_lines.specs.Buffered.{kept, count_of};
ghost use Rattle.text_lines.specs.Cutting.{begun_line, has_long_line, is_long, told_lines};
ghost use Rattle.text_lines.specs.Lines.{is_line_feed};
ghost use Rattle.text_lines.specs.Plain.{AreNumbers};
ghost use Rattle.text_lines.specs.Tokens.{tokens};

use crate::cuts::{line_feed, without_return};
use crate::fed::Fed;
use crate::plain::read_plain_line;
use crate::step::Step;
use limits::greatest_bytes_of_line;
use std::alloc::{AllocError, Global};
use std::marker::Model;

/// Cuts a text that comes in pieces into its lines, as `lines` tells them: however it is cut, the lines are the same.
/// It keeps one line, in memory that it takes when it is made.
#[derive(Drop)]
pub struct LineReader {
    buffer: Vec<u8>,
    number: u64,
    is_told: bool,
    is_long: bool,
    fed: Fed,
}

impl Model for LineReader {
    ghost use Rattle.text_lines.specs.LineReader.{LineReader as Reading};

    ghost Value = { Reading };

    ghost use Rattle.text_lines.specs.Buffered.{IsBuffered};

    ghost view = { λ r. record { text = r.fed.bytes; line = r.buffer.items } };

    ghost invariant = { IsBuffered };
}

impl LineReader {
    ghost use Rattle.text_lines.specs.LineReader.{TellsLine, TellsThis, TakesWhole, IsBetweenLines, IsTooLong, Feeds, Finishes};

    /// A reader that has taken nothing yet, with the buffer of one line.
    pub fn new(alloc: Global) -> Result<LineReader, AllocError>
        ensures { IfOk result (λ reader. reader.text ≡ []) }
    {
        Ok(LineReader {
            buffer: Vec::with_capacity(alloc, room_of_line())?,
            number: 0,
            is_told: false,
            is_long: false,
            fed: Fed::new(),
        })
    }

    /// Takes bytes of the piece, and answers how many: to the end of a line, which `line` lends then, or all of them.
    /// `LongLine` comes exactly where a line of what it was given is longer than a line may be, without its end.
    pub fn feed(&mut self, piece: &[u8]) -> (usize, Step)
        ensures within { result.0 ≤ length piece.now }
        ensures text { self.new.text ≡ self.old.text ++ take result.0 piece.now }
        ensures step { Feeds self.old self.new piece.now result.0 result.1 }
    {
        match line_feed(piece) {
            Some(end) => self.take_line(piece, end),
            None if self.take_run(piece) => (piece.len(), Step::NeedMore),
            None => (piece.len(), Step::LongLine),
        }
    }

    /// Takes the line that a piece begins with where it stands whole in it: how many bytes, and the line, lent where it stands, without
    /// its end. Nothing is copied, and what `line` lends stays as it was. Else nothing is taken: where a line has begun or was too long,
    /// where none ends in the piece, and where the one that does is too long.
    pub fn take_whole<'a>(&mut self, piece: &'a [u8]) -> Option<(usize, &'a [u8])>
        ensures { MatchOption result (self.new ≡ self.old) (λ taken. TakesWhole self.old self.new piece.now taken.0 taken.1.now) }
    {
        if self.is_within_line() {
            return None;
        }
        let Some(end) = line_feed(piece) else {
            return None;
        };
        self.take_to(piece, end)
    }

    /// Takes the line that a piece begins with, as `take_whole` does, if it is plainly written, and reads it in the same pass: as many
    /// numbers as there is room for, digits alone with one space behind each, and then a value, digits with a minus or none, each of 18
    /// digits at most, and none begun in the piece's last 18 bytes. The numbers are put into `numbers`, and the value is told. Of a line
    /// that is written in another way nothing is taken.
    #[inline(always)]
    pub fn take_plain<'a>(
        &mut self,
        piece: &'a [u8],
        numbers: &mut [u64],
    ) -> Option<(usize, &'a [u8], i64)>
        ensures taken { MatchOption result (self.new ≡ self.old) (λ taken. TakesWhole self.old self.new piece.now taken.0 taken.1.now) }
        ensures numbers { IfSome result (λ taken. AreNumbers (tokens taken.1.now) numbers.new taken.2) }
    {
        if self.is_within_line() {
            return None;
        }
        let (end, value) = read_plain_line(piece, numbers)?;
        let (taken, line) = self.take_to(piece, end)?;
        Some((taken, line, value))
    }

    /// Takes the line that a piece begins with, as `take_whole` does. If it is plainly written, its numbers are put into `numbers`, and its
    /// value is told, as `take_plain` does; the value is None where the line is written in another way.
    #[inline(always)]
    pub fn take_numbers<'a>(
        &mut self,
        piece: &'a [u8],
        numbers: &mut [u64],
    ) -> Option<(usize, &'a [u8], Option<i64>)>
        ensures taken { MatchOption result (self.new ≡ self.old) (λ taken. TakesWhole self.old self.new piece.now taken.0 taken.1.now) }
        ensures numbers { IfSome result (λ taken. IfSome taken.2 (AreNumbers (tokens taken.1.now) numbers.new)) }
    {
        if let Some((taken, line, value)) = self.take_plain(piece, numbers) {
            return Some((taken, line, Some(value)));
        }
        let (taken, line) = self.take_whole(piece)?;
        Some((taken, line, None))
    }

    /// The text has ended. A last line without an end is told: `line` lends it then.
    pub fn finish(&mut self) -> Step
        ensures { Finishes self.old self.new result }
    {
        if !self.take_run(&[]) {
            return Step::LongLine;
        }
        if self.line().is_empty() {
            return Step::NeedMore;
        }
        self.end_line();
        Step::Line
    }

    /// The line that was told last, without its end.
    pub fn line(&self) -> &[u8]
        ensures { result.now ≡ self.now.line }
    {
        self.buffer.as_slice()
    }

    /// How many lines were told, which is the number of the last one. It stands still at 2^64 - 1.
    pub fn number(&self) -> u64
        ensures { result ≡ count_of (told_lines self.now.text) }
    {
        self.number
    }

    /// Whether a line has begun that hasn't ended, or one was too long.
    #[inline(always)]
    fn is_within_line(&self) -> bool
        ensures { result ≡ false → IsBetweenLines self.now }
    {
        if self.is_long {
            return true;
        }
        if self.is_told {
            return false;
        }
        !self.buffer.is_empty()
    }

    /// Takes the line that a piece begins with to its line feed, which stands here, unless the line is too long.
    #[inline(always)]
    fn take_to<'a>(&mut self, piece: &'a [u8], end: usize) -> Option<(usize, &'a [u8])>
        requires between { IsBetweenLines self.old }
        requires end { Some end ≡ position is_line_feed piece.now }
        ensures taken { MatchOption result (self.new ≡ self.old) (λ taken. TakesWhole self.old self.new piece.now taken.0 taken.1.now) }
        ensures line { IfSome result (λ taken. taken.1.now ≡ strip_carriage_return (take end piece.now)) }
    {
        let (whole, _) = piece.split_at(end);
        let line = without_return(whole);
        if line.len() as u64 > greatest_bytes_of_line() {
            return None;
        }
        self.pass_line(whole);
        Some((end + 1, line))
    }

    /// Takes the bytes of a whole line and a line feed.
    #[inline(always)]
    fn pass_line(&mut self, whole: &[u8])
        requires between { IsBetweenLines self.old }
        requires free { All (λ byte. byte ≢ 10) whole.now }
        requires short { is_long (strip_carriage_return whole.now) ≡ false }
        ensures text { self.new.text ≡ self.old.text ++ (whole.now ++ 10 ∷ []) }
        ensures tells { TellsThis self.old self.new (strip_carriage_return whole.now) }
    {
        self.number = self.number.saturating_add(1);
        self.fed.extend(whole);
        self.fed.extend(b"\n");
    }

    /// Takes the bytes before the first line feed, and that.
    fn take_line(&mut self, piece: &[u8], end: usize) -> (usize, Step)
        requires { Some end ≡ position is_line_feed piece.now }
        ensures within { result.0 ≤ length piece.now }
        ensures text { self.new.text ≡ self.old.text ++ take result.0 piece.now }
        ensures step { Feeds self.old self.new piece.now result.0 result.1 }
    {
        let (run, rest) = piece.split_at(end);
        if self.take_run(run) {
            self.end_line();
            (end + 1, Step::Line)
        } else {
            self.pass_over(rest);
            (piece.len(), Step::LongLine)
        }
    }

    /// Takes bytes of one line, and answers whether all lines are still short enough.
    fn take_run(&mut self, run: &[u8]) -> bool
        requires { All (λ byte. byte ≢ 10) run.now }
        ensures text { self.new.text ≡ self.old.text ++ run.now }
        ensures told { told_lines self.new.text ≡ told_lines self.old.text }
        ensures short { result ≡ not (has_long_line self.new.text) }
        ensures line { IsTrue result → self.new.line ≡ begun_line self.new.text }
    {
        self.fed.extend(run);
        if self.is_long {
            return false;
        }
        start_line(&mut self.buffer, self.is_told);
        self.is_told = false;
        self.is_long = !append(&mut self.buffer, run);
        !self.is_long
    }

    /// Takes a line feed.
    fn end_line(&mut self)
        requires line { self.old.line ≡ begun_line self.old.text }
        requires short { has_long_line self.old.text ≡ false }
        ensures text { self.new.text ≡ self.old.text ++ 10 ∷ [] }
        ensures tells { TellsLine self.old self.new }
    {
        let length = without_return(self.buffer.as_slice()).len();
        self.buffer.truncate(length);
        self.number = self.number.saturating_add(1);
        self.is_told = true;
        self.fed.extend(b"\n");
    }

    /// Takes bytes behind a line that is too long.
    fn pass_over(&mut self, rest: &[u8])
        requires { has_long_line self.old.text ≡ true }
        ensures text { self.new.text ≡ self.old.text ++ rest.now }
        ensures long { IsTooLong self.old self.new }
    {
        self.fed.extend(rest);
    }
}

/// How many bytes of a line are kept: as many as it may have, and a carriage return that may belong to its end.
fn room_of_line() -> usize
    ensures { result ≡ greatest_line_bytes + 1 }
{
    greatest_bytes_of_line() as usize + 1
}

/// Empties the buffer of a line that was told.
fn start_line(buffer: &mut Vec<u8>, is_told: bool)
    ensures kept { buffer.new.items ≡ kept is_told buffer.old.items }
    ensures length { vec_len buffer.new ≤ vec_len buffer.old }
    ensures room { vec_capacity buffer.new ≡ vec_capacity buffer.old }
{
    if is_told {
        buffer.clear();
    }
}

/// Appends bytes to a line, and answers whether a line may be so long.
fn append(line: &mut Vec<u8>, run: &[u8]) -> bool
    requires room { greatest_line_bytes < vec_capacity line.old }
    requires fits { vec_len line.old ≤ greatest_line_bytes + 1 }
    ensures room { greatest_line_bytes < vec_capacity line.new }
    ensures fits { vec_len line.new ≤ greatest_line_bytes + 1 }
    ensures short { result ≡ not (is_long (strip_carriage_return (line.old.items ++ run.now))) }
    ensures appended { IsTrue result → line.new.items ≡ line.old.items ++ run.now }
{
    if run.len() > room_of_line() - line.len() {
        return false;
    }
    let _ = line.extend_from_slice(run);
    without_return(line.as_slice()).len() as u64 <= greatest_bytes_of_line()
}
