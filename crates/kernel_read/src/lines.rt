// Lines of a kernel's body.
ghost use Rattle.std.specs.Prelude.{◌≡◌, ◌≤◌, ◌++◌, ℕ, List, true, false, codes, length, drop, IfOk, MatchOption};
ghost use Rattle.kernel_code.specs.declared.syntax.KExpr.{KExpr as AnExpr};
ghost use Rattle.kernel_code.specs.declared.syntax.LoopKind.{LoopKind as Kind};
ghost use Rattle.kernel_print.specs.ExprTexts.{ExprHasWords};
ghost use Rattle.kernel_print.specs.Text.{expr_text, indentation, kind_text};
ghost use Rattle.kernel_read.specs.Reading.{Reads};

use crate::exprs::one_at;
use crate::marks::behind;
use crate::statements::statement_at;
use kernel_code::{KExpr, KStmt, LoopKind};
use std::alloc::{AllocError, Global};

/// A line of a body: a whole statement, the first line of one that has bodies, or one that ends a body.
#[derive(Debug, Drop)]
pub enum Line {
    /// A whole statement.
    Whole(KStmt),
    /// The first line of an `if`.
    If(KExpr),
    /// The first line of a loop.
    While(LoopKind, KExpr),
    /// The end of the first body of an `if`.
    Else,
    /// The end of any other body.
    Close,
}

/// The kind and the test of the loop whose first line stands at a place, and the place behind it.
fn loop_at(
    alloc: Global,
    line: &[u8],
    at: usize,
) -> Result<Option<((LoopKind, KExpr), usize)>, AllocError>
    requires { at ≤ length line.now }
    ensures { IfOk result (Reads (Kind × AnExpr)
        (λ s. codes "while " ++ (kind_text s.0 ++ (codes " " ++ (expr_text s.1 ++ codes " {\n"))))
        (λ s. ExprHasWords s.1) line.now at) }
{
    if let Some((e, next)) = one_at(alloc, line, at, b"while merge ", b" {\n")? {
        return Ok(Some(((LoopKind::Merge, e), next)));
    }
    if let Some((e, next)) = one_at(alloc, line, at, b"while skip ", b" {\n")? {
        return Ok(Some(((LoopKind::Skip, e), next)));
    }
    if let Some((e, next)) = one_at(alloc, line, at, b"while gather ", b" {\n")? {
        return Ok(Some(((LoopKind::Gather, e), next)));
    }
    if let Some((e, next)) = one_at(alloc, line, at, b"while drain ", b" {\n")? {
        return Ok(Some(((LoopKind::Drain, e), next)));
    }
    match one_at(alloc, line, at, b"while probe ", b" {\n")? {
        Some((e, next)) => Ok(Some(((LoopKind::Probe, e), next))),
        None => Ok(None),
    }
}

/// Whether a line ends with these bytes from a place of it on.
pub(crate) fn ends_so(line: &[u8], at: usize, bytes: &[u8]) -> bool
    requires { at ≤ length line.now }
    ensures yes { result ≡ true → drop at line.now ≡ bytes.now }
    ensures no { result ≡ false → drop at line.now ≡ bytes.now → ⊥ }
{
    match behind(line, at, bytes) {
        Some(next) => next == line.len(),
        None => false,
    }
}

/// Where a line goes on behind two blanks for each of so many blocks, if they stand at its front.
fn behind_blanks(line: &[u8], depth: usize) -> Option<usize>
    ensures { MatchOption result ((rest : List ℕ) → line.now ≡ indentation depth ++ rest → ⊥)
        (λ at. (at ≤ length line.now) × (line.now ≡ indentation depth ++ drop at line.now)) }
{
    let mut at = 0;
    for _level in 0..depth {
        at = behind(line, at, b"  ")?;
    }
    Some(at)
}

impl Line {
    ghost use Rattle.kernel_read.specs.declared.lines.Line.{Line as ALine};
    ghost use Rattle.kernel_read.specs.declared.lines.Line.TheVariants as a;
    ghost use Rattle.std.specs.Prelude.{◌⊎◌};
    ghost use Rattle.kernel_read.specs.Lines.{IsLine, IsLineOf, IsOpening, opening_text};

    /// The whole statement, or the first line of one that has bodies, that stands at a place of a line, and the place behind it.
    fn opening_at(
        alloc: Global,
        line: &[u8],
        at: usize,
        combines: bool,
    ) -> Result<Option<(Line, usize)>, AllocError>
        requires { at ≤ length line.now }
        ensures { IfOk result (Reads ALine opening_text (IsOpening combines) line.now at) }
    {
        if let Some((statement, next)) = statement_at(alloc, line, at, combines)? {
            return Ok(Some((Line::Whole(statement), next)));
        }
        if let Some((e, next)) = one_at(alloc, line, at, b"if ", b" {\n")? {
            return Ok(Some((Line::If(e), next)));
        }
        match loop_at(alloc, line, at)? {
            Some(((kind, e), next)) => Ok(Some((Line::While(kind, e), next))),
            None => Ok(None),
        }
    }

    /// The whole statement, or the first line of one that has bodies, that a line ends with from a place of it on.
    fn opening(
        alloc: Global,
        line: &[u8],
        at: usize,
        combines: bool,
    ) -> Result<Option<Line>, AllocError>
        requires within { at ≤ length line.now }
        requires line { IsLine line.now }
        ensures { IfOk result (λ answer. MatchOption answer
            ((x : ALine) → IsOpening combines x → drop at line.now ≡ opening_text x → ⊥)
            (λ x. IsOpening combines x × (drop at line.now ≡ opening_text x))) }
    {
        let Some((opening, next)) = Line::opening_at(alloc, line, at, combines)? else {
            return Ok(None);
        };
        if next == line.len() {
            Ok(Some(opening))
        } else {
            Ok(None)
        }
    }

    /// The line that ends a body, that a line ends with from a place of it on.
    fn closing(line: &[u8], at: usize) -> Option<Line>
        requires { at ≤ length line.now }
        ensures { MatchOption result
            ((drop at line.now ≡ codes "}\n" → ⊥) × (drop at line.now ≡ codes "} else {\n" → ⊥))
            (λ x. ((x ≡ a.Close) × (drop at line.now ≡ codes "}\n")) ⊎ ((x ≡ a.Else) × (drop at line.now ≡ codes "} else {\n"))) }
    {
        if ends_so(line, at, b"}\n") {
            Some(Line::Close)
        } else if ends_so(line, at, b"} else {\n") {
            Some(Line::Else)
        } else {
            None
        }
    }

    /// Which line of a body this is, with so many blocks open around it. A sum or a product of values is read where `combines`.
    /// Refused only for want of memory.
    pub fn of(
        alloc: Global,
        line: &[u8],
        outer: usize,
        combines: bool,
    ) -> Result<Option<Line>, AllocError>
        requires { IsLine line.now }
        ensures { IfOk result (IsLineOf combines outer line.now) }
    {
        let Some(at) = behind_blanks(line, outer) else {
            return Ok(None);
        };
        match behind(line, at, b"  ") {
            Some(at) => Line::opening(alloc, line, at, combines),
            None => Ok(Line::closing(line, at)),
        }
    }
}
