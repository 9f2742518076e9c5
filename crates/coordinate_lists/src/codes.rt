//! The fragments that compressed and singleton levels have in common: the code of a level, numbered `level` of a tensor,
//! whose coordinates are an array. Each is refused for want of memory alone.
ghost use Rattle.std.specs.Prelude.{◌≡◌, ◌≤◌, ◌+◌, ◌-◌, ◌^◌, ℕ, List, [], ◌∷◌};
ghost use Rattle.std.specs.Prelude.{length, Some, IfOk, true, false, if◌then◌else◌};
ghost use Rattle.limits.specs.Limits.{greatest_position_count};
ghost use Rattle.kernel_code.specs.declared.syntax.Arr.TheVariants.{Coordinates};
ghost use Rattle.kernel_code.specs.declared.syntax.LoopKind.TheVariants.{Skip};
ghost use Rattle.kernel_code.specs.Meaning.{Setting, State};
ghost use Rattle.kernel_code.specs.Keeps.{no_turns};
ghost use Rattle.level_core.specs.declared.span.Span.{Span};
ghost use Rattle.level_core.specs.declared.span.Entry.{Entry};
ghost use Rattle.level_core.specs.Entries.{IsIn, StandsAt, coord_at};
ghost use Rattle.level_core.specs.Logs.{Rises, slice, entries_between};
ghost use Rattle.level_core.specs.Fragments.{AreArguments, ValuesAre, Reads, Grows, PassesLimit, SpanLeft, OptionLeft, turns_of};
ghost use Rattle.coordinate_lists.specs.Skips.{skip_test, skip_body, skip_code};
ghost use Rattle.coordinate_lists.specs.Codes.{Appended};

use kernel_code::{
    Arr, KExpr, KStmt, LoopKind, Op, binary, one_statement, position_and_next, word_at,
};
use level_core::{argument, leave_two};
use std::alloc::{AllocError, Global};
use trees::Items;

/// Code that reads the coordinate of a position, of those of a segment.
pub fn coord_code(
    alloc: Global,
    tensor: u64,
    level: u64,
    args: &[KExpr],
    free: u64,
) -> Result<Items<KStmt>, AllocError>
    requires { AreArguments 1 free args.now }
    ensures { IfOk result
        (λ code. (c : Setting) (coords : List ℕ) (segment : Span) → segment.hi ≤ length coords → (pos : ℕ) → IsIn pos segment
        → (s : State) → s.arrays (Coordinates tensor level) ≡ Some coords → ValuesAre args.now s (pos ∷ [])
        → Reads c code free no_turns s (OptionLeft free (coord_at (entries_between coords segment) pos))) }
{
    let position = argument(alloc, args, 0)?;
    let word = word_at(alloc, Arr::Coordinates(tensor, level), position)?;
    let code = leave_two(alloc, free, KExpr::Num(1), word)?;
    Ok(code)
}

/// Code that finds the child positions of a coordinate, of its first position and the two ends of the segment: where
/// each coordinate stands once, that position, and else the group that a loop goes over.
pub fn child_code(
    alloc: Global,
    unique: bool,
    tensor: u64,
    level: u64,
    args: &[KExpr],
    free: u64,
) -> Result<Items<KStmt>, AllocError>
    requires { AreArguments 3 free args.now }
    ensures { IfOk result
        (λ code. (c : Setting) (coords : List ℕ) (segment : Span) → segment.hi ≤ length coords → length coords ≤ greatest_position_count
        → (unique ≡ true → Rises true 0 (slice coords segment)) → (e : Entry) → StandsAt e.child.lo e (entries_between coords segment)
        → (s : State) → s.arrays (Coordinates tensor level) ≡ Some coords
        → ValuesAre args.now s (e.child.lo ∷ segment.lo ∷ segment.hi ∷ [])
        → Reads c code free (if unique then no_turns else turns_of Skip (e.child.hi - e.child.lo)) s (SpanLeft free e.child)) }
{
    if unique {
        let code = position_code(alloc, args, free)?;
        return Ok(code);
    }
    let code = group_code(alloc, tensor, level, args, free)?;
    Ok(code)
}

/// Code that leaves a position and the next.
fn position_code(alloc: Global, args: &[KExpr], free: u64) -> Result<Items<KStmt>, AllocError>
    requires { AreArguments 3 free args.now }
    ensures { IfOk result
        (λ code. (c : Setting) (coords : List ℕ) (segment : Span) → segment.hi ≤ length coords → length coords ≤ greatest_position_count
        → Rises true 0 (slice coords segment) → (e : Entry) → StandsAt e.child.lo e (entries_between coords segment) → (s : State)
        → ValuesAre args.now s (e.child.lo ∷ segment.lo ∷ segment.hi ∷ []) → Reads c code free no_turns s (SpanLeft free e.child)) }
{
    let position = argument(alloc, args, 0)?;
    let code = position_and_next(alloc, free, position)?;
    Ok(code)
}

/// Code that leaves the ends of a group.
fn group_code(
    alloc: Global,
    tensor: u64,
    level: u64,
    args: &[KExpr],
    free: u64,
) -> Result<Items<KStmt>, AllocError>
    requires { AreArguments 3 free args.now }
    ensures { IfOk result
        (λ code. (c : Setting) (coords : List ℕ) (segment : Span) → segment.hi ≤ length coords → length coords ≤ greatest_position_count
        → (e : Entry) → StandsAt e.child.lo e (entries_between coords segment) → (s : State)
        → s.arrays (Coordinates tensor level) ≡ Some coords → ValuesAre args.now s (e.child.lo ∷ segment.lo ∷ segment.hi ∷ [])
        → Reads c code free (turns_of Skip (e.child.hi - e.child.lo)) s (SpanLeft free e.child)) }
{
    let position = argument(alloc, args, 0)?;
    let end = argument(alloc, args, 2)?;
    let again = argument(alloc, args, 0)?;
    let code = skip_loop(
        alloc,
        Arr::Coordinates(tensor, level),
        free,
        position,
        again,
        end,
    )?;
    Ok(code)
}

/// Code that leaves a position, given twice, and goes past the others of its group, at most to an end.
fn skip_loop(
    alloc: Global,
    array: Arr,
    free: u64,
    position: KExpr,
    again: KExpr,
    end: KExpr,
) -> Result<Items<KStmt>, AllocError>
    requires room { free ≤ 2 ^ 63 }
    requires same { again ≡ position }
    ensures { IfOk result (λ code. code ≡ skip_code array free position end) }
{
    let second = binary(alloc, Op::Add, again, KExpr::Num(1))?;
    let coord = word_at(alloc, array, KExpr::Var(free))?;
    let test = goes_on(alloc, array, free)?;
    let body = step(alloc, free)?;
    let mut code = leave_two(alloc, free, position, second)?;
    code.push(KStmt::Set(free + 2, end))?;
    code.push(KStmt::Set(free + 3, coord))?;
    code.push(KStmt::While(LoopKind::Skip, test, body))?;
    Ok(code)
}

/// Whether the position in `free + 1` is before the end in `free + 2` and has the coordinate in `free + 3`.
fn goes_on(alloc: Global, array: Arr, free: u64) -> Result<KExpr, AllocError>
    requires { free ≤ 2 ^ 63 }
    ensures { IfOk result (λ e. e ≡ skip_test array free) }
{
    let before = binary(alloc, Op::Less, KExpr::Var(free + 1), KExpr::Var(free + 2))?;
    let word = word_at(alloc, array, KExpr::Var(free + 1))?;
    let same = binary(alloc, Op::Equal, word, KExpr::Var(free + 3))?;
    binary(alloc, Op::And, before, same)
}

/// One more in `free + 1`.
fn step(alloc: Global, free: u64) -> Result<Items<KStmt>, AllocError>
    requires { free ≤ 2 ^ 63 }
    ensures { IfOk result (λ code. code ≡ skip_body free) }
{
    let next = binary(alloc, Op::Add, KExpr::Var(free + 1), KExpr::Num(1))?;
    one_statement(alloc, KStmt::Set(free + 1, next))
}

/// Code that appends a coordinate to a level of the result.
pub fn append_code(alloc: Global, level: u64, args: &[KExpr]) -> Result<Items<KStmt>, AllocError>
    requires { length args.now ≡ 1 }
    ensures { IfOk result
        (λ code. (c : Setting) (free : ℕ) (coords : List ℕ) (x : ℕ) (s : State) → s.arrays (Coordinates 0 level) ≡ Some coords
        → ValuesAre args.now s (x ∷ []) → Grows c code free 0 level no_turns s (Appended level x coords s)
        (PassesLimit 0 level (length coords + 1))) }
{
    let coord = argument(alloc, args, 0)?;
    let code = one_statement(alloc, KStmt::Push(Arr::Coordinates(0, level), coord))?;
    Ok(code)
}
