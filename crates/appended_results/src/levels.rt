//! One level of a result, to which heads of rows are appended.
ghost use Rattle.std.specs.Prelude.{◌≡◌, ◌≤◌, ◌<◌, ◌*◌, ◌+◌, ◌^◌, ℕ, suc, false, true, List, [], ◌∷◌, ◌++◌};
ghost use Rattle.std.specs.Prelude.{length, IfOk};
ghost use Rattle.kernel_code.specs.declared.syntax.KExpr.{KExpr};
ghost use Rattle.kernel_code.specs.declared.syntax.KStmt.{KStmt};
ghost use Rattle.kernel_code.specs.Keeps.{Mentions};
ghost use Rattle.format_spec.specs.Formats.{letters_of};
ghost use Rattle.level_core.specs.declared.letter.Letter.{Letter};
ghost use Rattle.level_core.specs.Kinds.{properties};
ghost use Rattle.tensor_storage.specs.Levels.{meaning};
ghost use Rattle.appended_results.specs.Heads.{letter_at, IsHead};
ghost use Rattle.appended_results.specs.Places.{is_fixed};
ghost use Rattle.appended_results.specs.Codes.{place_appended, place_full, AppendsLevel, HasRoom, inner_of, IsOutsideResult};
ghost use Rattle.appended_results.specs.Parts.{Reserves, Counts};

use format_spec::FormatLevel;
use kernel_code::{Arr, KExpr, KStmt, Op, binary, one_statement, word_at};
use level_appends::{AppendSite, append_row, count_positions, reserve_parents};
use level_core::props_of;
use std::alloc::{AllocError, Global};
use tensor_storage::{StorageLevel, kind_of};
use trees::Items;

/// Where heads are appended to a level: how many levels stand above it and how many there are, the first variable of the result, and the
/// first of the code.
#[derive(Clone, Copy, Debug, PartialEq, Eq, Drop)]
pub struct LevelSite {
    pub above: u64,
    pub levels: u64,
    pub base: u64,
    pub free: u64,
}

/// Where the level's cursor stands.
fn cursor(at: LevelSite) -> AppendSite
    requires room { HasRoom at.levels at.base at.free }
    requires above { at.above < at.levels }
    ensures { result ≡ record { level = suc at.above; base = at.base + 4 * at.above } }
{
    AppendSite {
        level: at.above + 1,
        base: at.base + 4 * at.above,
    }
}

/// The position of a head at a level that it is appended to, and how many positions there are. Refused for want of memory alone.
fn place_appended(alloc: Global, at: LevelSite) -> Result<Items<KStmt>, AllocError>
    requires room { HasRoom at.levels at.base at.free }
    requires above { at.above < at.levels }
    ensures { IfOk result (λ code. code ≡ place_appended at.base at.free at.above) }
{
    let count = at.base + 4 * at.above + 2;
    let place = at.free + 2 * (at.above + 1);
    let last = binary(alloc, Op::Sub, KExpr::Var(count), KExpr::Num(1))?;
    let mut code = one_statement(alloc, KStmt::Set(place, last))?;
    code.push(KStmt::Set(place + 1, KExpr::Var(count)))?;
    Ok(code)
}

/// The position of a head at a full level. Refused for want of memory alone.
fn place_full(alloc: Global, at: LevelSite, coord: u64) -> Result<Items<KStmt>, AllocError>
    requires room { HasRoom at.levels at.base at.free }
    requires above { at.above < at.levels }
    ensures { IfOk result (λ code. code ≡ place_full at.free at.above coord) }
{
    let size = word_at(alloc, Arr::Dimension(0, at.above + 1), KExpr::Num(0))?;
    let begin = binary(alloc, Op::Mul, KExpr::Var(at.free + 2 * at.above), size)?;
    let place = binary(alloc, Op::Add, begin, KExpr::Var(coord))?;
    let code = one_statement(alloc, KStmt::Set(at.free + 2 * (at.above + 1), place))?;
    Ok(code)
}

/// Code that reserves the level's parents, unless there are as many from the start on. Refused for want of memory alone.
fn reserve(
    alloc: Global,
    level: &StorageLevel,
    at: LevelSite,
    fixed: bool,
) -> Result<Items<KStmt>, AllocError>
    requires room { HasRoom at.levels at.base at.free }
    requires above { at.above < at.levels }
    ensures { IfOk result (λ code. (letters : List Letter) → letter_at letters at.above ≡ meaning.kind level.now
        → is_fixed letters at.above ≡ fixed → Reserves letters at.base at.free at.above (inner_of at.levels at.free) code) }
{
    if fixed {
        return Ok(Items::new(alloc));
    }
    let parents = KExpr::Var(at.free + 2 * at.above + 1);
    let inner = at.free + 2 * at.levels + 2;
    let code = reserve_parents(alloc, level, cursor(at), parents, inner)?;
    Ok(code)
}

/// Code that counts the positions of a full level, unless there are as many from the start on. Refused for want of memory alone.
fn count(alloc: Global, at: LevelSite, fixed: bool) -> Result<Items<KStmt>, AllocError>
    requires room { HasRoom at.levels at.base at.free }
    requires above { at.above < at.levels }
    ensures { IfOk result (λ code. (letters : List Letter) → is_fixed letters at.above ≡ fixed → Counts letters at.free at.above code) }
{
    if fixed {
        return Ok(Items::new(alloc));
    }
    let parents = KExpr::Var(at.free + 2 * at.above + 1);
    let total = at.free + 2 * (at.above + 1) + 1;
    let code = count_positions(alloc, at.above + 1, parents, total)?;
    Ok(code)
}

/// The code of a level that heads are appended to, of its pieces. Refused for want of memory alone.
fn if_begins(
    alloc: Global,
    reserve: Items<KStmt>,
    test: KExpr,
    append: Items<KStmt>,
    place: Items<KStmt>,
) -> Result<Items<KStmt>, AllocError>
    ensures { IfOk result (λ code. code ≡ reserve ++ (KStmt.If test append [] ∷ place)) }
{
    let mut then = one_statement(alloc, KStmt::If(test, append, Items::new(alloc)))?;
    then.append(place)?;
    let mut code = reserve;
    code.append(then)?;
    Ok(code)
}

/// Code that appends a head to a level which isn't full, where `test` tells that it begins a position. Refused for want of memory alone.
fn append_head(
    alloc: Global,
    level: &StorageLevel,
    at: LevelSite,
    fixed: bool,
    test: KExpr,
    coord: u64,
) -> Result<Items<KStmt>, AllocError>
    requires room { HasRoom at.levels at.base at.free }
    requires above { at.above < at.levels }
    requires coord { IsOutsideResult at.levels at.base at.free coord }
    ensures { IfOk result (λ code. (letters : List Letter) (head : ℕ) → length letters ≡ at.levels
        → letter_at letters at.above ≡ meaning.kind level.now → is_fixed letters at.above ≡ fixed → at.above < head
        → (properties (letter_at letters at.above)).full ≡ false
        → Mentions (λ y. y < inner_of at.levels at.free) (λ a. ⊥) test
        → AppendsLevel letters head at.base at.free at.above test coord code) }
{
    let reserved = reserve(alloc, level, at, fixed)?;
    let inner = at.free + 2 * at.levels + 2;
    let parent = at.free + 2 * at.above;
    let append = append_row(alloc, level, cursor(at), parent, coord, inner)?;
    let placed = place_appended(alloc, at)?;
    let code = if_begins(alloc, reserved, test, append, placed)?;
    Ok(code)
}

/// Code that places a head at a full level of the head. Refused for want of memory alone.
fn place_head(
    alloc: Global,
    at: LevelSite,
    fixed: bool,
    coord: u64,
) -> Result<Items<KStmt>, AllocError>
    requires room { HasRoom at.levels at.base at.free }
    requires above { at.above < at.levels }
    requires coord { IsOutsideResult at.levels at.base at.free coord }
    ensures { IfOk result (λ code. (letters : List Letter) (head : ℕ) (test : KExpr) → length letters ≡ at.levels
        → is_fixed letters at.above ≡ fixed → at.above < head → (properties (letter_at letters at.above)).full ≡ true
        → AppendsLevel letters head at.base at.free at.above test coord code) }
{
    let counted = count(alloc, at, fixed)?;
    let placed = place_full(alloc, at, coord)?;
    let mut code = counted;
    code.append(placed)?;
    Ok(code)
}

/// Code that appends a head to a level of any kind, where `test` tells whether it begins a position, and `coord` is the variable of its
/// coordinate: at a level of the head it finds the head's position, at one below it that has others it counts positions alone. `fixed` is
/// whether all levels above are full. Refused for want of memory alone.
pub fn append_to_level(
    alloc: Global,
    format: &[FormatLevel],
    at: LevelSite,
    head: usize,
    fixed: bool,
    test: KExpr,
    coord: u64,
) -> Result<Items<KStmt>, AllocError>
    requires room { HasRoom at.levels at.base at.free }
    requires above { at.above < at.levels }
    requires all { at.levels ≡ length format.now }
    requires head { IsHead (letters_of format.now) head }
    requires fixed { fixed ≡ is_fixed (letters_of format.now) at.above }
    requires coord { IsOutsideResult at.levels at.base at.free coord }
    requires test { Mentions (λ y. y < inner_of at.levels at.free) (λ a. ⊥) test }
    ensures { IfOk result (AppendsLevel (letters_of format.now) head at.base at.free at.above test coord) }
{
    let letter = format[at.above as usize].letter;
    if head as u64 <= at.above {
        let code = count(alloc, at, fixed)?;
        return Ok(code);
    }
    if props_of(letter).full {
        let code = place_head(alloc, at, fixed, coord)?;
        return Ok(code);
    }
    let level = kind_of(alloc, letter)?;
    let code = append_head(alloc, &level, at, fixed, test, coord)?;
    Ok(code)
}
