//! The formats in which accesses are stored by their plan.
ghost use Rattle.std.specs.Prelude.{◌≡◌, ◌+◌, ◌<◌, ◌↔◌, ◌∷◌, ◌++◌, [], All, IsTrue, length, map, IfOk, OnOk, string_bytes};
ghost use Rattle.lists.specs.Each.{Each};
ghost use Rattle.index_notation.specs.Statement.{IsDistinct};
ghost use Rattle.format_spec.specs.Formats.{IsOrder, letters_of};
ghost use Rattle.format_spec.specs.Words.{letter_byte as byte_of, more_modes, mode_text};
ghost use Rattle.mode_planner.specs.Planned.{planned_format, with_modes};

use crate::plans::{leads_back, modes_in_order};
use format_spec::{Format, FormatLevel, letter_byte, parse_format};
use std::alloc::{AllocError, Global};

/// The letters of a format.
fn letters_text(alloc: Global, format: &Format) -> Result<String, AllocError>
    ensures { IfOk result (λ text. string_bytes text ≡ map byte_of (letters_of format.now)) }
{
    let mut text = String::new(alloc);
    for level in format.levels() {
        text.push(letter_byte(level.letter) as char)?;
    }
    Ok(text)
}

/// Appends a mode as a single digit behind a comma.
fn put_mode(text: &mut String, mode: usize) -> Result<(), AllocError>
    requires { mode < 10 }
    ensures { OnOk result (string_bytes text.new ≡ string_bytes text.old ++ 44 ∷ (48 + mode) ∷ []) }
{
    text.push(',')?;
    text.push((b'0' + mode as u8) as char)
}

/// Appends modes so.
fn put_modes(text: &mut String, modes: &[usize]) -> Result<(), AllocError>
    requires { All (λ mode. mode < 10) modes.now }
    ensures { OnOk result (string_bytes text.new ≡ string_bytes text.old ++ more_modes modes.now) }
{
    for mode in modes {
        put_mode(text, *mode)?;
    }
    Ok(())
}

/// Modes as single digits joined by commas.
fn modes_text(alloc: Global, modes: &[usize]) -> Result<String, AllocError>
    requires { All (λ mode. mode < 10) modes.now }
    ensures { IfOk result (λ text. string_bytes text ≡ mode_text modes.now) }
{
    let mut text = String::new(alloc);
    if let Some((first, rest)) = modes.split_first() {
        text.push((b'0' + *first as u8) as char)?;
        put_modes(&mut text, rest)?;
    }
    Ok(text)
}

/// A format of the same letters that stores these modes. Formats are made of their texts alone.
fn with_modes(alloc: Global, format: &Format, modes: &[usize]) -> Result<Format, AllocError>
    requires { IsOrder (length format.now) modes.now }
    ensures { IfOk result (λ changed. changed ≡ with_modes (letters_of format.now) modes.now) }
{
    let count = format.levels().len();
    let letters = letters_text(alloc, format)?;
    let order = modes_text(alloc, modes)?;
    let changed = parse_format(alloc, letters.as_str(), Some(order.as_str()), count);
    Ok(changed.unwrap())
}

/// The format in which an access with these variables, which are among so many, is stored by its plan.
pub(crate) fn planned_format(
    alloc: Global,
    count: usize,
    format: &Format,
    vars: &[usize],
) -> Result<Format, AllocError>
    requires same { length format.now ≡ length vars.now }
    requires once { IsDistinct vars.now }
    requires below { Each (λ v. v < count) vars.now }
    ensures { IfOk result (λ planned. planned ≡ planned_format count format.now vars.now) }
{
    if !leads_back(alloc, format, vars)? {
        return Ok(format.copied());
    }
    let modes = modes_in_order(alloc, count, vars)?;
    with_modes(alloc, format, modes.as_slice())
}

/// Whether two levels are the same.
fn is_same_level(level: FormatLevel, other: FormatLevel) -> bool
    ensures { IsTrue result ↔ (level ≡ other) }
{
    level.letter == other.letter && level.mode == other.mode
}

/// Whether two formats are the same.
pub(crate) fn is_same(format: &Format, other: &Format) -> bool
    ensures { IsTrue result ↔ (format.now ≡ other.now) }
{
    if format.order() != other.order() {
        return false;
    }
    for level in 0..format.order() {
        if !is_same_level(format.levels()[level], other.levels()[level]) {
            return false;
        }
    }
    true
}
