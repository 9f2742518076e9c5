// The lines in front of a body.
ghost use Rattle.std.specs.Prelude.{◌≡◌, ◌++◌, ℕ, true, false, codes, IfOk, MatchOption};
ghost use Rattle.kernel_code.specs.declared.syntax.KernelSemiring.{KernelSemiring as ASemiring};
ghost use Rattle.kernel_print.specs.ArrayNames.{IsWord};
ghost use Rattle.kernel_print.specs.Text.{head_text};
ghost use Rattle.kernel_read.specs.Heads.{list_line, workspace_line};
ghost use Rattle.kernel_read.specs.Kernels.{IsKnown};

use crate::arrays::two_numbers_at;
use crate::digits::numbered_at;
use crate::lines::ends_so;
use crate::marks::behind;
use kernel_code::KernelSemiring;
use std::alloc::{AllocError, Global};
use trees::Items;

/// Whether a line is the first one of a kernel over a semiring of this name, with its line feed.
fn is_named(line: &[u8], name: &[u8]) -> bool
    ensures yes { result ≡ true → line.now ≡ codes "kernel " ++ (name.now ++ codes " {\n") }
    ensures no { result ≡ false → line.now ≡ codes "kernel " ++ (name.now ++ codes " {\n") → ⊥ }
{
    let Some(before) = behind(line, 0, b"kernel ") else {
        return false;
    };
    let Some(after) = behind(line, before, name) else {
        return false;
    };
    ends_so(line, after, b" {\n")
}

/// Whether a line is the first one of a kernel over this semiring, with its line feed.
pub fn is_head(line: &[u8], semiring: &KernelSemiring) -> bool
    ensures yes { result ≡ true → line.now ≡ head_text semiring.now }
    ensures no { result ≡ false → line.now ≡ head_text semiring.now → ⊥ }
{
    match semiring {
        KernelSemiring::Ring => ends_so(line, 0, b"kernel {\n"),
        KernelSemiring::Named(name) => is_named(line, name.as_slice()),
    }
}

/// The semiring of the kernel whose first line this is, if it is one that is known. Refused only for want of memory.
pub(crate) fn semiring_of(alloc: Global, line: &[u8]) -> Result<Option<KernelSemiring>, AllocError>
    ensures { IfOk result (λ answer. MatchOption answer ((s : ASemiring) → IsKnown s → line.now ≡ head_text s → ⊥)
        (λ s. IsKnown s × (line.now ≡ head_text s))) }
{
    if is_head(line, &KernelSemiring::Ring) {
        return Ok(Some(KernelSemiring::Ring));
    }
    let lengths = KernelSemiring::Named(Items::from_slice(alloc, b"minplus")?);
    if is_head(line, &lengths) {
        return Ok(Some(lengths));
    }
    let flags = KernelSemiring::Named(Items::from_slice(alloc, b"bits")?);
    if is_head(line, &flags) {
        return Ok(Some(flags));
    }
    Ok(None)
}

/// The number of keys that a line gives the workspace of this number, with its line feed, if it is such a line.
pub fn keys_of_line(line: &[u8], workspace: u64) -> Option<u64>
    ensures { MatchOption result ((keys : ℕ) → IsWord keys → line.now ≡ workspace_line workspace keys → ⊥)
        (λ keys. IsWord keys × (line.now ≡ workspace_line workspace keys)) }
{
    let Some((numbers, next)) = two_numbers_at(line, 0, b"  workspace w", b" ", b";\n") else {
        return None;
    };
    let (number, keys) = numbers;
    if number == workspace {
        if next == line.len() { Some(keys) } else { None }
    } else {
        None
    }
}

/// Whether a line is that of the scratch list of this number, with its line feed.
pub fn is_list_line(line: &[u8], list: u64) -> bool
    ensures yes { result ≡ true → line.now ≡ list_line list }
    ensures no { result ≡ false → line.now ≡ list_line list → ⊥ }
{
    let Some((number, next)) = numbered_at(line, 0, b"  scratch g", b";\n") else {
        return false;
    };
    if number == list {
        next == line.len()
    } else {
        false
    }
}
