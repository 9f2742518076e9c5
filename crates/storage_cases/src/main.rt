//! Runs cases of packed tensors, of levels of all kinds, and of kernels written by hand: each case file that the command line names. What
//! it prints is compared with the file `stdout`, where stands what must come.
//!
//! A line of a case file is a comment that begins with `#`, or empty, or one of these.
//!
//! ```text
//! FORMAT | RANGES | ENTRIES
//! FORMAT | RANGES | ENTRIES | COORDINATES
//! levels: FORMAT | RANGES | ENTRIES
//! kind: LETTER
//! positions: LETTER RANGE PARENTS MOST
//! ```
//!
//! The format is a word, as `ds` or `ds:1,0`, and nothing for a tensor of order 0. The ranges are those of the modes. Entries
//! stand as in a file, their lines parted by `;`: coordinates, counted from 1, and a value. Those with equal coordinates are
//! added. The entries are packed in the format, and what is printed below the case is the value at each of the coordinates, parted by `;`
//! too; where there are none in the case, at every coordinate list within the ranges, in increasing order. Then come the
//! entries that the packed tensor gives back, and its text as tensor 1, named `A`. Want of memory is printed as such, and comes in
//! no case.
//!
//! Of a case that begins with `levels:`, the levels of the packed entries are asked by their calls. What is printed first is the kind
//! of each level, from the top, and how many parents and positions it has. Then, for each span that may be asked, in the order of paths,
//! come its segment, and the coordinates there with their children. At a level that locates coordinates, below one position, the places
//! of the coordinates follow, from 0 up to the range itself, with a minus for none.
//!
//! Of a case that begins with `kind:`, the properties and the capabilities of the kind of level that the letter names are printed.
//!
//! Of a case that begins with `positions:`, it is printed how many positions a level of this kind has, of this range, once so many parents
//! are prepared, each for at most so many coordinates. No level is made.
//!
//! Kernels written by hand are printed, simplified and run:
//!
//! ```text
//! tensor s | 6 | 2 4; 5 5   The tensor 1 of the runs from here on: its format, ranges and entries.
//! over minplus              The kernel is over this semiring, else over the ring.
//! workspace 2               One more workspace of the kernel, with so many keys.
//! list                      One more scratch list of the kernel.
//! do WORDS                  More of the kernel's body, in words that each take what they need from those before.
//! print                     The text of the kernel; a new kernel begins.
//! simplify                  The text of what `simplify` makes of the kernel; a new kernel begins.
//! run NAME                  What the kernel's body leaves; a new kernel begins.
//! ```
//!
//! Expressions are a number; a variable as `x0`; an array as `T1_val`, which is its word at an index before, and `#T1_val`, its length; an
//! operator with its operands before, `min` and `width` too. Statements are `set:0`, `plus:0`, `times:0` with a variable's number;
//! `put:ARRAY`, `add:ARRAY`, `push:ARRAY`, `extend:ARRAY`, `cut:ARRAY`; `sort:0`, `sort_sum:0`. A body stands in `[` and `]`: `if` has its
//! test and two bodies before it, `while:KIND` its test and one. `names.rt` has the arrays that a case may name.
//!
//! Each run has the same arrays but for those of tensor 1: `range` has 6 and 7; the result has one value, the zero of the semiring, two
//! segment ends and no coordinates at level 1, and no width at level 2; there is one workspace of one key and one scratch list. Behind the
//! name come how the run ended, where it is stuck the number of the statement, the turns of each kind, and the arrays that have words, with
//! these.
//!
//! Kernels of which nothing is known are run by `run_checked`, on a result of their own and on the workspaces and lists of the case:
//!
//! ```text
//! checked BUDGET FORMAT | RANGES | NAME
//! ```
//!
//! The ranges are those of the result's modes. Below the case stand the turns of each kind and the text of the result as tensor 0, named
//! `A`; or the statement at which the run can't go on, that the budget isn't enough, which size limit is passed, or that what is left is
//! no storage. A new kernel begins.
//!
//! Texts are read as kernels:
//!
//! ```text
//! line TEXT                 One more line of the text, with a line feed; `\r`, `\t` and the like stand for one byte.
//! piece TEXT                More of the text, without a line feed.
//! copies 2 TEXT             So many copies of what stands behind the number.
//! read NAME                 What comes of the text; a new text begins.
//! read_line TEXT            What comes of a kernel over the ring with this one line in its body.
//! ```
//!
//! Behind the name, or the line, stands that the text is read back, which is that the kernel's text is the same but for comments in front,
//! or why it is no kernel's.
#![tactic(auto)]

mod checked;
mod kinds;
mod levels;
mod names;
mod postfix;
mod reading;
mod run;
mod session;
mod tensors;
mod values;

use anyhow::Result;
use case_files::run_lines;
use session::Session;

fn main(rt: HostRuntime) -> Result<()> {
    let mut session = Session::new(rt.alloc());
    run_lines(&rt, &mut session)
}
