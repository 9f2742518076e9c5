//! Runs cases of the parts that stand below storage: each case file that the command line names. It prints each case and what came of it,
//! which is compared with the file `stdout`, where stands what must come.
//!
//! A line of a case file is one of these, a comment that begins with `#`, or empty.
//!
//! Buffers over raw memory, boxes and lists:
//!
//! ```text
//! segment u64: reserve 2; push 4; get 0     What is done with a segment of these elements, step by step.
//! twin: reserve 1; push 3 4                 What is done with two lists that grow together.
//! items: slice 3 4; push 5; pop             What is done with a list.
//! box: 5                                    What a box gives back.
//! tree: 7 8 pair 9 row:2                    The leaves of a tree; each word takes its children from those before.
//! blocks: 3 100                             So many times blocks of at least so many elements are taken, and given back.
//! refusals: 9                               So many elements are pushed, each of which may want memory.
//! ```
//!
//! What steps answer comes first, then what they leave. Elements are of 8, 4 and 1 bytes, `u64`, `u32` and `u8`, of none, `unit`, or
//! words, `wide` in 8 bytes and `narrow` in 4. A step of a segment is `room N`, `filled N X`, `reserve N`, `push X`, `append X` (with the
//! room for it), `set I X`, `get I`, `turn` (the other way round), `truncate N`, `len` or `spare`; words have no `room`, `filled`, `append`
//! and `turn`.
//!
//! Lines, numbers, files and streams. The text behind the `|` has the escapes \t, \r, \n, \\ and \xHH. Behind the keyword stand numbers,
//! and behind the words `cut` and `fail` the greatest lengths of pieces in turn and the numbers of the calls that fail:
//!
//! ```text
//! lines | 1 5\r\n3 7          The lines of a text.
//! tokens | 1 2                The tokens of a line.
//! blanks | \t1                Which bytes of a line are blanks.
//! index 5 | 007               The number of a token, which is at most 5.
//! whole | 1.0                 The signed whole number of a token.
//! tns 2 | 1 1 2\n            The entries or the fault of a `.tns` file of order 2, in pieces of 1, 2 and 4,096 bytes.
//! tns 2 65537 | 1 1 2\n      So is a file with a comment of so many bytes in front.
//! tns 2 over minplus | 1 1 2\n     So is a file whose values are lengths, or flags (`bits`); other cases of files are over the ring.
//! put_tns 2 | 1 1 2\n        The text that is written of its entries, added; over the other semirings too, once it is read over the ring.
//! mtx 2 | %%MatrixMarket ..   The sizes and the entries, or the fault, of a `.mtx` file of order 2, in pieces of 1, 2 and 4,096 bytes.
//! put cut 1 3 fail 3 | -12    A number is put into a sink.
//! read 5 fail 2 | 12 45       A file is fed to a vector, within 5 bytes.
//! absent 5 |                  So is a file that isn't there.
//! write cut 4 fail 3 | abc    A text is put into the file `old`, through a sink over the folder.
//! batch 9000 fail 2 | a       The text is put 9,000 times into a batch over a sink.
//! copy | abc                  A file is written, read back and given to a sink, over objects that never fail.
//! copy_real | abc             So is a file of the system, over a longer one; its text is printed.
//! copy_counted fail 2 | abc   A file of the system is written and read back, and this call for it fails, of all that are counted.
//! laws |                      Each call that states a law.
//! ```
//!
//! What is generic over a semiring, over the ring of words and over lengths, words over flags too:
//!
//! ```text
//! words: WORD WORD            Their sum with zero, their product with one, and minus one, if there is one; below it the difference of
//!                             the words and the signed number that the first one is.
//! entries: ORDER | ENTRIES    Their sums, and those of them that aren't zero.
//! drain: ORDER | ENTRIES / ENTRIES ..    A workspace that is filled and drained again and again: what each drain gives.
//! value: STATEMENT | RANGES | COORDINATES | ENTRIES / ENTRIES ..    The value at coordinates of the left side, if it has a meaning.
//! present: STATEMENT | ENTRIES / ENTRIES ..    Of a right side with one variable the value at the points 0, 1, 2 and 3, where it is
//!                             present, and a minus where it is absent.
//! ```
//!
//! Entries are parted by `;`, each its coordinates, counted from 0, and its value. The ranges are those of the variables in the order in
//! which they first stand, and the entries behind a statement those of its accesses' tensors in the same order: each access is to a tensor
//! of its own. No nested sum stands in the statement of a value.
//!
//! Statements, formats and graphs:
//!
//! ```text
//! text y(i) = A(i,j) * x(j)        The statement of a text, or its fault. The last such statement is kept.
//! names a = b(i) * b               Whether the names of a text's statement pass, or their fault.
//! groups a = b(i) - c(i) + 2       The groups of a text's statement, a line for each: own variables, and each term behind its sign.
//! ranges 3 - | =4 7 | 9            The ranges of the statement that was kept, or their fault: of each variable its range, if it is given
//!                                  one, and behind a `|` what an operand tells of each mode: a size, behind `=`, or a greatest coordinate.
//! edges ds ds:1,0 d                The edges of the statement that was kept, under a format for each tensor; a scalar's is `-`.
//! lattice 0 d s s                  The points of the lattice of its right side at a loop over variable 0, under a format for each tensor:
//!                                  the accesses of each, what is left, and the places of the points below it.
//! form ds ds:1,0                   The loop order of the statement that was kept, and its concrete form, under a format for each tensor.
//! graph 3 2-0 0-1                  The order of so many variables with these edges, or their cycle.
//! format 2 ds:1,0                  The format of a word, for a tensor of this order, or its fault.
//! dense 3                          The dense format of this order.
//! numbers 3 2 2 | 0 0 | 1 0 1 | 2 1  Whether a statement of so many tensors, variables and factors is well formed: its accesses by the
//!                                  numbers of tensor and variables, the left one first.
//! ```
//!
//! Variables are told by their numbers in standing order, from 0, and accesses of the right side by theirs behind `#`, with nested sums
//! numbered behind them; of a statement each of these is told behind its expression. In the text of a statement `\t` is a tab, `\\` a
//! backslash, and `{33 -}` stands for 33 minuses.
#![tactic(auto)]

mod arithmetics;
mod copies;
mod counted;
mod files;
mod formats;
mod forms;
mod graphs;
mod matrices;
mod memory;
mod numbered;
mod owners;
mod pieces;
mod ranged;
mod scripted;
mod segments;
mod session;
mod statements;
mod steps;
mod streams;
mod tokens;

use anyhow::Result;
use case_files::run_lines;
use session::Session;

fn main(rt: HostRuntime) -> Result<()> {
    let mut session = Session::new(&rt);
    run_lines(&rt, &mut session)
}
