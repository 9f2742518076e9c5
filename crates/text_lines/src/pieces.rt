// Pieces, one after another.
ghost use Rattle.std.specs.Prelude.{OnOk, IfErr, map};
ghost use Rattle.outside.specs.Sink.{Appends};
ghost use Rattle.text_lines.specs.Puts.{AppendsPart};
ghost use Rattle.text_lines.specs.Pieces.{joined, piece_text};

use crate::puts::{put_all, put_i64, put_u64, put_u128};
use outside::{Refusal, Sink};

/// A piece of a text.
#[derive(Clone, Copy, Debug, Drop)]
pub enum Piece<'a> {
    /// These bytes.
    Text(&'a [u8]),
    /// The decimal text of a number.
    Number(u64),
    /// The decimal text of a number that may be no word.
    Wide(u128),
    /// The decimal text of a signed number.
    Signed(i64),
}

/// Appends a piece. After a refusal a part of it at its front was appended.
fn put_piece<S: Sink>(sink: &mut S, piece: &Piece<'_>) -> Result<(), Refusal>
    ensures whole { OnOk result (Appends (S.state sink.old) (S.state sink.new) (piece_text piece.now)) }
    ensures part { IfErr result (AppendsPart (S.state sink.old) (S.state sink.new) (piece_text piece.now)) }
{
    match piece {
        Piece::Text(bytes) => put_all(sink, bytes),
        Piece::Number(number) => put_u64(sink, *number),
        Piece::Wide(number) => put_u128(sink, *number),
        Piece::Signed(number) => put_i64(sink, *number),
    }
}

/// Appends pieces one after another. After a refusal a part of their text at its front was appended. It takes no memory but what
/// the sink takes, and calls itself for each piece.
#[tactic(auto, using(crate::proofs::PutsLemmas::part_of_first, crate::proofs::PutsLemmas::part_of_second))]
pub fn put_pieces<S: Sink>(sink: &mut S, pieces: &[Piece<'_>]) -> Result<(), Refusal>
    ensures whole { OnOk result (Appends (S.state sink.old) (S.state sink.new) (joined (map piece_text pieces.now))) }
    ensures part { IfErr result (AppendsPart (S.state sink.old) (S.state sink.new) (joined (map piece_text pieces.now))) }
{
    let Some((first, others)) = pieces.split_first() else {
        return Ok(());
    };
    match put_piece(sink, first) {
        Ok(()) => put_pieces(sink, others),
        Err(refusal) => Err(refusal),
    }
}
