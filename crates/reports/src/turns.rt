// How many turns loops made.
ghost use Rattle.std.specs.Prelude.{OnOk, IfErr};
ghost use Rattle.outside.specs.Sink.{Appends};
ghost use Rattle.text_lines.specs.Puts.{AppendsPart};
ghost use Rattle.reports.specs.Reports.{turns_line};

use kernel_code::Turns;
use outside::{Refusal, Sink};
use text_lines::{Piece, put_pieces};

/// Appends the line that tells how many turns loops of each kind made. After a refusal a part of it at its front was appended. It
/// takes no memory but what the sink takes.
pub fn put_turns<S: Sink>(sink: &mut S, turns: &Turns) -> Result<(), Refusal>
    ensures whole { OnOk result (Appends (S.state sink.old) (S.state sink.new) (turns_line turns.now)) }
    ensures part { IfErr result (AppendsPart (S.state sink.old) (S.state sink.new) (turns_line turns.now)) }
{
    put_pieces(
        sink,
        &[
            Piece::Text(b"turns merge "),
            Piece::Number(turns.merge),
            Piece::Text(b" skip "),
            Piece::Number(turns.skip),
            Piece::Text(b" gather "),
            Piece::Number(turns.gather),
            Piece::Text(b" drain "),
            Piece::Number(turns.drain),
            Piece::Text(b" probe "),
            Piece::Number(turns.probe),
            Piece::Text(b"\n"),
        ],
    )
}
