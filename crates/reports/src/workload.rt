// What the run of a generated workload tells.
ghost use Rattle.std.specs.Prelude.{OnOk, IfErr};
ghost use Rattle.outside.specs.Sink.{Appends};
ghost use Rattle.text_lines.specs.Puts.{AppendsPart};
ghost use Rattle.reports.specs.Reports.{workload_line};

use kernel_code::Turns;
use numbers::signed;
use outside::{Refusal, Sink};
use text_lines::{Piece, put_pieces};

/// What the run of a generated workload tells: its size, how many entries each operand has, the turns that loops made and what they
/// may cost, how many values of the result aren't zero, and the sum of the result's values.
#[derive(Clone, Copy, Debug, Drop)]
pub struct Workload {
    pub size: u64,
    pub first: u64,
    pub second: u64,
    pub third: u64,
    pub turns: Turns,
    pub cost: u64,
    pub values: u64,
    pub sum: u64,
}

/// Appends the line of a generated workload. After a refusal a part of it at its front was appended. It takes no memory but what the
/// sink takes.
pub(crate) fn put_workload<S: Sink>(sink: &mut S, workload: &Workload) -> Result<(), Refusal>
    ensures whole { OnOk result (Appends (S.state sink.old) (S.state sink.new) (workload_line workload.now)) }
    ensures part { IfErr result (AppendsPart (S.state sink.old) (S.state sink.new) (workload_line workload.now)) }
{
    let sum = signed(workload.sum);
    put_pieces(
        sink,
        &[
            Piece::Text(b"gen "),
            Piece::Number(workload.size),
            Piece::Text(b" entries "),
            Piece::Number(workload.first),
            Piece::Text(b" "),
            Piece::Number(workload.second),
            Piece::Text(b" "),
            Piece::Number(workload.third),
            Piece::Text(b" turns merge "),
            Piece::Number(workload.turns.merge),
            Piece::Text(b" skip "),
            Piece::Number(workload.turns.skip),
            Piece::Text(b" gather "),
            Piece::Number(workload.turns.gather),
            Piece::Text(b" drain "),
            Piece::Number(workload.turns.drain),
            Piece::Text(b" probe "),
            Piece::Number(workload.turns.probe),
            Piece::Text(b" cost "),
            Piece::Number(workload.cost),
            Piece::Text(b" values "),
            Piece::Number(workload.values),
            Piece::Text(b" sum "),
            Piece::Signed(sum),
            Piece::Text(b"\n"),
        ],
    )
}
