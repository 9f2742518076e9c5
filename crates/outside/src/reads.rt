// Reading a whole file into an eater.
ghost use Rattle.std.specs.Prelude.{◌≡◌, ◌<◌, ◌≤◌, length, IfOk, IfErr, OnOk, IsSome};
ghost use Rattle.outside.specs.Folder.{IsAtEnd};
ghost use Rattle.outside.specs.ReadStop.{Feeds, FeedsWhole, Stops, StopsReading};

use crate::eater::Eater;
use crate::folder::Folder;
use crate::refusal::ReadStop;

// How many bytes are read at a time.
const PIECE_LENGTH: usize = 4_096;

// Reads the next piece and feeds it, and answers its length: 0 exactly at the file's end.
fn feed_piece<F: Folder, E: Eater>(
    files: &mut F,
    buf: &mut [u8],
    left: u64,
    eater: &mut E,
) -> Result<u64, ReadStop>
    requires reading { IsSome (F.state files.old).reading }
    requires room { 0 < length buf.old }
    ensures fed { IfOk result (Feeds (F.state files.old) (F.state files.new) (E.eaten eater.old) (E.eaten eater.new)) }
    ensures within { IfOk result (λ n. n ≤ left) }
    ensures ends { IfOk result (λ n. n ≡ 0 → IsAtEnd (F.state files.new).rest) }
    ensures stops { IfErr result (Stops E.eaten E.refused (F.state files.old) (F.state files.new) left eater.old eater.new) }
{
    let n = files.read(buf)?;
    if n as u64 > left {
        return Err(ReadStop::FileBytes);
    }
    match eater.feed(&buf[..n]) {
        Ok(()) => Ok(n as u64),
        Err(error) => Err(ReadStop::Memory(error)),
    }
}

// Reads and feeds what is left of the file being read, and answers its length.
fn read_rest<F: Folder, E: Eater>(
    files: &mut F,
    budget: u64,
    eater: &mut E,
) -> Result<u64, ReadStop>
    requires { IsSome (F.state files.old).reading }
    ensures fed { IfOk result (Feeds (F.state files.old) (F.state files.new) (E.eaten eater.old) (E.eaten eater.new)) }
    ensures within { IfOk result (λ n. n ≤ budget) }
    ensures at_end { OnOk result (IsAtEnd (F.state files.new).rest) }
    ensures stops { IfErr result (Stops E.eaten E.refused (F.state files.old) (F.state files.new) budget eater.old eater.new) }
{
    let mut buf = [0; PIECE_LENGTH];
    let mut count = 0;
    loop {
        match feed_piece(files, &mut buf, budget - count, eater) {
            Ok(0) => return Ok(count),
            Ok(n) => count += n,
            Err(stop) => return Err(stop),
        }
    }
}

/// Reads a whole file into an eater, through a buffer of 4,096 bytes, and answers its length, which is at most `budget`.
///
/// ReadFault comes only where the folder's count of read faults rose in this call and the fault was about this name,
/// or where the folder tells that there is no such file. FileBytes comes exactly where more than `budget` bytes were
/// taken. Memory comes where the folder wanted memory, or where the eater refused a piece: nothing is fed after that.
/// At Ok the eater was fed just what reads gave of this file; otherwise it was fed a front of that. Nothing that is
/// written changes.
pub fn read_through<F: Folder, E: Eater>(
    files: &mut F,
    name: &str,
    budget: u64,
    eater: &mut E,
) -> Result<u64, ReadStop>
    ensures whole { IfOk result (FeedsWhole (F.state files.old) (F.state files.new) name.now budget
        (E.eaten eater.old) (E.eaten eater.new)) }
    ensures stops { IfErr result (StopsReading E.eaten E.refused (F.state files.old) (F.state files.new) name.now budget
        eater.old eater.new) }
{
    files.start_read(name)?;
    read_rest(files, budget, eater)
}
