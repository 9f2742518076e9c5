// The operands of a statement, each from its file.
ghost use Rattle.std.specs.Prelude.{◌≡◌, false, true, ◌++◌, [], ◌∷◌, length, map, IfOk, IfErr, OnOk};
ghost use Rattle.bindings.specs.Tables.{paths_in};
ghost use Rattle.bindings.specs.Words.{is_mtx};
ghost use Rattle.operand_files.specs.Decoded.{IsReadable, AreReadable, operand_of};
ghost use Rattle.std.specs.Prelude.{ℕ};
ghost use Rattle.outside.specs.Folder.{FolderState};
ghost use Rattle.operand_files.specs.Reads.{Decoding, FileStops, OnlyReads, ReadsOperand, FileRefused, HaveRead, IsRefused};

use crate::decoding::{decode_entries, decode_matrix};
use crate::fault::{FileStop, OperandFault};
use crate::feeding::feed_file;
use crate::matrix_file::matrix_file;
use bindings::TensorFile;
use expr_terms::Bound;
use numbers::Semiring;
use outside::Folder;
use std::alloc::{AllocError, Global};
use tensor_map::Entries;
use tns_io::TnsReader;

/// Operands in a row.
#[derive(Drop)]
pub struct Operands {
    /// The entries of each, as its file lists them.
    pub entries: Vec<Entries>,
    /// What each mode of each gives for the range of a variable.
    pub bounds: Vec<Vec<Bound>>,
}

impl Operands {
    /// No operands. It takes no memory.
    fn new(alloc: Global) -> Operands
        ensures entries { result.entries.items ≡ [] }
        ensures bounds { result.bounds.items ≡ [] }
    {
        Operands {
            entries: Vec::new(alloc),
            bounds: Vec::new(alloc),
        }
    }

    /// Appends an operand.
    fn push(&mut self, entries: Entries, bounds: Vec<Bound>) -> Result<(), AllocError>
        ensures entries { OnOk result (self.new.entries.items ≡ self.old.entries.items ++ entries ∷ []) }
        ensures bounds { OnOk result (self.new.bounds.items ≡ self.old.bounds.items ++ bounds ∷ []) }
    {
        self.entries.push(entries)?;
        self.bounds.push(bounds)?;
        Ok(())
    }
}

/// The fault of an operand whose file isn't fed to its end.
fn fault_of<'a>(stop: FileStop, path: &'a str) -> OperandFault<'a>
    ensures { (means : Decoding) (order : ℕ) (old new : FolderState) → FileStops path.entry.now old new stop
        → FileRefused means order path.entry.now old new result }
{
    match stop {
        FileStop::ReadFault => OperandFault::ReadFault(path),
        FileStop::FileBytes => OperandFault::FileBytes(path),
        FileStop::Memory => OperandFault::Memory,
    }
}

/// Reads the file of an operand of this order to its end, as a `.tns` file.
fn read_entries<'a, F: Folder, S: Semiring>(
    alloc: Global,
    files: &mut F,
    path: &'a str,
    order: usize,
) -> Result<(Entries, Vec<Bound>), OperandFault<'a>>
    requires readable { IsReadable order path.now }
    requires ending { is_mtx path.now ≡ false }
    ensures only_reads { OnlyReads (F.state files.old) (F.state files.new) }
    ensures operand { IfOk result (λ operand. ReadsOperand (operand_of S.arithmetic S.has_minus S.is_signed) order path.now
        (F.state files.old) (F.state files.new) (record { entries = operand.0; bounds = operand.1.items })) }
    ensures refused { IfErr result (FileRefused (operand_of S.arithmetic S.has_minus S.is_signed) order path.now
        (F.state files.old) (F.state files.new)) }
{
    let mut reader = TnsReader::<S>::new(alloc, order)?;
    match feed_file(files, path, &mut reader) {
        Ok(()) => decode_entries(alloc, reader, path),
        Err(stop) => Err(fault_of(stop, path)),
    }
}

/// Reads the file of an operand of this order to its end, as a Matrix Market file.
fn read_matrix<'a, F: Folder, S: Semiring>(
    alloc: Global,
    files: &mut F,
    path: &'a str,
    order: usize,
) -> Result<(Entries, Vec<Bound>), OperandFault<'a>>
    requires readable { IsReadable order path.now }
    requires ending { is_mtx path.now ≡ true }
    ensures only_reads { OnlyReads (F.state files.old) (F.state files.new) }
    ensures operand { IfOk result (λ operand. ReadsOperand (operand_of S.arithmetic S.has_minus S.is_signed) order path.now
        (F.state files.old) (F.state files.new) (record { entries = operand.0; bounds = operand.1.items })) }
    ensures refused { IfErr result (FileRefused (operand_of S.arithmetic S.has_minus S.is_signed) order path.now
        (F.state files.old) (F.state files.new)) }
{
    let mut file = matrix_file::<S>(alloc, order)?;
    match feed_file(files, path, &mut file) {
        Ok(()) => decode_matrix(alloc, file, path),
        Err(stop) => Err(fault_of(stop, path)),
    }
}

/// Reads the file of an operand of this order to its end, and then its lines.
fn read_file<'a, F: Folder, S: Semiring>(
    alloc: Global,
    files: &mut F,
    file: TensorFile<'a>,
    order: usize,
) -> Result<(Entries, Vec<Bound>), OperandFault<'a>>
    requires { IsReadable order file.path.now }
    ensures only_reads { OnlyReads (F.state files.old) (F.state files.new) }
    ensures operand { IfOk result (λ operand. ReadsOperand (operand_of S.arithmetic S.has_minus S.is_signed) order file.entry.path.now
        (F.state files.old) (F.state files.new) (record { entries = operand.0; bounds = operand.1.items })) }
    ensures refused { IfErr result (FileRefused (operand_of S.arithmetic S.has_minus S.is_signed) order file.entry.path.now
        (F.state files.old) (F.state files.new)) }
{
    if file.is_matrix() {
        read_matrix::<F, S>(alloc, files, file.path, order)
    } else {
        read_entries::<F, S>(alloc, files, file.path, order)
    }
}

/// Reads the operands of a statement, in order: `orders` and `sources` have one for each. A file is read once for each operand,
/// also where two share a path, to its end, and before the next is opened. A matrix has order 1 or 2, and gives the sizes of its
/// modes; any other file gives the greatest coordinates.
///
/// The first file that isn't good is refused, and none is opened behind it. Of one file a read fault or too many bytes come
/// before a bad line. Memory may be wanted at any growth.
pub fn read_operands<'a, F: Folder, S: Semiring>(
    alloc: Global,
    files: &mut F,
    orders: &[usize],
    sources: &[TensorFile<'a>],
) -> Result<Operands, OperandFault<'a>>
    requires { AreReadable orders.now (paths_in sources.now) }

    // All that belongs to writing is as before, every file among it.
    ensures only_reads { OnlyReads (F.state files.old) (F.state files.new) }

    // The files opened are those of the paths, in order; each operand is what reads gave of its file.
    ensures operands { IfOk result
        (λ operands. HaveRead (operand_of S.arithmetic S.has_minus S.is_signed) (F.state files.old) (F.state files.new)
        orders.now (paths_in sources.now) (length sources.now)
        operands.entries.items (map (λ bounds. bounds.items) operands.bounds.items)) }

    // The files before the refused one are good, and why it is refused.
    ensures refused { IfErr result (IsRefused (operand_of S.arithmetic S.has_minus S.is_signed) (F.state files.old) (F.state files.new)
        orders.now (paths_in sources.now)) }
{
    let mut operands = Operands::new(alloc);
    for (n, file) in sources.iter().enumerate() {
        match read_file::<F, S>(alloc, files, *file, orders[n]) {
            Ok((entries, bounds)) => operands.push(entries, bounds)?,
            Err(fault) => return Err(fault),
        }
    }
    Ok(operands)
}
