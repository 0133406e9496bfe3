//! A document file, fed to a reader in pieces.

ghost use Rattle.std.specs.Prelude.{◌≡◌, ◌≢◌, ℕ, ◌+◌, ◌<◌, ◌≤◌, List, length, Ok, IsOk, IfOk, OnOk, IsErrOf};
ghost use Rattle.ale_io.specs.Told.{MayHold, MayLack};
ghost use Rattle.ale_io.specs.FaultCount.{IsCounted};
ghost use Rattle.idoc_file.specs.declared.reader.TheConstants.Reader.{MOST_BYTES};
ghost use Rattle.idoc_file.specs.Reading.{fed_of};
ghost use Rattle.ale_host.specs.Feeding.{IsFed, IsFedWhole};

use ale_base::OutOfMemory;
use ale_io::{FileEnd, Files};
use idoc_file::Reader;
use std::alloc::Global;

/// The most bytes of a piece.
const PIECE_LEN: usize = 65_536;

/// A reader that was fed the file of this name, to its end: a read that fails counts before any line does.
pub(crate) fn read_document_file<F: Files>(
    alloc: Global,
    name: &str,
    files: &mut F,
) -> Result<Reader, FileEnd>
    ensures fed { IfOk result (IsFedWhole (F.told files.old name.now)) }
    ensures missing { IsErrOf result FileEnd.Missing → MayLack (F.told files.old name.now) }
    ensures too_long { IsErrOf result FileEnd.TooLong →
        (bytes : List ℕ) × MayHold (F.told files.old name.now) bytes × (MOST_BYTES < length bytes) }
    ensures kept { (other : List ℕ) → F.told files.new other ≡ F.told files.old other }
    ensures faults { IsCounted (IsErrOf result FileEnd.Failed) (IsOk result) (F.faults files.old) (F.faults files.new) }
{
    let mut reader = Reader::new(alloc);
    let mut piece = Vec::new(alloc);
    while feed_piece(name, files, &mut piece, &mut reader)? > 0 {}
    Ok(reader)
}

/// Feeds the next piece of the file, and gives its length, which is 0 at the end of the file.
fn feed_piece<F: Files>(
    name: &str,
    files: &mut F,
    piece: &mut Vec<u8>,
    reader: &mut Reader,
) -> Result<usize, FileEnd>
    requires within { fed_of reader.old ≤ MOST_BYTES }
    ensures fed { OnOk result (IsFed (F.told files.old name.now) reader.old → IsFed (F.told files.old name.now) reader.new) }
    ensures ended { result ≡ Ok 0 → IsFed (F.told files.old name.now) reader.old → IsFedWhole (F.told files.old name.now) reader.new }
    ensures further { IfOk result (λ count. (fed_of reader.new ≡ fed_of reader.old + count) × (fed_of reader.new ≤ MOST_BYTES)) }
    ensures missing { IsErrOf result FileEnd.Missing → MayLack (F.told files.old name.now) }
    ensures too_long { IsErrOf result FileEnd.TooLong →
        (bytes : List ℕ) × MayHold (F.told files.old name.now) bytes × (MOST_BYTES < length bytes) }
    ensures kept { (other : List ℕ) → F.told files.new other ≡ F.told files.old other }
    ensures faults { IsCounted (IsErrOf result FileEnd.Failed) (IsOk result) (F.faults files.old) (F.faults files.new) }
{
    piece.clear();
    let count = files.read_piece(name, reader.fed(), PIECE_LEN, piece)?;
    // A byte past the limit is not fed.
    if piece.len() as u64 > Reader::MOST_BYTES - reader.fed() {
        return Err(FileEnd::TooLong);
    }
    match reader.feed(piece.as_slice()) {
        Ok(()) => Ok(count),
        Err(OutOfMemory) => Err(FileEnd::OutOfMemory),
    }
}
