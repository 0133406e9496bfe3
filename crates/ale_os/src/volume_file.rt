//! The calls on the file of one volume.

ghost use Rattle.std.specs.Prelude.{◌≡◌, length, Some, IfSome, IfOk, OnOk};

use std::fs::OpenFile;
use std::io;
use std::io::{Read, Seek, SeekFrom, Write};

/// The length of a file, in bytes.
pub(crate) fn length<F: Seek>(file: &mut F) -> io::Result<u64>
    ensures { IfSome (F.stream_position file.old) (λ _. IfSome (F.stream_bytes file.old) (λ bytes.
        IfOk result (λ count. count ≡ length bytes))) }
{
    file.seek(SeekFrom::End(0))
}

/// Reads the bytes of a file from a place on, as many as `into` has. It fails where the file ends before.
pub(crate) fn read_at<F: Read + Seek>(file: &mut F, at: u64, into: &mut [u8]) -> io::Result<()> {
    go_to(file, at)?;
    file.read_exact(into)
}

/// Writes bytes to a file from a place on. After an `Err` a part of them may have been written.
pub(crate) fn write_at<F: Write + Seek>(file: &mut F, at: u64, bytes: &[u8]) -> io::Result<()> {
    go_to(file, at)?;
    file.write_all(bytes)
}

/// The next read or write of a file begins at this place.
fn go_to<F: Seek>(file: &mut F, at: u64) -> io::Result<()>
    ensures { IfSome (F.stream_position file.old) (λ _. OnOk result (F.stream_position file.new ≡ Some at)) }
{
    file.seek(SeekFrom::Start(at))?;
    Ok(())
}

/// Makes durable what a file holds, and its length.
pub(crate) fn sync<F: OpenFile>(file: &F) -> io::Result<()> {
    file.sync_data()
}
