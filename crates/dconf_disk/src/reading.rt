//! A file's bytes, read whole.
ghost use Rattle.std.specs.Prelude.{◌≡◌, ◌≢◌, ◌<◌, ◌≤◌, ◌↔◌, None, Ok, Err, IfSome, IfOk, IfErr, IsTrue, IsErrAnd, length};
ghost use Rattle.std.specs.Io.KnownBytes.{Consumes};
ghost use Rattle.std.specs.IoError.{error_kind};

use dconf_folders::{FolderFault, LARGEST_FILE};
use std::alloc::{AllocError, Global};
use std::fs::OpenFile;
use std::io::{self, ErrorKind, Read};

/// Zeros that are written at once: as many as the C library writes by wide stores, and not a byte at a time.
const PIECE: &[u8] = &[0; 2000];

/// What was opened, read. Only a name that is not there is no file; any other failure is one.
pub(crate) fn read_opened<F: OpenFile + Read + Drop>(
    alloc: Global,
    opened: io::Result<F>,
) -> Result<Option<Vec<u8>>, FolderFault>
    ensures fits { IfOk result (λ found. IfSome found (λ v. length v.items ≤ LARGEST_FILE)) }
    ensures bytes { IfOk opened (λ file. IfOk result (λ found. IfSome found (λ v. IfSome (F.remaining file) (λ rest. v.items ≡ rest)))) }
    ensures missing { IfOk result (λ found. found ≡ None → IsErrAnd opened (λ e. error_kind e ≡ ErrorKind.NotFound)) }
    ensures absent { IfErr opened (λ e. error_kind e ≡ ErrorKind.NotFound → result ≡ Ok None) }
    ensures memory { IfErr opened (λ e. error_kind e ≡ ErrorKind.OutOfMemory → result ≡ Err FolderFault.Memory) }
    ensures device { IfErr opened (λ e. error_kind e ≢ ErrorKind.NotFound → error_kind e ≢ ErrorKind.OutOfMemory
        → result ≡ Err FolderFault.Device) }
{
    match opened {
        Ok(file) => whole(alloc, file).map(Some),
        Err(error) if error.kind() == ErrorKind::NotFound => Ok(None),
        Err(error) => Err(fault_of(error)),
    }
}

/// All of the file's bytes, held once. A file that says that it is too big is not read, and of one that never ends no more is
/// read than shows it.
fn whole<F: OpenFile + Read + Drop>(alloc: Global, file: F) -> Result<Vec<u8>, FolderFault>
    ensures fits { IfOk result (λ v. length v.items ≤ LARGEST_FILE) }
    ensures bytes { IfOk result (λ v. IfSome (F.remaining file) (λ rest. v.items ≡ rest)) }
{
    let length = file.metadata().map_err(fault_of)?.len();
    if is_too_big(length) {
        return Err(FolderFault::TooBig);
    }
    let mut file = file.take(LARGEST_FILE + 1);
    let mut bytes = first_bytes(alloc, &mut file, length as usize)?;
    match file.read_to_end(&mut bytes) {
        Ok(_) if is_too_big(bytes.len() as u64) => Err(FolderFault::TooBig),
        Ok(_) => Ok(bytes),
        Err(error) => Err(fault_of(error)),
    }
}

/// What one read gives, of so many bytes at most; nothing if a signal interrupts it.
fn first_bytes<R: Read>(alloc: Global, reader: &mut R, most: usize) -> Result<Vec<u8>, FolderFault>
    ensures { IfOk result (λ v. Consumes (R.remaining reader.old) (R.remaining reader.new) v.items) }
{
    let mut bytes = zeros(alloc, most)?;
    match reader.read(&mut bytes) {
        Ok(n) => bytes.truncate(n),
        Err(error) if error.kind() == ErrorKind::Interrupted => bytes.clear(),
        Err(error) => return Err(fault_of(error)),
    }
    Ok(bytes)
}

/// So many zeros, for a read to write over, and room for one byte more, so that the end is seen without growing.
fn zeros(alloc: Global, count: usize) -> Result<Vec<u8>, AllocError> {
    let mut zeros = Vec::with_capacity(alloc, count.saturating_add(1))?;
    for _ in 0..count / PIECE.len() {
        zeros.extend_from_slice(PIECE)?;
    }
    zeros.resize(count, 0)?;
    Ok(zeros)
}

fn is_too_big(length: u64) -> bool
    ensures { IsTrue result ↔ (LARGEST_FILE < length) }
{
    length > LARGEST_FILE
}

/// What an error of the host is to one who reads.
fn fault_of(error: io::Error) -> FolderFault
    ensures memory { error_kind error ≡ ErrorKind.OutOfMemory → result ≡ FolderFault.Memory }
    ensures device { error_kind error ≢ ErrorKind.OutOfMemory → result ≡ FolderFault.Device }
{
    match error.kind() {
        ErrorKind::OutOfMemory => FolderFault::Memory,
        _ => FolderFault::Device,
    }
}
