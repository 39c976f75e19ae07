//! Files of lines: reading one to its end, and the lines that state nothing.

ghost use Rattle.std.specs.Prelude.{◌≡◌, ◌≤◌, length, IfOk, IfErr, IfSome, vec_len};
ghost use Rattle.pim_device.specs.Device.{ConsumesAtMost};
ghost use Rattle.pim_files.specs.LineFile.{is_passed_over, file_limit, GivesFile};
ghost use Rattle.pim_files.specs.LineFile.{failures_after_file};

use pim_addr::{Feed, read_up_to};
use std::alloc::Global;

/// The greatest length of a file, in bytes.
const FILE_LIMIT: usize = 1_048_576;

/// Why a file is not read to its end.
#[derive(Clone, Copy, Debug, PartialEq, Eq)]
pub enum FileFault {
    /// The file has more than 1,048,576 bytes.
    TooLong,
    /// The reader failed.
    Read,
    /// Memory ran out.
    Memory,
}

/// Returns a buffer of `length` zero bytes.
fn blank(alloc: Global, length: usize) -> Result<Vec<u8>, FileFault>
    ensures length { IfOk result (λ buffer. vec_len buffer ≡ length) }
    ensures memory { IfErr result (λ fault. fault ≡ FileFault.Memory) }
{
    vec![in alloc; 0u8; length].map_err(|_| FileFault::Memory)
}

/// Reads the file to its end. At most 1,048,577 bytes are read: the last one shows that the file is
/// too long.
pub(crate) fn read_file<R: Feed>(alloc: Global, reader: &mut R) -> Result<Vec<u8>, FileFault>
    ensures file { IfSome (R.remaining reader.old) (λ file. GivesFile (λ v. v.items) file result) }
    ensures failed { R.failures reader.new ≡ failures_after_file (R.failures reader.old) result }
    ensures taken { ConsumesAtMost 1048577 (R.remaining reader.old) (R.remaining reader.new) }
    ensures small { IfOk result (λ file. length file.items ≤ file_limit) }
{
    let mut file = blank(alloc, FILE_LIMIT + 1)?;
    let Ok(length) = read_up_to(reader, &mut file) else {
        return Err(FileFault::Read);
    };
    if length > FILE_LIMIT {
        return Err(FileFault::TooLong);
    }
    file.truncate(length);
    Ok(file)
}

/// Returns whether a line states nothing: it is empty or begins with `#`.
pub(crate) fn is_passed_over(line: &[u8]) -> bool
    ensures { result ≡ is_passed_over line.now }
{
    match line.first() {
        Some(first) => *first == b'#',
        None => true,
    }
}
