//! Reading a file of local receivers into their joins.

ghost use Rattle.std.specs.Prelude.{◌≡◌, ◌≤◌, length, OnOk, OnErr, IfErr, IfSome};
ghost use Rattle.pim_device.specs.Device.{ConsumesAtMost};
ghost use Rattle.pim_files.specs.LineFile.{lines_of, file_limit};
ghost use Rattle.pim_files.specs.LocalFile.{AddsLine, Adds, Reads, IsBeforeLines};
ghost use Rattle.pim_files.specs.LocalFile.{failures_after_reading};
ghost use Rattle.pim_files.specs.LocalSeen.{line_fault, IsLineFault, StopsIn};

use crate::line_file::{is_passed_over, read_file};
use crate::lines::Lines;
use crate::local::fault::LocalFileFault;
use crate::local::join::read_join;
use pim_addr::{Family, Feed};
use pim_local::{LocalFault, LocalJoins};
use std::alloc::Global;

/// The error of the line with this number, whose join is refused.
fn line_fault(number: usize, fault: LocalFault) -> LocalFileFault
    ensures { result ≡ line_fault number fault }
{
    match fault {
        LocalFault::Memory => LocalFileFault::Memory,
        LocalFault::Kind | LocalFault::Full => LocalFileFault::Line(number),
    }
}

/// Adds the join of the line with this number, if the line has one.
fn join_line<F: Family>(
    line: &[u8],
    number: usize,
    joins: &mut LocalJoins<F>,
) -> Result<(), LocalFileFault>
    ensures ok { OnOk result (AddsLine F.family line.now joins.old joins.new) }
    ensures err { OnErr result (joins.new ≡ joins.old) }
    ensures reported { IfErr result (IsLineFault F.family line.now number joins.old) }
{
    if is_passed_over(line) {
        return Ok(());
    }
    let Some(join) = read_join::<F>(line) else {
        return Err(LocalFileFault::Line(number));
    };
    match joins.add(join) {
        Ok(()) => Ok(()),
        Err(fault) => Err(line_fault(number, fault)),
    }
}

/// Adds the joins of the lines of a file, up to the first one that is wrong.
fn join_lines<F: Family>(file: &[u8], joins: &mut LocalJoins<F>) -> Result<(), LocalFileFault>
    requires { length file.now ≤ file_limit }
    ensures ok { OnOk result (Adds F.family (lines_of file.now) joins.old joins.new) }
    ensures reported { IfErr result (StopsIn F.family (lines_of file.now) joins.old joins.new) }
{
    let mut number = 0;
    for line in Lines::new(file) {
        number += 1;
        join_line(line, number, joins)?;
    }
    Ok(())
}

/// Reads a file of local receivers to its end and adds the joins of its lines.
///
/// A line is `star GROUP`, a join of all sources of the group, or `source SOURCE GROUP`, with one
/// space between words. Empty lines and lines that begin with `#` have no join. Line feeds separate
/// lines, and the last line may lack its own.
///
/// At most 1,048,577 bytes are read: the last one shows that the file is too long. The call takes a
/// buffer of that size and the memory by which the list grows.
///
/// # Errors
/// - `TooLong`: the file has more than 1,048,576 bytes. The joins are unchanged.
/// - `Read`: the reader failed. The joins are unchanged.
/// - `Line`: the first line that has another form or whose join is refused. The joins of the lines
///   before it were added.
/// - `Memory`: memory ran out. The joins of some first lines were added, possibly of none.
pub fn read_local<F: Family, R: Feed>(
    alloc: Global,
    reader: &mut R,
    joins: &mut LocalJoins<F>,
) -> Result<(), LocalFileFault>
    ensures reads { IfSome (R.remaining reader.old)
        (λ file. Reads F.family file joins.old joins.new result) }
    ensures before_lines { IfErr result (λ fault. IsBeforeLines fault → joins.new ≡ joins.old) }
    ensures failed { R.failures reader.new ≡ failures_after_reading (R.failures reader.old) result }
    ensures taken { ConsumesAtMost 1048577 (R.remaining reader.old) (R.remaining reader.new) }
{
    let file = read_file(alloc, reader)?;
    join_lines(&file, joins)
}
