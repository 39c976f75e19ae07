//! Reading a file of routes into a table.

ghost use Rattle.std.specs.Prelude.{◌≡◌, ◌≤◌, length, OnOk, OnErr, IfErr, IfSome};
ghost use Rattle.pim_device.specs.Device.{ConsumesAtMost};
ghost use Rattle.pim_addr.specs.Routes.{IsRefusedBy};
ghost use Rattle.pim_files.specs.LineFile.{lines_of, file_limit};
ghost use Rattle.pim_files.specs.RoutesFile.{row_faults, with_file_row};
ghost use Rattle.pim_files.specs.RoutesFile.{Adds, Reads, IsBeforeRows};
ghost use Rattle.pim_files.specs.RoutesFile.{failures_after_reading};
ghost use Rattle.pim_files.specs.RoutesSeen.{file_row_seen, AddsLine, IsLineFault, StopsIn};

use crate::line_file::{is_passed_over, read_file};
use crate::lines::Lines;
use crate::routes::fault::RoutesFault;
use crate::routes::row::{FileRow, read_row};
use pim_addr::{Family, Feed, Route, RouteFault, Routes};
use std::alloc::Global;

/// Adds a row to its map of the table.
fn add_row<F: Family>(
    row: FileRow<Route<F::Addr>>,
    routes: &mut Routes<F>,
) -> Result<(), RouteFault>
    ensures ok { OnOk result (routes.new
        ≡ with_file_row (file_row_seen F.bytes_of row) routes.old) }
    ensures err { OnErr result (routes.new ≡ routes.old) }
    ensures reported { IsRefusedBy (row_faults F.family (file_row_seen F.bytes_of row) routes.old)
        result }
{
    match row {
        FileRow::Rp(route) => routes.add_rp(route.prefix, route.length, route.to),
        FileRow::Via(route) => routes.add_via(route.prefix, route.length, route.to),
    }
}

/// Adds the row of the line with this number, if the line has one.
fn add_line<F: Family>(
    line: &[u8],
    number: usize,
    routes: &mut Routes<F>,
) -> Result<(), RoutesFault>
    ensures ok { OnOk result (AddsLine F.family line.now routes.old routes.new) }
    ensures err { OnErr result (routes.new ≡ routes.old) }
    ensures reported { IfErr result (IsLineFault F.family line.now number routes.old) }
{
    if is_passed_over(line) {
        return Ok(());
    }
    let Some(row) = read_row::<F>(line) else {
        return Err(RoutesFault::Line(number));
    };
    match add_row(row, routes) {
        Ok(()) => Ok(()),
        Err(RouteFault::Memory) => Err(RoutesFault::Memory),
        Err(_) => Err(RoutesFault::Line(number)),
    }
}

/// Adds the rows of the lines of a file, up to the first one that is wrong.
fn add_lines<F: Family>(file: &[u8], routes: &mut Routes<F>) -> Result<(), RoutesFault>
    requires { length file.now ≤ file_limit }
    ensures ok { OnOk result (Adds F.family (lines_of file.now) routes.old routes.new) }
    ensures reported { IfErr result (StopsIn F.family (lines_of file.now) routes.old routes.new) }
{
    let mut number = 0;
    for line in Lines::new(file) {
        number += 1;
        add_line(line, number, routes)?;
    }
    Ok(())
}

/// Reads a file of routes to its end and adds the rows of its lines to the table, in order.
///
/// A line is `rp ADDRESS/LENGTH ADDRESS` or `via ADDRESS/LENGTH ADDRESS`, with one space between
/// words. LENGTH is a decimal without leading zeros. Empty lines and lines that begin with `#` have
/// no row. Line feeds separate lines, and the last line may lack its own.
///
/// At most 1,048,577 bytes are read: the last one shows that the file is too long. The call takes a
/// buffer of that size and the memory by which the table grows. For each row the time grows with
/// the number of rows in its map, at most 4,096. So a file costs at most about 100 million steps.
///
/// # Errors
/// - `TooLong`: the file has more than 1,048,576 bytes. The table is unchanged.
/// - `Read`: the reader failed. The table is unchanged.
/// - `Line`: the first line that has another form or whose row the table refuses. The rows of the
///   lines before it were added.
/// - `Memory`: memory ran out. The rows of some first lines were added, possibly of none.
pub fn read_routes<F: Family, R: Feed>(
    alloc: Global,
    reader: &mut R,
    routes: &mut Routes<F>,
) -> Result<(), RoutesFault>
    ensures reads { IfSome (R.remaining reader.old)
        (λ file. Reads F.family file routes.old routes.new result) }
    ensures before_rows { IfErr result (λ fault. IsBeforeRows fault → routes.new ≡ routes.old) }
    ensures failed { R.failures reader.new ≡ failures_after_reading (R.failures reader.old) result }
    ensures taken { ConsumesAtMost 1048577 (R.remaining reader.old) (R.remaining reader.new) }
{
    let file = read_file(alloc, reader)?;
    add_lines(&file, routes)
}
