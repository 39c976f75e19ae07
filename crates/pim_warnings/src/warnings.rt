//! The warnings on captures after a run, by what was taken of each.

ghost use Rattle.std.specs.Prelude.{◌≡◌, ◌++◌};
ghost use Rattle.pim_device.specs.Device.{AppendsAll, failures_after};
ghost use Rattle.pim_merge.specs.Lane.{tallies_of};
ghost use Rattle.pim_merge.specs.Tally.{tally_at};
ghost use Rattle.pim_files.specs.Captures.{of_router, with_more};
ghost use Rattle.pim_files.specs.Opening.{port_files};
ghost use Rattle.pim_faults.specs.Ending.{IsReported};
ghost use Rattle.pim_warnings.specs.Naming.{ports_of};
ghost use Rattle.pim_warnings.specs.Warnings.{counted, rows_of, warned, record_warnings};
ghost use Rattle.pim_warnings.specs.Warnings.{incomplete_row, cut_warnings, unchosen_warning};
ghost use Rattle.pim_warnings.specs.Warnings.{tally_warnings, port_records, known};
ghost use Rattle.pim_warnings.specs.Warnings.{missed_warning, unserved_warning, census_warnings};
ghost use Rattle.pim_warnings.specs.Warnings.{port_warnings, warnings_text};

use crate::naming::{is_in, name_at};
use pim_addr::{Drain, Failed, Family, Feed, Routes};
use pim_faults::{Warning, missed_line, unchosen_line, unserved_line, warning_line};
use pim_files::Pair;
use pim_merge::{Census, Incomplete, Merge, RecordPlace, Tally};
use pim_words::{Captures, More, Port, RouterSide};

/// A count that isn't 0, as the place that its warning names: the port's own file.
fn counted(count: u64) -> Option<RecordPlace>
    ensures { result ≡ counted count }
{
    if 0 < count {
        return Some(RecordPlace {
            file: 0,
            record: count,
        });
    }
    None
}

/// The warning on packets whose fragments are incomplete, if there are any.
fn incomplete_row(packets: Option<Incomplete>) -> (Warning, Option<RecordPlace>)
    ensures { result ≡ incomplete_row packets }
{
    match packets {
        Some(packets) => (Warning::Incomplete(packets.packets), Some(packets.first)),
        None => (Warning::Incomplete(0), None),
    }
}

/// The warnings on records, in order, each with what it names, if it is there: a file of the port
/// and a number.
fn rows_of(tally: &Tally) -> [(Warning, Option<RecordPlace>); 6]
    ensures { result ≡ rows_of tally.now }
{
    [
        (Warning::MoreCutShort, counted(tally.more_cut_short)),
        (Warning::Fragments, counted(tally.fragments)),
        incomplete_row(tally.incomplete),
        (Warning::CutFrames, counted(tally.cut_frames)),
        (Warning::RunsBack, tally.ran_back),
        (Warning::Jumps, tally.jumped),
    ]
}

/// Writes the line of a warning, if it is there.
fn write_row<W: Drain, A: Copy>(
    writer: &mut W,
    at: usize,
    port: &Port<'_, A>,
    further: &[More<'_>],
    warning: Warning,
    place: Option<RecordPlace>,
) -> Result<(), Failed>
    ensures bytes { AppendsAll (W.contents writer.old) (W.contents writer.new) result
        (warned (with_more at further.now port.now) warning place) }
    ensures count { W.failures writer.new ≡ failures_after (W.failures writer.old) result }
{
    match place {
        Some(place) => {
            let file = name_at(at, port, further, place.file);
            warning_line(writer, warning, file, place.record)
        }
        None => Ok(()),
    }
}

/// Writes the lines of those warnings that are there.
#[tactic(auto, unfolding(crate::specs::Warnings::record_warnings))]
fn write_rows<W: Drain, A: Copy>(
    writer: &mut W,
    at: usize,
    port: &Port<'_, A>,
    further: &[More<'_>],
    rows: &[(Warning, Option<RecordPlace>)],
) -> Result<(), Failed>
    ensures bytes { AppendsAll (W.contents writer.old) (W.contents writer.new) result
        (record_warnings (with_more at further.now port.now) rows.now) }
    ensures count { W.failures writer.new ≡ failures_after (W.failures writer.old) result }
{
    match rows.split_first() {
        Some((row, others)) => {
            write_row(writer, at, port, further, row.0, row.1)?;
            write_rows(writer, at, port, further, others)
        }
        None => Ok(()),
    }
}

/// Writes the lines of the warnings on records, by what was taken of a port's capture.
#[tactic(auto, unfolding(crate::specs::Warnings::tally_warnings))]
fn write_tally<W: Drain, A: Copy>(
    writer: &mut W,
    at: usize,
    port: &Port<'_, A>,
    further: &[More<'_>],
    tally: &Tally,
) -> Result<(), Failed>
    ensures bytes { AppendsAll (W.contents writer.old) (W.contents writer.new) result
        (tally_warnings (with_more at further.now port.now) tally.now) }
    ensures count { W.failures writer.new ≡ failures_after (W.failures writer.old) result }
{
    write_rows(writer, at, port, further, &rows_of(tally))
}

/// Writes the lines of the warnings on files that end inside the records at these places.
#[tactic(auto, unfolding(crate::specs::Warnings::cut_warnings))]
fn write_cuts<W: Drain, A: Copy>(
    writer: &mut W,
    at: usize,
    port: &Port<'_, A>,
    further: &[More<'_>],
    places: &[Option<RecordPlace>],
) -> Result<(), Failed>
    ensures bytes { AppendsAll (W.contents writer.old) (W.contents writer.new) result
        (cut_warnings (with_more at further.now port.now) places.now) }
    ensures count { W.failures writer.new ≡ failures_after (W.failures writer.old) result }
{
    match places.split_first() {
        Some((place, others)) => {
            write_row(writer, at, port, further, Warning::CutShort, *place)?;
            write_cuts(writer, at, port, further, others)
        }
        None => Ok(()),
    }
}

/// Writes the warning that no record of a capture is chosen, if there are others.
#[tactic(auto, unfolding(crate::specs::Warnings::unchosen_warning))]
fn write_unchosen<W: Drain>(writer: &mut W, file: &str, tally: &Tally) -> Result<(), Failed>
    ensures bytes { AppendsAll (W.contents writer.old) (W.contents writer.new) result
        (unchosen_warning file.now tally.now) }
    ensures count { W.failures writer.new ≡ failures_after (W.failures writer.old) result }
{
    match (tally.last, &tally.unchosen) {
        (None, Some(unchosen)) => unchosen_line(writer, file, unchosen),
        _ => Ok(()),
    }
}

/// Writes the warnings on the records of a port's capture.
#[tactic(auto, unfolding(crate::specs::Warnings::port_records))]
fn write_records<W: Drain, A: Copy>(
    writer: &mut W,
    at: usize,
    port: &Port<'_, A>,
    further: &[More<'_>],
    tally: &Tally,
) -> Result<(), Failed>
    ensures bytes { AppendsAll (W.contents writer.old) (W.contents writer.new) result
        (port_records (with_more at further.now port.now) tally.now) }
    ensures count { W.failures writer.new ≡ failures_after (W.failures writer.old) result }
{
    write_cuts(writer, at, port, further, &tally.cut_short)?;
    write_tally(writer, at, port, further, tally)?;
    write_unchosen(writer, port.file, tally)
}

/// Writes the warning that no message of a capture is for the router of this census, if messages are
/// for others.
#[tactic(auto, unfolding(crate::specs::Warnings::missed_warning))]
fn write_missed<F: Family, W: Drain>(
    writer: &mut W,
    file: &str,
    census: &Census,
) -> Result<(), Failed>
    ensures bytes { AppendsAll (W.contents writer.old) (W.contents writer.new) result
        (missed_warning F.family file.now census.now) }
    ensures count { W.failures writer.new ≡ failures_after (W.failures writer.old) result }
{
    if census.misses() {
        return missed_line::<F, W>(writer, file, census);
    }
    Ok(())
}

/// Writes the warning that a Join(\*,G) for the router of this census is of a group without an RP, if
/// there is such a group.
#[tactic(auto, unfolding(crate::specs::Warnings::unserved_warning))]
fn write_unserved<F: Family, W: Drain>(
    writer: &mut W,
    file: &str,
    routes: &Routes<F>,
    census: &Census,
) -> Result<(), Failed>
    ensures bytes { AppendsAll (W.contents writer.old) (W.contents writer.new) result
        (unserved_warning F.family routes.now file.now census.now) }
    ensures count { W.failures writer.new ≡ failures_after (W.failures writer.old) result }
{
    match census.without_rp::<F>(routes) {
        Some(group) => unserved_line::<F, W>(writer, file, group),
        None => Ok(()),
    }
}

/// Writes the warnings on whom messages name, if that was counted.
#[tactic(auto, unfolding(crate::specs::Warnings::census_warnings))]
fn write_census<F: Family, W: Drain>(
    writer: &mut W,
    file: &str,
    routes: &Routes<F>,
    census: Option<Census>,
) -> Result<(), Failed>
    ensures bytes { AppendsAll (W.contents writer.old) (W.contents writer.new) result
        (census_warnings F.family routes.now file.now census) }
    ensures count { W.failures writer.new ≡ failures_after (W.failures writer.old) result }
{
    match census {
        Some(census) => {
            write_missed::<F, W>(writer, file, &census)?;
            write_unserved::<F, W>(writer, file, routes, &census)
        }
        None => Ok(()),
    }
}

/// Writes the warnings on the capture of a port.
fn write_port<F: Family, W: Drain>(
    writer: &mut W,
    at: usize,
    port: &Port<'_, F::Addr>,
    further: &[More<'_>],
    routes: &Routes<F>,
    tally: Tally,
) -> Result<(), Failed>
    ensures bytes { AppendsAll (W.contents writer.old) (W.contents writer.new) result
        (port_warnings F.family routes.now (with_more at further.now port.now) tally) }
    ensures count { W.failures writer.new ≡ failures_after (W.failures writer.old) result }
{
    if port.link.is_none() {
        return Ok(());
    }
    write_records(writer, at, port, further, &tally)?;
    write_census::<F, W>(writer, port.file, routes, tally.census)
}

/// What was taken of the capture of this number. Nothing was of one that there isn't.
fn tally_of<R: Feed + Drop>(merge: &Merge<R>, number: usize) -> Tally
    ensures { result ≡ tally_at number (tallies_of merge.now.lanes) }
{
    if number < merge.count() {
        return merge.tally(number);
    }
    Tally::new()
}

/// What is known of a capture after a run. Where a fault ended the run, it isn't known whether a later
/// record is chosen.
fn known(is_whole: bool, tally: Tally) -> Tally
    ensures { result ≡ known is_whole tally }
{
    if is_whole {
        return tally;
    }
    Tally {
        unchosen: None,
        ..tally
    }
}

/// Writes the warnings on the captures of a router: of one of two, or of the one of all ports.
fn write_router<F: Family, W: Drain, R: Feed + Drop>(
    writer: &mut W,
    captures: &Captures<'_, F::Addr>,
    routes: &Routes<F>,
    side: Option<RouterSide>,
    merge: &Merge<R>,
    is_whole: bool,
) -> Result<(), Failed>
    ensures bytes { AppendsAll (W.contents writer.old) (W.contents writer.new) result
        (warnings_text F.family routes.now is_whole (ports_of side (port_files captures.now))
        merge.now) }
    ensures count { W.failures writer.new ≡ failures_after (W.failures writer.old) result }
{
    let ports: &[Port<'_, F::Addr>] = &captures.ports;
    let further: &[More<'_>] = &captures.more;
    let mut number = 0;
    let mut at = 0;
    for port in ports {
        if is_in(side, port) {
            let tally = known(is_whole, tally_of(merge, number));
            write_port::<F, W>(writer, at, port, further, routes, tally)?;
            number += 1;
        }
        at += 1;
    }
    Ok(())
}

/// Writes the warnings on the captures of the routers a and b.
fn write_pair<F: Family, W: Drain, R: Feed + Drop>(
    writer: &mut W,
    captures: &Captures<'_, F::Addr>,
    routes: &Routes<F>,
    pair: &Pair<R>,
    is_whole: bool,
) -> Result<(), Failed>
    ensures bytes { AppendsAll (W.contents writer.old) (W.contents writer.new) result
        (warnings_text F.family routes.now is_whole
        (of_router RouterSide.A (port_files captures.now))
        pair.now.a
        ++ warnings_text F.family routes.now is_whole
        (of_router RouterSide.B (port_files captures.now))
        pair.now.b) }
    ensures count { W.failures writer.new ≡ failures_after (W.failures writer.old) result }
{
    let (a, b) = (Some(RouterSide::A), Some(RouterSide::B));
    write_router::<F, W, R>(writer, captures, routes, a, &pair.a, is_whole)?;
    write_router::<F, W, R>(writer, captures, routes, b, &pair.b, is_whole)
}

/// Writes the warnings on the captures of a router to the device for errors, after a run that ended
/// without a fault or with one. A failure of that device is ignored.
pub fn warn_of_one<F: Family, E: Drain, R: Feed + Drop>(
    errors: &mut E,
    captures: &Captures<'_, F::Addr>,
    routes: &Routes<F>,
    merge: &Merge<R>,
    is_whole: bool,
)
    ensures { IsReported (warnings_text F.family routes.now is_whole (port_files captures.now)
        merge.now)
        (E.contents errors.old) (E.contents errors.new) (E.failures errors.old)
        (E.failures errors.new) }
{
    let _ = write_router::<F, E, R>(errors, captures, routes, None, merge, is_whole);
}

/// Writes the warnings on the captures of two routers to the device for errors, after a run that
/// ended without a fault or with one. A failure of that device is ignored.
pub fn warn_of_both<F: Family, E: Drain, R: Feed + Drop>(
    errors: &mut E,
    captures: &Captures<'_, F::Addr>,
    routes: &Routes<F>,
    pair: &Pair<R>,
    is_whole: bool,
)
    ensures { IsReported (warnings_text F.family routes.now is_whole
        (of_router RouterSide.A (port_files captures.now)) pair.now.a
        ++ warnings_text F.family routes.now is_whole
        (of_router RouterSide.B (port_files captures.now)) pair.now.b)
        (E.contents errors.old) (E.contents errors.new) (E.failures errors.old)
        (E.failures errors.new) }
{
    let _ = write_pair::<F, E, R>(errors, captures, routes, pair, is_whole);
}
