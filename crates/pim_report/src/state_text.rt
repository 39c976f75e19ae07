//! The end of a report: the state of a router.

ghost use Rattle.std.specs.Prelude.{◌≡◌};
ghost use Rattle.std.specs.List.{flat_map};
ghost use Rattle.pim_device.specs.Device.{AppendsAll, failures_after};
ghost use Rattle.pim_report.specs.RecordLine.{record_line};
ghost use Rattle.pim_report.specs.StateText.{moment_line, counts_line, machines_text, wants_text};
ghost use Rattle.pim_report.specs.StateText.{text_with};
ghost use Rattle.pim_report.specs.StateText.{WritesState, failures_of};

use crate::demand_text::write_demand;
use crate::record_line::write_record_line;
use itoa::Buffer;
use pim_addr::{Drain, Failed, Family, Routes};
use pim_down::{Ports, Records};
use pim_form::NormalForm;
use pim_lines::write_pieces;
use pim_router::Router;
use std::alloc::Global;

/// The counts of a replay. Each stops at 2^64 - 1.
#[derive(Clone, Copy, Debug, PartialEq, Eq)]
pub struct Counts {
    /// The number of records of the captures that hold no packet of the router's family.
    pub skipped: u64,
    /// The number of Refreshes: how often the router was to send its demand again.
    pub refreshes: u64,
}

/// Why a text isn't written.
#[derive(Clone, Copy, Debug, PartialEq, Eq)]
pub enum StateFault {
    /// The device failed.
    Output,
    /// Memory was refused.
    Memory,
}

/// Writes the line of a moment, in milliseconds.
fn write_moment<W: Drain>(writer: &mut W, moment: u64) -> Result<(), Failed>
    ensures bytes { AppendsAll (W.contents writer.old) (W.contents writer.new) result
        (moment_line moment) }
    ensures count { W.failures writer.new ≡ failures_after (W.failures writer.old) result }
{
    let mut at = Buffer::new();
    let pieces = [b"state at ", at.format(moment).as_bytes(), b"\n"];
    write_pieces(writer, &pieces)
}

/// Writes the line of the counts.
fn write_counts<W: Drain>(writer: &mut W, counts: Counts) -> Result<(), Failed>
    ensures bytes { AppendsAll (W.contents writer.old) (W.contents writer.new) result
        (counts_line counts) }
    ensures count { W.failures writer.new ≡ failures_after (W.failures writer.old) result }
{
    let mut skipped = Buffer::new();
    let mut refreshes = Buffer::new();
    let pieces = [
        b"skipped ",
        skipped.format(counts.skipped).as_bytes(),
        b" refreshes ",
        refreshes.format(counts.refreshes).as_bytes(),
        b"\n",
    ];
    write_pieces(writer, &pieces)
}

/// Writes the lines of records.
fn write_records<F: Family, W: Drain>(writer: &mut W, records: Records<'_, F>) -> Result<(), Failed>
    ensures bytes { AppendsAll (W.contents writer.old) (W.contents writer.new) result
        (flat_map (record_line F.family) records.entry) }
    ensures count { W.failures writer.new ≡ failures_after (W.failures writer.old) result }
{
    for record in records {
        write_record_line::<F, W>(writer, record)?;
    }
    Ok(())
}

/// Writes the line of the machines' moment, and the lines of all their records.
fn write_machines<F: Family, W: Drain>(writer: &mut W, machines: &Ports<F>) -> Result<(), Failed>
    ensures bytes { AppendsAll (W.contents writer.old) (W.contents writer.new) result
        (machines_text F.family machines.now) }
    ensures count { W.failures writer.new ≡ failures_after (W.failures writer.old) result }
{
    write_moment(writer, machines.now())?;
    write_records::<F, W>(writer, machines.records())
}

/// Writes the lines of a demand with this normal form, then the counts.
fn write_wants<F: Family, W: Drain>(
    writer: &mut W,
    shows_via: bool,
    routes: &Routes<F>,
    form: &NormalForm<F>,
    counts: Counts,
) -> Result<(), Failed>
    ensures bytes { AppendsAll (W.contents writer.old) (W.contents writer.new) result
        (wants_text F.family shows_via routes.now form.now counts) }
    ensures count { W.failures writer.new ≡ failures_after (W.failures writer.old) result }
{
    write_demand::<F, W>(writer, shows_via, routes, form)?;
    write_counts(writer, counts)
}

/// Writes a state whose demand has this normal form.
fn write_with<F: Family, W: Drain>(
    writer: &mut W,
    router: &Router<'_, F>,
    shows_via: bool,
    form: &NormalForm<F>,
    counts: Counts,
) -> Result<(), Failed>
    ensures bytes { AppendsAll (W.contents writer.old) (W.contents writer.new) result
        (text_with F.family shows_via router.now form.now counts) }
    ensures count { W.failures writer.new ≡ failures_after (W.failures writer.old) result }
{
    write_machines::<F, W>(writer, router.ports())?;
    write_wants::<F, W>(writer, shows_via, router.routes(), form, counts)
}

/// Writes the state of a router: its moment, its records in key order, the normal form of its
/// demand, and the counts. If `shows_via` is set, each line of the demand names the upstream
/// neighbour.
///
/// It needs memory in proportion to the records that want something, and gives it back.
///
/// # Errors
/// - `Memory` if memory is refused: nothing was written.
/// - `Output` if the device fails: a prefix of the text was written.
pub fn write_state<F: Family, W: Drain>(
    alloc: Global,
    writer: &mut W,
    router: &Router<'_, F>,
    shows_via: bool,
    counts: Counts,
) -> Result<(), StateFault>
    ensures text { WritesState F.family shows_via router.now counts
        (W.contents writer.old) (W.contents writer.new) result }
    ensures count { W.failures writer.new ≡ failures_of (W.failures writer.old) result }
{
    let Ok(form) = NormalForm::of(alloc, router.ports()) else {
        return Err(StateFault::Memory);
    };
    let Ok(()) = write_with::<F, W>(writer, router, shows_via, &form, counts) else {
        return Err(StateFault::Output);
    };
    Ok(())
}
