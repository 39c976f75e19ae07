//! The events of a router's captures, printed as the words of `trace` ask.

ghost use Rattle.std.specs.Prelude.{◌≡◌, ◌≤◌, length, IfOk, IfSome, true};
ghost use Rattle.std.specs.List.{AllByRecursion};
ghost use Rattle.pim_capture.specs.Next.{latest_moment};
ghost use Rattle.pim_lines.specs.PortNames.{is_port_name};
ghost use Rattle.pim_run.specs.Faults.{failures_of_device};
ghost use Rattle.pim_words.specs.Plan.{IsBounded};
ghost use Rattle.pim_commands.specs.Routers.{end_of};
ghost use Rattle.pim_commands.specs.Tracing.{name_of, names_of, line_of, TracesAsAsked};

use crate::routers::end_of;
use crate::shown::ShownNames;
use pim_addr::{Drain, Family, Feed};
use pim_event_lines::{JsonPrinter, TextPrinter};
use pim_events::{EventWriter, Filter};
use pim_lines::Name;
use pim_merge::Merge;
use pim_router::Router;
use pim_run::RunFault;
use pim_trace::{trace_into, trace_state_into};
use pim_words::{Captures, Tracing};
use std::alloc::{AllocError, Global};

/// The name of a port: the one that its word gives, or else its number.
fn name_of(port: usize, given: Option<&str>) -> Name
    requires { IfSome given (λ text. is_port_name text.now ≡ true) }
    ensures { result ≡ name_of port given.entry }
{
    let Some(text) = given else {
        return Name::number(port);
    };
    let Some(name) = Name::read(text) else {
        unreachable!()
    };
    name
}

/// The names of the ports.
pub(crate) fn names_of(alloc: Global, given: &[Option<&str>]) -> Result<Vec<Name>, AllocError>
    requires { AllByRecursion
        (λ name. IfSome name (λ text. is_port_name text.now ≡ true)) given.now }
    ensures { IfOk result (λ names. names.items ≡ names_of 0 given.now) }
{
    let mut names = Vec::new(alloc);
    for (port, name) in given.iter().enumerate() {
        names.push(name_of(port, *name))?;
    }
    Ok(names)
}

/// Which events the words ask for.
fn filter_of<'t, A>(tracing: &'t Tracing<'_, A>) -> Filter<'t, A>
    ensures all { result.all ≡ tracing.entry.now.all }
    ensures groups { result.groups.now ≡ tracing.entry.now.groups.items }
    ensures sources { result.sources.now ≡ tracing.entry.now.sources.items }
    ensures from { result.from ≡ tracing.entry.now.from }
{
    Filter {
        all: tracing.all,
        groups: &tracing.groups,
        sources: &tracing.sources,
        from: tracing.from,
    }
}

/// Traces the captures of a router by this printer, with the state at the end if the words ask for
/// it.
fn trace_on<F: Family, R: Feed + Drop, W, T: EventWriter<F, W>>(
    alloc: Global,
    requested: (&Captures<'_, F::Addr>, &Tracing<'_, F::Addr>),
    printer: &T,
    merge: &mut Merge<R>,
    router: &mut Router<'_, F>,
    writer: &mut W,
) -> Result<(), RunFault>
    requires after { IsBounded requested.0.now }
    requires ports { length merge.old.lanes ≡ length router.old.ports }
    requires moment { router.old.machines.moment ≤ latest_moment }
    ensures events { TracesAsAsked requested.entry.1.now.state (T.line printer.now) F.family
        (end_of requested.entry.0.now)
        merge.old merge.new router.old router.new
        (T.contents writer.old) (T.contents writer.new) result }
    ensures count { T.failures writer.new ≡ failures_of_device (T.failures writer.old) result }
{
    let (captures, tracing) = requested;
    let end = end_of(captures);
    if tracing.state {
        return trace_state_into(alloc, printer, writer, merge, router, end);
    }
    trace_into(alloc, printer, writer, merge, router, end)
}

/// Traces the captures of a router, and prints its events with these names as the words ask.
pub(crate) fn trace_by<F: Family, R: Feed + Drop, W: Drain>(
    alloc: Global,
    requested: (&Captures<'_, F::Addr>, &Tracing<'_, F::Addr>),
    names: &ShownNames,
    merge: &mut Merge<R>,
    router: &mut Router<'_, F>,
    writer: &mut W,
) -> Result<(), RunFault>
    requires after { IsBounded requested.0.now }
    requires ports { length merge.old.lanes ≡ length router.old.ports }
    requires moment { router.old.machines.moment ≤ latest_moment }
    ensures events { TracesAsAsked requested.entry.1.now.state
        (line_of F.family F.bytes_of names.now.ports.items names.now.files.items
        requested.entry.1.now) F.family
        (end_of requested.entry.0.now)
        merge.old merge.new router.old router.new
        (W.contents writer.old) (W.contents writer.new) result }
    ensures count { W.failures writer.new ≡ failures_of_device (W.failures writer.old) result }
{
    let (_, tracing) = requested;
    let filter = filter_of(tracing);
    if tracing.json {
        let printer = JsonPrinter {
            names: &names.ports,
            files: &names.files,
            filter,
        };
        return trace_on::<F, R, W, _>(alloc, requested, &printer, merge, router, writer);
    }
    let printer = TextPrinter {
        names: &names.ports,
        files: &names.files,
        form: tracing.form,
        filter,
    };
    trace_on::<F, R, W, _>(alloc, requested, &printer, merge, router, writer)
}
