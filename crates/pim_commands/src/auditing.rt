//! The audit of a router, printed as the words of `audit` ask.

ghost use Rattle.std.specs.Prelude.{◌≡◌, length, map};
ghost use Rattle.pim_audit.specs.Run.{Audits, run_at_start};
ghost use Rattle.pim_run.specs.Faults.{failures_of_device};
ghost use Rattle.pim_words.specs.Plan.{IsBounded, IsLimited};
ghost use Rattle.pim_commands.specs.Auditing.{audit_line_of};
ghost use Rattle.pim_commands.specs.Routers.{end_of};

use crate::routers::end_of;
use crate::shown::ShownNames;
use pim_addr::{Drain, Family, Feed};
use pim_audit::{AuditOptions, audit_into};
use pim_audit_events::AuditFilter;
use pim_audit_lines::{AuditJsonPrinter, AuditTextPrinter};
use pim_local::LocalJoins;
use pim_merge::Merge;
use pim_router::Router;
use pim_run::RunFault;
use pim_words::{Auditing, Captures, Tracing};
use std::alloc::Global;

/// The words of an audit.
#[derive(Clone, Copy)]
pub(crate) struct AuditWords<'t, A> {
    /// Of whom the router asks, and when an entry is late.
    pub(crate) auditing: &'t Auditing<'t, A>,
    /// What is shown, and how.
    pub(crate) tracing: &'t Tracing<'t, A>,
}

/// What the words ask of an audit with these local joins, whose lines this writer takes.
fn options_of<'t, F: Family, T>(
    alloc: Global,
    captures: &Captures<'_, F::Addr>,
    words: AuditWords<'t, F::Addr>,
    local: &'t LocalJoins<F>,
    writer: &'t T,
) -> AuditOptions<'t, F, T>
    ensures upstream { F.bytes_of result.upstream
        ≡ F.bytes_of words.entry.auditing.now.upstream }
    ensures grace { result.grace ≡ words.entry.auditing.now.grace_ms }
    ensures local { result.local.now ≡ local.now }
    ensures limit { result.limit ≡ captures.now.limit }
    ensures groups { result.groups.now ≡ words.entry.tracing.now.groups.items }
    ensures writer { result.writer.now ≡ writer.now }
{
    AuditOptions {
        alloc,
        upstream: words.auditing.upstream,
        grace: words.auditing.grace_ms,
        local,
        limit: captures.limit,
        groups: &words.tracing.groups,
        writer,
    }
}

/// Audits the captures of a router with these local joins, and prints the lines with these names as
/// the words ask. Returns the status: 1 if something was late, otherwise 0.
pub(crate) fn audit_by<F: Family, R: Feed + Drop, W: Drain>(
    alloc: Global,
    requested: (
        &Captures<'_, F::Addr>,
        AuditWords<'_, F::Addr>,
        &LocalJoins<F>,
    ),
    names: &ShownNames,
    merge: &mut Merge<R>,
    router: &mut Router<'_, F>,
    writer: &mut W,
) -> Result<u8, RunFault>
    requires after { IsBounded requested.0.now }
    requires limit { IsLimited requested.0.now }
    requires ports { length merge.old.lanes ≡ length router.old.ports }
    requires new { router.old.machines.moment ≡ 0 }
    ensures audits { Audits F.family F.bytes_of
        (map F.bytes_of requested.entry.1.tracing.now.groups.items)
        (audit_line_of F.family F.bytes_of names.now.ports.items names.now.files.items
        requested.entry.1.auditing.now.upstream requested.entry.1.tracing.now)
        (end_of requested.entry.0.now) merge.old
        (run_at_start (F.bytes_of requested.entry.1.auditing.now.upstream)
        requested.entry.1.auditing.now.grace_ms requested.entry.2.now
        requested.entry.0.now.limit router.old)
        router.old (W.contents writer.old) merge.new router.new (W.contents writer.new) result }
    ensures count { W.failures writer.new ≡ failures_of_device (W.failures writer.old) result }
{
    let (captures, words, local) = requested;
    let filter = AuditFilter {
        groups: &words.tracing.groups,
        from: words.tracing.from,
    };
    let upstream = words.auditing.upstream;
    if words.tracing.json {
        let printer = AuditJsonPrinter {
            names: &names.ports,
            files: &names.files,
            filter,
            upstream,
        };
        let options = options_of::<F, _>(alloc, captures, words, local, &printer);
        return audit_into(&options, writer, merge, router, end_of(captures));
    }
    let printer = AuditTextPrinter {
        names: &names.ports,
        files: &names.files,
        form: words.tracing.form,
        filter,
        upstream,
    };
    let options = options_of::<F, _>(alloc, captures, words, local, &printer);
    audit_into(&options, writer, merge, router, end_of(captures))
}
