//! What an audit counts.

ghost use Rattle.std.specs.Prelude.{◌≡◌, map};
ghost use Rattle.pim_audit_events.specs.Seen.{line_seen, lines_seen, said_seen};
ghost use Rattle.pim_trace.specs.Ledger.{one_more};
ghost use Rattle.pim_audit.specs.Seen.{due_seen};
ghost use Rattle.pim_audit.specs.Totals.{nothing_counted, with_line, with_line_of, with_lines};
ghost use Rattle.pim_audit.specs.Totals.{with_open, with_all_open, status_of};

use crate::due::Due;
use crate::dues::Dues;
use pim_addr::Family;
use pim_audit_events::{AuditEvent, AuditLine, AuditTotals, is_counted};
use pim_events::is_wanted;

/// Nothing is counted yet.
pub(crate) fn nothing_counted() -> AuditTotals
    ensures { result ≡ nothing_counted }
{
    AuditTotals {
        due: 0,
        late: 0,
        worst: 0,
        open: 0,
    }
}

/// One more. The count stops at 2^64 - 1.
fn one_more(count: u64) -> u64
    ensures { result ≡ one_more count }
{
    count.saturating_add(1)
}

/// The totals after a line that says this.
fn with_line<F: Family>(said: &AuditEvent<F::Addr>, totals: AuditTotals) -> AuditTotals
    ensures { result ≡ with_line (said_seen F.bytes_of said.now) totals }
{
    match said {
        AuditEvent::Due(_) => AuditTotals {
            due: one_more(totals.due),
            ..totals
        },
        AuditEvent::Late { .. } => AuditTotals {
            late: one_more(totals.late),
            ..totals
        },
        AuditEvent::Sent { after, .. } | AuditEvent::Dropped { after, .. } => AuditTotals {
            worst: totals.worst.max(*after),
            ..totals
        },
        _ => totals,
    }
}

/// The totals after a line, if it counts for these groups.
fn with_line_of<F: Family>(
    groups: &[F::Addr],
    line: &AuditLine<F::Addr>,
    totals: AuditTotals,
) -> AuditTotals
    ensures { result ≡ with_line_of (map F.bytes_of groups.now)
        (line_seen F.bytes_of line.now) totals }
{
    if is_counted::<F>(groups, &line.said) {
        with_line::<F>(&line.said, totals)
    } else {
        totals
    }
}

/// The totals after these lines. Entries of other groups than these don't count; if there are no
/// groups, all do.
#[tactic(auto, unfolding(crate::specs::Totals::with_each))]
pub(crate) fn with_lines<F: Family>(
    groups: &[F::Addr],
    lines: &[AuditLine<F::Addr>],
    totals: AuditTotals,
) -> AuditTotals
    ensures { result ≡ with_lines (map F.bytes_of groups.now)
        (lines_seen F.bytes_of lines.now) totals }
{
    let mut counted = totals;
    for line in lines {
        counted = with_line_of::<F>(groups, line, counted);
    }
    counted
}

/// The totals with an entry that is due at the end, at this moment, if it was reported as late.
fn with_open<F: Family>(
    groups: &[F::Addr],
    moment: u64,
    held: &Due<F::Addr>,
    totals: AuditTotals,
) -> AuditTotals
    ensures { result ≡ with_open (map F.bytes_of groups.now) moment
        (due_seen F.bytes_of held.now) totals }
{
    if !held.is_reported || !is_wanted::<F>(groups, held.entry.group) {
        return totals;
    }
    AuditTotals {
        open: one_more(totals.open),
        worst: totals.worst.max(moment.saturating_sub(held.since)),
        ..totals
    }
}

/// The totals at the end, at this moment, where these entries are due.
#[tactic(auto, unfolding(crate::specs::Totals::with_each))]
pub(crate) fn with_all_open<F: Family>(
    groups: &[F::Addr],
    moment: u64,
    dues: &Dues<F>,
    totals: AuditTotals,
) -> AuditTotals
    ensures { result ≡ with_all_open (map F.bytes_of groups.now) moment
        dues.now totals }
{
    let mut counted = totals;
    for held in dues.iter() {
        counted = with_open::<F>(groups, moment, held, counted);
    }
    counted
}

/// The status of a program: 1 if something was late.
pub(crate) fn status_of(totals: AuditTotals) -> u8
    ensures { result ≡ status_of totals }
{
    if totals.late == 0 { 0 } else { 1 }
}
