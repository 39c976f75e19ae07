//! Which lines are shown, and which are counted.

ghost use Rattle.std.specs.Prelude.{◌≡◌, ℕ, List, map};
ghost use Rattle.pim_audit_events.specs.Filter.{filter_seen, is_counted, is_shown};
ghost use Rattle.pim_audit_events.specs.Filter.{is_hidden, is_end};
ghost use Rattle.pim_audit_events.specs.Seen.{line_seen, said_seen};

use crate::line::{AuditEvent, AuditLine};
use pim_addr::Family;
use pim_events::{epoch_at, is_early, is_wanted};
use pim_time::Time;

/// Which lines a user wants to see.
#[derive(Clone, Copy, Debug)]
pub struct AuditFilter<'a, A> {
    /// The groups whose entries are shown and counted (`--group`). If there are none, all are.
    pub groups: &'a [A],
    /// The first time that is shown (`--from`).
    pub from: Option<Time>,
}

/// Whether a line counts in the totals: it is of no entry, or of an entry of one of these groups.
/// If there are no groups, all count.
pub fn is_counted<F: Family>(groups: &[F::Addr], said: &AuditEvent<F::Addr>) -> bool
    ensures { result ≡ is_counted (map F.bytes_of groups.now) (said_seen F.bytes_of said.now) }
{
    match said {
        AuditEvent::Due(entry)
        | AuditEvent::Late { entry, .. }
        | AuditEvent::Sent { entry, .. }
        | AuditEvent::Dropped { entry, .. } => is_wanted::<F>(groups, entry.group),
        _ => true,
    }
}

/// Whether a line is never shown: an entry becomes due.
fn is_hidden<A>(said: &AuditEvent<A>) -> bool
    ensures { (bytes_of : A → List ℕ) → result ≡ is_hidden (said_seen bytes_of said.now) }
{
    match said {
        AuditEvent::Due(_) => true,
        _ => false,
    }
}

/// Whether a line says that the run ended.
fn is_end<A>(said: &AuditEvent<A>) -> bool
    ensures { (bytes_of : A → List ℕ) → result ≡ is_end (said_seen bytes_of said.now) }
{
    match said {
        AuditEvent::End(_) => true,
        _ => false,
    }
}

/// Whether a line is shown: the end of the run always is. A line that an entry becomes due never
/// is. Any other is, unless its moment is too early, or its entry is of a group that isn't wanted.
/// `begin` is the time of moment 0 in milliseconds since 1970, if it has one.
pub fn is_shown<F: Family>(
    filter: &AuditFilter<'_, F::Addr>,
    begin: Option<u64>,
    line: &AuditLine<F::Addr>,
) -> bool
    ensures { result ≡ is_shown (filter_seen F.bytes_of filter.now) begin
        (line_seen F.bytes_of line.now) }
{
    is_end(&line.said)
        || !is_hidden(&line.said)
            && !is_early(filter.from, line.moment, epoch_at(begin, line.moment))
            && is_counted::<F>(filter.groups, &line.said)
}
