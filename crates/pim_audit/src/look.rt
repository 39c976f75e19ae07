//! A look at what is due.

ghost use Rattle.std.specs.Prelude.{◌≡◌, ◌++◌, ◌∷◌, [], false, map, IfOk, OnOk};
ghost use Rattle.std.specs.List.{AllByRecursion, filter};
ghost use Rattle.std.specs.List.Sorted.{IsPermutation};
ghost use Rattle.pim_down.specs.Hearing.{Event as EventSeen};
ghost use Rattle.pim_down.specs.Seen.{event_seen};
ghost use Rattle.pim_audit.specs.Changes.{AreChanges, AreChanged};
ghost use Rattle.pim_audit.specs.Dued.{with_all, without_all};
ghost use Rattle.pim_audit.specs.Gathering.{is_entry_of};
ghost use Rattle.pim_audit.specs.Look.{DueEntry, LookFinds, becomes_late, held_entries, marked};
ghost use Rattle.pim_audit.specs.Order.{EntriesAscend};
ghost use Rattle.pim_audit.specs.Seen.{dues_seen, report_seen};

use crate::changes::Changes;
use crate::due::Due;
use crate::dues::Dues;
use crate::order::compare_entries;
use pim_addr::Family;
use pim_down::Event;
use std::alloc::{AllocError, Global};

/// What a look finds. All lists are in order.
#[derive(Drop)]
pub(crate) struct Report<A> {
    /// The entries that are due and weren't due at the last look.
    pub(crate) new: Vec<Event<A>>,
    /// What is no longer due of the entries that were reported as late.
    pub(crate) ended: Vec<Due<A>>,
    /// The entries that become late: they are now due for more than the grace.
    pub(crate) late: Vec<Due<A>>,
}

/// Adds an entry that is no longer due, if it was reported as late.
fn push_ended<F: Family>(
    ended: &mut Vec<Due<F::Addr>>,
    held: Due<F::Addr>,
) -> Result<(), AllocError>
    ensures { OnOk result (dues_seen F.bytes_of ended.new.items
        ≡ dues_seen F.bytes_of ended.old.items
        ++ filter (λ (other : DueEntry). other.is_reported) (dues_seen F.bytes_of (held ∷ []))) }
{
    if held.is_reported {
        ended.push(held)?;
    }
    Ok(())
}

/// Removes what is no longer due. Returns those of it that were reported as late.
#[tactic(auto, unfolding(crate::specs::Dued::without_all))]
fn remove_gone<F: Family>(
    alloc: Global,
    dues: &mut Dues<F>,
    gone: &[Due<F::Addr>],
) -> Result<Vec<Due<F::Addr>>, AllocError>
    ensures dues { OnOk result
        (dues.new ≡ without_all (dues_seen F.bytes_of gone.now) dues.old) }
    ensures ended { IfOk result (λ ended. dues_seen F.bytes_of ended.items
        ≡ filter (λ (held : DueEntry). held.is_reported) (dues_seen F.bytes_of gone.now)) }
{
    let mut ended = Vec::new(alloc);
    for &held in gone {
        dues.remove(&held.entry);
        push_ended::<F>(&mut ended, held)?;
    }
    Ok(ended)
}

/// Adds entries that are due since this moment.
#[tactic(auto, unfolding(crate::specs::Dued::with_all))]
fn add_new<F: Family>(
    dues: &mut Dues<F>,
    new: &[Event<F::Addr>],
    moment: u64,
) -> Result<(), AllocError>
    requires order { EntriesAscend (map (event_seen F.bytes_of) new.now) }
    requires fresh { AllByRecursion (λ (entry : EventSeen).
        is_entry_of (held_entries dues.old) entry ≡ false) (map (event_seen F.bytes_of) new.now) }
    ensures { OnOk result
        (dues.new ≡ with_all moment (map (event_seen F.bytes_of) new.now) dues.old) }
{
    for &entry in new {
        dues.add(entry, moment)?;
    }
    Ok(())
}

/// Reports the entries that become late, in no particular order.
fn report_late<F: Family>(
    alloc: Global,
    dues: &mut Dues<F>,
    moment: u64,
    grace: u64,
) -> Result<Vec<Due<F::Addr>>, AllocError>
    ensures dues { OnOk result (dues.new ≡ map (marked moment grace) dues.old) }
    ensures late { IfOk result (λ late. IsPermutation (filter (becomes_late moment grace) dues.old)
        (dues_seen F.bytes_of late.items)) }
{
    let mut late = Vec::new(alloc);
    while let Some(held) = dues.take_late(moment, grace) {
        late.push(held)?;
    }
    Ok(late)
}

/// Reports the entries that become late, in order.
fn take_late<F: Family>(
    alloc: Global,
    dues: &mut Dues<F>,
    moment: u64,
    grace: u64,
) -> Result<Vec<Due<F::Addr>>, AllocError>
    ensures dues { OnOk result (dues.new ≡ map (marked moment grace) dues.old) }
    ensures late { IfOk result (λ late. dues_seen F.bytes_of late.items
        ≡ filter (becomes_late moment grace) dues.old) }
{
    dues.is_sound();
    let mut late = report_late::<F>(alloc, dues, moment, grace)?;
    late.sort_by(|a: &Due<F::Addr>, b: &Due<F::Addr>| compare_entries::<F>(&a.entry, &b.entry))?;
    Ok(late)
}

/// Makes these changes, and reports what becomes late.
///
/// # Errors
/// Memory was refused. Then some of the changes were made.
pub(crate) fn look_at<F: Family>(
    alloc: Global,
    dues: &mut Dues<F>,
    changes: Changes<F::Addr>,
    moment: u64,
    grace: u64,
) -> Result<Report<F::Addr>, AllocError>
    requires order { EntriesAscend (map (event_seen F.bytes_of) changes.new.items) }
    requires changes { AreChanges dues.old (map (event_seen F.bytes_of) changes.new.items)
        (dues_seen F.bytes_of changes.gone.items) }
    ensures finds { IfOk result (λ report. LookFinds dues.old (held_entries dues.new) moment grace
        (report_seen F.bytes_of dues.new report)) }
    ensures entries { OnOk result (AreChanged dues.old
        (map (event_seen F.bytes_of) changes.new.items)
        (dues_seen F.bytes_of changes.gone.items) (held_entries dues.new)) }
{
    dues.is_sound();
    let Changes { new, gone } = changes;
    let ended = remove_gone::<F>(alloc, dues, &gone)?;
    add_new::<F>(dues, &new, moment)?;
    dues.is_sound();
    let late = take_late::<F>(alloc, dues, moment, grace)?;
    Ok(Report { new, ended, late })
}
