//! What changed at a look: which entries are due that weren't, and which are no longer.

ghost use Rattle.std.specs.Prelude.{◌≡◌, ◌++◌, Bool, map, IfOk, OnOk};
ghost use Rattle.std.specs.List.{filter, flat_map};
ghost use Rattle.std.specs.List.Sorted.{IsPermutation};
ghost use Rattle.pim_down.specs.Seen.{event_seen, what_seen};
ghost use Rattle.pim_audit.specs.Changes.{AreNew, is_gone};
ghost use Rattle.pim_audit.specs.Compared.{AreApart, entries_at, entries_of, gone_at, gone_if};
ghost use Rattle.pim_audit.specs.Compared.{held_at, new_at, new_if};
ghost use Rattle.pim_audit.specs.Dues.{is_one};
ghost use Rattle.pim_audit.specs.Entries.{entry};
ghost use Rattle.pim_audit.specs.Holding.{is_due_if};
ghost use Rattle.pim_audit.specs.Look.{held_entries};
ghost use Rattle.pim_audit.specs.Order.{EntriesAscend};
ghost use Rattle.pim_audit.specs.Seen.{dues_seen};
ghost use Rattle.pim_audit.specs.Touched.{machine_seen, machines_seen};

use crate::due::Due;
use crate::dues::Dues;
use crate::machine::GroupMachine;
use crate::order::compare_entries;
use crate::sides::Sides;
use crate::watched::Machines;
use pim_addr::Family;
use pim_down::{Event, What};
use std::alloc::{AllocError, Global};

/// What changed since the last look.
#[derive(Drop)]
pub(crate) struct Changes<A> {
    /// The entries that are due and weren't.
    pub(crate) new: Vec<Event<A>>,
    /// What is no longer due.
    pub(crate) gone: Vec<Due<A>>,
}

/// Adds what changed of an entry that is due now or not.
fn push_entry<F: Family>(
    changes: &mut Changes<F::Addr>,
    dues: &Dues<F>,
    entry: Event<F::Addr>,
    is_due: bool,
) -> Result<(), AllocError>
    ensures new { OnOk result (map (event_seen F.bytes_of) changes.exit.now.new.items
        ≡ map (event_seen F.bytes_of) changes.entry.now.new.items
        ++ new_if is_due (event_seen F.bytes_of entry)
        (held_at dues.now (event_seen F.bytes_of entry))) }
    ensures gone { OnOk result (dues_seen F.bytes_of changes.exit.now.gone.items
        ≡ dues_seen F.bytes_of changes.entry.now.gone.items
        ++ gone_if is_due (held_at dues.now (event_seen F.bytes_of entry))) }
{
    match (dues.get(&entry), is_due) {
        (None, true) => changes.new.push(entry)?,
        (Some(held), false) => changes.gone.push(held)?,
        _ => {}
    }
    Ok(())
}

/// What is due of a machine: a Join, a Prune, or nothing. Nothing is while the neighbour is unknown.
fn due_of<F: Family>(
    sides: &Sides<'_, F>,
    is_known: bool,
    group: F::Addr,
    what: What<F::Addr>,
) -> Option<bool>
    ensures { (joins : Bool) → is_one result joins ≡ is_due_if is_known F.family sides.now
        (entry joins (F.bytes_of group) (what_seen F.bytes_of what)) }
{
    if is_known {
        sides.due_of(sides.stars(group), group, what)
    } else {
        None
    }
}

/// Adds what changed of the entries of a machine.
fn push_machine<F: Family>(
    changes: &mut Changes<F::Addr>,
    sides: &Sides<'_, F>,
    is_known: bool,
    dues: &Dues<F>,
    machine: GroupMachine<F::Addr>,
) -> Result<(), AllocError>
    ensures new { OnOk result (map (event_seen F.bytes_of) changes.exit.now.new.items
        ≡ map (event_seen F.bytes_of) changes.entry.now.new.items
        ++ flat_map (new_at is_known F.family sides.now dues.now)
        (entries_at (machine_seen F.bytes_of machine))) }
    ensures gone { OnOk result (dues_seen F.bytes_of changes.exit.now.gone.items
        ≡ dues_seen F.bytes_of changes.entry.now.gone.items
        ++ flat_map (gone_at is_known F.family sides.now dues.now)
        (entries_at (machine_seen F.bytes_of machine))) }
{
    let (group, what) = (machine.group, machine.what);
    let due = due_of::<F>(sides, is_known, group, what);
    let join = Event {
        joins: true,
        group,
        what,
    };
    push_entry::<F>(changes, dues, join, due == Some(true))?;
    let prune = Event {
        joins: false,
        group,
        what,
    };
    push_entry::<F>(changes, dues, prune, due == Some(false))?;
    Ok(())
}

/// Adds what changed of the entries of these machines.
fn push_machines<F: Family>(
    changes: &mut Changes<F::Addr>,
    sides: &Sides<'_, F>,
    is_known: bool,
    dues: &Dues<F>,
    machines: &Machines<F>,
) -> Result<(), AllocError>
    ensures new { OnOk result (map (event_seen F.bytes_of) changes.exit.now.new.items
        ≡ map (event_seen F.bytes_of) changes.entry.now.new.items
        ++ flat_map (new_at is_known F.family sides.now dues.now)
        (entries_of (machines_seen F.bytes_of machines.now.keys))) }
    ensures gone { OnOk result (dues_seen F.bytes_of changes.exit.now.gone.items
        ≡ dues_seen F.bytes_of changes.entry.now.gone.items
        ++ flat_map (gone_at is_known F.family sides.now dues.now)
        (entries_of (machines_seen F.bytes_of machines.now.keys))) }
    ensures apart { OnOk result
        (AreApart (entries_of (machines_seen F.bytes_of machines.now.keys))) }
{
    for &machine in machines {
        push_machine::<F>(changes, sides, is_known, dues, machine)?;
    }
    Ok(())
}

/// Puts entries in order.
fn put_in_order<F: Family>(entries: &mut Vec<Event<F::Addr>>) -> Result<(), AllocError>
    requires { AreApart (map (event_seen F.bytes_of) entries.old.items) }
    ensures order { OnOk result (EntriesAscend (map (event_seen F.bytes_of) entries.new.items)) }
    ensures same { OnOk result (IsPermutation (map (event_seen F.bytes_of) entries.old.items)
        (map (event_seen F.bytes_of) entries.new.items)) }
{
    entries.sort_by(|a, b| compare_entries::<F>(a, b))?;
    Ok(())
}

/// Puts what was due in order.
fn put_dues_in_order<F: Family>(dues: &mut Vec<Due<F::Addr>>) -> Result<(), AllocError>
    requires { AreApart (held_entries (dues_seen F.bytes_of dues.old.items)) }
    ensures order { OnOk result
        (EntriesAscend (held_entries (dues_seen F.bytes_of dues.new.items))) }
    ensures same { OnOk result (IsPermutation (dues_seen F.bytes_of dues.old.items)
        (dues_seen F.bytes_of dues.new.items)) }
{
    dues.sort_by(|a, b| compare_entries::<F>(&a.entry, &b.entry))?;
    Ok(())
}

/// What changed of the entries of these machines. Nothing is due while the neighbour is unknown.
///
/// # Errors
/// Memory was refused.
pub(crate) fn changes_of<F: Family>(
    alloc: Global,
    sides: &Sides<'_, F>,
    is_known: bool,
    dues: &Dues<F>,
    machines: &Machines<F>,
) -> Result<Changes<F::Addr>, AllocError>
    ensures new { IfOk result (λ changes. AreNew is_known F.family sides.now
        (machines_seen F.bytes_of machines.now.keys) dues.now
        (map (event_seen F.bytes_of) changes.new.items)) }
    ensures order { IfOk result (λ changes.
        EntriesAscend (map (event_seen F.bytes_of) changes.new.items)) }
    ensures gone { IfOk result (λ changes. dues_seen F.bytes_of changes.gone.items
        ≡ filter (is_gone is_known F.family sides.now
        (machines_seen F.bytes_of machines.now.keys)) dues.now) }
{
    dues.is_sound();
    let mut changes = Changes {
        new: Vec::new(alloc),
        gone: Vec::new(alloc),
    };
    push_machines::<F>(&mut changes, sides, is_known, dues, machines)?;
    put_in_order::<F>(&mut changes.new)?;
    put_dues_in_order::<F>(&mut changes.gone)?;
    Ok(changes)
}
