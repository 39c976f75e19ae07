//! The entries of the group set of a group.

ghost use Rattle.std.specs.Prelude.{◌≡◌, ◌++◌, map, OnOk};
ghost use Rattle.std.specs.List.{flat_map};
ghost use Rattle.pim_addr.specs.Routes.{rp_of};
ghost use Rattle.pim_jp.specs.Seen.{entry_seen};
ghost use Rattle.pim_change.specs.Seen.{action_seen, actions_seen};
ghost use Rattle.pim_change.specs.Written.{rp_entry, kind_joined, kind_pruned, excepted_entries};
ghost use Rattle.pim_change.specs.Written.{joined_entries};
ghost use Rattle.pim_change.specs.Written.{pruned_entries};

use crate::unit::{Action, ActionKind, Unit};
use pim_addr::{Family, Routes};
use pim_jp::Entry;
use std::alloc::AllocError;

/// Adds the (*,G) entry of a group with the RP that the table has for it; nothing without an RP.
fn push_rp<F: Family>(
    entries: &mut Vec<Entry<F::Addr>>,
    routes: &Routes<F>,
    group: F::Addr,
) -> Result<(), AllocError>
    ensures { OnOk result (map (entry_seen F.bytes_of) entries.new.items
        ≡ map (entry_seen F.bytes_of) entries.old.items
        ++ rp_entry (rp_of F.family routes.now (F.bytes_of group))) }
{
    if let Some(address) = routes.rp_of(group) {
        entries.push(Entry::Star(address))?;
    }
    Ok(())
}

/// Adds the joined entry of a source, if it is joined.
fn push_kind_joined<F: Family>(
    entries: &mut Vec<Entry<F::Addr>>,
    kind: ActionKind,
    source: F::Addr,
) -> Result<(), AllocError>
    ensures { OnOk result (map (entry_seen F.bytes_of) entries.new.items
        ≡ map (entry_seen F.bytes_of) entries.old.items ++ kind_joined kind (F.bytes_of source)) }
{
    match kind {
        ActionKind::JoinRpt => entries.push(Entry::Rpt(source))?,
        ActionKind::JoinSource => entries.push(Entry::Source(source))?,
        ActionKind::PruneRpt => {}
        ActionKind::PruneSource => {}
    }
    Ok(())
}

/// Adds the pruned entry of a source, if it is pruned.
fn push_kind_pruned<F: Family>(
    entries: &mut Vec<Entry<F::Addr>>,
    kind: ActionKind,
    source: F::Addr,
) -> Result<(), AllocError>
    ensures { OnOk result (map (entry_seen F.bytes_of) entries.new.items
        ≡ map (entry_seen F.bytes_of) entries.old.items ++ kind_pruned kind (F.bytes_of source)) }
{
    match kind {
        ActionKind::JoinRpt => {}
        ActionKind::JoinSource => {}
        ActionKind::PruneRpt => entries.push(Entry::Rpt(source))?,
        ActionKind::PruneSource => entries.push(Entry::Source(source))?,
    }
    Ok(())
}

/// Adds an (S,G,rpt) entry for each exception of a star.
fn push_excepted<F: Family>(
    entries: &mut Vec<Entry<F::Addr>>,
    exceptions: &[F::Addr],
) -> Result<(), AllocError>
    ensures { OnOk result (map (entry_seen F.bytes_of) entries.new.items
        ≡ map (entry_seen F.bytes_of) entries.old.items
        ++ excepted_entries (map F.bytes_of exceptions.now)) }
{
    for &source in exceptions {
        entries.push(Entry::Rpt(source))?;
    }
    Ok(())
}

/// Adds the entries that a unit joins.
fn push_joined<F: Family>(
    entries: &mut Vec<Entry<F::Addr>>,
    routes: &Routes<F>,
    group: F::Addr,
    action: &Action<'_, F::Addr>,
) -> Result<(), AllocError>
    ensures { OnOk result (map (entry_seen F.bytes_of) entries.new.items
        ≡ map (entry_seen F.bytes_of) entries.old.items
        ++ joined_entries (rp_of F.family routes.now (F.bytes_of group))
        (action_seen F.bytes_of action.now)) }
{
    match action {
        Action::JoinStar(_) => push_rp::<F>(entries, routes, group),
        Action::PruneStar => Ok(()),
        Action::Of(kind, source) => push_kind_joined::<F>(entries, *kind, *source),
    }
}

/// Adds the entries that a unit prunes.
fn push_pruned<F: Family>(
    entries: &mut Vec<Entry<F::Addr>>,
    routes: &Routes<F>,
    group: F::Addr,
    action: &Action<'_, F::Addr>,
) -> Result<(), AllocError>
    ensures { OnOk result (map (entry_seen F.bytes_of) entries.new.items
        ≡ map (entry_seen F.bytes_of) entries.old.items
        ++ pruned_entries (rp_of F.family routes.now (F.bytes_of group))
        (action_seen F.bytes_of action.now)) }
{
    match action {
        Action::JoinStar(exceptions) => push_excepted::<F>(entries, exceptions),
        Action::PruneStar => push_rp::<F>(entries, routes, group),
        Action::Of(kind, source) => push_kind_pruned::<F>(entries, *kind, *source),
    }
}

/// Adds the entries that these units of a group join.
pub(crate) fn push_all_joined<F: Family>(
    entries: &mut Vec<Entry<F::Addr>>,
    routes: &Routes<F>,
    group: F::Addr,
    units: &[Unit<'_, F::Addr>],
) -> Result<(), AllocError>
    ensures { OnOk result (map (entry_seen F.bytes_of) entries.new.items
        ≡ map (entry_seen F.bytes_of) entries.old.items
        ++ flat_map (joined_entries (rp_of F.family routes.now (F.bytes_of group)))
        (actions_seen F.bytes_of units.now)) }
{
    for unit in units {
        push_joined::<F>(entries, routes, group, &unit.action)?;
    }
    Ok(())
}

/// Adds the entries that these units of a group prune.
pub(crate) fn push_all_pruned<F: Family>(
    entries: &mut Vec<Entry<F::Addr>>,
    routes: &Routes<F>,
    group: F::Addr,
    units: &[Unit<'_, F::Addr>],
) -> Result<(), AllocError>
    ensures { OnOk result (map (entry_seen F.bytes_of) entries.new.items
        ≡ map (entry_seen F.bytes_of) entries.old.items
        ++ flat_map (pruned_entries (rp_of F.family routes.now (F.bytes_of group)))
        (actions_seen F.bytes_of units.now)) }
{
    for unit in units {
        push_pruned::<F>(entries, routes, group, &unit.action)?;
    }
    Ok(())
}
