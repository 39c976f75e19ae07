//! The message of a run of units.
//!
//! Each step counts how many bytes longer the message becomes, so that it is known to be short
//! enough to be sealed. The laws on lengths can't show this, since they are about legal messages,
//! and the forms may have stars without an RP.

ghost use Rattle.std.specs.Prelude.{◌≡◌, ◌≤◌, ◌<◌, ◌^◌, ◌+◌, ◌++◌, ◌∷◌, true, length, map, take};
ghost use Rattle.std.specs.Prelude.{drop, OnOk, IfOk};
ghost use Rattle.std.specs.List.{AllByRecursion, flat_map};
ghost use Rattle.pim_addr.specs.Routes.{rp_of};
ghost use Rattle.pim_frame.specs.Frame.{all_routers};
ghost use Rattle.pim_frame.specs.Seal.{IsSealed};
ghost use Rattle.pim_frame.specs.declared.frame.MessageType.TheVariants.{JoinPrune};
ghost use Rattle.pim_jp.specs.Canonical.{canonical_set, canonical_set_length};
ghost use Rattle.pim_jp.specs.Canonical.{canonical_sets_length};
ghost use Rattle.pim_jp.specs.Canonical.{canonical_head, canonical_head_length};
ghost use Rattle.pim_jp.specs.Seen.{set_seen};
ghost use Rattle.pim_form.specs.Packing.{fits};
ghost use Rattle.pim_change.specs.Seen.{actions_seen, units_seen};
ghost use Rattle.pim_change.specs.Change.{Action, unit_of};
ghost use Rattle.pim_change.specs.Written.{IsShort, actions_of, written_set, written_sets};
ghost use Rattle.pim_change.specs.Written.{set_size};
ghost use Rattle.pim_change.specs.Written.{grouped, weights, CarriesRun};

use crate::entries::{push_all_joined, push_all_pruned};
use crate::unit::Unit;
use pim_addr::{Family, Routes};
use pim_form::Writer;
use pim_jp::{Entry, head_length, put_set, set_length};
use std::alloc::{AllocError, Global};

/// Appends the group set with these entries. The only refusal is for lack of memory.
fn append_entries<F: Family>(
    alloc: Global,
    group: F::Addr,
    joined: &[Entry<F::Addr>],
    pruned: &[Entry<F::Addr>],
    bytes: &mut Vec<u8>,
) -> Result<(), AllocError>
    requires joined { length joined.now < 2 ^ 16 }
    requires pruned { length pruned.now < 2 ^ 16 }
    ensures appended { OnOk result (bytes.new.items
        ≡ bytes.old.items
        ++ canonical_set F.family (set_seen F.bytes_of group joined.now pruned.now)) }
    ensures longer { OnOk result (length bytes.new.items ≡ length bytes.old.items
        + canonical_set_length F.family (length joined.now) (length pruned.now)) }
{
    let length = set_length::<F>(joined.len() as u16, pruned.len() as u16);
    let mut set = vec![in alloc; 0u8; length]?;
    put_set::<F>(group, joined, pruned, &mut set);
    bytes.extend_from_slice(&set)
}

/// Appends the group set of these units of one group.
fn append_set<F: Family>(
    alloc: Global,
    routes: &Routes<F>,
    group: F::Addr,
    units: &[Unit<'_, F::Addr>],
    bytes: &mut Vec<u8>,
) -> Result<(), AllocError>
    requires { IsShort (written_set (rp_of F.family routes.now)
        (actions_of (F.bytes_of group) (actions_seen F.bytes_of units.now))) }
    ensures appended { OnOk result (bytes.new.items ≡ bytes.old.items ++ canonical_set F.family
        (written_set (rp_of F.family routes.now)
        (actions_of (F.bytes_of group) (actions_seen F.bytes_of units.now)))) }
    ensures longer { OnOk result (length bytes.new.items ≡ length bytes.old.items
        + set_size F.family (written_set (rp_of F.family routes.now)
        (actions_of (F.bytes_of group) (actions_seen F.bytes_of units.now)))) }
{
    let mut joined = Vec::new(alloc);
    push_all_joined::<F>(&mut joined, routes, group, units)?;
    let mut pruned = Vec::new(alloc);
    push_all_pruned::<F>(&mut pruned, routes, group, units)?;
    append_entries::<F>(alloc, group, &joined, &pruned, bytes)
}

/// The number of units at the front that are of this group.
fn front_length<F: Family>(units: &[Unit<'_, F::Addr>], group: F::Addr) -> usize
    ensures within { result ≤ length units.now }
    ensures cut { (action : Action)
        → grouped (unit_of (F.bytes_of group) action ∷ units_seen F.bytes_of units.now)
        ≡ actions_of (F.bytes_of group) (action
        ∷ actions_seen F.bytes_of (take result units.now))
        ∷ grouped (units_seen F.bytes_of (drop result units.now)) }
{
    for (index, unit) in units.iter().enumerate() {
        if group != unit.group {
            return index;
        }
    }
    units.len()
}

/// Appends the group sets of a run of units, and returns their number.
fn append_sets<F: Family>(
    alloc: Global,
    routes: &Routes<F>,
    units: &[Unit<'_, F::Addr>],
    bytes: &mut Vec<u8>,
) -> Result<u8, AllocError>
    requires short { AllByRecursion IsShort
        (written_sets (rp_of F.family routes.now) (units_seen F.bytes_of units.now)) }
    requires groups { length
        (written_sets (rp_of F.family routes.now) (units_seen F.bytes_of units.now)) ≤ 255 }
    ensures appended { OnOk result (bytes.new.items ≡ bytes.old.items
        ++ flat_map (canonical_set F.family)
        (written_sets (rp_of F.family routes.now) (units_seen F.bytes_of units.now))) }
    ensures longer { OnOk result (length bytes.new.items ≡ length bytes.old.items
        + canonical_sets_length F.family
        (written_sets (rp_of F.family routes.now) (units_seen F.bytes_of units.now))) }
    ensures counted { IfOk result (λ count.
        count ≡ length
        (written_sets (rp_of F.family routes.now) (units_seen F.bytes_of units.now))) }
{
    let mut start = 0;
    let mut count = 0;
    while start < units.len() {
        let group = units[start].group;
        let (_, left) = units.split_at(start);
        let (_, behind) = units.split_at(start + 1);
        let length = front_length::<F>(behind, group) + 1;
        let (these, _) = left.split_at(length);
        append_set::<F>(alloc, routes, group, these, bytes)?;
        start += length;
        count += 1;
    }
    Ok(count)
}

/// The message of a run of units, which fits the writer's budget. The only refusal is for lack of
/// memory.
pub(crate) fn message<F: Family>(
    alloc: Global,
    writer: &Writer<F>,
    routes: &Routes<F>,
    units: &[Unit<'_, F::Addr>],
) -> Result<Vec<u8>, AllocError>
    requires { fits F.family writer.now.budget (weights (units_seen F.bytes_of units.now)) ≡ true }
    ensures { IfOk result (λ bytes. CarriesRun F.family writer.now (rp_of F.family routes.now)
        (units_seen F.bytes_of units.now) bytes.items) }
{
    writer.is_writing();
    let mut bytes = vec![in alloc; 0u8; 4 + head_length::<F>()]?;
    let sets = append_sets::<F>(alloc, routes, units, &mut bytes)?;
    writer.seal_message(sets, &mut bytes);
    Ok(bytes)
}
