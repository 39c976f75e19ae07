//! The units for the change of one group.

ghost use Rattle.std.specs.Prelude.{◌≡◌, ◌++◌, true, None, map, OnOk};
ghost use Rattle.std.specs.Option.{is_some};
ghost use Rattle.pim_form.specs.NormalForm.{AreAscending};
ghost use Rattle.pim_form.specs.Settled.{unwanted};
ghost use Rattle.pim_change.specs.Change.{of_source, lacking, star_change, group_change, about};
ghost use Rattle.pim_change.specs.Seen.{units_seen};

use crate::unit::{Action, ActionKind, Unit};
use pim_addr::Family;
use pim_form::GroupView;
use std::alloc::AllocError;
use std::cmp::Ordering;

/// Adds a unit of this kind for each source.
fn push_each<'a, F: Family>(
    units: &mut Vec<Unit<'a, F::Addr>>,
    group: F::Addr,
    kind: ActionKind,
    sources: &[F::Addr],
) -> Result<(), AllocError>
    ensures { OnOk result (units_seen F.bytes_of units.new.items
        ≡ units_seen F.bytes_of units.old.items
        ++ about (F.bytes_of group) (map (of_source kind) (map F.bytes_of sources.now))) }
{
    for &source in sources {
        let action = Action::Of(kind, source);
        units.push(Unit { group, action })?;
    }
    Ok(())
}

/// Adds a unit of this kind for each source of the first list that isn't in the other list.
fn push_lacking<'a, F: Family>(
    units: &mut Vec<Unit<'a, F::Addr>>,
    group: F::Addr,
    kind: ActionKind,
    one: &[F::Addr],
    other: &[F::Addr],
) -> Result<(), AllocError>
    requires one { AreAscending (map F.bytes_of one.now) }
    requires other { AreAscending (map F.bytes_of other.now) }
    ensures { OnOk result (units_seen F.bytes_of units.new.items
        ≡ units_seen F.bytes_of units.old.items
        ++ about (F.bytes_of group)
        (map (of_source kind) (lacking (map F.bytes_of one.now) (map F.bytes_of other.now)))) }
{
    let (mut left, mut right) = (one, other);
    while let Some((a, left_behind)) = left.split_first() {
        let Some((b, right_behind)) = right.split_first() else {
            break;
        };
        match a.cmp(b) {
            Ordering::Less => {
                let action = Action::Of(kind, *a);
                units.push(Unit { group, action })?;
                left = left_behind;
            }
            Ordering::Equal => {
                left = left_behind;
                right = right_behind;
            }
            Ordering::Greater => right = right_behind,
        }
    }
    push_each::<F>(units, group, kind, left)
}

/// Adds the unit of a group's star, if it has one. The group had none before.
fn push_star_join<'a, F: Family>(
    units: &mut Vec<Unit<'a, F::Addr>>,
    new: &GroupView<'a, F>,
) -> Result<(), AllocError>
    ensures { OnOk result (units_seen F.bytes_of units.new.items
        ≡ units_seen F.bytes_of units.old.items
        ++ about new.now.group (star_change None new.now.star)) }
{
    if new.star() {
        let action = Action::JoinStar(new.exceptions());
        units.push(Unit {
            group: new.group(),
            action,
        })?;
    }
    Ok(())
}

/// Adds Prune(*,G) if the group had a star. It has none in the wanted form.
fn push_star_prune<'a, F: Family>(
    units: &mut Vec<Unit<'a, F::Addr>>,
    old: &GroupView<'_, F>,
) -> Result<(), AllocError>
    ensures { OnOk result (units_seen F.bytes_of units.new.items
        ≡ units_seen F.bytes_of units.old.items
        ++ about old.now.group (star_change old.now.star None)) }
{
    if old.star() {
        let action = Action::PruneStar;
        units.push(Unit {
            group: old.group(),
            action,
        })?;
    }
    Ok(())
}

/// Adds the units for the exceptions of a star that stays.
fn push_exceptions<'a, F: Family>(
    units: &mut Vec<Unit<'a, F::Addr>>,
    old: &GroupView<'_, F>,
    new: &GroupView<'_, F>,
) -> Result<(), AllocError>
    requires old { is_some old.now.star ≡ true }
    requires new { is_some new.now.star ≡ true }
    ensures { OnOk result (units_seen F.bytes_of units.new.items
        ≡ units_seen F.bytes_of units.old.items
        ++ about old.now.group (star_change old.now.star new.now.star)) }
{
    old.is_normal();
    new.is_normal();
    let group = old.group();
    let before = old.exceptions();
    let after = new.exceptions();
    push_lacking::<F>(units, group, ActionKind::JoinRpt, before, after)?;
    push_lacking::<F>(units, group, ActionKind::PruneRpt, after, before)
}

/// Adds the units for the star of a group.
fn push_star<'a, F: Family>(
    units: &mut Vec<Unit<'a, F::Addr>>,
    old: &GroupView<'_, F>,
    new: &GroupView<'a, F>,
) -> Result<(), AllocError>
    requires { old.now.group ≡ new.now.group }
    ensures { OnOk result (units_seen F.bytes_of units.new.items
        ≡ units_seen F.bytes_of units.old.items
        ++ about new.now.group (star_change old.now.star new.now.star)) }
{
    if !old.star() {
        return push_star_join::<F>(units, new);
    }
    if !new.star() {
        return push_star_prune::<F>(units, old);
    }
    push_exceptions::<F>(units, old, new)
}

/// Adds the units of a group that wasn't sent.
pub(crate) fn push_new<'a, F: Family>(
    units: &mut Vec<Unit<'a, F::Addr>>,
    new: &GroupView<'a, F>,
) -> Result<(), AllocError>
    ensures { OnOk result (units_seen F.bytes_of units.new.items
        ≡ units_seen F.bytes_of units.old.items
        ++ about new.now.group (group_change (unwanted new.now.group) new.now)) }
{
    push_star_join::<F>(units, new)?;
    push_each::<F>(units, new.group(), ActionKind::JoinSource, new.sources())
}

/// Adds the units of a group of which nothing is wanted.
pub(crate) fn push_old<'a, F: Family>(
    units: &mut Vec<Unit<'a, F::Addr>>,
    old: &GroupView<'_, F>,
) -> Result<(), AllocError>
    ensures { OnOk result (units_seen F.bytes_of units.new.items
        ≡ units_seen F.bytes_of units.old.items
        ++ about old.now.group (group_change old.now (unwanted old.now.group))) }
{
    push_star_prune::<F>(units, old)?;
    push_each::<F>(units, old.group(), ActionKind::PruneSource, old.sources())
}

/// Adds the units of a group that is in both forms.
pub(crate) fn push_both<'a, F: Family>(
    units: &mut Vec<Unit<'a, F::Addr>>,
    old: &GroupView<'_, F>,
    new: &GroupView<'a, F>,
) -> Result<(), AllocError>
    requires { old.now.group ≡ new.now.group }
    ensures { OnOk result (units_seen F.bytes_of units.new.items
        ≡ units_seen F.bytes_of units.old.items
        ++ about new.now.group (group_change old.now new.now)) }
{
    old.is_normal();
    new.is_normal();
    push_star::<F>(units, old, new)?;
    let group = new.group();
    let before = old.sources();
    let after = new.sources();
    push_lacking::<F>(units, group, ActionKind::JoinSource, after, before)?;
    push_lacking::<F>(units, group, ActionKind::PruneSource, before, after)
}
