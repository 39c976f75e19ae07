//! The merge of two forms into one that wants what either wants.

ghost use Rattle.std.specs.Prelude.{◌≡◌, ◌++◌, ◌∷◌, [], List, map, OnOk, IfOk};
ghost use Rattle.pim_form.specs.NormalForm.{GroupForm, AreAscending};
ghost use Rattle.pim_form.specs.Rows.{exceptions_of};
ghost use Rattle.pim_form.specs.Drafts.{IsDraft};
ghost use Rattle.pim_form.specs.Merge.{united, common, both_stars, both_groups, merged};

use crate::form::NormalForm;
use crate::groups::{GroupView, Groups, group_at};
use crate::place::GroupPlace;
use pim_addr::Family;
use std::alloc::{AllocError, Global};
use std::cmp::Ordering;

/// Appends these values.
fn append<T: Copy>(row: &mut Vec<T>, values: &[T]) -> Result<(), AllocError>
    ensures { OnOk result (row.new.items ≡ row.old.items ++ values.now) }
{
    row.extend_from_slice(values)
}

/// Appends the addresses of either list to the row, in order.
fn push_united<F: Family>(
    row: &mut Vec<F::Addr>,
    one: &[F::Addr],
    other: &[F::Addr],
) -> Result<(), AllocError>
    ensures { OnOk result (map F.bytes_of row.new.items ≡
        map F.bytes_of row.old.items
        ++ united (map F.bytes_of one.now) (map F.bytes_of other.now)) }
{
    let (mut left, mut right) = (one, other);
    while let Some((a, left_behind)) = left.split_first() {
        let Some((b, right_behind)) = right.split_first() else {
            break;
        };
        match a.cmp(b) {
            Ordering::Less => {
                row.push(*a)?;
                left = left_behind;
            }
            Ordering::Equal => {
                row.push(*a)?;
                left = left_behind;
                right = right_behind;
            }
            Ordering::Greater => {
                row.push(*b)?;
                right = right_behind;
            }
        }
    }
    append(row, left)?;
    append(row, right)
}

/// Appends the addresses that are in both lists to the row, in order.
fn push_common<F: Family>(
    row: &mut Vec<F::Addr>,
    one: &[F::Addr],
    other: &[F::Addr],
) -> Result<(), AllocError>
    requires one { AreAscending (map F.bytes_of one.now) }
    requires other { AreAscending (map F.bytes_of other.now) }
    ensures { OnOk result (map F.bytes_of row.new.items ≡
        map F.bytes_of row.old.items
        ++ common (map F.bytes_of one.now) (map F.bytes_of other.now)) }
{
    let (mut left, mut right) = (one, other);
    while let Some((a, left_behind)) = left.split_first() {
        let Some((b, right_behind)) = right.split_first() else {
            break;
        };
        match a.cmp(b) {
            Ordering::Less => left = left_behind,
            Ordering::Equal => {
                row.push(*a)?;
                left = left_behind;
                right = right_behind;
            }
            Ordering::Greater => right = right_behind,
        }
    }
    Ok(())
}

/// Appends the exceptions of a merged group: the common ones if both groups have a star, else those
/// of the group that has one.
fn push_exceptions<F: Family>(
    row: &mut Vec<F::Addr>,
    one: &GroupView<'_, F>,
    other: &GroupView<'_, F>,
) -> Result<(), AllocError>
    ensures { OnOk result (map F.bytes_of row.new.items ≡
        map F.bytes_of row.old.items ++ exceptions_of (both_stars one.now.star other.now.star)) }
{
    one.is_normal();
    other.is_normal();
    if one.star() && other.star() {
        return push_common::<F>(row, one.exceptions(), other.exceptions());
    }
    append(row, one.exceptions())?;
    append(row, other.exceptions())
}

/// Appends a group to a form under construction.
fn push_group<F: Family>(
    row: &mut Vec<F::Addr>,
    places: &mut Vec<GroupPlace<F::Addr>>,
    group: &GroupView<'_, F>,
) -> Result<(), AllocError>
    ensures { OnOk result ((form : List GroupForm)
        → IsDraft F.bytes_of row.old.items places.old.items form →
        IsDraft F.bytes_of row.new.items places.new.items (form ++ group.now ∷ [])) }
{
    let sources_start = row.len();
    append(row, group.sources())?;
    let sources_end = row.len();
    append(row, group.exceptions())?;
    places.push(GroupPlace {
        group: group.group(),
        starred: group.star(),
        sources_start,
        sources_end,
        exceptions_start: sources_end,
        exceptions_end: row.len(),
    })?;
    Ok(())
}

/// Appends the merge of two groups of the same address.
fn push_both<F: Family>(
    row: &mut Vec<F::Addr>,
    places: &mut Vec<GroupPlace<F::Addr>>,
    one: &GroupView<'_, F>,
    other: &GroupView<'_, F>,
) -> Result<(), AllocError>
    ensures { OnOk result ((form : List GroupForm)
        → IsDraft F.bytes_of row.old.items places.old.items form →
        IsDraft F.bytes_of row.new.items places.new.items (form ++ both_groups one.now other.now
        ∷ [])) }
{
    let sources_start = row.len();
    push_united::<F>(row, one.sources(), other.sources())?;
    let sources_end = row.len();
    push_exceptions::<F>(row, one, other)?;
    places.push(GroupPlace {
        group: one.group(),
        starred: one.star() | other.star(),
        sources_start,
        sources_end,
        exceptions_start: sources_end,
        exceptions_end: row.len(),
    })?;
    Ok(())
}

/// Appends these groups to a form under construction.
fn push_groups<F: Family>(
    row: &mut Vec<F::Addr>,
    places: &mut Vec<GroupPlace<F::Addr>>,
    groups: Groups<'_, F>,
) -> Result<(), AllocError>
    ensures { OnOk result ((form : List GroupForm)
        → IsDraft F.bytes_of row.old.items places.old.items form →
        IsDraft F.bytes_of row.new.items places.new.items (form ++ groups.entry)) }
{
    for group in groups {
        push_group::<F>(row, places, &group)?;
    }
    Ok(())
}

/// Appends the merge of two forms to a form under construction, which has no group yet.
fn push_merged<F: Family>(
    row: &mut Vec<F::Addr>,
    places: &mut Vec<GroupPlace<F::Addr>>,
    one: &NormalForm<F>,
    other: &NormalForm<F>,
) -> Result<(), AllocError>
    requires { places.old.items ≡ [] }
    ensures { OnOk result
        (IsDraft F.bytes_of row.new.items places.new.items (merged one.now other.now)) }
{
    let mut left: &[GroupPlace<F::Addr>] = &one.places;
    let mut right: &[GroupPlace<F::Addr>] = &other.places;
    while let Some((a, left_behind)) = left.split_first() {
        let Some((b, right_behind)) = right.split_first() else {
            break;
        };
        let (first, second) = (group_at::<F>(&one.row, a), group_at::<F>(&other.row, b));
        match a.group.cmp(&b.group) {
            Ordering::Less => {
                push_group::<F>(row, places, &first)?;
                left = left_behind;
            }
            Ordering::Equal => {
                push_both::<F>(row, places, &first, &second)?;
                left = left_behind;
                right = right_behind;
            }
            Ordering::Greater => {
                push_group::<F>(row, places, &second)?;
                right = right_behind;
            }
        }
    }
    push_groups::<F>(row, places, Groups::new(&one.row, left))?;
    push_groups::<F>(row, places, Groups::new(&other.row, right))?;
    Ok(())
}

/// The form that wants what either wants. The only refusal is for lack of memory.
pub(crate) fn merge<F: Family>(
    alloc: Global,
    one: &NormalForm<F>,
    other: &NormalForm<F>,
) -> Result<NormalForm<F>, AllocError>
    ensures { IfOk result (λ form. form ≡ merged one.now other.now) }
{
    let mut row = Vec::new(alloc);
    row.reserve(one.row.len().saturating_add(other.row.len()))?;
    let mut places = Vec::new(alloc);
    push_merged::<F>(&mut row, &mut places, one, other)?;
    Ok(NormalForm { row, places })
}
