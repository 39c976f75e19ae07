//! The change between two forms.
//!
//! The definition looks up each group of either form in both. The code walks both forms side by
//! side, and takes time in proportion to their sizes.

ghost use Rattle.std.specs.Prelude.{◌≡◌, ◌++◌, [], OnOk, IfOk};
ghost use Rattle.pim_form.specs.NormalForm.{AreAscending, groups_of};
ghost use Rattle.pim_change.specs.Change.{change};
ghost use Rattle.pim_change.specs.Seen.{units_seen};

use crate::action::{push_both, push_new, push_old};
use crate::unit::Unit;
use pim_addr::Family;
use pim_form::{Groups, NormalForm};
use std::alloc::{AllocError, Global};
use std::cmp::Ordering;

/// Adds the units of groups that aren't wanted but were sent.
fn push_gone<'a, F: Family>(
    units: &mut Vec<Unit<'a, F::Addr>>,
    groups: Groups<'_, F>,
) -> Result<(), AllocError>
    requires { AreAscending (groups_of groups) }
    ensures { OnOk result (units_seen F.bytes_of units.new.items
        ≡ units_seen F.bytes_of units.old.items ++ change groups.entry []) }
{
    for old in groups {
        push_old::<F>(units, &old)?;
    }
    Ok(())
}

/// Adds the units of groups that are wanted but weren't sent.
fn push_came<'a, F: Family>(
    units: &mut Vec<Unit<'a, F::Addr>>,
    groups: Groups<'a, F>,
) -> Result<(), AllocError>
    requires { AreAscending (groups_of groups) }
    ensures { OnOk result (units_seen F.bytes_of units.new.items
        ≡ units_seen F.bytes_of units.old.items ++ change [] groups.entry) }
{
    for new in groups {
        push_new::<F>(units, &new)?;
    }
    Ok(())
}

/// Returns the units of the change from a form that was sent to the form that is wanted. For each
/// group of either form, in order, they say what became of its star and then of its sources. The
/// only refusal is for lack of memory.
pub fn changed<'a, F: Family>(
    alloc: Global,
    reported: &NormalForm<F>,
    wanted: &'a NormalForm<F>,
) -> Result<Vec<Unit<'a, F::Addr>>, AllocError>
    ensures { IfOk result (λ units. units_seen F.bytes_of units.items
        ≡ change reported.now wanted.now) }
{
    reported.is_normal();
    wanted.is_normal();
    let mut units = Vec::new(alloc);
    let mut left = reported.groups();
    let mut right = wanted.groups();
    while let Some((old, left_behind)) = left.split_first() {
        let Some((new, right_behind)) = right.split_first() else {
            break;
        };
        match old.group().cmp(&new.group()) {
            Ordering::Less => {
                push_old::<F>(&mut units, &old)?;
                left = left_behind;
            }
            Ordering::Equal => {
                push_both::<F>(&mut units, &old, &new)?;
                left = left_behind;
                right = right_behind;
            }
            Ordering::Greater => {
                push_new::<F>(&mut units, &new)?;
                right = right_behind;
            }
        }
    }
    push_gone::<F>(&mut units, left)?;
    push_came::<F>(&mut units, right)?;
    Ok(units)
}
