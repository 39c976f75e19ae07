//! Whether the new stars of a change fit one message.

ghost use Rattle.std.specs.Prelude.{◌≡◌, [], option_map};
ghost use Rattle.pim_form.specs.NormalForm.{AreAscending, groups_of};
ghost use Rattle.pim_change.specs.Change.{change};
ghost use Rattle.pim_change.specs.TooBig.{too_big, star_change_fits};

use pim_addr::Family;
use pim_form::{GroupView, Groups, NormalForm, star_fits};
use std::cmp::Ordering;

/// Whether a group had a star before, or its new star, if it has one, fits a message alone.
fn star_change_fits<F: Family>(
    old: &GroupView<'_, F>,
    new: &GroupView<'_, F>,
    budget: usize,
) -> bool
    ensures { result ≡ star_change_fits F.family budget old.now new.now }
{
    old.star() || star_fits::<F>(new, budget)
}

/// The first of these groups, none of which was sent, whose star doesn't fit a message alone.
fn too_big_of_new<F: Family>(groups: Groups<'_, F>, budget: usize) -> Option<F::Addr>
    requires { AreAscending (groups_of groups) }
    ensures { option_map F.bytes_of result ≡ too_big F.family budget (change [] groups.entry) }
{
    for new in groups {
        if !star_fits::<F>(&new, budget) {
            return Some(new.group());
        }
    }
    None
}

/// Returns the least group with a new star that, with all its exceptions, doesn't fit a message of
/// this budget alone; `None` if there is none. It allocates nothing.
pub fn too_big<F: Family>(
    reported: &NormalForm<F>,
    wanted: &NormalForm<F>,
    budget: usize,
) -> Option<F::Addr>
    ensures { option_map F.bytes_of result
        ≡ too_big F.family budget (change reported.now wanted.now) }
{
    reported.is_normal();
    wanted.is_normal();
    let mut left = reported.groups();
    let mut right = wanted.groups();
    while let Some((old, left_behind)) = left.split_first() {
        let Some((new, right_behind)) = right.split_first() else {
            return None;
        };
        match old.group().cmp(&new.group()) {
            Ordering::Less => left = left_behind,
            Ordering::Equal => {
                if !star_change_fits::<F>(&old, &new, budget) {
                    return Some(new.group());
                }
                left = left_behind;
                right = right_behind;
            }
            Ordering::Greater => {
                if !star_fits::<F>(&new, budget) {
                    return Some(new.group());
                }
                right = right_behind;
            }
        }
    }
    too_big_of_new::<F>(right, budget)
}
