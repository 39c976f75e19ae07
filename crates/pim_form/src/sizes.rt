//! The length of messages.

ghost use Rattle.std.specs.Prelude.{◌≡◌, ◌≤◌, ◌+◌, ◌*◌, option_map};
ghost use Rattle.pim_form.specs.Units.{empty_message_size, empty_set_size, entry_size};
ghost use Rattle.pim_form.specs.TooBig.{star_fits, too_big};

use crate::form::NormalForm;
use crate::groups::GroupView;
use pim_addr::{Family, group_length, source_length, unicast_length};

/// The most groups of a message, whose field has 8 bits (RFC 7761, 4.9.5).
pub const MOST_GROUPS: usize = 255;

/// Returns the number of bytes of a message with this number of groups and entries.
pub fn message_size<F: Family>(groups: usize, entries: usize) -> usize
    requires groups { groups ≤ 255 }
    requires entries { entries ≤ 200000 }
    ensures { result ≡ empty_message_size F.family + groups * empty_set_size F.family
        + entries * entry_size F.family }
{
    let head = unicast_length::<F>() + 8;
    let set = group_length::<F>() + 4;
    head + groups * set + entries * source_length::<F>()
}

/// Returns whether a group's star with all its exceptions fits a message of this budget alone. A
/// group without a star fits.
pub fn star_fits<F: Family>(group: &GroupView<'_, F>, budget: usize) -> bool
    ensures { result ≡ star_fits F.family budget group.now.group group.now.star }
{
    group.is_normal();
    !group.star() || message_size::<F>(1, 1 + group.exceptions().len()) <= budget
}

/// The least group whose star doesn't fit a message of this budget alone, or `None`.
pub(crate) fn too_big<F: Family>(normal: &NormalForm<F>, budget: usize) -> Option<F::Addr>
    ensures { option_map F.bytes_of result ≡ too_big F.family budget normal.now }
{
    for group in normal.groups() {
        if !star_fits(&group, budget) {
            return Some(group.group());
        }
    }
    None
}
