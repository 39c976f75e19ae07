//! Binary searches: for an address in an ascending list, and for a group among places.

ghost use Rattle.std.specs.Prelude.{◌≡◌, map};
ghost use Rattle.pim_form.specs.NormalForm.{AreAscending, is_listed};
ghost use Rattle.pim_form.specs.Rows.{place_group, Finds};

use crate::place::GroupPlace;
use pim_addr::Family;

/// Whether the address is in this strictly ascending list.
pub(crate) fn is_listed<F: Family>(sorted: &[F::Addr], address: F::Addr) -> bool
    requires { AreAscending (map F.bytes_of sorted.now) }
    ensures { result ≡ is_listed (F.bytes_of address) (map F.bytes_of sorted.now) }
{
    match sorted.binary_search(&address) {
        Ok(_) => true,
        Err(_) => false,
    }
}

/// The index of a group among these places, whose groups are strictly ascending.
pub(crate) fn find_group<F: Family>(places: &[GroupPlace<F::Addr>], group: F::Addr) -> Option<usize>
    requires { AreAscending (map (place_group F.bytes_of) places.now) }
    ensures { Finds F.bytes_of (F.bytes_of group) places.now result }
{
    match places.binary_search_by_key(&group, |place| place.group) {
        Ok(index) => Some(index),
        Err(_) => None,
    }
}
