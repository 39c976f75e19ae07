//! Lists of items with an address each, addresses ascending. A search goes by halves, since a list
//! of routers can be long.

ghost use Rattle.std.specs.Prelude.{◌≡◌, ◌<◌, ◌≤◌, length, IfOk, OnOk, OnErr, IfSome, is_some};
ghost use Rattle.std.specs.Prelude.{true};
ghost use Rattle.std.specs.Prelude.{vec_len, vec_capacity};
ghost use Rattle.std.specs.Option.{OnSome};
ghost use Rattle.pim_summary.specs.Lists.{is_below, is_same, Ascends, place_of, has, keeps};
ghost use Rattle.pim_summary.specs.Lists.{takes_new, listed, spare_of, IsSpare, settled};
ghost use Rattle.pim_summary.specs.Lists.{kept_place};

use pim_addr::{Family, V4, V6};
use pim_lines::AnyAddress;
use std::alloc::{AllocError, Global};

/// An item of such a list.
pub(crate) trait Listed: Drop {
    ghost use Rattle.pim_lines.specs.declared.either.AnyAddress.{AnyAddress};

    ghost key: { Self → AnyAddress };

    /// Its address.
    fn key(&self) -> AnyAddress
        ensures { result ≡ key self.now };
}

/// An item that takes memory.
pub(crate) trait Kept: Listed {
    ghost use Rattle.pim_lines.specs.declared.either.AnyAddress.{AnyAddress};

    ghost none: { AnyAddress → Self };

    /// The item with this address of which nothing was counted.
    fn none(alloc: Global, address: AnyAddress) -> Result<Self, AllocError>
        ensures { IfOk result (λ item. item ≡ none address) };

    ghost key_of_none: { (address : AnyAddress) → Self.key (Self.none address) ≡ address };
}

/// An item that counts, and takes no memory.
pub(crate) trait Counted: Listed + Copy {
    ghost use Rattle.pim_lines.specs.declared.either.AnyAddress.{AnyAddress};

    ghost zero: { AnyAddress → Self };

    ghost one_more: { Self → Self };

    /// The item with this address and the count 0.
    fn zero(address: AnyAddress) -> Self
        ensures { result ≡ zero address };

    /// The item with one more.
    fn one_more(self) -> Self
        ensures { result ≡ one_more self };

    ghost key_of_zero: { (address : AnyAddress) → Self.key (Self.zero address) ≡ address };

    ghost key_of_one_more: { (item : Self) → Self.key (Self.one_more item) ≡ Self.key item };
}

/// Whether an address comes before another one.
fn is_below(one: AnyAddress, other: AnyAddress) -> bool
    ensures { result ≡ is_below one other }
{
    match one {
        AnyAddress::V4(one) => match other {
            AnyAddress::V4(other) => V4::number(one) < V4::number(other),
            AnyAddress::V6(_) => true,
        },
        AnyAddress::V6(one) => match other {
            AnyAddress::V4(_) => false,
            AnyAddress::V6(other) => V6::number(one) < V6::number(other),
        },
    }
}

/// Whether two addresses are the same.
fn is_same(one: AnyAddress, other: AnyAddress) -> bool
    ensures { result ≡ is_same one other }
{
    match one {
        AnyAddress::V4(one) => match other {
            AnyAddress::V4(other) => one == other,
            AnyAddress::V6(_) => false,
        },
        AnyAddress::V6(one) => match other {
            AnyAddress::V4(_) => false,
            AnyAddress::V6(other) => one == other,
        },
    }
}

/// The number of items before the first one whose address isn't below this one.
fn place_of<T: Listed>(items: &[T], address: AnyAddress) -> usize
    requires { Ascends T.key items.now }
    ensures place { result ≡ place_of T.key address items.now }
    ensures within { result ≤ length items.now }
{
    let mut low = 0;
    let mut high = items.len();
    while low < high {
        let middle = low + (high - low) / 2;
        if is_below(items[middle].key(), address) {
            low = middle + 1;
        } else {
            high = middle;
        }
    }
    low
}

/// Where an address is in a list, or belongs.
#[derive(Clone, Copy)]
pub(crate) struct Place {
    /// The number of items before it.
    pub(crate) at: usize,
    /// The item there has the address.
    pub(crate) is_there: bool,
}

/// Finds an address.
pub(crate) fn find<T: Listed>(items: &[T], address: AnyAddress) -> Place
    requires { Ascends T.key items.now }
    ensures at { result.at ≡ place_of T.key address items.now }
    ensures there { result.is_there ≡ has T.key address items.now }
    ensures within { result.at ≤ length items.now }
    ensures item { result.is_there ≡ true → result.at < length items.now }
{
    let at = place_of(items, address);
    let is_there = at < items.len() && is_same(address, items[at].key());
    Place { at, is_there }
}

/// Whether a list of at most `most` items has an item with this address, or room for it.
pub(crate) fn keeps<T: Listed>(items: &[T], most: usize, address: AnyAddress) -> bool
    requires { Ascends T.key items.now }
    ensures { result ≡ keeps T.key address most items.now }
{
    find(items, address).is_there || items.len() < most
}

/// Whether it has none, but room for it.
fn takes_new<T: Listed>(items: &[T], most: usize, address: AnyAddress) -> bool
    requires { Ascends T.key items.now }
    ensures { result ≡ takes_new T.key address most items.now }
{
    !find(items, address).is_there && items.len() < most
}

/// Makes the new item with this address, and room for it, where a list of at most `most` items
/// takes one.
pub(crate) fn spare<T: Kept>(
    items: &mut Vec<T>,
    most: usize,
    address: AnyAddress,
) -> Result<Option<T>, AllocError>
    requires { Ascends T.key items.old.items }
    ensures same { items.new.items ≡ items.old.items }
    ensures spare { IfOk result
        (λ spare. spare ≡ spare_of T.key address most (T.none address) items.old.items) }
    ensures is_spare { IfOk result (λ spare. IsSpare T.key address most items.old.items spare) }
    ensures room { IfOk result
        (λ spare. is_some spare ≡ true → vec_len items.new < vec_capacity items.new) }
{
    if !takes_new(items, most, address) {
        return Ok(None);
    }
    items.reserve(1)?;
    let item = T::none(*items.allocator(), address)?;
    Ok(Some(item))
}

/// Puts the spare item into its place, if there is one. Returns the place of the item with this
/// address, if the list keeps it.
pub(crate) fn settle<T: Listed>(
    items: &mut Vec<T>,
    most: usize,
    address: AnyAddress,
    spare: Option<T>,
) -> Option<usize>
    requires order { Ascends T.key items.old.items }
    requires spare { IsSpare T.key address most items.old.items spare }
    requires room { is_some spare ≡ true → vec_len items.old < vec_capacity items.old }
    ensures items { items.new.items ≡ settled T.key address spare items.old.items }
    ensures order { Ascends T.key items.new.items }
    ensures place { result ≡ kept_place T.key address most items.old.items }
    ensures within { IfSome result (λ place. place < length items.new.items) }
    ensures capacity { vec_capacity items.new ≡ vec_capacity items.old }
{
    let place = find(items, address);
    let Some(item) = spare else {
        if place.is_there {
            return Some(place.at);
        }
        return None;
    };
    if items.insert(place.at, item).is_err() {
        unreachable!()
    }
    Some(place.at)
}

/// The new item with this address, where a list of at most `most` items takes one.
fn spare_zero<T: Counted>(items: &[T], most: usize, address: AnyAddress) -> Option<T>
    requires { Ascends T.key items.now }
    ensures spare { result ≡ spare_of T.key address most (T.zero address) items.now }
    ensures is_spare { IsSpare T.key address most items.now result }
    ensures room { is_some result ≡ true → length items.now < most }
{
    if !takes_new(items, most, address) {
        return None;
    }
    Some(T::zero(address))
}

/// Whether an item is in a list now, and whether it is new there.
#[derive(Clone, Copy)]
pub(crate) struct Added {
    pub(crate) is_kept: bool,
    pub(crate) is_new: bool,
}

/// Counts one more of the item with this address, in a list of at most 64 items with room for all.
pub(crate) fn add_one<T: Counted>(items: &mut Vec<T>, address: AnyAddress) -> Added
    requires order { Ascends T.key items.old.items }
    requires room { 64 ≤ vec_capacity items.old }
    ensures items { items.new.items
        ≡ listed T.key address 64 (T.zero address) T.one_more items.old.items }
    ensures order { Ascends T.key items.new.items }
    ensures room { 64 ≤ vec_capacity items.new }
    ensures kept { result.is_kept ≡ keeps T.key address 64 items.old.items }
    ensures is_new { result.is_new ≡ takes_new T.key address 64 items.old.items }
{
    let spare = spare_zero(items, 64, address);
    let is_new = spare.is_some();
    let Some(place) = settle(items, 64, address, spare) else {
        return Added {
            is_kept: false,
            is_new: false,
        };
    };
    items[place] = items[place].one_more();
    Added {
        is_kept: true,
        is_new,
    }
}

/// Makes room for 64 items.
pub(crate) fn make_room<T>(items: &mut Vec<T>) -> Result<(), AllocError>
    ensures same { items.new.items ≡ items.old.items }
    ensures room { OnOk result (64 ≤ vec_capacity items.new) }
{
    let len = items.len();
    items.reserve(64usize.saturating_sub(len))?;
    Ok(())
}
