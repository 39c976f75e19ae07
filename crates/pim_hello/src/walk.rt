//! An iterator over the neighbours of a port.

ghost use Rattle.std.specs.Prelude.{◌≡◌, ℕ, List, map};
ghost use Rattle.std.specs.Iterator.{YieldsFirstBy, item_count};
ghost use Rattle.pim_hello.specs.Kept.{entry_seen};
ghost use Rattle.pim_hello.specs.Walk.{neighbour_seen};

use crate::parameters::{Kept, Parameters};
use pim_addr::Family;
use std::collections::btree_map::Iter;
use std::marker::Model;

/// A neighbour, as the iterator gives it.
#[derive(Clone, Copy, Debug, PartialEq, Eq)]
pub struct KnownNeighbour<A> {
    /// The source address of its Hellos.
    pub address: A,
    /// What its last accepted Hello said, without the Address List.
    pub parameters: Parameters,
    /// The time that is left, in milliseconds, or `None` if it never ends. It is 0 if the time has
    /// ended and the neighbour isn't removed yet.
    pub left: Option<u64>,
}

/// The neighbour with the time that is left at this moment.
pub(crate) fn neighbour_at<A>(address: A, kept: Kept, moment: u64) -> KnownNeighbour<A>
    ensures { (bytes_of : A → List ℕ) → neighbour_seen bytes_of result
        ≡ entry_seen bytes_of moment (address, kept) }
{
    KnownNeighbour {
        address,
        parameters: kept.parameters,
        left: match kept.end {
            Some(end) => Some(end.saturating_sub(moment)),
            None => None,
        },
    }
}

/// The neighbours of a port in ascending order of their addresses. Contracts see those that are
/// left.
#[derive(Drop)]
pub struct KnownNeighbours<'a, F: Family> {
    entries: Iter<'a, F::Addr, Kept>,
    moment: u64,
}

impl<'a, F: Family> Model for KnownNeighbours<'a, F> {
    ghost use Rattle.std.specs.Prelude.{ℕ, List, map};
    ghost use Rattle.pim_hello.specs.Neighbours.{Neighbour};

    ghost Value = { List (List ℕ × Neighbour) };

    ghost use Rattle.pim_hello.specs.Kept.{entry_seen};

    ghost view = { λ walk. map (entry_seen F.bytes_of walk.moment) walk.entries };
}

impl<'a, F: Family> KnownNeighbours<'a, F> {
    /// These neighbours, with the times that are left at this moment.
    pub(crate) fn new(entries: Iter<'a, F::Addr, Kept>, moment: u64) -> Self
        ensures { result ≡ map (entry_seen F.bytes_of moment) entries.entry }
    {
        KnownNeighbours { entries, moment }
    }
}

impl<'a, F: Family> Iterator for KnownNeighbours<'a, F> {
    type Item = KnownNeighbour<F::Addr>;

    ghost next_gives = { YieldsFirstBy (neighbour_seen F.bytes_of) (λ entries. entries) };

    ghost remaining = { item_count (λ entries. entries) };

    fn next(&mut self) -> Option<KnownNeighbour<F::Addr>> {
        let (address, kept) = self.entries.next()?;
        Some(neighbour_at(*address, *kept, self.moment))
    }
}
