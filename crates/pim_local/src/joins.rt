//! The joins of local receivers, in order.

ghost use Rattle.std.specs.Prelude.{◌≡◌, ◌||◌, [], filter, OnOk, OnErr};
ghost use Rattle.pim_local.specs.Joins.{Join, star, source_join, same_join, is_listed, of_group};
ghost use Rattle.pim_local.specs.Joins.{with_join, join_faults, IsRefusedBy, AreJoins};
ghost use Rattle.pim_local.specs.Seen.{join_seen, joins_seen};

use crate::fault::LocalFault;
use crate::join::{LocalJoin, is_valid};
use crate::places::{find_place, part_of};
use pim_addr::Family;
use std::alloc::Global;
use std::marker::Model;

/// The greatest number of joins.
const JOIN_LIMIT: usize = 4096;

/// What receivers on the router's own links have joined. The joins are in the order of their
/// groups; the star of a group is before its sources.
#[derive(Drop)]
pub struct LocalJoins<F: Family> {
    joins: Vec<LocalJoin<F::Addr>>,
}

impl<F: Family> Model for LocalJoins<F> {
    ghost use Rattle.std.specs.Prelude.{List};
    ghost use Rattle.pim_local.specs.Joins.{Join, AreJoins};
    ghost use Rattle.pim_local.specs.Seen.{joins_seen};

    ghost Value = { List Join };

    ghost view = { λ local. joins_seen F.bytes_of local.joins.items };

    ghost invariant = { λ local. AreJoins F.family (joins_seen F.bytes_of local.joins.items) };
}

impl<F: Family> LocalJoins<F> {
    /// Returns a list without joins. It takes no memory.
    pub fn new(alloc: Global) -> Self
        ensures { result ≡ [] }
    {
        LocalJoins {
            joins: Vec::new(alloc),
        }
    }

    /// A law: there are at most 4,096 joins, in order, none twice, and each is valid. It has no
    /// effect.
    pub fn is_sound(&self)
        ensures { AreJoins F.family self.now }
    {
        let _joins = &self.joins;
    }

    /// Adds a join at its place. One that the list has already isn't added again.
    ///
    /// # Errors
    /// The first of these causes, after which the list is unchanged:
    /// - `Kind`: the group isn't a multicast group, or the source isn't a valid source.
    /// - `Full`: the list has 4,096 other joins.
    /// - `Memory`: memory ran out.
    pub fn add(&mut self, join: LocalJoin<F::Addr>) -> Result<(), LocalFault>
        ensures ok { OnOk result (self.new ≡ with_join (join_seen F.bytes_of join) self.old) }
        ensures listed { OnOk result ((other : Join) → is_listed other self.new
            ≡ (same_join other (join_seen F.bytes_of join) || is_listed other self.old)) }
        ensures err { OnErr result (self.new ≡ self.old) }
        ensures reported { IsRefusedBy
            (join_faults F.family (join_seen F.bytes_of join) self.old) result }
    {
        if !is_valid::<F>(&join) {
            return Err(LocalFault::Kind);
        }
        let Err(place) = find_place::<F>(&self.joins, &join) else {
            return Ok(());
        };
        if self.joins.len() >= JOIN_LIMIT {
            return Err(LocalFault::Full);
        }
        let Ok(()) = self.joins.insert(place, join) else {
            return Err(LocalFault::Memory);
        };
        Ok(())
    }

    /// Returns whether all sources of this group are joined.
    pub fn has_star(&self, group: F::Addr) -> bool
        ensures { result ≡ is_listed (star (F.bytes_of group)) self.now }
    {
        find_place::<F>(
            &self.joins,
            &LocalJoin {
                group,
                source: None,
            },
        )
        .is_ok()
    }

    /// Returns whether this source of the group is joined by itself.
    pub fn has_source(&self, source: F::Addr, group: F::Addr) -> bool
        ensures { result
            ≡ is_listed (source_join (F.bytes_of source) (F.bytes_of group)) self.now }
    {
        find_place::<F>(
            &self.joins,
            &LocalJoin {
                group,
                source: Some(source),
            },
        )
        .is_ok()
    }

    /// Returns the joins of this group, in order.
    pub fn joins_of(&self, group: F::Addr) -> &[LocalJoin<F::Addr>]
        ensures { joins_seen F.bytes_of result.now ≡ filter (of_group (F.bytes_of group)) self.now }
    {
        part_of::<F>(&self.joins, group)
    }

    /// Returns the joins, in order.
    pub fn joins(&self) -> &[LocalJoin<F::Addr>]
        ensures { joins_seen F.bytes_of result.now ≡ self.now }
    {
        &self.joins
    }
}
