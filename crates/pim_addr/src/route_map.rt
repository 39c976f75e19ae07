//! One map of a route table, from prefixes to addresses.
//!
//! All addresses are cut into ranges, at most two for each row, and each range has the longest row
//! that matches its addresses. So a lookup is one search and does not depend on the number of
//! lengths, which in IPv6 can be 129. Adding a row costs more: it moves all later rows and ranges,
//! and updates the ranges of its prefix.

ghost use Rattle.std.specs.Prelude.{◌≡◌, ◌↔◌, [], option_map, IsTrue, OnOk, OnErr};
ghost use Rattle.pim_addr.specs.Routes.{led_to, with_row, room_faults, IsRefusedBy, IsRealRow};
ghost use Rattle.pim_addr.specs.Routes.{IsRouteMap};
ghost use Rattle.pim_addr.specs.RouteRows.{row_seen};

use crate::family::Family;
use crate::ranges::answer_at;
use crate::route::Route;
use crate::route_fault::RouteFault;
use crate::route_rows::RouteRows;
use crate::rows::{are_same, find_place, insert_row, reserve};
use std::alloc::Global;
use std::marker::Model;

/// The greatest number of rows of a map.
const ROW_LIMIT: usize = 4096;

/// The rows in order, longer prefixes first. `ends` has the number of the last address of each
/// range, and `answers` the longest row that matches its addresses. No row matches addresses after
/// the last range.
#[derive(Drop)]
pub(crate) struct RouteMap<F: Family> {
    rows: Vec<Route<F::Addr>>,
    ends: Vec<F::Number>,
    answers: Vec<Option<Route<F::Addr>>>,
}

impl<F: Family> Model for RouteMap<F> {
    ghost use Rattle.std.specs.Prelude.{List, map};
    ghost use Rattle.pim_addr.specs.Routes.{Row};
    ghost use Rattle.pim_addr.specs.RouteRows.{rows_seen, answers_seen, Stand};

    ghost Value = { List Row };

    ghost view = { λ m. rows_seen F.bytes_of m.rows.items };

    ghost invariant = { λ m.
        Stand F.family (rows_seen F.bytes_of m.rows.items)
        (map F.value_of m.ends.items) (answers_seen F.bytes_of m.answers.items) };
}

impl<F: Family> RouteMap<F> {
    /// Returns a map without rows.
    pub(crate) fn new(alloc: Global) -> Self
        ensures { result ≡ [] }
    {
        RouteMap {
            rows: Vec::new(alloc),
            ends: Vec::new(alloc),
            answers: Vec::new(alloc),
        }
    }

    /// A law: at most 4,096 rows, in order, each valid. It has no effect.
    pub(crate) fn is_sound(&self)
        ensures { IsRouteMap F.family self.now }
    {
        let _rows = &self.rows;
    }

    /// Returns the address that the longest matching row leads to.
    #[tactic(auto, unfolding(crate::specs::Routes::led_to))]
    pub(crate) fn led_to(&self, address: F::Addr) -> Option<F::Addr>
        ensures { option_map F.bytes_of result ≡ led_to F.family (F.bytes_of address) self.now }
    {
        F::address_has_its_bytes(address);
        let row = answer_at::<F>(&self.ends, &self.answers, F::number(address))?;
        Some(row.to)
    }

    /// Adds a row. Errors, in this order: `Twice` where its prefix is there, `Full` at 4,096 rows,
    /// `Memory`. The map is then unchanged.
    pub(crate) fn add(&mut self, row: Route<F::Addr>) -> Result<(), RouteFault>
        requires { IsRealRow F.family (row_seen F.bytes_of row) }
        ensures ok { OnOk result (self.new ≡
            with_row (row_seen F.bytes_of row).0 (row_seen F.bytes_of row).1 self.old) }
        ensures err { OnErr result (self.new ≡ self.old) }
        ensures reported { IsRefusedBy (room_faults (row_seen F.bytes_of row).0 self.old) result }
    {
        let Err(place) = find_place::<F>(&self.rows, &row) else {
            return Err(RouteFault::Twice);
        };
        if self.rows.len() >= ROW_LIMIT {
            return Err(RouteFault::Full);
        }
        reserve(&mut self.rows, 1)?;
        reserve(&mut self.ends, 2)?;
        reserve(&mut self.answers, 2)?;
        insert_row::<F>(
            &mut self.rows,
            &mut self.ends,
            &mut self.answers,
            place,
            row,
        );
        Ok(())
    }

    /// Returns whether the two maps are equal.
    pub(crate) fn equals(&self, other: &RouteMap<F>) -> bool
        ensures { IsTrue result ↔ (self.now ≡ other.now) }
    {
        are_same::<F>(&self.rows, &other.rows)
    }

    /// Returns the rows in order.
    pub(crate) fn rows(&self) -> RouteRows<'_, F>
        ensures { result ≡ self.now }
    {
        RouteRows::new(&self.rows)
    }
}
