//! A walk over the rows of a map.

ghost use Rattle.std.specs.Prelude.{◌≡◌};
ghost use Rattle.std.specs.Iterator.{YieldsFirstBy, item_count};
ghost use Rattle.pim_addr.specs.RouteRows.{row_seen, rows_seen};

use crate::family::Family;
use crate::route::Route;
use std::marker::{Model, PhantomData};

/// The rows of a map in order: longer prefixes first, prefixes of one length by their bytes.
/// Contracts see the rows that remain.
#[derive(Drop)]
pub struct RouteRows<'a, F: Family> {
    left: &'a [Route<F::Addr>],
    family: PhantomData<F>,
}

impl<'a, F: Family> Model for RouteRows<'a, F> {
    ghost use Rattle.std.specs.Prelude.{List};
    ghost use Rattle.pim_addr.specs.Routes.{Row};
    ghost use Rattle.pim_addr.specs.RouteRows.{rows_seen};

    ghost Value = { List Row };

    ghost view = { λ walk. rows_seen F.bytes_of walk.left.now };
}

impl<'a, F: Family> RouteRows<'a, F> {
    /// Returns a walk over these rows.
    pub(crate) fn new(left: &'a [Route<F::Addr>]) -> Self
        ensures { result ≡ rows_seen F.bytes_of left.now }
    {
        RouteRows {
            left,
            family: PhantomData,
        }
    }
}

impl<'a, F: Family> Iterator for RouteRows<'a, F> {
    type Item = Route<F::Addr>;

    ghost next_gives = { YieldsFirstBy (row_seen F.bytes_of) (λ rows. rows) };

    ghost remaining = { item_count (λ rows. rows) };

    fn next(&mut self) -> Option<Route<F::Addr>> {
        let (first, others) = self.left.split_first()?;
        self.left = others;
        Some(*first)
    }
}
