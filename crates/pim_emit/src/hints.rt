//! Where look-ups on each port begin. No clause speaks of these places: one that is out of date
//! costs time and changes no result.

use pim_down::Near;
use std::cell::Cell;

/// The greatest number of ports of a router. No hint is kept of a port beyond.
pub(crate) const PORTS: usize = 64;

/// The place on each port where the last look-up ended. The walk follows the order of the records,
/// so the next look-up mostly ends there or just after.
#[derive(Drop)]
pub(crate) struct Hints {
    places: [Cell<Near>; PORTS],
}

impl Hints {
    /// No hints.
    pub(crate) fn new() -> Self {
        Hints {
            places: std::array::from_fn(|_| Cell::new(Near::UNKNOWN)),
        }
    }

    /// The place that is kept of the port.
    pub(crate) fn near(&self, port: usize) -> Near {
        match self.places.get(port) {
            Some(place) => place.get(),
            None => Near::UNKNOWN,
        }
    }

    /// Keeps a place of the port.
    pub(crate) fn keep(&self, port: usize, place: Near) {
        if let Some(cell) = self.places.get(port) {
            cell.set(place);
        }
    }
}
