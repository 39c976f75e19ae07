//! Bodies of messages, and tables, as the examples name them.

use super::{ALONE, Lead, Set};
use pim_addr::{Routes, V4};
use pim_down::{HearFault, Ports, Timing};
use pim_jp::{Entry, JpView};
use std::alloc::{AllocError, Global};

fn small(number: usize) -> u8 {
    u8::try_from(number).unwrap_or(0)
}

/// An entry as it is spelled.
pub(super) fn entry_bytes(entry: Entry<[u8; 4]>) -> [u8; 8] {
    let (flags, address) = match entry {
        Entry::Star(rp) => (7, rp),
        Entry::Source(source) => (4, source),
        Entry::Rpt(source) => (5, source),
    };
    let [a, b, c, d] = address;
    [1, 0, flags, 32, a, b, c, d]
}

/// The body of a message to 10.0.0.2 with these sets.
pub(super) fn body(alloc: Global, holdtime: u16, sets: &[Set]) -> Result<Vec<u8>, AllocError> {
    let [high, low] = holdtime.to_be_bytes();
    let mut bytes = vec![in alloc; 1, 0, 10, 0, 0, 2, 0, small(sets.len()), high, low]?;
    for &(group, joined, pruned) in sets {
        let [a, b, c, d] = group;
        bytes.extend_from_slice(&[1, 0, 0, 32, a, b, c, d])?;
        bytes.extend_from_slice(&[0, small(joined.len()), 0, small(pruned.len())])?;
        for &entry in joined {
            bytes.extend_from_slice(&entry_bytes(entry))?;
        }
        for &entry in pruned {
            bytes.extend_from_slice(&entry_bytes(entry))?;
        }
    }
    Ok(bytes)
}

/// The table of these rows; `None` where one is refused.
pub(super) fn table(alloc: Global, leads: &[Lead]) -> Option<Routes<V4>> {
    let mut routes: Routes<V4> = Routes::new(alloc);
    for &(prefix, length, rp) in leads {
        if routes.add_rp(prefix, length, rp).is_err() {
            return None;
        }
    }
    Some(routes)
}

/// Hears a body on a port. `None` where the body is no message or the port isn't there.
pub(super) fn hear_body(
    ports: &mut Ports<V4>,
    routes: &Routes<V4>,
    port: usize,
    body: &[u8],
    timing: Timing,
) -> Option<Result<(), HearFault>> {
    let message = JpView::<V4>::read(body).ok()?;
    if port >= ports.port_count() || timing.override_ms > 98_302 {
        return None;
    }
    Some(ports.hear(port, &message, routes, timing))
}

/// Whether a body is taken on a port with one neighbour.
pub(super) fn is_heard(
    ports: &mut Ports<V4>,
    routes: &Routes<V4>,
    port: usize,
    body: &[u8],
) -> bool {
    match hear_body(ports, routes, port, body, ALONE) {
        Some(heard) => heard.is_ok(),
        None => false,
    }
}
