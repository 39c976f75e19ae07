//! Tables of routes: rows in every order, walks, and growths that are refused.

use pim_addr::{Family, Route, RouteFault, Routes, V4, read_text};
use std::alloc::Global;

/// A row as a text would tell it: for an RP or a neighbour, its prefix and length, and where it
/// leads.
type Told<'a> = (bool, &'a str, u8, &'a str);

/// The address that this text names; the address of zeros where it names none.
fn named<F: Family>(text: &str) -> F::Addr {
    match read_text::<F>(text) {
        Some(address) => address,
        None => F::take(&[0; 16]),
    }
}

/// Adds a row.
fn add<F: Family>(routes: &mut Routes<F>, row: Told<'_>) -> Result<(), RouteFault> {
    let (is_rp, prefix, length, to) = row;
    let prefix = named::<F>(prefix);
    let to = named::<F>(to);
    if is_rp {
        routes.add_rp(prefix, length, to)
    } else {
        routes.add_via(prefix, length, to)
    }
}

/// Whether an address has this RP, or this upstream neighbour.
fn leads<F: Family>(routes: &Routes<F>, to_rp: bool, address: &str, to: Option<&str>) -> bool {
    let address = named::<F>(address);
    let found = if to_rp {
        routes.rp_of(address)
    } else {
        routes.via(address)
    };
    match (found, to) {
        (Some(found), Some(to)) => found == named::<F>(to),
        (None, None) => true,
        _ => false,
    }
}

const SIX: [Told<'static>; 6] = [
    (true, "239.1.0.0", 16, "10.9.9.9"),
    (true, "239.1.1.0", 24, "10.8.8.8"),
    (false, "0.0.0.0", 0, "10.0.0.2"),
    (false, "10.8.0.0", 16, "10.0.0.6"),
    (false, "192.0.2.0", 24, "10.0.0.6"),
    (false, "192.0.2.2", 32, "10.0.0.2"),
];

/// Where the six rows lead.
fn leads_as_six(routes: &Routes<V4>) -> bool {
    leads(routes, true, "239.1.1.1", Some("10.8.8.8"))
        && leads(routes, true, "239.1.2.1", Some("10.9.9.9"))
        && leads(routes, true, "239.2.0.1", None)
        && leads(routes, false, "10.8.8.8", Some("10.0.0.6"))
        && leads(routes, false, "192.0.2.1", Some("10.0.0.6"))
        && leads(routes, false, "192.0.2.2", Some("10.0.0.2"))
        && leads(routes, false, "198.51.100.1", Some("10.0.0.2"))
}

/// Takes the place out of those that are left in front of which so many are left.
fn take_place(left: &mut [bool; 6], skipped: usize) -> usize {
    let mut others = skipped;
    for place in 0..6 {
        if left[place] && others == 0 {
            left[place] = false;
            return place;
        }
        others = others.saturating_sub(usize::from(left[place]));
    }
    0
}

/// Adds the six rows in the order of this number of 720: whether each was taken.
fn add_six(routes: &mut Routes<V4>, order: usize) -> bool {
    let mut left = [true; 6];
    let mut number = order;
    for choices in [6, 5, 4, 3, 2, 1usize] {
        let place = take_place(&mut left, number % choices);
        number /= choices;
        if place >= 6 || add(routes, SIX[place]).is_err() {
            return false;
        }
    }
    true
}

/// A table of the six rows, added in that order.
fn six_in_order(alloc: Global, order: usize) -> Option<Routes<V4>> {
    let mut routes: Routes<V4> = Routes::new(alloc);
    let added = add_six(&mut routes, order);
    added.then_some(routes)
}

/// Whether a table of the six rows in this order is this one, and leads where they lead.
fn is_as(alloc: Global, first: &Routes<V4>, order: usize) -> bool {
    match six_in_order(alloc, order) {
        Some(routes) => routes.equals(first) && leads_as_six(&routes),
        None => false,
    }
}

/// The first order in which the table is another one than this.
fn other_order(alloc: Global, first: &Routes<V4>) -> Option<usize> {
    for order in 0..720 {
        if !is_as(alloc, first, order) {
            return Some(order);
        }
    }
    None
}

/// The first order in which the table is another one than in the first order.
fn wrong_order(alloc: Global) -> Option<usize> {
    match six_in_order(alloc, 0) {
        Some(first) => other_order(alloc, &first),
        None => Some(0),
    }
}

#[test]
fn six_rows_in_every_order(rt: HostRuntime) {
    assert_eq!(rt; wrong_order(rt.alloc()), None);
}

/// A row as a walk gives it.
fn row(prefix: [u8; 4], length: u8, to: [u8; 4]) -> Option<Route<[u8; 4]>> {
    Some(Route { prefix, length, to })
}

/// Whether a table's rows are walked so.
fn are_walked(
    routes: &Routes<V4>,
    rps: &[Option<Route<[u8; 4]>>],
    vias: &[Option<Route<[u8; 4]>>],
) -> bool {
    let (mut rp, mut via) = (routes.rps(), routes.vias());
    rps.iter().all(|want| rp.next() == *want) && vias.iter().all(|want| via.next() == *want)
}

#[test]
fn rows_are_walked(rt: HostRuntime) {
    let rps = [
        row([239, 1, 1, 0], 24, [10, 8, 8, 8]),
        row([239, 1, 0, 0], 16, [10, 9, 9, 9]),
        None,
    ];
    let vias = [
        row([192, 0, 2, 2], 32, [10, 0, 0, 2]),
        row([192, 0, 2, 0], 24, [10, 0, 0, 6]),
        row([10, 8, 0, 0], 16, [10, 0, 0, 6]),
        row([0, 0, 0, 0], 0, [10, 0, 0, 2]),
        None,
    ];
    match six_in_order(rt.alloc(), 0) {
        Some(routes) => assert!(rt; are_walked(&routes, &rps, &vias)),
        None => assert!(rt; false),
    }
}

/// Whether so many neighbours' rows, and none of an RP, are in the table, and an address leads so.
fn has_rows(routes: &Routes<V4>, count: usize, address: [u8; 4], to: Option<[u8; 4]>) -> bool {
    routes.vias().count() == count && routes.rps().count() == 0 && routes.via(address) == to
}

/// Whether a row is added behind so many, at once or, where a growth is refused, with nothing
/// changed and then again.
fn is_added(routes: &mut Routes<V4>, number: u8) -> bool {
    let count = usize::from(number);
    let (prefix, length, to) = ([10, number, 0, 0], 16 + number % 5, [10, 0, 0, 1]);
    let address = [10, number, 0, 1];
    let added = match routes.add_via(prefix, length, to) {
        Ok(()) => true,
        Err(fault) => {
            fault == RouteFault::Memory
                && has_rows(routes, count, address, None)
                && routes.add_via(prefix, length, to).is_ok()
        }
    };
    added && has_rows(routes, count + 1, address, Some(to))
}

// With each allocation refused in turn (`tools/each_growth_refused.sh`): the table is as it was,
// and the same row, with memory, is added.
#[test]
fn refusals_change_nothing(rt: HostRuntime) {
    let mut routes: Routes<V4> = Routes::new(rt.alloc());
    for number in 0..40u8 {
        assert!(rt; is_added(&mut routes, number));
    }
}
