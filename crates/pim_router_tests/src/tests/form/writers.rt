//! Which writers there are.

use pim_addr::{V4, V6};
use pim_form::{Writer, WriterFault};

const UPSTREAM: [u8; 4] = [10, 0, 0, 2];

const OWN: [u8; 4] = [10, 0, 0, 1];

/// The upstream neighbour, the writer's address, the holdtime and the budget, and their fault.
type Row = ([u8; 4], [u8; 4], u16, usize, Option<WriterFault>);

const ROWS: [Row; 13] = [
    (UPSTREAM, OWN, 210, 1480, None),
    (OWN, OWN, 210, 1480, Some(WriterFault::Address)),
    ([224, 0, 0, 2], OWN, 210, 1480, Some(WriterFault::Address)),
    (UPSTREAM, [0; 4], 210, 1480, Some(WriterFault::Address)),
    (OWN, OWN, 98, 69, Some(WriterFault::Address)),
    (UPSTREAM, OWN, 98, 1480, Some(WriterFault::Holdtime)),
    (UPSTREAM, OWN, 98, 69, Some(WriterFault::Holdtime)),
    (UPSTREAM, OWN, 99, 1480, None),
    (UPSTREAM, OWN, 65_535, 1480, None),
    (UPSTREAM, OWN, 210, 69, Some(WriterFault::Budget)),
    (UPSTREAM, OWN, 210, 70, None),
    (UPSTREAM, OWN, 210, 65_000, None),
    (UPSTREAM, OWN, 210, 65_001, Some(WriterFault::Budget)),
];

/// Whether a writer with these values has this fault, or none.
fn is_so(&(upstream, own, holdtime, budget, fault): &Row) -> bool {
    match Writer::<V4>::new(upstream, own, holdtime, budget) {
        Ok(_) => fault.is_none(),
        Err(reported) => fault == Some(reported),
    }
}

/// The first row that isn't so.
fn wrong(rows: &[Row]) -> Option<usize> {
    for index in 0..rows.len() {
        if !is_so(&rows[index]) {
            return Some(index);
        }
    }
    None
}

#[test]
fn refuses_by_the_first_cause(rt: HostRuntime) {
    assert_eq!(rt; wrong(&ROWS), None);
}

/// Whether a writer gives what it was made from.
fn gives_all() -> bool {
    match Writer::<V6>::new([32; 16], [33; 16], 210, 1460) {
        Ok(writer) => {
            writer.upstream() == [32; 16]
                && writer.own() == [33; 16]
                && writer.holdtime() == 210
                && writer.budget() == 1460
        }
        Err(_) => false,
    }
}

#[test]
fn tells_what_it_was_made_from(rt: HostRuntime) {
    assert!(rt; gives_all());
}
