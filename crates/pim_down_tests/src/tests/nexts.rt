//! What comes next on a port.

use super::{
    Example, FIRST, GROUP, JOIN_FIRST, JOIN_SECOND, JOIN_STAR, RPT_FIRST, Row, SECOND, goes,
};
use pim_addr::{V4, V6};
use pim_down::{Near, Ports, Record, State, What, compare_addresses};
use std::alloc::Global;
use std::cmp::Ordering;

pub(super) const EXAMPLES: [Example; 2] = [
    Example {
        name: "goes from group to group",
        ports: 3,
        limit: 100,
        rows: &[
            Row::Hear(0, &[(GROUP, &[JOIN_STAR], &[])]),
            Row::Hear(2, &[(GROUP, &[JOIN_FIRST], &[])]),
            Row::GroupAfter(0, None, Some(GROUP)),
            Row::GroupAfter(1, None, None),
            Row::GroupAfter(2, None, Some(GROUP)),
            Row::GroupAfter(0, Some([239, 1, 1, 0]), Some(GROUP)),
            Row::GroupAfter(0, Some(GROUP), None),
            Row::GroupAfter(3, None, None),
        ],
    },
    Example {
        name: "goes from machine to machine",
        ports: 2,
        limit: 100,
        rows: &[
            Row::Hear(
                0,
                &[(GROUP, &[JOIN_STAR, JOIN_FIRST, JOIN_SECOND], &[RPT_FIRST])],
            ),
            Row::Hear(1, &[(GROUP, &[JOIN_STAR], &[])]),
            Row::MachineAfter(GROUP, What::Star, Some(What::Source(FIRST))),
            Row::MachineAfter(GROUP, What::Source(FIRST), Some(What::Source(SECOND))),
            Row::MachineAfter(GROUP, What::Source([192, 0, 2, 3]), Some(What::Rpt(FIRST))),
            Row::MachineAfter(GROUP, What::Rpt([0, 0, 0, 1]), Some(What::Rpt(FIRST))),
            Row::MachineAfter(GROUP, What::Rpt(FIRST), None),
            Row::MachineAfter([239, 1, 1, 0], What::Star, None),
        ],
    },
];

const LOWER: [u8; 4] = [239, 1, 1, 0];

const HIGHER: [u8; 4] = [239, 1, 1, 2];

const JOINED: Option<State> = Some(State::Join);

/// What is told of a port, a group and a machine: the group's next machine, the next group, and the
/// machine's state.
type Told = (Option<What<[u8; 4]>>, Option<[u8; 4]>, Option<State>);

/// What is told of all machines that the tests below let be heard of.
const OF_ALL: [Told; 5] = [
    (Some(What::Source(FIRST)), Some(HIGHER), JOINED),
    (None, Some(GROUP), None),
    (Some(What::Source(SECOND)), Some(HIGHER), JOINED),
    (None, None, None),
    (None, None, None),
];

/// What is told of the first source alone.
const OF_FEW: [Told; 5] = [
    (Some(What::Source(FIRST)), None, None),
    (None, Some(GROUP), None),
    (None, None, JOINED),
    (None, None, None),
    (None, None, None),
];

/// Whether no group and no machine comes next on the first port.
fn is_at_its_end(ports: &Ports<V6>) -> bool {
    let mut left = ports.machines_after_near(0, [0xff; 16], What::Star, Near::UNKNOWN);
    ports.rpt_count_on(0) == 0
        && ports.group_after(0, None).is_none()
        && ports.record_after(0, [0xff; 16], What::Star).is_none()
        && left.next_machine().is_none()
}

/// The machine of a record, if there is one.
pub(super) fn what_of(record: Option<Record<[u8; 4]>>) -> Option<What<[u8; 4]>> {
    match record {
        Some(record) => Some(record.key.what),
        None => None,
    }
}

/// Whether the three look-ups near this place tell this.
fn is_told_near(
    ports: &Ports<V4>,
    (port, group, what): (usize, [u8; 4], What<[u8; 4]>),
    near: Near,
    reported: Told,
) -> bool {
    let (next, _place) = ports.record_after_near(port, group, what, near);
    let (above, _place) = ports.group_after_near(port, Some(group), near);
    let (state, _place) = ports.state_of_near(port, group, what, near);
    what_of(next) == reported.0 && above == reported.1 && state == reported.2
}

/// Whether look-ups near this place tell this: before, at and after records, and on no port.
fn are_told_near(ports: &Ports<V4>, near: Near, reported: [Told; 5]) -> bool {
    is_told_near(ports, (0, GROUP, What::Star), near, reported[0])
        && is_told_near(ports, (0, LOWER, What::Rpt(SECOND)), near, reported[1])
        && is_told_near(ports, (0, GROUP, What::Source(FIRST)), near, reported[2])
        && is_told_near(ports, (1, GROUP, What::Rpt(FIRST)), near, reported[3])
        && is_told_near(ports, (2, GROUP, What::Star), near, reported[4])
}

/// The place behind the first source's record on the first port.
fn place_in(ports: &Ports<V4>) -> Near {
    let (_next, place) = ports.record_after_near(0, GROUP, What::Source(FIRST), Near::UNKNOWN);
    place
}

#[test]
fn nothing_comes_next_where_nothing_is_held(rt: HostRuntime) {
    let ports: Ports<V6> = Ports::new(rt.alloc(), 1, 1);
    assert!(rt; is_at_its_end(&ports));
}

#[test]
fn addresses_are_compared_byte_by_byte(rt: HostRuntime) {
    let below = compare_addresses::<V4>([9, 255, 255, 255], [10, 0, 0, 0]);
    assert_eq!(rt; below, Ordering::Less);
    let above = compare_addresses::<V4>([10, 0, 1, 0], [10, 0, 0, 255]);
    assert_eq!(rt; above, Ordering::Greater);
    let equal = compare_addresses::<V6>([0xfe; 16], [0xfe; 16]);
    assert_eq!(rt; equal, Ordering::Equal);
    let higher = compare_addresses::<V6>([0xff; 16], [0x7f; 16]);
    assert_eq!(rt; higher, Ordering::Greater);
}

const MANY: Row = Row::Hear(
    0,
    &[(GROUP, &[JOIN_STAR, JOIN_FIRST, JOIN_SECOND], &[RPT_FIRST])],
);

/// The machines of the group behind its star then, in key order.
const TOLD: [What<[u8; 4]>; 3] = [What::Source(FIRST), What::Source(SECOND), What::Rpt(FIRST)];

/// Whether these machines are told one after another, wherever they are looked for, and then no
/// more.
fn are_told(ports: &Ports<V4>, near: Near) -> bool {
    let mut left = ports.machines_after_near(0, GROUP, What::Star, near);
    for what in &TOLD {
        let Some(reported) = left.next_machine() else {
            return false;
        };
        if reported.key.what != *what || !are_told_near(ports, left.near(), OF_ALL) {
            return false;
        }
    }
    left.next_machine().is_none() && left.next_machine().is_none()
}

const ANOTHER_GROUP: Row = Row::Hear(0, &[(HIGHER, &[JOIN_STAR], &[])]);

const ANOTHER_PORT: Row = Row::Hear(1, &[(GROUP, &[JOIN_SECOND], &[])]);

/// Whether the machines, and those of another group and another port, are heard of.
fn all_are_heard(alloc: Global, ports: &mut Ports<V4>) -> bool {
    goes(alloc, ports, MANY)
        && goes(alloc, ports, ANOTHER_GROUP)
        && goes(alloc, ports, ANOTHER_PORT)
}

/// Whether they are told from a place among them, and from none.
fn heard_are_told(alloc: Global, ports: &mut Ports<V4>) -> bool {
    all_are_heard(alloc, ports)
        && are_told(ports, Near::UNKNOWN)
        && are_told(ports, place_in(ports))
}

/// The same of new ports.
fn are_told_from_each(alloc: Global) -> bool {
    let mut ports: Ports<V4> = Ports::new(alloc, 2, 100);
    heard_are_told(alloc, &mut ports)
}

#[test]
fn machines_of_a_group_are_told_one_after_another(rt: HostRuntime) {
    assert!(rt; are_told_from_each(rt.alloc()));
}

const FEW: Row = Row::Hear(0, &[(GROUP, &[JOIN_FIRST], &[])]);

/// Whether look-ups in both states go right from this place.
fn both_are_told_near(all: &Ports<V4>, few: &Ports<V4>, near: Near) -> bool {
    are_told_near(few, near, OF_FEW) && are_told_near(all, near, OF_ALL)
}

/// The same from a place of each, and from this one.
fn both_are_told(all: &Ports<V4>, few: &Ports<V4>, before: Near) -> bool {
    both_are_told_near(all, few, before)
        && both_are_told_near(all, few, place_in(all))
        && both_are_told_near(all, few, place_in(few))
        && both_are_told_near(all, few, Near::UNKNOWN)
}

/// Whether look-ups in each of two states go right from a place of the other, and of its own.
fn hints_go_right(alloc: Global, all: &mut Ports<V4>, few: &mut Ports<V4>) -> bool {
    let before = place_in(few);
    all_are_heard(alloc, all) && goes(alloc, few, FEW) && both_are_told(all, few, before)
}

/// The same of two new states.
fn hints_are_exchanged(alloc: Global) -> bool {
    let mut all: Ports<V4> = Ports::new(alloc, 2, 100);
    let mut few: Ports<V4> = Ports::new(alloc, 2, 100);
    hints_go_right(alloc, &mut all, &mut few)
}

#[test]
fn a_hint_of_other_ports_changes_no_answer(rt: HostRuntime) {
    assert!(rt; hints_are_exchanged(rt.alloc()));
}
