//! Random messages and runs, each told alike by `Ports` and by the slow list.

use super::bodies::{entry_bytes, hear_body, table};
use super::courses::Course;
use super::slow::{Named, Slow, SlowRecord};
use super::{ONE_RP, RP};
use pim_addr::{Routes, V4};
use pim_down::{HearFault, Key, Machine, Near, Pending, Ports, Record, Timing, What};
use pim_jp::Entry;
use std::alloc::{AllocError, Global};

/// How many records a port may have: fewer than there would be without a limit, and together more
/// than two blocks hold.
const LIMIT: usize = 700;

const STEPS: u32 = 10_000;

/// Holdtimes, in seconds; the last one is for ever.
const HOLDTIMES: [u16; 4] = [3, 60, 210, 0xffff];

/// Numbers that look random.
#[derive(Drop)]
struct Numbers(u64);

impl Numbers {
    /// A number below this one.
    fn below(&mut self, bound: u64) -> u64 {
        let next = self
            .0
            .wrapping_mul(6_364_136_223_846_793_005)
            .wrapping_add(1_442_695_040_888_963_407);
        self.0 = next;
        (next >> 33).checked_rem(bound).unwrap_or(0)
    }

    /// A byte below this one.
    fn byte(&mut self, bound: u64) -> u8 {
        (self.below(bound) & 0xff) as u8
    }

    /// One of 256 sources.
    fn source(&mut self) -> [u8; 4] {
        [192, 0, 2, self.byte(256)]
    }

    /// An entry of one of eight groups: mostly of a source.
    fn named(&mut self) -> Named {
        let entry = match self.below(32) {
            0 => Entry::Star(RP),
            1 => Entry::Star([10, 9, 9, 8]),
            number if number < 16 => Entry::Source(self.source()),
            _ => Entry::Rpt(self.source()),
        };
        let joins = match entry {
            Entry::Rpt(_) => self.below(4) == 0,
            Entry::Star(_) | Entry::Source(_) => self.below(4) != 0,
        };
        let group = [239, 1, 1, self.byte(8)];
        Named {
            joins,
            group,
            entry,
        }
    }

    fn timing(&mut self) -> Timing {
        Timing {
            override_ms: self.below(5_000),
            several: self.below(2) == 0,
        }
    }

    fn holdtime(&mut self) -> u16 {
        HOLDTIMES[(self.below(4) & 3) as usize]
    }
}

/// Appends a set of one entry.
fn push_set(body: &mut Vec<u8>, named: Named) -> Result<(), AllocError> {
    let [_, _, _, group] = named.group;
    let (joined, pruned) = (u8::from(named.joins), u8::from(!named.joins));
    body.extend_from_slice(&[1, 0, 0, 32, 239, 1, 1, group, 0, joined, 0, pruned])?;
    body.extend_from_slice(&entry_bytes(named.entry))
}

/// The body of a message with a set for each entry.
fn body(alloc: Global, holdtime: u16, message: &[Named]) -> Result<Vec<u8>, AllocError> {
    let [high, low] = holdtime.to_be_bytes();
    let sets = (message.len() % 256) as u8;
    let mut body = Vec::from_slice(alloc, &[1, 0, 10, 0, 0, 2, 0, sets, high, low])?;
    for named in message {
        push_set(&mut body, *named)?;
    }
    Ok(body)
}

/// The body of a message with one set, of joined entries of one group.
fn body_of_joins(alloc: Global, holdtime: u16, message: &[Named]) -> Result<Vec<u8>, AllocError> {
    let [high, low] = holdtime.to_be_bytes();
    let group = message.first().map_or(0, |named| named.group[3]);
    let joined = (message.len() % 256) as u8;
    let mut body = Vec::from_slice(alloc, &[1, 0, 10, 0, 0, 2, 0, 1, high, low])?;
    body.extend_from_slice(&[1, 0, 0, 32, 239, 1, 1, group, 0, joined, 0, 0])?;
    for named in message {
        body.extend_from_slice(&entry_bytes(named.entry))?;
    }
    Ok(body)
}

/// Joins of up to 80 sources of a group, one after another. The first source follows the last one.
fn joins(alloc: Global, numbers: &mut Numbers) -> Result<Vec<Named>, AllocError> {
    let mut entries = Vec::new(alloc);
    let group = [239, 1, 1, numbers.byte(8)];
    let first = numbers.below(256);
    for number in 0..numbers.below(80).saturating_add(1) {
        let source = [192, 0, 2, (first.wrapping_add(number) & 0xff) as u8];
        entries.push(Named {
            joins: true,
            group,
            entry: Entry::Source(source),
        })?;
    }
    Ok(entries)
}

/// Up to ten entries, or now and then up to 120, which come in no order.
fn message(alloc: Global, numbers: &mut Numbers) -> Result<Vec<Named>, AllocError> {
    let mut entries = Vec::new(alloc);
    let most = if numbers.below(64) == 0 { 120 } else { 10 };
    for _ in 0..numbers.below(most).saturating_add(1) {
        entries.push(numbers.named())?;
    }
    Ok(entries)
}

/// A message, with its body.
#[derive(Drop)]
struct Spoken<'a> {
    message: &'a [Named],
    holdtime: u16,
    body: &'a [u8],
}

/// Both hear this message: whether they answer alike.
fn answer_alike(
    numbers: &mut Numbers,
    routes: &Routes<V4>,
    ports: &mut Ports<V4>,
    slow: &mut Slow,
    spoken: &Spoken<'_>,
) -> bool {
    let timing = numbers.timing();
    let port = usize::from(numbers.byte(2));
    let reported = hear_body(ports, routes, port, spoken.body, timing);
    match slow.hear(port, spoken.message, spoken.holdtime, timing) {
        Ok(None) => reported == Some(Ok(())),
        Ok(Some(needed)) => reported == Some(Err(HearFault::Full { needed })),
        Err(_) => false,
    }
}

/// The same of the next message: with a set for each entry.
fn hear(
    alloc: Global,
    numbers: &mut Numbers,
    routes: &Routes<V4>,
    ports: &mut Ports<V4>,
    slow: &mut Slow,
) -> bool {
    let Ok(message) = message(alloc, numbers) else {
        return false;
    };
    let holdtime = numbers.holdtime();
    match body(alloc, holdtime, &message) {
        Ok(body) => {
            let spoken = Spoken {
                message: &message,
                holdtime,
                body: &body,
            };
            answer_alike(numbers, routes, ports, slow, &spoken)
        }
        Err(_) => false,
    }
}

/// The same of the next message: with one set of joined sources.
fn hear_joins(
    alloc: Global,
    numbers: &mut Numbers,
    routes: &Routes<V4>,
    ports: &mut Ports<V4>,
    slow: &mut Slow,
) -> bool {
    let Ok(message) = joins(alloc, numbers) else {
        return false;
    };
    let holdtime = numbers.holdtime();
    match body_of_joins(alloc, holdtime, &message) {
        Ok(body) => {
            let spoken = Spoken {
                message: &message,
                holdtime,
                body: &body,
            };
            answer_alike(numbers, routes, ports, slow, &spoken)
        }
        Err(_) => false,
    }
}

/// Both run on: whether they tell alike.
fn run(numbers: &mut Numbers, ports: &mut Ports<V4>, slow: &mut Slow) -> bool {
    let moment = ports.now().saturating_add(numbers.below(2_000));
    if moment > 1_000_000_000_000_000 {
        return false;
    }
    Some(ports.run_to(moment)) == slow.run_to(moment)
}

/// Whether moments and counts are the same.
fn is_alike(ports: &Ports<V4>, slow: &Slow) -> bool {
    ports.now() == slow.moment
        && ports.next_due() == slow.next_due()
        && ports.port_count() == 2
        && ports.count_on(0) == slow.count_on(0)
        && ports.count_on(1) == slow.count_on(1)
}

/// A record of the slow list, as it is told at this moment.
fn reported(held: &SlowRecord, moment: u64) -> Record<[u8; 4]> {
    let SlowRecord { key, course } = *held;
    Record {
        key,
        machine: Machine {
            state: course.state,
            expires_in: expires_in(course, moment),
            pending: pending(course, moment),
        },
    }
}

/// What is left of an expiry timer at this moment.
fn expires_in(course: Course, moment: u64) -> Option<u64> {
    let ends_at = course.expires_at?;
    Some(ends_at.saturating_sub(moment))
}

/// What is left of a prune-pending timer at this moment.
fn pending(course: Course, moment: u64) -> Option<Pending> {
    let (ends_at, several) = course.pending?;
    let ends_in = ends_at.saturating_sub(moment);
    Some(Pending { ends_in, several })
}

/// Whether the same records are told.
fn holds_alike(ports: &Ports<V4>, slow: &Slow) -> bool {
    let mut records = ports.records();
    for held in &slow.records {
        if records.next() != Some(reported(held, slow.moment)) {
            return false;
        }
    }
    records.next().is_none()
}

/// The least group above this one with a record on the port.
fn group_after(slow: &Slow, port: usize, group: [u8; 4]) -> Option<[u8; 4]> {
    for held in &slow.records {
        if held.key.port == port && held.key.group > group {
            return Some(held.key.group);
        }
    }
    None
}

/// The next (S,G) or (S,G,rpt) of the group behind an (S,G).
fn is_behind(key: Key<[u8; 4]>, port: usize, group: [u8; 4], source: [u8; 4]) -> bool {
    let is_later = match key.what {
        What::Star => false,
        What::Source(other) => other > source,
        What::Rpt(_) => true,
    };
    key.port == port && key.group == group && is_later
}

fn source_after(
    slow: &Slow,
    port: usize,
    group: [u8; 4],
    source: [u8; 4],
) -> Option<Record<[u8; 4]>> {
    for held in &slow.records {
        if is_behind(held.key, port, group, source) {
            return Some(reported(held, slow.moment));
        }
    }
    None
}

/// Whether look-ups of a machine, a group and a machine behind one answer alike, from nothing and
/// near the place of the last call's machine.
fn answers_alike(numbers: &mut Numbers, ports: &Ports<V4>, slow: &Slow, near: &mut Near) -> bool {
    let port = usize::from(numbers.byte(2));
    let group = [239, 1, 1, numbers.byte(8)];
    let source = numbers.source();
    let what = What::Rpt(source);
    let state = slow.state_of(Key { port, group, what });
    let above = group_after(slow, port, group);
    let next = source_after(slow, port, group, source);
    let before = *near;
    let (found, place) = ports.record_after_near(port, group, What::Source(source), before);
    *near = place;
    ports.state_of(port, group, what) == state
        && ports.group_after(port, Some(group)) == above
        && ports.record_after(port, group, What::Source(source)) == next
        && ports.state_of_near(port, group, what, before).0 == state
        && ports.group_after_near(port, Some(group), before).0 == above
        && found == next
}

/// A step of both: whether they go alike.
fn step(
    alloc: Global,
    numbers: &mut Numbers,
    routes: &Routes<V4>,
    ports: &mut Ports<V4>,
    slow: &mut Slow,
    near: &mut Near,
) -> bool {
    let goes = match numbers.below(8) {
        0 | 1 => run(numbers, ports, slow),
        2 => hear_joins(alloc, numbers, routes, ports, slow),
        _ => hear(alloc, numbers, routes, ports, slow),
    };
    goes && is_alike(ports, slow) && answers_alike(numbers, ports, slow, near)
}

/// The first step after which they differ; each hundredth one compares all records.
fn first_difference(
    alloc: Global,
    routes: &Routes<V4>,
    ports: &mut Ports<V4>,
    slow: &mut Slow,
) -> Option<u32> {
    let mut numbers = Numbers(7);
    let mut near = Near::UNKNOWN;
    for number in 1..STEPS {
        let goes = step(alloc, &mut numbers, routes, ports, slow, &mut near);
        if !goes || number % 100 == 0 && !holds_alike(ports, slow) {
            return Some(number);
        }
    }
    None
}

/// The same of two new states under a table.
fn difference(alloc: Global, routes: &Routes<V4>) -> Option<u32> {
    let mut ports: Ports<V4> = Ports::new(alloc, 2, LIMIT);
    let mut slow = Slow::new(alloc, LIMIT);
    first_difference(alloc, routes, &mut ports, &mut slow)
}

#[test]
fn random_runs_go_as_the_slow_list(rt: HostRuntime) {
    match table(rt.alloc(), &ONE_RP) {
        Some(routes) => assert_eq!(rt; difference(rt.alloc(), &routes), None),
        None => assert!(rt; false),
    }
}
