//! The machines of all ports as one plain list in key order, gone through from its start each time:
//! slow, and read off the transition tables of RFC 7761 (4.5) and no other code. Random runs
//! compare `Ports` with it.

use super::RP;
use super::courses::{Course, is_tmp, joined, pruned, rpt_pruned, star_joined, start_at};
use pim_down::{Key, State, Step, Timing, What};
use pim_jp::Entry;
use std::alloc::{AllocError, Global};
use std::cmp::Ordering;

#[derive(Clone, Copy, PartialEq, Eq, Debug)]
pub(super) struct SlowRecord {
    pub(super) key: Key<[u8; 4]>,
    pub(super) course: Course,
}

/// One entry of a message, and whether it is joined.
#[derive(Clone, Copy, PartialEq, Eq, Debug)]
pub(super) struct Named {
    pub(super) joins: bool,
    pub(super) group: [u8; 4],
    pub(super) entry: Entry<[u8; 4]>,
}

/// All machines, in key order.
#[derive(Drop)]
pub(super) struct Slow {
    pub(super) records: Vec<SlowRecord>,
    pub(super) moment: u64,
    limit: usize,
}

/// The kind of a machine and its source, in the order of a group's machines.
fn rank(what: What<[u8; 4]>) -> (u8, [u8; 4]) {
    match what {
        What::Star => (0, [0; 4]),
        What::Source(source) => (1, source),
        What::Rpt(source) => (2, source),
    }
}

fn compare(a: Key<[u8; 4]>, b: Key<[u8; 4]>) -> Ordering {
    let (kind, source) = rank(a.what);
    let (other_kind, other) = rank(b.what);
    a.port
        .cmp(&b.port)
        .then(a.group.cmp(&b.group))
        .then(kind.cmp(&other_kind))
        .then(source.cmp(&other))
}

/// The machine that an entry is about.
fn what_of(entry: Entry<[u8; 4]>) -> What<[u8; 4]> {
    match entry {
        Entry::Star(_) => What::Star,
        Entry::Source(source) => What::Source(source),
        Entry::Rpt(source) => What::Rpt(source),
    }
}

/// Whether it is a Join(*,G) of another RP, which is no event.
fn is_dropped(named: Named) -> bool {
    named.joins && matches!(named.entry, Entry::Star(rp) if rp != RP)
}

/// Whether it makes a record where none is held.
fn creates(named: Named) -> bool {
    named.joins != matches!(named.entry, Entry::Rpt(_)) && !is_dropped(named)
}

/// The moment at which the prune-pending timer ends; the greatest number where it doesn't.
fn pending_end(course: Course) -> u64 {
    match course.pending {
        Some((ends_at, _)) => ends_at,
        None => u64::MAX,
    }
}

/// The same of the expiry timer.
fn expiry_end(course: Course) -> u64 {
    course.expires_at.unwrap_or(u64::MAX)
}

/// The first of both.
fn end_of(course: Course) -> u64 {
    expiry_end(course).min(pending_end(course))
}

impl Slow {
    pub(super) fn new(alloc: Global, limit: usize) -> Self {
        Slow {
            records: Vec::new(alloc),
            moment: 0,
            limit,
        }
    }

    /// Where the key's record stands, or else where it would stand.
    fn find(&self, key: Key<[u8; 4]>) -> Result<usize, usize> {
        for (at, held) in self.records.iter().enumerate() {
            match compare(held.key, key) {
                Ordering::Less => {}
                Ordering::Equal => return Ok(at),
                Ordering::Greater => return Err(at),
            }
        }
        Err(self.records.len())
    }

    /// The key's machine.
    fn course(&self, key: Key<[u8; 4]>) -> Option<Course> {
        let at = self.find(key).ok()?;
        Some(self.records.get(at)?.course)
    }

    /// The state of the key's machine.
    pub(super) fn state_of(&self, key: Key<[u8; 4]>) -> Option<State> {
        Some(self.course(key)?.state)
    }

    fn let_go(&mut self, at: usize) {
        if at < self.records.len() {
            let _gone = self.records.remove(at);
        }
    }

    fn replace(&mut self, at: usize, course: Course) {
        if let Some(held) = self.records.get_mut(at) {
            held.course = course;
        }
    }

    fn insert(&mut self, at: usize, held: SlowRecord) -> Result<(), AllocError> {
        if at <= self.records.len() && self.records.insert(at, held).is_err() {
            return Err(AllocError);
        }
        Ok(())
    }

    fn put(&mut self, key: Key<[u8; 4]>, course: Option<Course>) -> Result<(), AllocError> {
        match (self.find(key), course) {
            (Ok(at), Some(course)) => self.replace(at, course),
            (Ok(at), None) => self.let_go(at),
            (Err(at), Some(course)) => self.insert(at, SlowRecord { key, course })?,
            (Err(_), None) => {}
        }
        Ok(())
    }

    /// A Join(*,G) comes to the (S,G,rpt) machines of the group.
    fn join_rpts(&mut self, port: usize, group: [u8; 4]) {
        for held in self.records.iter_mut() {
            let Key {
                port: of,
                group: its,
                what,
            } = held.key;
            if of == port && its == group && matches!(what, What::Rpt(_)) {
                held.course = star_joined(held.course);
            }
        }
    }

    /// An entry acts.
    fn act(&mut self, port: usize, start: Course, named: Named) -> Result<(), AllocError> {
        let group = named.group;
        let what = what_of(named.entry);
        let key = Key { port, group, what };
        let held = self.course(key);
        let left = match (named.entry, named.joins) {
            (Entry::Star(_) | Entry::Source(_), true) => Some(joined(start, held)),
            (Entry::Star(_) | Entry::Source(_), false) => pruned(start, held),
            (Entry::Rpt(_), true) => None,
            (Entry::Rpt(_), false) => Some(rpt_pruned(start, held)),
        };
        self.put(key, left)?;
        if named.joins && what == What::Star {
            self.join_rpts(port, group);
        }
        Ok(())
    }

    /// Whether this machine is in a Tmp state.
    fn is_over(&self, at: usize) -> bool {
        match self.records.get(at) {
            Some(held) => is_tmp(held.course.state),
            None => false,
        }
    }

    /// End of message: no Tmp state is left.
    fn end(&mut self) {
        let count = self.records.len();
        for back in 1..count.saturating_add(1) {
            let at = count - back;
            if self.is_over(at) {
                self.let_go(at);
            }
        }
    }

    /// How many records the port has.
    pub(super) fn count_on(&self, port: usize) -> usize {
        let mut count = 0usize;
        for held in &self.records {
            count = count.saturating_add(usize::from(held.key.port == port));
        }
        count
    }

    /// How many records a message needs: those of the port, and each entry that creates one which
    /// isn't held.
    fn needed(&self, port: usize, message: &[Named]) -> usize {
        let mut needed = self.count_on(port);
        for named in message {
            let group = named.group;
            let what = what_of(named.entry);
            let is_held = self.find(Key { port, group, what }).is_ok();
            needed = needed.saturating_add(usize::from(creates(*named) && !is_held));
        }
        needed
    }

    fn act_all(&mut self, port: usize, start: Course, message: &[Named]) -> Result<(), AllocError> {
        for named in message {
            if !is_dropped(*named) {
                self.act(port, start, *named)?;
            }
        }
        self.end();
        Ok(())
    }

    /// Hears a message; tells how many records it needs where these are too many.
    pub(super) fn hear(
        &mut self,
        port: usize,
        message: &[Named],
        holdtime: u16,
        timing: Timing,
    ) -> Result<Option<usize>, AllocError> {
        let needed = self.needed(port, message);
        if needed > self.limit {
            return Ok(Some(needed));
        }
        let start = start_at(self.moment, holdtime, timing);
        self.act_all(port, start, message)?;
        Ok(None)
    }

    /// The moment at which the first timer ends.
    fn first_end(&self) -> Option<u64> {
        let mut first: Option<u64> = None;
        for held in &self.records {
            let end = end_of(held.course);
            if end < first.unwrap_or(u64::MAX) {
                first = Some(end);
            }
        }
        first
    }

    /// The next moment at which a timer fires.
    pub(super) fn next_due(&self) -> Option<u64> {
        Some(self.first_end()?.max(self.moment))
    }

    /// The first machine in key order whose prune-pending timer is due.
    fn due_pending(&self) -> Option<usize> {
        for at in 0..self.records.len() {
            if pending_end(self.records[at].course) <= self.moment {
                return Some(at);
            }
        }
        None
    }

    /// The same of an expiry timer.
    fn due_expiry(&self) -> Option<usize> {
        for at in 0..self.records.len() {
            if expiry_end(self.records[at].course) <= self.moment {
                return Some(at);
            }
        }
        None
    }

    /// A prune-pending timer fires: the echo, if one is told.
    fn fire_pending(&mut self, at: usize) -> Option<Step<[u8; 4]>> {
        let SlowRecord { key, course } = *self.records.get(at)?;
        let (_, several) = course.pending?;
        let Key { port, group, what } = key;
        if matches!(what, What::Rpt(_)) {
            let state = State::Prune;
            let pending = None;
            self.replace(
                at,
                Course {
                    state,
                    pending,
                    ..course
                },
            );
            return None;
        }
        self.let_go(at);
        if several {
            Some(Step::Echo { port, group, what })
        } else {
            None
        }
    }

    /// One timer that is due fires, prune-pending before expiry.
    fn fire(&mut self) -> Option<Step<[u8; 4]>> {
        if let Some(at) = self.due_pending() {
            return self.fire_pending(at);
        }
        if let Some(at) = self.due_expiry() {
            self.let_go(at);
        }
        None
    }

    /// One timer, or the end of the run.
    fn turn(&mut self, moment: u64) -> Option<Step<[u8; 4]>> {
        match self.next_due() {
            Some(due) if due <= moment => {
                self.moment = due;
                self.fire()
            }
            _ => {
                self.moment = moment;
                Some(Step::Reached)
            }
        }
    }

    /// Runs to a moment, or to the first echo. `None` where that takes more turns than any test
    /// needs.
    pub(super) fn run_to(&mut self, moment: u64) -> Option<Step<[u8; 4]>> {
        let moment = moment.max(self.moment);
        for _ in 0..1_000_000u32 {
            let reported = self.turn(moment);
            if reported.is_some() {
                return reported;
            }
        }
        None
    }
}
