//! One downstream machine by moments, and what events make of it, read off the transition tables of
//! RFC 7761 (4.5).

use pim_down::{State, Timing};

/// A machine that is held, and the moments at which its timers end; an expiry timer without an end
/// never does.
#[derive(Clone, Copy, PartialEq, Eq, Debug)]
pub(super) struct Course {
    pub(super) state: State,
    pub(super) expires_at: Option<u64>,
    /// Beside the end of a prune-pending timer stands whether the port had several neighbours when
    /// it started.
    pub(super) pending: Option<(u64, bool)>,
}

/// The greater of two ends, of which none is never.
fn greater(a: Option<u64>, b: Option<u64>) -> Option<u64> {
    match (a, b) {
        (Some(a), Some(b)) => Some(a.max(b)),
        _ => None,
    }
}

pub(super) fn is_tmp(state: State) -> bool {
    matches!(state, State::PruneTmp | State::PrunePendingTmp)
}

/// Join at (*,G) or (S,G).
pub(super) fn joined(start: Course, held: Option<Course>) -> Course {
    let expires_at = match held {
        None => start.expires_at,
        Some(course) => greater(course.expires_at, start.expires_at),
    };
    Course {
        state: State::Join,
        expires_at,
        pending: None,
    }
}

/// Prune at (*,G) or (S,G).
pub(super) fn pruned(start: Course, held: Option<Course>) -> Option<Course> {
    let course = held?;
    if course.state != State::Join {
        return held;
    }
    Some(Course {
        state: State::PrunePending,
        pending: start.pending,
        ..course
    })
}

/// Prune at (S,G,rpt).
pub(super) fn rpt_pruned(start: Course, held: Option<Course>) -> Course {
    let Some(course) = held else {
        return start;
    };
    let expires_at = greater(course.expires_at, start.expires_at);
    let state = match course.state {
        State::PrunePending | State::Join => return course,
        State::Prune | State::PruneTmp => State::Prune,
        State::PrunePendingTmp => State::PrunePending,
    };
    Course {
        state,
        expires_at,
        ..course
    }
}

/// Join(*,G) at (S,G,rpt).
pub(super) fn star_joined(course: Course) -> Course {
    let state = match course.state {
        State::Prune => State::PruneTmp,
        State::PrunePending => State::PrunePendingTmp,
        other => other,
    };
    Course { state, ..course }
}

/// The ends of a new (S,G,rpt) machine of this holdtime; others begin with them, too.
pub(super) fn start_at(moment: u64, holdtime: u16, timing: Timing) -> Course {
    let wait = if timing.several {
        timing.override_ms
    } else {
        0
    };
    let expires_at = if holdtime == 0xffff {
        None
    } else {
        Some(moment.saturating_add(u64::from(holdtime) * 1000))
    };
    Course {
        state: State::PrunePending,
        expires_at,
        pending: Some((moment.saturating_add(wait), timing.several)),
    }
}
