//! One downstream machine: its state, its timers, and what each event of a message does to it. A
//! second Prune in Prune-Pending changes neither timer: if it restarted the Prune-Pending Timer,
//! repeated Prunes could put the end off forever.

ghost use Rattle.std.specs.Prelude.{◌≡◌, Some};
ghost use Rattle.pim_down.specs.Words.{start_seen, timed_seen, machine_seen, greater, on_join};
ghost use Rattle.pim_down.specs.Words.{on_prune, on_star_join, on_rpt_prune};

use crate::machines::held::{Start, Timed};
use crate::machines::key::Key;

/// The states of the downstream machines (RFC 7761, Figures 2 to 4). A machine in NoInfo isn't
/// held.
#[derive(Clone, Copy, Debug, PartialEq, Eq)]
pub enum State {
    /// Join (J), of (*,G) and (S,G).
    Join,
    /// Prune-Pending (PP): a Prune was heard, and other neighbours may still override it.
    PrunePending,
    /// Prune (P), of (S,G,rpt).
    Prune,
    /// PruneTmp (P'): in Prune before the message, which has a Join(*,G). Only while it is heard.
    PruneTmp,
    /// Prune-Pending-Tmp (PP'): in Prune-Pending before the message, which has a Join(*,G). Only
    /// while it is heard.
    PrunePendingTmp,
}

/// A Prune-Pending Timer that runs, as a countdown.
#[derive(Clone, Copy, Debug, PartialEq, Eq)]
pub struct Pending {
    /// The time left in milliseconds; at 0 the timer is due.
    pub ends_in: u64,
    /// Whether the port had more than one neighbour when the timer started.
    pub several: bool,
}

/// A machine that is held, with countdowns.
#[derive(Clone, Copy, Debug, PartialEq, Eq)]
pub struct Machine {
    /// Its state.
    pub state: State,
    /// The time left of its Expiry Timer in milliseconds; at 0 it is due, and `None` is never.
    pub expires_in: Option<u64>,
    /// Its Prune-Pending Timer, if one runs.
    pub pending: Option<Pending>,
}

/// A machine with its key.
#[derive(Clone, Copy, Debug, PartialEq, Eq)]
pub struct Record<A> {
    /// Which machine.
    pub key: Key<A>,
    /// Its state and timers.
    pub machine: Machine,
}

/// The greater of two times, where `None` is never.
fn greater(a: Option<u64>, b: Option<u64>) -> Option<u64>
    ensures { result ≡ greater a b }
{
    match (a, b) {
        (Some(a), Some(b)) => Some(a.max(b)),
        _ => None,
    }
}

/// Receive Join(*,G) at a (*,G) machine, or Receive Join(S,G) at an (S,G) machine (RFC 7761, 4.5.1
/// and 4.5.2).
#[tactic(auto, unfolding(crate::specs::Tables::on_join))]
pub(crate) fn on_join(start: Start, held: Option<Timed>) -> Option<Timed>
    ensures { machine_seen result ≡ on_join (start_seen start) (machine_seen held) }
{
    let Some(machine) = held else {
        return Some(Timed {
            state: State::Join,
            expires_at: start.expires_at,
            pending: None,
        });
    };
    let expires_at = greater(machine.expires_at, start.expires_at);
    match machine.state {
        State::Join => Some(Timed {
            expires_at,
            ..machine
        }),
        State::PrunePending => Some(Timed {
            state: State::Join,
            expires_at,
            pending: None,
        }),
        _ => held,
    }
}

/// Receive Prune(*,G) at a (*,G) machine, or Receive Prune(S,G) at an (S,G) machine (RFC 7761,
/// 4.5.1 and 4.5.2).
#[tactic(auto, unfolding(crate::specs::Tables::on_prune))]
pub(crate) fn on_prune(start: Start, held: Option<Timed>) -> Option<Timed>
    ensures { machine_seen result ≡ on_prune (start_seen start) (machine_seen held) }
{
    let machine = held?;
    match machine.state {
        State::Join => Some(Timed {
            state: State::PrunePending,
            expires_at: machine.expires_at,
            pending: Some(start.pending),
        }),
        _ => held,
    }
}

/// Receive Join(*,G) at an (S,G,rpt) machine of the group (RFC 7761, 4.5.3). Its timers stay.
#[tactic(auto, unfolding(crate::specs::Tables::on_star_join))]
pub(crate) fn on_star_join(machine: Timed) -> Timed
    ensures { Some (timed_seen result) ≡ on_star_join (Some (timed_seen machine)) }
{
    match machine.state {
        State::Prune => Timed {
            state: State::PruneTmp,
            ..machine
        },
        State::PrunePending => Timed {
            state: State::PrunePendingTmp,
            ..machine
        },
        _ => machine,
    }
}

/// Receive Prune(S,G,rpt) at its machine (RFC 7761, 4.5.3).
#[tactic(auto, unfolding(crate::specs::Tables::on_rpt_prune))]
pub(crate) fn on_rpt_prune(start: Start, held: Option<Timed>) -> Option<Timed>
    ensures { machine_seen result ≡ on_rpt_prune (start_seen start) (machine_seen held) }
{
    let Some(machine) = held else {
        return Some(Timed {
            state: State::PrunePending,
            expires_at: start.expires_at,
            pending: Some(start.pending),
        });
    };
    let state = match machine.state {
        State::Prune | State::PruneTmp => State::Prune,
        State::PrunePendingTmp => State::PrunePending,
        _ => return held,
    };
    let expires_at = greater(machine.expires_at, start.expires_at);
    Some(Timed {
        state,
        expires_at,
        ..machine
    })
}
