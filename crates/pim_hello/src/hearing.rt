//! What one Hello means: whether it is a goodbye, the time that it gives its sender, and the value
//! that is returned.

ghost use Rattle.std.specs.Prelude.{◌≡◌, ◌≤◌, ◌^◌, ◌+◌, option_map};
ghost use Rattle.pim_hello.specs.Kept.{parameters_seen, kept_seen};
ghost use Rattle.pim_hello.specs.Neighbours.{says_goodbye, lifetime, heard_unless_goodbye};

use crate::heard::Heard;
use crate::parameters::{Kept, Parameters};

/// Whether a Hello says goodbye: its Holdtime is 0.
pub(crate) fn says_goodbye(hello: &Parameters) -> bool
    ensures { result ≡ says_goodbye (parameters_seen hello.now) }
{
    hello.holdtime == Some(0)
}

/// The moment in milliseconds at which the time of a sender ends whose Hello arrives at `moment`,
/// or `None` if it never ends.
pub(crate) fn end_of_time(hello: &Parameters, moment: u64) -> Option<u64>
    requires { moment ≤ 10 ^ 15 }
    ensures { result ≡ option_map (λ time. moment + time) (lifetime hello.now.holdtime) }
{
    match hello.holdtime {
        None => Some(moment + 105_000),
        Some(0xffff) => None,
        Some(seconds) => Some(moment + 1000 * seconds as u64),
    }
}

/// What a Hello that is no goodbye means, by what was kept of its sender.
pub(crate) fn heard_as(known: Option<Kept>, hello: &Parameters) -> Heard
    ensures { result
        ≡ heard_unless_goodbye (option_map (kept_seen 0) known) (parameters_seen hello.now) }
{
    match known {
        None => Heard::New,
        Some(kept) if kept.parameters.generation == hello.generation => Heard::Same,
        Some(_) => Heard::Restarted,
    }
}
