//! What the LAN Prune Delays of a port's neighbours come to (RFC 7761, 4.3.3). It is kept, so that
//! most Join/Prune messages need no walk over the neighbours. A Hello of a new neighbour updates
//! it, and so does one whose delays are absent or no less than the last ones. It is forgotten when
//! a neighbour is removed, sends a lesser delay, or sends delays after none.

ghost use Rattle.std.specs.Prelude.{◌≡◌, ◌≤◌, [], ◌∷◌, List, None, option_map, IfSome, IsSome};
ghost use Rattle.std.specs.Prelude.{true, false, nat_le, ◌&&◌};
ghost use Rattle.std.specs.Option.{IfNone};
ghost use Rattle.pim_hello.specs.Delays.{delays_seen};
ghost use Rattle.pim_hello.specs.Hello.{Parameters};
ghost use Rattle.pim_hello.specs.Interval.{jp_override_interval};
ghost use Rattle.pim_hello.specs.KeptDelays.{ComesTo};

use crate::delay::LanDelay;
use crate::interval::{DEFAULT_OVERRIDE_INTERVAL, PortDelays};
use crate::parameters::Kept;

/// What the delays in the last Hellos of a port's neighbours come to.
#[derive(Clone, Copy)]
pub(crate) enum DelaysHeard {
    /// lan_delay_enabled(I) is false: one of them sent none.
    NotByAll,
    /// All sent theirs, and these are the greatest: 0 if there are no neighbours.
    ByAll(PortDelays),
}

impl DelaysHeard {
    /// The delays of no neighbours.
    pub(crate) fn of_none() -> DelaysHeard
        ensures { ComesTo result [] }
    {
        DelaysHeard::ByAll(PortDelays::zero())
    }

    /// The same with the delays of one more neighbour.
    fn with(self, lan: Option<LanDelay>) -> DelaysHeard
        ensures { (hello : Parameters) (hellos : List Parameters) → hello.lan
            ≡ option_map delays_seen lan →
            ComesTo self hellos → ComesTo result (hello ∷ hellos) }
    {
        let Some(lan) = lan else {
            return DelaysHeard::NotByAll;
        };
        match self {
            DelaysHeard::NotByAll => DelaysHeard::NotByAll,
            DelaysHeard::ByAll(greatest) => {
                DelaysHeard::ByAll(greatest.or_greater(PortDelays::heard_in(lan)))
            }
        }
    }

    /// J/P_Override_Interval(I) of a port with these delays of its own, in milliseconds.
    pub(crate) fn interval(self, own: PortDelays) -> u32
        ensures interval { (hellos : List Parameters) → ComesTo self hellos →
            result ≡ jp_override_interval own.propagation own.override_ms hellos }
        ensures bound { result ≤ 98302 }
    {
        match self {
            DelaysHeard::NotByAll => DEFAULT_OVERRIDE_INTERVAL,
            DelaysHeard::ByAll(greatest) => own.or_greater(greatest).sum(),
        }
    }
}

/// Whether a neighbour's delays are no less than the last ones, so that no greatest delay can be
/// less. Absent delays count as no less than any: the defaults then hold, whichever delays others
/// sent.
fn is_no_less(now: Option<LanDelay>, before: Option<LanDelay>) -> bool
    ensures none { now ≡ None → result ≡ true }
    ensures first { IfNone before (IsSome now → result ≡ false) }
    ensures both { IfSome now (λ now. IfSome before (λ before.
        result
        ≡ (nat_le before.propagation now.propagation
        && nat_le before.override_ms now.override_ms))) }
{
    let Some(now) = now else {
        return true;
    };
    let Some(before) = before else {
        return false;
    };
    now.propagation >= before.propagation && now.override_ms >= before.override_ms
}

/// What is known after a neighbour, of which `known` was kept, sends these delays. It is nothing if
/// they are less, since the greatest delays may have been those of this neighbour.
pub(crate) fn known_with(
    delays_heard: Option<DelaysHeard>,
    known: Option<Kept>,
    lan: Option<LanDelay>,
) -> Option<DelaysHeard>
    ensures new { known ≡ None →
        (hello : Parameters) (hellos : List Parameters) → hello.lan ≡ option_map delays_seen lan →
        IfSome delays_heard (λ delays_heard. ComesTo delays_heard hellos)
        → IfSome result (λ delays_heard. ComesTo delays_heard (hello ∷ hellos)) }
    ensures known { IfSome known (λ kept. (before hello : Parameters) (hellos : List Parameters) →
        before.lan ≡ option_map delays_seen kept.parameters.lan → hello.lan
        ≡ option_map delays_seen lan →
        IfSome delays_heard (λ delays_heard. ComesTo delays_heard (before ∷ hellos))
        → IfSome result (λ delays_heard. ComesTo delays_heard (hello ∷ hellos))) }
{
    if let Some(kept) = known {
        if !is_no_less(lan, kept.parameters.lan) {
            return None;
        }
    }
    let delays_heard = delays_heard?;
    Some(delays_heard.with(lan))
}

/// What is known after a neighbour, of which `known` was kept, is removed.
pub(crate) fn known_without(
    delays_heard: Option<DelaysHeard>,
    known: Option<Kept>,
) -> Option<DelaysHeard>
    ensures stays { known ≡ None → result ≡ delays_heard }
    ensures known { IfSome result (λ _. (result ≡ delays_heard) × (known ≡ None)) }
{
    if known.is_some() {
        return None;
    }
    delays_heard
}
