//! The delays of a port, and the override interval that they make (RFC 7761, 4.3.3).

ghost use Rattle.std.specs.Prelude.{◌≡◌, ◌≤◌, ◌+◌, max};

use crate::delay::LanDelay;

/// J/P_Override_Interval(I) in milliseconds if lan_delay_enabled(I) is false: 500 and 2,500 (RFC
/// 7761, 4.11).
pub(crate) const DEFAULT_OVERRIDE_INTERVAL: u32 = 3000;

/// A port's own delays, in milliseconds. They are a type of their own so that its propagation delay
/// has 15 bits, as in a LAN Prune Delay.
#[derive(Clone, Copy, Debug, PartialEq, Eq)]
pub struct PortDelays {
    /// Propagation_Delay(I): at most 32,767.
    pub propagation: u16,
    /// Override_Interval(I).
    pub override_ms: u16,
    ghost fits_15_bits: { propagation ≤ 32767 },
}

impl Default for PortDelays {
    ghost is_default = { λ delays. (delays.propagation ≡ 500) × (delays.override_ms ≡ 2500) };

    /// 500 and 2,500 ms, the defaults of RFC 7761, 4.11.
    fn default() -> PortDelays {
        PortDelays {
            propagation: 500,
            override_ms: 2500,
        }
    }
}

impl PortDelays {
    /// No delays.
    pub(crate) fn zero() -> PortDelays
        ensures propagation { result.propagation ≡ 0 }
        ensures override_ms { result.override_ms ≡ 0 }
    {
        PortDelays {
            propagation: 0,
            override_ms: 0,
        }
    }

    /// The delays of a neighbour's LAN Prune Delay.
    pub(crate) fn heard_in(lan: LanDelay) -> PortDelays
        ensures propagation { result.propagation ≡ lan.propagation }
        ensures override_ms { result.override_ms ≡ lan.override_ms }
    {
        PortDelays {
            propagation: lan.propagation,
            override_ms: lan.override_ms,
        }
    }

    /// The greater of both delays, each kind by itself.
    pub(crate) fn or_greater(self, other: PortDelays) -> PortDelays
        ensures propagation { result.propagation ≡ max self.propagation other.propagation }
        ensures override_ms { result.override_ms ≡ max self.override_ms other.override_ms }
    {
        PortDelays {
            propagation: self.propagation.max(other.propagation),
            override_ms: self.override_ms.max(other.override_ms),
        }
    }

    /// The sum of both delays.
    pub(crate) fn sum(self) -> u32
        ensures sum { result ≡ self.propagation + self.override_ms }
        ensures bound { result ≤ 98302 }
    {
        self.propagation as u32 + self.override_ms as u32
    }
}
