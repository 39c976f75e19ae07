//! The LAN Prune Delay option.

ghost use Rattle.std.specs.Prelude.{◌≤◌};

/// The LAN Prune Delay option of a Hello (RFC 7761, 4.9.2, option 2).
#[derive(Clone, Copy, Debug, PartialEq, Eq)]
pub struct LanDelay {
    /// The T bit: the sender can disable join suppression. It is kept and has no effect.
    pub t: bool,
    /// Propagation_Delay in milliseconds: 15 bits, at most 32,767.
    pub propagation: u16,
    /// Override_Interval in milliseconds.
    pub override_ms: u16,
    ghost fits_15_bits: { propagation ≤ 32767 },
}

/// The T bit in the first 16 bits of the option, above the propagation delay.
pub(crate) const T_BIT: u16 = 0x8000;
