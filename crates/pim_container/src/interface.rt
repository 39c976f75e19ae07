//! The interfaces of a pcapng section and their times.

ghost use Rattle.std.specs.Prelude.{◌≡◌, ◌+◌, ◌*◌, ◌^◌, ◌<◌, ◌≤◌, length, drop, IfSome};
ghost use Rattle.pim_container.specs.Interface.{option_code, option_size, option_end};
ghost use Rattle.pim_container.specs.Interface.{settings_with, settings_of, HasName};
ghost use Rattle.pim_container.specs.Interface.{stamp_millis, moved, moment_of};
ghost use Rattle.pim_container.specs.EventSeen.{latest_moment};

use crate::link::{BlockEndianness, LinkLayer};
use pim_capture::InterfaceName;

/// What the options of an interface description say.
#[derive(Clone, Copy, Debug, PartialEq, Eq)]
pub struct Settings {
    /// if_tsresol: the power of ten, or of two with the high bit, that a second has as units.
    pub resolution: u8,
    /// if_tsoffset: the seconds that are added to times, 64 bits in two's complement.
    pub offset: u64,
    /// The index of the name's first byte in the block.
    pub name_at: usize,
    /// The index after the name.
    pub name_end: usize,
}

/// An interface of a section.
#[derive(Clone, Copy, Debug, PartialEq, Eq)]
pub struct Interface {
    /// What its frames begin with.
    pub link: LinkLayer,
    /// if_tsresol.
    pub resolution: u8,
    /// if_tsoffset.
    pub offset: u64,
    /// if_name, if its text is a name.
    pub name: Option<InterfaceName>,
    /// How many bytes describe it and the interfaces before it in its section.
    pub described: usize,
}

/// The latest time of an event, in milliseconds since 1970.
const LATEST_MOMENT: u128 = 4_294_971_589_967;

/// The settings after the option at the index `at`.
fn settings_with(order: BlockEndianness, settings: Settings, at: usize, bytes: &[u8]) -> Settings
    requires whole { option_end order at bytes.now ≤ length bytes.now }
    requires size { length bytes.now ≤ 16777216 }
    requires name { HasName bytes.now settings }
    ensures value { result ≡ settings_with order settings at bytes.now }
    ensures name { HasName bytes.now result }
{
    let code = order.read_u16_at(bytes, at);
    let size = order.read_u16_at(bytes, at + 2);
    match (code, size) {
        (2, _) => Settings {
            name_at: at + 4,
            name_end: at + 4 + usize::from(size),
            ..settings
        },
        (9, 1) => Settings {
            resolution: bytes[at + 4],
            ..settings
        },
        (14, 8) => Settings {
            offset: order.read_u64_at(bytes, at + 4),
            ..settings
        },
        _ => settings,
    }
}

/// The settings of an interface description block without its last length. `None` if one of its
/// options is cut.
pub fn settings_of(order: BlockEndianness, bytes: &[u8]) -> Option<Settings>
    requires { length bytes.now ≤ 16777216 }
    ensures value { result ≡ settings_of order bytes.now }
    ensures name { IfSome result (HasName bytes.now) }
{
    let mut settings = Settings {
        resolution: 6,
        offset: 0,
        name_at: 0,
        name_end: 0,
    };
    let mut at = 16;
    while at + 4 <= bytes.len() {
        if order.read_u16_at(bytes, at) == 0 {
            return Some(settings);
        }
        let size = usize::from(order.read_u16_at(bytes, at + 2));
        let end = at + 4 + (size + 3) / 4 * 4;
        if bytes.len() < end {
            return None;
        }
        settings = settings_with(order, settings, at, bytes);
        at = end;
    }
    Some(settings)
}

/// Ten to this power.
fn power_of_ten(exponent: u8) -> u128
    requires { exponent < 23 }
    ensures value { result ≡ 10 ^ exponent }
    ensures positive { 0 < result }
{
    match exponent {
        0 => 1,
        1 => 10,
        2 => 100,
        3 => 1_000,
        4 => 10_000,
        5 => 100_000,
        6 => 1_000_000,
        7 => 10_000_000,
        8 => 100_000_000,
        9 => 1_000_000_000,
        10 => 10_000_000_000,
        11 => 100_000_000_000,
        12 => 1_000_000_000_000,
        13 => 10_000_000_000_000,
        14 => 100_000_000_000_000,
        15 => 1_000_000_000_000_000,
        16 => 10_000_000_000_000_000,
        17 => 100_000_000_000_000_000,
        18 => 1_000_000_000_000_000_000,
        19 => 10_000_000_000_000_000_000,
        20 => 100_000_000_000_000_000_000,
        21 => 1_000_000_000_000_000_000_000,
        _ => 10_000_000_000_000_000_000_000,
    }
}

/// A time stamp of this resolution in milliseconds.
#[tactic(auto, using(crate::proofs::Times::fine))]
fn stamp_millis(resolution: u8, stamp: u64) -> u128
    ensures value { result ≡ stamp_millis resolution stamp }
    ensures bound { result < 2 ^ 64 * 1000 }
{
    match resolution {
        6 => u128::from(stamp / 1_000),
        9 => u128::from(stamp / 1_000_000),
        0..=22 => u128::from(stamp) * 1_000 / power_of_ten(resolution),
        23..=127 => 0,
        _ => (u128::from(stamp) * 1_000) >> (resolution - 128),
    }
}

/// A time that is moved by an offset, in milliseconds since 1970. `None` if it is out of range.
fn moved(millis: u128, offset: u64) -> Option<u64>
    requires { millis < 2 ^ 64 * 1000 }
    ensures value { result ≡ moved millis offset }
    ensures bound { IfSome result (λ moment. moment ≤ latest_moment) }
{
    let moment = if offset < 1 << 63 {
        millis + u128::from(offset) * 1_000
    } else {
        let back = (u128::from(u64::MAX - offset) + 1) * 1_000;
        if millis < back {
            return None;
        }
        millis - back
    };
    if moment > LATEST_MOMENT {
        return None;
    }
    Some(moment as u64)
}

/// The time of a stamp on an interface, in milliseconds since 1970. `None` if it is before 1970 or
/// after 4,294,971,589,967 ms.
pub fn moment_of(interface: Interface, stamp: u64) -> Option<u64>
    ensures value { result ≡ moment_of interface stamp }
    ensures bound { IfSome result (λ moment. moment ≤ latest_moment) }
{
    moved(stamp_millis(interface.resolution, stamp), interface.offset)
}
