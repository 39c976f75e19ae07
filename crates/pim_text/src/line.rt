//! The lines of the text of a message, and what a text asks for next.

use pim_jp::Entry;
use pim_lines::AnyAddress;

/// What the first line of a Join/Prune message says.
#[derive(Clone, Copy, Debug, PartialEq, Eq)]
pub struct Head {
    /// The upstream neighbour.
    pub upstream: AnyAddress,
    /// The holdtime in seconds.
    pub holdtime: u16,
    /// The number of group sets.
    pub sets: u8,
}

/// What the first line of a group set says.
#[derive(Clone, Copy, Debug, PartialEq, Eq)]
pub struct SetLine {
    /// The group.
    pub group: AnyAddress,
    /// The number of joined entries.
    pub joined: u16,
    /// The number of pruned entries.
    pub pruned: u16,
}

/// What the line of a LAN Prune Delay option says.
#[derive(Clone, Copy, Debug, PartialEq, Eq)]
pub struct DelayLine {
    /// The T bit.
    pub t: bool,
    /// The propagation delay in milliseconds.
    pub propagation: u16,
    /// The override interval in milliseconds.
    pub override_ms: u16,
}

/// A line of the text of a message.
#[derive(Clone, Copy, Debug, PartialEq, Eq)]
pub enum Line {
    /// `hello`
    Hello,
    /// `holdtime N`
    Holdtime(u16),
    /// `lan-prune-delay t T propagation N override N`
    Delays(DelayLine),
    /// `dr-priority N`
    Priority(u32),
    /// `generation N`
    Generation(u32),
    /// `address A`
    Secondary(AnyAddress),
    /// `join/prune upstream A holdtime N sets N`
    Head(Head),
    /// `set A joined N pruned N`
    Set(SetLine),
    /// `join star A`, `join source A` or `join rpt A`
    Join(Entry<AnyAddress>),
    /// `prune star A`, `prune source A` or `prune rpt A`
    Prune(Entry<AnyAddress>),
}

/// What is still expected of a Join/Prune message.
#[derive(Clone, Copy, Debug, PartialEq, Eq)]
pub struct ExpectedBody {
    /// The joined entries of this set that are left.
    pub joined: u16,
    /// The pruned entries of this set that are left.
    pub pruned: u16,
    /// The sets after this one.
    pub sets: u8,
}

/// What the lines so far ask for.
#[derive(Clone, Copy, Debug, PartialEq, Eq)]
pub enum Expected {
    /// The first line of a message.
    Message,
    /// Options of a Hello, each optional, from the one with this place on: 0 is the holdtime, 4 an
    /// address.
    Options(u8),
    /// The rest of a Join/Prune message.
    Body(ExpectedBody),
}

/// A line that was read, and what the lines ask for after it.
#[derive(Clone, Copy, Debug, PartialEq, Eq)]
pub struct LineStep {
    /// The line.
    pub line: Line,
    /// What is asked for next.
    pub next: Expected,
}

/// How far a text was read.
#[derive(Clone, Copy, Debug, PartialEq, Eq)]
pub struct TextProgress {
    /// What the lines so far ask for.
    pub expected: Expected,
    /// Whether each address so far is of IPv4.
    pub all_ipv4: bool,
    /// Whether each address so far is of IPv6.
    pub all_ipv6: bool,
}

/// What a text states: the kind of the message, and the families of its addresses.
#[derive(Clone, Copy, Debug, PartialEq, Eq)]
pub struct Stated {
    /// Whether it is a Hello, else a Join/Prune message.
    pub is_hello: bool,
    /// Whether each address is of IPv4. True where the text has none.
    pub all_ipv4: bool,
    /// Whether each address is of IPv6. True where the text has none.
    pub all_ipv6: bool,
}
