//! The commands of a session.

use pim_lines::AnyAddress;

/// A port with its delays.
#[derive(Clone, Copy, Debug, PartialEq, Eq)]
pub struct PortRow {
    /// The address of the port.
    pub address: AnyAddress,
    /// The propagation delay in milliseconds, up to 32,767.
    pub propagation: u16,
    /// The override interval in milliseconds.
    pub override_ms: u16,
}

/// A row of the route table.
#[derive(Clone, Copy, Debug, PartialEq, Eq)]
pub struct RouteRow {
    /// The prefix.
    pub prefix: AnyAddress,
    /// The length of the prefix in bits, up to 10^15. The table refuses one above its address's.
    pub length: u64,
    /// The address that the prefix leads to.
    pub to: AnyAddress,
}

/// A packet that arrived.
#[derive(Clone, Copy, Debug, PartialEq, Eq)]
pub struct Packet<'a> {
    /// The number of the port, up to 10^15.
    pub port: u64,
    /// The source address of the packet.
    pub source: AnyAddress,
    /// The destination address of the packet.
    pub destination: AnyAddress,
    /// The bytes of the PIM message: two hexadecimal digits for each, in either case.
    pub hex: &'a [u8],
}

/// Where a message that is given as a text came from: the words of `from`.
#[derive(Clone, Copy, Debug, PartialEq, Eq)]
pub struct Sender {
    /// The number of the port, up to 10^15.
    pub port: u64,
    /// The source address of the packet.
    pub source: AnyAddress,
    /// The destination address of the packet, if it is given.
    pub destination: Option<AnyAddress>,
}

/// How messages to an upstream neighbour are written.
#[derive(Clone, Copy, Debug, PartialEq, Eq)]
pub struct AnyWriting {
    /// The upstream neighbour.
    pub upstream: AnyAddress,
    /// The own address.
    pub own: AnyAddress,
    /// The holdtime in seconds, from 99 on.
    pub holdtime: u16,
    /// The most bytes of a message, 70 to 65,000.
    pub budget: usize,
}

/// What is kept under a name.
#[derive(Clone, Copy, Debug, PartialEq, Eq)]
pub struct KeptWhat<'a> {
    /// The name, not empty.
    pub name: &'a [u8],
    /// The upstream neighbour of which it is asked.
    pub upstream: AnyAddress,
}

/// What was kept under a name, and how messages are written.
#[derive(Clone, Copy, Debug, PartialEq, Eq)]
pub struct Comparison<'a> {
    /// The name, not empty.
    pub name: &'a [u8],
    /// How messages are written.
    pub writing: AnyWriting,
}

/// A command of a session.
#[derive(Clone, Copy, Debug, PartialEq, Eq)]
pub enum Command<'a> {
    /// `port ADDRESS [delays PROPAGATION OVERRIDE]`
    Port(PortRow),
    /// `rp ADDRESS/LENGTH ADDRESS`
    Rp(RouteRow),
    /// `via ADDRESS/LENGTH ADDRESS`
    Via(RouteRow),
    /// `limit N`
    Limit(usize),
    /// `start`
    Start,
    /// `run MS`
    Run(u64),
    /// `packet P SRC DST HEX`
    Packet(Packet<'a>),
    /// `now`
    Now,
    /// `next`
    Next,
    /// `state`
    State,
    /// `wants`
    Wants,
    /// `neighbours`
    Neighbours,
    /// `messages UPSTREAM OWN [holdtime S] [budget N]`
    Messages(AnyWriting),
    /// `keep NAME UPSTREAM`
    Keep(KeptWhat<'a>),
    /// `change NAME UPSTREAM OWN [holdtime S] [budget N]`
    Change(Comparison<'a>),
    /// `same NAME UPSTREAM OWN [holdtime S] [budget N]`
    Same(Comparison<'a>),
    /// `reset`
    Reset,
}

/// What is wrong with the words of a line.
#[derive(Clone, Copy, Debug, PartialEq, Eq)]
pub enum WordsFault<'a> {
    /// The first wrong word: it has another form, is out of range, or is one too many. The
    /// command itself if a word is missing at the end.
    Word(&'a [u8]),
    /// The first wrong word: it has the right form, but its address can't be read.
    Address(&'a [u8]),
    /// The digits of a message are odd in number or have another character among them.
    Hex,
}
