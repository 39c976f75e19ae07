//! What a command asks for.
//!
//! The ranges below are those of a plan.

use crate::fault::RouterSide;
use pim_capture::{InterfaceChoice, Vlan};
use pim_time::{Time, TimeForm};

/// The link of a port, in a capture of any container: the packets that are taken are of it.
#[derive(Clone, Copy, Debug, PartialEq, Eq)]
pub struct LinkWord {
    /// The VLAN. `None` is each, as long as all packets have one.
    pub vlan: Option<Vlan>,
    /// The interface, by its name or its number. `None` is each, as long as all packets have one.
    pub interface: Option<InterfaceChoice>,
}

/// A port of a router, which a word of the command line names.
#[derive(Clone, Copy, Debug, PartialEq, Eq)]
pub struct Port<'a, A> {
    /// The router of the port: `RouterSide::A` if the command has one router.
    pub side: RouterSide,
    /// The router's address on the port.
    pub address: A,
    /// The name of the file with the capture of the port.
    pub file: &'a str,
    /// The whole word.
    pub word: &'a str,
    /// The port's link, if its file is read as any container. `None` reads a classic capture.
    pub link: Option<LinkWord>,
}

/// A further file of a port: its capture goes on in it.
#[derive(Clone, Copy, Debug, PartialEq, Eq)]
pub struct More<'a> {
    /// The number of its port among the ports, from 0.
    pub port: usize,
    /// The name of the file.
    pub file: &'a str,
    /// The whole word.
    pub word: &'a str,
}

/// The routers of a command with captures, and how they run.
#[derive(Debug, Drop)]
pub struct Captures<'a, A> {
    /// The RP of all groups, if one is given.
    pub rp: Option<A>,
    /// The name of the file of routes, if one is given.
    pub routes: Option<&'a str>,
    /// The most records that each port may hold: 1 to 100,000.
    pub limit: usize,
    /// The time to run after the last record, in milliseconds: 0 to 1,000,000,000.
    pub after_ms: u64,
    /// The time at which the run ends, if one is given: below 10^15 milliseconds. It counts in
    /// place of `after_ms`.
    pub at: Option<Time>,
    /// The ports of one or both routers, in the order of the words.
    pub ports: Vec<Port<'a, A>>,
    /// The further files of ports, in the order of the words: at most 4,096.
    pub more: Vec<More<'a>>,
}

/// The writer of Join/Prune messages.
#[derive(Clone, Copy, Debug, PartialEq, Eq)]
pub struct Writing<A> {
    /// The upstream neighbour to which the messages go.
    pub upstream: A,
    /// The source address of the messages.
    pub own: A,
    /// The holdtime of the messages, in seconds: 99 to 65,535.
    pub holdtime: u16,
    /// The most bytes of a message: 70 to 65,000.
    pub budget: usize,
}

/// The audit of a router: whom the router asks, what its own links want, and when it is late.
#[derive(Clone, Copy, Debug, PartialEq, Eq)]
pub struct Auditing<'a, A> {
    /// The upstream neighbour that the router asks.
    pub upstream: A,
    /// The name of the file of local joins, if one is given.
    pub local: Option<&'a str>,
    /// How long an entry may be due before it is late, in milliseconds: 0 to 1,000,000,000.
    pub grace_ms: u64,
}

/// What a trace or an audit shows of its events, and how.
#[derive(Debug, Drop)]
pub struct Tracing<'a, A> {
    /// The time before which nothing is shown, if one is given.
    pub from: Option<Time>,
    /// The groups that are shown, at most 64. All are if there are none.
    pub groups: Vec<A>,
    /// The sources that are shown, at most 64. All are if there are none. An audit has no option
    /// for them.
    pub sources: Vec<A>,
    /// How moments are written as text.
    pub form: TimeForm,
    /// Whether what changes nothing is shown, too. An audit has no option for it.
    pub all: bool,
    /// Whether the records and the demand at the end are shown, too. An audit has no option for it.
    pub state: bool,
    /// Whether JSON is written in place of text.
    pub json: bool,
    /// The names of the ports, in their order. A port without a name goes under its number.
    pub names: Vec<Option<&'a str>>,
}

/// What a command asks for.
#[derive(Debug, Drop)]
pub enum Task<'a, A> {
    /// To read one message and print it.
    Check {
        /// The IP source address of the message.
        src: A,
        /// The IP destination address of the message.
        dst: A,
    },
    /// To read one message and print it. If it has a fault, to print what precedes the fault, and
    /// the fault.
    CheckPartial {
        /// The IP source address of the message.
        src: A,
        /// The IP destination address of the message.
        dst: A,
    },
    /// To write the bytes of the message that a text states.
    Build {
        /// The IP source address of the message.
        src: A,
        /// The IP destination address of the message.
        dst: A,
    },
    /// To report the packets of a router's captures and its state after them.
    Replay(Captures<'a, A>),
    /// To print each change of a router's machines, in time, with its cause.
    Trace(Captures<'a, A>, Tracing<'a, A>),
    /// To report whether a router asks its upstream neighbour for what it has to.
    Audit(Captures<'a, A>, Auditing<'a, A>, Tracing<'a, A>),
    /// To report whether two routers want the same traffic.
    Same(Captures<'a, A>, Writing<A>),
    /// To print the messages that make a fresh router want what this router wants.
    Mirror(Captures<'a, A>, Writing<A>),
    /// To write the bytes of the messages by which a router asks its upstream neighbour.
    Emit(Captures<'a, A>, Writing<A>),
    /// To print the messages that move an upstream neighbour from the demand of router a to that of
    /// router b.
    Change(Captures<'a, A>, Writing<A>),
}

/// A session, or a task whose addresses are all of one family.
#[derive(Debug, Drop)]
pub enum CommandPlan<'a> {
    /// All addresses are IPv4.
    V4(Task<'a, [u8; 4]>),
    /// All addresses are IPv6.
    V6(Task<'a, [u8; 16]>),
    /// To answer the commands of a session. Its words have no addresses.
    Session,
}

/// The commands that ask for a task: all but `session`.
#[derive(Clone, Copy, Debug, PartialEq, Eq)]
pub enum CommandKind {
    /// `check`
    Check,
    /// `build`
    Build,
    /// `replay`
    Replay,
    /// `trace`
    Trace,
    /// `audit`
    Audit,
    /// `same`
    Same,
    /// `mirror`
    Mirror,
    /// `emit`
    Emit,
    /// `change`
    Change,
}
