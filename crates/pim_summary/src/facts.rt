//! What a summary knows of a capture.

use pim_capture::{Link, RecordPlace};
use pim_frame::FrameFault;
use pim_hello::HelloFault;
use pim_jp::JpFault;
use pim_lines::AnyAddress;
use std::marker::Model;

/// A link of PIM messages.
#[derive(Clone, Copy, Debug, PartialEq, Eq)]
pub struct LinkFacts {
    /// The link.
    pub link: Link,
    /// How many messages without a fault it has.
    pub messages: u64,
}

/// The options of a Hello that a summary shows (RFC 7761, 4.9.2). A part is `None` if the Hello
/// lacks the option.
#[derive(Clone, Copy, Debug, PartialEq, Eq)]
pub struct HelloFacts {
    /// Holdtime, in seconds.
    pub holdtime: Option<u16>,
    /// DR Priority.
    pub priority: Option<u32>,
    /// Generation ID.
    pub generation: Option<u32>,
}

/// The Join/Prune messages of a router to an upstream neighbour.
#[derive(Clone, Copy, Debug, PartialEq, Eq)]
pub struct SentFacts {
    /// The upstream neighbour.
    pub to: AnyAddress,
    /// How many they are.
    pub messages: u64,
}

/// The source of messages without a fault.
#[derive(Debug, Drop)]
pub struct RouterFacts {
    /// Its address.
    pub address: AnyAddress,
    /// How many Hellos it sent.
    pub hellos: u64,
    /// The last of them.
    pub last_hello: Option<HelloFacts>,
    /// The last Generation ID that it sent.
    pub generation: Option<u32>,
    /// How often its Generation ID changed.
    pub restarts: u64,
    /// The upstream neighbours to which it sent Join/Prune messages, addresses ascending: of those
    /// that a summary keeps.
    pub sent: Vec<SentFacts>,
}

impl Model for RouterFacts {
    ghost use Rattle.std.specs.Prelude.{◌≤◌, vec_capacity};
    ghost use Rattle.pim_summary.specs.declared.facts.SentFacts.{SentFacts};
    ghost use Rattle.pim_summary.specs.Facts.{Router};
    ghost use Rattle.pim_summary.specs.Lists.{Ascends};

    ghost Value = { Router };

    ghost view = { λ router. record {
      address = router.address;
      hellos = router.hellos;
      last_hello = router.last_hello;
      generation = router.generation;
      restarts = router.restarts;
      sent = router.sent.items;
    } };

    // It has room for all upstream neighbours that a summary keeps.
    ghost invariant = { λ router. (64 ≤ vec_capacity router.sent)
        × Ascends (λ (facts : SentFacts). facts.to) router.sent.items };
}

/// The Joins(\*,G) that name an RP.
#[derive(Clone, Copy, Debug, PartialEq, Eq)]
pub struct RpFacts {
    /// The RP.
    pub address: AnyAddress,
    /// How many they are.
    pub joins: u64,
}

/// The upstream neighbour of Join/Prune messages without a fault (RFC 7761, 4.9.5).
#[derive(Debug, Drop)]
pub struct UpstreamFacts {
    /// Its address.
    pub address: AnyAddress,
    /// How many messages name it.
    pub messages: u64,
    /// How many of the routers that a summary keeps sent these.
    pub senders: u64,
    /// How many entries their lists of joined sources have.
    pub joins: u64,
    /// How many entries their lists of pruned sources have.
    pub prunes: u64,
    /// The number of group sets of the message that has most.
    pub most_groups: u8,
    /// The link of the first message, if it was reported.
    pub link: Option<Link>,
    /// The RPs that Joins(\*,G) to it name, addresses ascending, at most 64.
    pub rps: Vec<RpFacts>,
}

impl Model for UpstreamFacts {
    ghost use Rattle.std.specs.Prelude.{◌≤◌, vec_capacity};
    ghost use Rattle.pim_summary.specs.declared.facts.RpFacts.{RpFacts};
    ghost use Rattle.pim_summary.specs.Facts.{Upstream};
    ghost use Rattle.pim_summary.specs.Lists.{Ascends};

    ghost Value = { Upstream };

    ghost view = { λ upstream. record {
      address = upstream.address;
      messages = upstream.messages;
      senders = upstream.senders;
      joins = upstream.joins;
      prunes = upstream.prunes;
      most_groups = upstream.most_groups;
      link = upstream.link;
      rps = upstream.rps.items;
    } };

    // It has room for all RPs that are listed.
    ghost invariant = { λ upstream. (64 ≤ vec_capacity upstream.rps)
        × Ascends (λ (facts : RpFacts). facts.address) upstream.rps.items };
}

/// Why a message is malformed.
#[derive(Clone, Copy, Debug, PartialEq, Eq)]
pub enum Malformed {
    /// Its PIM header or checksum.
    Frame(FrameFault),
    /// Its body, of a Hello.
    Hello(HelloFault),
    /// Its body, of a Join/Prune.
    JoinPrune(JpFault),
}

/// The first message with a fault.
#[derive(Clone, Copy, Debug, PartialEq, Eq)]
pub struct FirstMalformed {
    /// The place of the record that has it.
    pub place: RecordPlace,
    /// Its first fault.
    pub fault: Malformed,
}

/// The number of skipped records, by reason.
#[derive(Clone, Copy, Debug, PartialEq, Eq)]
pub struct SkippedFacts {
    /// Fewer bytes were captured than the headers name.
    pub cut: u64,
    /// Neither IPv4 nor IPv6.
    pub not_ip: u64,
    /// A bad IP header.
    pub bad_header: u64,
    /// Another protocol than PIM.
    pub not_pim: u64,
    /// A fragment of a packet.
    pub fragment: u64,
    /// Without a time.
    pub no_time: u64,
    /// Of a link type that isn't read.
    pub link_type: u64,
    /// Of another link than the chosen one.
    pub not_chosen: u64,
    /// A copy of another packet.
    pub copy: u64,
    /// Its file ends inside it.
    pub cut_short: u64,
}

/// A summary of a capture. Each count stops at 2^64 - 1.
#[derive(Debug, Drop)]
pub struct Summary {
    /// The place of the next record: the number of its file from 0, and its number there from 1.
    pub place: RecordPlace,
    /// How many records were counted, in all files.
    pub records: u64,
    /// The earliest time of a record, in milliseconds since 1970.
    pub earliest: Option<u64>,
    /// The latest one.
    pub latest: Option<u64>,
    /// How many PIM messages without a fault it has.
    pub messages: u64,
    /// How many PIM messages have a fault.
    pub malformed: u64,
    /// The first of them.
    pub first_malformed: Option<FirstMalformed>,
    /// The links of messages, in the order met, at most 16.
    pub links: Vec<LinkFacts>,
    /// Messages have more links.
    pub has_more_links: bool,
    /// The sources of messages, addresses ascending, IPv4 first, at most 1,024.
    pub routers: Vec<RouterFacts>,
    /// Messages have more sources.
    pub has_more_routers: bool,
    /// The upstream neighbours of Join/Prune messages, in the same order, at most 64.
    pub upstreams: Vec<UpstreamFacts>,
    /// Messages have more upstream neighbours.
    pub has_more_upstreams: bool,
    /// The RPs of Joins(\*,G), in the same order, at most 64.
    pub rps: Vec<RpFacts>,
    /// Joins(\*,G) name more RPs.
    pub has_more_rps: bool,
    /// The skipped records.
    pub skipped: SkippedFacts,
    /// The packet before this is a message without a fault.
    pub after_message: bool,
    /// The upstream neighbour that it names, if it is a Join/Prune.
    pub after_upstream: Option<AnyAddress>,
}

impl Model for Summary {
    ghost use Rattle.pim_summary.specs.declared.facts.RpFacts.{RpFacts};
    ghost use Rattle.pim_summary.specs.Facts.{Router, Upstream, Summary};
    ghost use Rattle.pim_summary.specs.Lists.{Ascends};

    ghost Value = { Summary };

    ghost view = { λ summary. record {
      place = summary.place;
      records = summary.records;
      earliest = summary.earliest;
      latest = summary.latest;
      messages = summary.messages;
      malformed = summary.malformed;
      first_malformed = summary.first_malformed;
      links = summary.links.items;
      has_more_links = summary.has_more_links;
      routers = summary.routers.items;
      has_more_routers = summary.has_more_routers;
      upstreams = summary.upstreams.items;
      has_more_upstreams = summary.has_more_upstreams;
      rps = summary.rps.items;
      has_more_rps = summary.has_more_rps;
      skipped = summary.skipped;
      after_message = summary.after_message;
      after_upstream = summary.after_upstream;
    } };

    ghost invariant = { λ summary.
        Ascends (λ (router : Router). router.address) summary.routers.items
        × Ascends (λ (upstream : Upstream). upstream.address) summary.upstreams.items
        × Ascends (λ (facts : RpFacts). facts.address) summary.rps.items };
}
