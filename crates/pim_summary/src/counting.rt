//! Counts the events of a capture.

ghost use Rattle.std.specs.Prelude.{◌≡◌, ◌<◌, ◌≤◌, ◌^◌, length};
ghost use Rattle.pim_capture.specs.Capture.{most_captured};
ghost use Rattle.pim_capture.specs.Next.{event_seen, PayloadLiesIn};
ghost use Rattle.pim_capture.specs.Seen.{ip_seen, LiesIn};
ghost use Rattle.pim_frame.specs.Frame as frame;
ghost use Rattle.pim_frame.specs.Seen.{content_of};
ghost use Rattle.pim_lines.specs.AnyAddress.{address_in};
ghost use Rattle.pim_summary.specs.Messages.{join_prune, body_said, said_in};
ghost use Rattle.pim_summary.specs.Lists.{Ascends};
ghost use Rattle.pim_summary.specs.Routers.{router_after, upstream_address};
ghost use Rattle.pim_summary.specs.Summary.{no_summary, earlier, later, next_place, first_place};
ghost use Rattle.pim_summary.specs.Summary.{with_record, with_sender, with_join_prune, first_of};
ghost use Rattle.pim_summary.specs.Summary.{with_fault, with_reading, with_packet, with_message};
ghost use Rattle.pim_summary.specs.Summary.{with_packet_link, with_skipped_record};
ghost use Rattle.pim_summary.specs.Summary.{with_skipped, summary_after, Counts};
ghost use Rattle.pim_summary.specs.Summary.{without_packet, with_next_file, with_link_of};
ghost use Rattle.pim_summary.specs.Summary.{said_to};

use crate::facts::{FirstMalformed, HelloFacts, Malformed, SkippedFacts, Summary, UpstreamFacts};
use crate::links::{count_link, link_upstream};
use crate::listed::{keeps, make_room, spare};
use crate::routers::{MOST_ROUTERS, OfSender, hear_sender, one_more};
use crate::skipped::{count_why, skipped_time};
use crate::upstreams::{MOST_UPSTREAMS, count_sets, count_upstream};
use pim_addr::{Family, V4, V6};
use pim_capture::{Event, Ip, Link, RecordPlace, Why};
use pim_frame::{Body, open};
use pim_hello::Hello;
use pim_jp::JpView;
use pim_lines::{AnyAddress, any_address};
use std::alloc::{AllocError, Global};

/// The earliest time, after a record with this time.
fn earlier(first: Option<u64>, time: Option<u64>) -> Option<u64>
    ensures { result ≡ earlier first time }
{
    match (first, time) {
        (Some(first), Some(time)) => Some(first.min(time)),
        (None, Some(time)) => Some(time),
        (_, None) => first,
    }
}

/// The latest one.
fn later(last: Option<u64>, time: Option<u64>) -> Option<u64>
    ensures { result ≡ later last time }
{
    match (last, time) {
        (Some(last), Some(time)) => Some(last.max(time)),
        (None, Some(time)) => Some(time),
        (_, None) => last,
    }
}

/// The first of the messages with a fault, after one more.
fn first_of(
    first: Option<FirstMalformed>,
    place: RecordPlace,
    fault: Malformed,
) -> Option<FirstMalformed>
    ensures { result ≡ first_of first place fault }
{
    match first {
        Some(first) => Some(first),
        None => Some(FirstMalformed { place, fault }),
    }
}

/// What a Join/Prune to this upstream neighbour says of its sender.
fn said_to(upstreams: &[UpstreamFacts], to: AnyAddress) -> OfSender
    requires { Ascends upstream_address upstreams.now }
    ensures { result ≡ said_to to upstreams.now }
{
    if keeps(upstreams, MOST_UPSTREAMS, to) {
        OfSender::JoinPruneTo(to)
    } else {
        OfSender::Nothing
    }
}

impl Summary {
    /// The summary of no events.
    pub fn new(alloc: Global) -> Summary
        ensures { result ≡ no_summary }
    {
        Summary {
            place: RecordPlace { file: 0, record: 1 },
            records: 0,
            earliest: None,
            latest: None,
            messages: 0,
            malformed: 0,
            first_malformed: None,
            links: Vec::new(alloc),
            has_more_links: false,
            routers: Vec::new(alloc),
            has_more_routers: false,
            upstreams: Vec::new(alloc),
            has_more_upstreams: false,
            rps: Vec::new(alloc),
            has_more_rps: false,
            skipped: SkippedFacts {
                cut: 0,
                not_ip: 0,
                bad_header: 0,
                not_pim: 0,
                fragment: 0,
                no_time: 0,
                link_type: 0,
                not_chosen: 0,
                copy: 0,
                cut_short: 0,
            },
            after_message: false,
            after_upstream: None,
        }
    }

    /// Counts a record with this time.
    fn count_record(&mut self, time: Option<u64>)
        ensures { self.new ≡ with_record time self.old }
    {
        self.place.record = one_more(self.place.record);
        self.records = one_more(self.records);
        self.earliest = earlier(self.earliest, time);
        self.latest = later(self.latest, time);
    }

    /// Counts a message with this first fault.
    fn count_fault(&mut self, fault: Malformed)
        ensures { self.new ≡ with_fault fault self.old }
    {
        self.malformed = one_more(self.malformed);
        self.first_malformed = first_of(self.first_malformed, self.place, fault);
        self.after_message = false;
        self.after_upstream = None;
    }

    /// Counts a message that is no Join/Prune.
    fn count_message(&mut self, source: AnyAddress, said: OfSender) -> Result<(), AllocError>
        ensures { Counts result self.old self.new
            (with_sender source (router_after said) self.old) }
    {
        let spare = spare(&mut self.routers, MOST_ROUTERS, source)?;
        let heard = hear_sender(&mut self.routers, source, spare, said);
        self.messages = one_more(self.messages);
        self.has_more_routers |= !heard.is_kept;
        self.after_message = true;
        self.after_upstream = None;
        Ok(())
    }

    /// Counts a Join/Prune.
    fn count_join_prune<F: Family>(
        &mut self,
        source: AnyAddress,
        message: &JpView<'_, F>,
    ) -> Result<(), AllocError>
        ensures { Counts result self.old self.new
            (with_message source (join_prune F.family message.now) self.old) }
    {
        let to = any_address::<F>(message.upstream());
        let router = spare(&mut self.routers, MOST_ROUTERS, source)?;
        let upstream = spare(&mut self.upstreams, MOST_UPSTREAMS, to)?;
        make_room(&mut self.rps)?;
        let said = said_to(&self.upstreams, to);
        let heard = hear_sender(&mut self.routers, source, router, said);
        let is_kept = count_upstream::<F>(
            &mut self.upstreams,
            to,
            upstream,
            heard.is_first,
            message,
        );
        count_sets::<F>(&mut self.rps, &mut self.has_more_rps, message.sets());
        self.messages = one_more(self.messages);
        self.has_more_routers |= !heard.is_kept;
        self.has_more_upstreams |= !is_kept;
        self.after_message = true;
        self.after_upstream = Some(to);
        Ok(())
    }

    /// Reads and counts the body of a Hello.
    fn read_hello<F: Family>(&mut self, source: AnyAddress, body: &[u8]) -> Result<(), AllocError>
        ensures { Counts result self.old self.new
            (with_reading source (body_said F.family (frame.hello body.now)) self.old) }
    {
        match Hello::<F>::read(body) {
            Ok(hello) => {
                let facts = HelloFacts {
                    holdtime: hello.holdtime,
                    priority: hello.priority,
                    generation: hello.generation,
                };
                self.count_message(source, OfSender::Hello(facts))
            }
            Err(fault) => {
                self.count_fault(Malformed::Hello(fault));
                Ok(())
            }
        }
    }

    /// Reads and counts the body of a Join/Prune.
    fn read_join_prune<F: Family>(
        &mut self,
        source: AnyAddress,
        body: &[u8],
    ) -> Result<(), AllocError>
        ensures { Counts result self.old self.new
            (with_reading source (body_said F.family (frame.join_prune body.now)) self.old) }
    {
        match JpView::<F>::read(body) {
            Ok(message) => self.count_join_prune::<F>(source, &message),
            Err(fault) => {
                self.count_fault(Malformed::JoinPrune(fault));
                Ok(())
            }
        }
    }

    /// Reads and counts the body of a message.
    fn read_body<F: Family>(&mut self, source: AnyAddress, body: Body<'_>) -> Result<(), AllocError>
        ensures { Counts result self.old self.new
            (with_reading source (body_said F.family (content_of body.entry)) self.old) }
    {
        match body {
            Body::Hello(bytes) => self.read_hello::<F>(source, bytes),
            Body::JoinPrune(bytes) => self.read_join_prune::<F>(source, bytes),
            Body::Other(_) => self.count_message(source, OfSender::Nothing),
        }
    }

    /// Reads and counts a message.
    fn read<F: Family>(
        &mut self,
        source: F::Addr,
        destination: F::Addr,
        payload: &[u8],
    ) -> Result<(), AllocError>
        requires { length payload.now < 2 ^ 32 }
        ensures { Counts result self.old self.new
            (with_reading (address_in F.family (F.bytes_of source)) (said_in F.family
            (F.bytes_of source) (F.bytes_of destination) payload.now) self.old) }
    {
        let from = any_address::<F>(source);
        match open::<F>(source, destination, payload) {
            Ok(body) => self.read_body::<F>(from, body),
            Err(fault) => {
                self.count_fault(Malformed::Frame(fault));
                Ok(())
            }
        }
    }

    /// Reads and counts the message of a packet.
    fn read_packet(&mut self, ip: &Ip, bytes: &[u8]) -> Result<(), AllocError>
        requires payload { LiesIn bytes.now ip.now }
        requires bytes { length bytes.now ≤ most_captured }
        ensures { Counts result self.old self.new
            (with_packet (ip_seen bytes.now ip.now) self.old) }
    {
        match ip {
            Ip::V4 {
                source,
                destination,
                ..
            } => self.read::<V4>(*source, *destination, ip.payload(bytes)),
            Ip::V6 {
                source,
                destination,
                ..
            } => self.read::<V6>(*source, *destination, ip.payload(bytes)),
        }
    }

    /// Counts the link of the packet before, if that is a message.
    fn count_link(&mut self, link: Link) -> Result<(), AllocError>
        ensures { Counts result self.old self.new (with_packet_link link self.old) }
    {
        if !self.after_message {
            return Ok(());
        }
        let is_kept = count_link(&mut self.links, link)?;
        self.has_more_links |= !is_kept;
        link_upstream(&mut self.upstreams, self.after_upstream, link);
        self.after_message = false;
        Ok(())
    }

    /// Counts a record that is skipped for this reason.
    fn count_skipped_record(&mut self, why: Why, millis: u64)
        ensures { self.new ≡ with_skipped_record why millis self.old }
    {
        count_why(&mut self.skipped, why);
        self.after_message = false;
        self.after_upstream = None;
        self.count_record(skipped_time(why, millis));
    }

    /// Goes on with the next file.
    fn go_on(&mut self)
        ensures { self.new ≡ with_next_file self.old }
    {
        self.place = RecordPlace {
            file: one_more(self.place.file),
            record: 1,
        };
        self.after_message = false;
        self.after_upstream = None;
    }

    /// Counts a record that is skipped for this reason, or what is no record.
    fn count_skipped(&mut self, why: Why, millis: u64) -> Result<(), AllocError>
        ensures { Counts result self.old self.new (with_skipped why millis self.old) }
    {
        match why {
            Why::NextFile => self.go_on(),
            Why::OfLink(link) => return self.count_link(link),
            Why::Incomplete(_) => {}
            _ => self.count_skipped_record(why, millis),
        }
        Ok(())
    }

    /// Counts an event of a capture. `bytes` are those of its record.
    ///
    /// # Errors
    /// Memory could not be allocated. The summary is as before.
    pub fn count(&mut self, event: &Event, bytes: &[u8]) -> Result<(), AllocError>
        requires payload { PayloadLiesIn bytes.now event.now }
        requires bytes { length bytes.now ≤ most_captured }
        ensures { Counts result self.old self.new
            (summary_after self.old (event_seen bytes.now event.now)) }
    {
        match event {
            Event::Packet { millis, ip } => {
                self.read_packet(ip, bytes)?;
                self.count_record(Some(*millis));
                Ok(())
            }
            Event::Skipped { millis, why } => self.count_skipped(*why, *millis),
            Event::End => Ok(()),
        }
    }
}
