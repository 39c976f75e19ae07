//! Counts of the records that were taken of a capture, and their places in its files.

ghost use Rattle.std.specs.Prelude.{◌≡◌, ◌≤◌, length};
ghost use Rattle.std.specs.Option.{option_map, IfSome};
ghost use Rattle.pim_capture.specs.Capture.{most_captured};
ghost use Rattle.pim_capture.specs.Next.{event_seen, PayloadLiesIn};
ghost use Rattle.pim_capture.specs.Seen.{ip_seen, LiesIn};
ghost use Rattle.pim_merge.specs.Tally.{no_tally, one_more, counted_if, first_place, runs_back};
ghost use Rattle.pim_merge.specs.Tally.{jumps, last_time, is_fragment, is_cut_frame};
ghost use Rattle.pim_merge.specs.Tally.{next_place, tally_by, in_next_file, tally_skipped};
ghost use Rattle.pim_merge.specs.Tally.{tally_after, tally_taken, tally_with, census_with};
ghost use Rattle.pim_merge.specs.Tally.{census_begun, tally_unchosen, tally_cut_short};

use crate::census::Census;
use crate::lane::time_of;
use crate::slots::add;
use crate::unchosen::{Unchosen, count_unchosen};
use pim_addr::Family;
use pim_capture::{Event, Incomplete, Ip, Link, RecordPlace, Why};

/// What was taken of a capture. Each count stops at 2^64 - 1.
#[derive(Clone, Copy, Debug, PartialEq, Eq)]
pub struct Tally {
    /// The number of the file of the next record, counted from 0.
    pub file: u64,
    /// The number of records of this file, also of those that are skipped.
    pub records: u64,
    /// The number of records that are skipped as fragments, where these aren't put together.
    pub fragments: u64,
    /// The packets whose fragments are incomplete, where these are put together.
    pub incomplete: Option<Incomplete>,
    /// The number of records that are skipped because fewer bytes were captured than their headers
    /// name.
    pub cut_frames: u64,
    /// The places of the first records inside which their files ended, and then free slots.
    pub cut_short: [Option<RecordPlace>; 16],
    /// The number of such records after those in slots.
    pub more_cut_short: u64,
    /// The records that aren't chosen, if there are any.
    pub unchosen: Option<Unchosen>,
    /// The time of the last record with a time, in milliseconds since 1970.
    pub last: Option<u64>,
    /// The place of the first record whose time is more than a second before `last`.
    pub ran_back: Option<RecordPlace>,
    /// The place of the first record whose time is more than a day after `last`.
    pub jumped: Option<RecordPlace>,
    /// Whom its Join/Prune messages name, if that is counted.
    pub census: Option<Census>,
}

/// One more. The count stops at 2^64 - 1.
pub(crate) fn one_more(count: u64) -> u64
    ensures { result ≡ one_more count }
{
    count.saturating_add(1)
}

/// The count after a record that it counts, or doesn't.
fn counted_if(holds: bool, count: u64) -> u64
    ensures { result ≡ counted_if holds count }
{
    if holds { one_more(count) } else { count }
}

/// The place of the first record of which something holds, after one more.
fn first_place(first: Option<RecordPlace>, holds: bool, place: RecordPlace) -> Option<RecordPlace>
    ensures { result ≡ first_place first holds place }
{
    match first {
        Some(first) => Some(first),
        None => { if holds { Some(place) } else { None } }
    }
}

/// Whether a time is more than a second before the one before it.
fn runs_back(last: Option<u64>, time: Option<u64>) -> bool
    ensures { result ≡ runs_back last time }
{
    match (last, time) {
        (Some(last), Some(time)) => 1000 < last.saturating_sub(time),
        _ => false,
    }
}

/// Whether a time is more than a day after the one before it.
fn jumps(last: Option<u64>, time: Option<u64>) -> bool
    ensures { result ≡ jumps last time }
{
    match (last, time) {
        (Some(last), Some(time)) => 86_400_000 < time.saturating_sub(last),
        _ => false,
    }
}

/// The last time after a record of this time.
fn last_time(last: Option<u64>, time: Option<u64>) -> Option<u64>
    ensures { result ≡ last_time last time }
{
    match time {
        Some(time) => Some(time),
        None => last,
    }
}

/// Whether this is the reason of a fragment.
fn is_fragment(why: Option<Why>) -> bool
    ensures { result ≡ is_fragment why }
{
    match why {
        Some(Why::Fragment) => true,
        _ => false,
    }
}

/// Whether this is the reason of a frame of which fewer bytes were captured than its headers name.
fn is_cut_frame(why: Option<Why>) -> bool
    ensures { result ≡ is_cut_frame why }
{
    match why {
        Some(Why::Cut) => true,
        _ => false,
    }
}

/// Counts the message of a packet, if there is a census.
fn count_names(census: &mut Option<Census>, ip: &Ip, bytes: &[u8])
    requires payload { LiesIn bytes.now ip.now }
    requires bytes { length bytes.now ≤ most_captured }
    ensures { census.new ≡ census_with census.old (ip_seen bytes.now ip.now) }
{
    match census {
        Some(census) => census.count(ip, bytes),
        None => {}
    }
}

/// Counts one more record of this time that is skipped for this reason, if there is one.
fn count_record(tally: &mut Tally, why: Option<Why>, time: Option<u64>)
    ensures { tally.new ≡ tally_by tally.old why time }
{
    let place = tally.next_place();
    tally.records = place.record;
    tally.fragments = counted_if(is_fragment(why), tally.fragments);
    tally.cut_frames = counted_if(is_cut_frame(why), tally.cut_frames);
    tally.ran_back = first_place(tally.ran_back, runs_back(tally.last, time), place);
    tally.jumped = first_place(tally.jumped, jumps(tally.last, time), place);
    tally.last = last_time(tally.last, time);
}

/// Counts one more record of this time that isn't chosen, with the link of its PIM packet, if it has
/// one.
fn count_unchosen_record(tally: &mut Tally, link: Option<Link>, time: Option<u64>)
    ensures { tally.new ≡ tally_unchosen tally.old link time }
{
    tally.unchosen = count_unchosen(tally.unchosen, link);
    count_record(tally, Some(Why::NotChosen(link)), time);
}

/// Counts one more record, inside which its file ends.
fn count_cut_short(tally: &mut Tally)
    ensures { tally.new ≡ tally_cut_short tally.old }
{
    let place = tally.next_place();
    let has_slot = add(&mut tally.cut_short, place);
    tally.more_cut_short = counted_if(!has_slot, tally.more_cut_short);
    count_record(tally, Some(Why::CutShort), None);
}

/// Goes on with the next file.
fn go_on(tally: &mut Tally)
    ensures { tally.new ≡ in_next_file tally.old }
{
    tally.file = one_more(tally.file);
    tally.records = 0;
}

/// Counts a record of this time that is skipped for this reason. The beginning of a file is no
/// record, nor is the link of a packet or a report of incomplete packets.
fn count_skipped(tally: &mut Tally, why: Why, time: Option<u64>)
    ensures { tally.new ≡ tally_skipped tally.old why time }
{
    match why {
        Why::NextFile => go_on(tally),
        Why::Incomplete(packets) => tally.incomplete = packets,
        Why::OfLink(_) => {}
        Why::NotChosen(link) => count_unchosen_record(tally, link, time),
        Why::CutShort => count_cut_short(tally),
        _ => count_record(tally, Some(why), time),
    }
}

/// Counts a packet of this time.
fn count_packet(tally: &mut Tally, ip: &Ip, bytes: &[u8], time: Option<u64>)
    requires payload { LiesIn bytes.now ip.now }
    requires bytes { length bytes.now ≤ most_captured }
    ensures { tally.new ≡ tally_by (tally_with tally.old (ip_seen bytes.now ip.now)) None time }
{
    count_names(&mut tally.census, ip, bytes);
    count_record(tally, None, time);
}

/// Counts this record, which has these bytes. The end leaves the tally.
fn count_event(tally: &mut Tally, event: &Event, bytes: &[u8])
    requires payload { PayloadLiesIn bytes.now event.now }
    requires bytes { length bytes.now ≤ most_captured }
    ensures { tally.new ≡ tally_after tally.old (event_seen bytes.now event.now) }
{
    match event {
        Event::Packet { ip, .. } => count_packet(tally, ip, bytes, time_of(event)),
        Event::Skipped { why, .. } => count_skipped(tally, *why, time_of(event)),
        Event::End => {}
    }
}

/// Counts the head of a capture, if it was read. The record has these bytes.
pub(crate) fn count_head(tally: &mut Tally, head: &Option<Event>, bytes: &[u8])
    requires payload { IfSome head.now (PayloadLiesIn bytes.now) }
    requires bytes { length bytes.now ≤ most_captured }
    ensures { tally.new ≡ tally_taken tally.old (option_map (event_seen bytes.now) head.now) }
{
    match head {
        Some(event) => count_event(tally, event, bytes),
        None => {}
    }
}

impl Tally {
    /// Returns the tally of a capture of which nothing was taken. It has no census.
    pub fn new() -> Self
        ensures { result ≡ no_tally }
    {
        Tally {
            file: 0,
            records: 0,
            fragments: 0,
            incomplete: None,
            cut_frames: 0,
            cut_short: [None; 16],
            more_cut_short: 0,
            unchosen: None,
            last: None,
            ran_back: None,
            jumped: None,
            census: None,
        }
    }

    /// Begins a census of messages of the family, for a router with this address.
    pub(crate) fn begin_census<F: Family>(&mut self, own: F::Addr)
        ensures { self.new ≡ census_begun F.family (F.bytes_of own) self.old }
    {
        self.census = Some(Census::new::<F>(own));
    }

    /// The place of the record that is taken next.
    pub(crate) fn next_place(&self) -> RecordPlace
        ensures { result ≡ next_place self.now }
    {
        RecordPlace {
            file: self.file,
            record: one_more(self.records),
        }
    }
}
