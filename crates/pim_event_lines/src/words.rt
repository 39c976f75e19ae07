//! The words of events.

ghost use Rattle.std.specs.Prelude.{◌≡◌, ◌++◌};
ghost use Rattle.pim_down.specs.Seen.{what_seen};
ghost use Rattle.pim_event_lines.specs.JsonLine.{meaning_word, by_word, kind_word, skip_word};
ghost use Rattle.pim_event_lines.specs.JsonLine.{want_word};
ghost use Rattle.pim_event_lines.specs.JsonLine.{timer_word, bool_json, expiry_json, pending_json};
ghost use Rattle.pim_event_lines.specs.TextLine.{state_text, by_words, skip_words, timer_words};
ghost use Rattle.pim_event_lines.specs.TextLine.{cause_words, echo_part, echo_text, source_words};
ghost use Rattle.pim_event_lines.specs.TextLine.{name_of};
ghost use Rattle.pim_events.specs.Events.{wanted_what_seen};
ghost use Rattle.pim_events.specs.Parts.{pending_in};
ghost use Rattle.pim_report.specs.EchoLine.{kind_of};
ghost use Rattle.pim_report.specs.RecordLine.{time_left};

use itoa::Buffer;
use pim_addr::Family;
use pim_capture::Why;
use pim_down::{Machine, State, Timer, What};
use pim_events::{Skip, WantedWhat, pending_in};
use pim_hello::Heard;
use pim_lines::{Name, ShortText, number_or};
use pim_report::state_name;
use pim_transitions::By;

/// The name of a state, where `None` is NoInfo.
pub(crate) fn state_text(state: &Option<State>) -> &[u8]
    ensures { result.now ≡ state_text state.now }
{
    match state {
        Some(state) => state_name(state),
        None => b"no-info",
    }
}

/// What a message does to a machine, in text.
pub(crate) fn by_words(by: &By) -> &[u8]
    ensures { result.now ≡ by_words by.now }
{
    match by {
        By::Join => b" joins ",
        By::Prune => b" prunes ",
        By::End => b" no longer prunes ",
    }
}

/// By what a message changed a state, in JSON.
pub(crate) fn by_word(by: &By) -> &[u8]
    ensures { result.now ≡ by_word by.now }
{
    match by {
        By::Join => b"join",
        By::Prune => b"prune",
        By::End => b"end",
    }
}

/// What a Hello means for its sender, in JSON.
pub(crate) fn meaning_word(heard: &Heard) -> &[u8]
    ensures { result.now ≡ meaning_word heard.now }
{
    match heard {
        Heard::New => b"new",
        Heard::Same => b"same",
        Heard::Restarted => b"restarted",
        Heard::Gone => b"gone",
    }
}

/// Why a record holds no PIM packet, in text.
fn reason_words(why: &Why) -> &[u8]
    ensures { result.now ≡ skip_words (Skip.NoPacket why.now) }
{
    match why {
        Why::Cut => b"fewer bytes captured than its lengths say",
        Why::NotIp => b"not IPv4 or IPv6",
        Why::BadHeader => b"a bad IP header",
        Why::NotPim => b"not PIM",
        Why::Fragment | Why::Part => b"a fragment of a PIM message",
        Why::NoTime => b"without a time",
        Why::LinkType(_) => b"a link type that is not read",
        Why::NotChosen(_) => b"of another link than the chosen one",
        Why::Copy => b"a copy of another packet",
        Why::CutShort => b"cut short by the end of its file",
        Why::NextFile => b"the capture goes on with its next file",
        Why::OfLink(_) => b"the link of the packet before it",
        Why::Incomplete(_) => b"what is reported of incomplete packets",
    }
}

/// Why a record is skipped, in text.
pub(crate) fn skip_words(skip: &Skip) -> &[u8]
    ensures { result.now ≡ skip_words skip.now }
{
    match skip {
        Skip::NoPacket(why) => reason_words(why),
        Skip::OtherFamily => b"PIM of the other family",
    }
}

/// Why a record holds no PIM packet, in JSON.
fn reason_word(why: &Why) -> &[u8]
    ensures { result.now ≡ skip_word (Skip.NoPacket why.now) }
{
    match why {
        Why::Cut => b"cut",
        Why::NotIp => b"not-ip",
        Why::BadHeader => b"bad-header",
        Why::NotPim => b"not-pim",
        Why::Fragment | Why::Part => b"fragment",
        Why::NoTime => b"no-time",
        Why::LinkType(_) => b"link-type",
        Why::NotChosen(_) => b"not-chosen",
        Why::Copy => b"copy",
        Why::CutShort => b"cut-short",
        Why::NextFile => b"next-file",
        Why::OfLink(_) => b"of-link",
        Why::Incomplete(_) => b"incomplete",
    }
}

/// Why a record is skipped, in JSON.
pub(crate) fn skip_word(skip: &Skip) -> &[u8]
    ensures { result.now ≡ skip_word skip.now }
{
    match skip {
        Skip::NoPacket(why) => reason_word(why),
        Skip::OtherFamily => b"family",
    }
}

/// What the end of a timer means, in text.
pub(crate) fn timer_words(timer: &Timer) -> &[u8]
    ensures { result.now ≡ timer_words timer.now }
{
    match timer {
        Timer::PrunePending => b"prune takes effect ",
        Timer::Expiry => b"expired ",
    }
}

/// What the cause of a timer did, in text.
pub(crate) fn cause_words(timer: &Timer) -> &[u8]
    ensures { result.now ≡ cause_words timer.now }
{
    match timer {
        Timer::PrunePending => b"; pruned by ",
        Timer::Expiry => b"; time set by ",
    }
}

/// A timer, in JSON.
pub(crate) fn timer_word(timer: &Timer) -> &[u8]
    ensures { result.now ≡ timer_word timer.now }
{
    match timer {
        Timer::PrunePending => b"ppt",
        Timer::Expiry => b"et",
    }
}

/// Whether the router is to send a PruneEcho, in text.
fn echo_part(echo: &bool) -> &[u8]
    ensures { result.now ≡ echo_part echo.now }
{
    if *echo { b", echo" } else { b"" }
}

/// Whether a Prune that takes effect is to be echoed, in text.
pub(crate) fn echo_text(timer: Timer, echo: &bool) -> &[u8]
    ensures { result.now ≡ echo_text timer echo.now }
{
    match timer {
        Timer::PrunePending => echo_part(echo),
        Timer::Expiry => b"",
    }
}

/// A truth value, in JSON.
pub(crate) fn bool_json(is: &bool) -> &[u8]
    ensures { result.now ≡ bool_json is.now }
{
    if *is { b"true" } else { b"false" }
}

/// A word.
#[derive(Clone, Copy)]
pub struct Word {
    text: &'static [u8],
}

impl Word {
    /// Its bytes.
    pub fn text(&self) -> &[u8]
        ensures { result.now ≡ self.now.text.now }
    {
        self.text
    }
}

/// The kind of a machine, in JSON.
pub fn kind_word<F: Family>(what: What<F::Addr>) -> Word
    ensures { result.text.now ≡ kind_word (what_seen F.bytes_of what) }
{
    match what {
        What::Star => Word { text: b"star" },
        What::Source(_) => Word { text: b"source" },
        What::Rpt(_) => Word { text: b"rpt" },
    }
}

/// What a router wants, in JSON.
pub(crate) fn want_word<F: Family>(what: WantedWhat<F::Addr>) -> Word
    ensures { result.text.now ≡ want_word (wanted_what_seen F.bytes_of what) }
{
    match what {
        WantedWhat::Star => Word { text: b"star" },
        WantedWhat::Source(_) => Word { text: b"source" },
        WantedWhat::Except(_) => Word { text: b"except" },
    }
}

/// The kind of a machine and its source, in text.
#[derive(Drop)]
pub struct ShortWhat {
    /// `star`, `source` or `rpt`, and a space.
    kind: &'static [u8],
    /// The source, or nothing.
    source: ShortText,
    /// A space if there is a source, otherwise nothing.
    gap: &'static [u8],
}

impl ShortWhat {
    /// `star`, `source` or `rpt`, and a space.
    pub fn kind(&self) -> &[u8]
        ensures { result.now ≡ self.now.kind.now }
    {
        self.kind
    }

    /// The source, or nothing.
    pub fn source(&self) -> &[u8]
        ensures { result.now ≡ self.now.source }
    {
        self.source.text()
    }

    /// A space if there is a source, otherwise nothing.
    pub fn gap(&self) -> &[u8]
        ensures { result.now ≡ self.now.gap.now }
    {
        self.gap
    }
}

/// The kind of a machine and its source, in text.
pub fn show_what<F: Family>(what: What<F::Addr>) -> ShortWhat
    ensures kind { result.kind.now ≡ kind_of (what_seen F.bytes_of what) }
    ensures source { result.source ++ result.gap.now
        ≡ source_words F.family (what_seen F.bytes_of what) }
{
    match what {
        What::Star => ShortWhat {
            kind: b"star ",
            source: ShortText::maybe::<F>(None),
            gap: b"",
        },
        What::Source(source) => ShortWhat {
            kind: b"source ",
            source: ShortText::of::<F>(source),
            gap: b" ",
        },
        What::Rpt(source) => ShortWhat {
            kind: b"rpt ",
            source: ShortText::of::<F>(source),
            gap: b" ",
        },
    }
}

/// The time left on the Expiry Timer of a machine, in JSON.
pub(crate) fn expiry_json(buffer: &mut Buffer, machine: Option<Machine>) -> &[u8]
    ensures { result.now ≡ expiry_json machine }
{
    match machine {
        Some(machine) => number_or(buffer, machine.expires_in, b"\"never\""),
        None => b"null",
    }
}

/// The time left on the Prune-Pending Timer of a machine.
fn time_left(machine: Option<Machine>) -> Option<u64>
    ensures { result ≡ time_left (pending_in machine) }
{
    match pending_in(machine) {
        Some(timer) => Some(timer.ends_in),
        None => None,
    }
}

/// The time left on the Prune-Pending Timer of a machine, in JSON.
pub(crate) fn pending_json(buffer: &mut Buffer, machine: Option<Machine>) -> &[u8]
    ensures { result.now ≡ pending_json machine }
{
    number_or(buffer, time_left(machine), b"null")
}

/// A Generation ID as a number of 64 bits.
pub(crate) fn wide(number: Option<u32>) -> Option<u64>
    ensures { result ≡ number }
{
    match number {
        Some(number) => Some(u64::from(number)),
        None => None,
    }
}

/// The name of a port; empty where there is none.
pub(crate) fn name_of(names: &[Name], port: usize) -> &[u8]
    ensures { result.now ≡ name_of names.now port }
{
    match names.get(port) {
        Some(name) => name.text(),
        None => b"",
    }
}
