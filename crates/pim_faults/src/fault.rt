//! The faults of the program, and the line of each.

ghost use Rattle.std.specs.Prelude.{◌≡◌, ◌≤◌, ◌++◌, take, codes, decimal};
ghost use Rattle.pim_device.specs.Device.{AppendsAll, failures_after};
ghost use Rattle.pim_capture.specs.Names.{text_of};
ghost use Rattle.pim_lines.specs.Pieces.{line};
ghost use Rattle.pim_report.specs.Malformed.{malformed_words};
ghost use Rattle.pim_faults.specs.declared.fault.Fault.TheVariants.{Words};
ghost use Rattle.pim_faults.specs.Words.{refusal_words, address_words, plan_words, fault_words};
ghost use Rattle.pim_faults.specs.Words.{fault_text, ending_text, routes_fault, local_fault};
ghost use Rattle.pim_faults.specs.Words.{capture_words};
ghost use Rattle.pim_faults.specs.Words.{file_words, is_of_record, build_fault};
ghost use Rattle.pim_faults.specs.Words.{vlan_words};
ghost use Rattle.pim_faults.specs.Words.{place_words};

use crate::causes::{config_words, file_words, is_of_record, no_port_words};
use clap::error::ErrorKind;
use itoa::Buffer;
use pim_addr::{Drain, Failed, V4, V6, write_all, write_text};
use pim_capture::{CaptureFault, InterfaceName, Vlan};
use pim_files::{FileCause, LocalFileFault, RoutesFault};
use pim_frame::FrameFault;
use pim_hello::HelloFault;
use pim_jp::JpFault;
use pim_lines::AnyAddress;
use pim_report::write_malformed_words;
use pim_router::Malformed;
use pim_text::BuildFault;

/// Why a run ended early.
#[derive(Debug, Drop)]
pub enum Fault<'a> {
    /// The words give no plan.
    Words(pim_words::CommandFault<'a>),
    /// The file of a port without a link, of the routes or of local receivers can't be opened. This
    /// is the word of the port, or the name of the other file.
    File(&'a str),
    /// The file of a port with a link can't be opened.
    Unopened {
        /// The name of the file.
        file: &'a str,
        /// Why it can't be opened.
        cause: FileCause,
    },
    /// The file of routes has more than 1,048,576 bytes.
    RoutesTooLong,
    /// The file of routes can't be read.
    RoutesRead,
    /// This line of the file of routes, counted from 1, has another form, or its row is refused.
    RoutesLine(usize),
    /// The file of local receivers has more than 1,048,576 bytes.
    LocalTooLong,
    /// The file of local receivers can't be read.
    LocalRead,
    /// This line of the file of local receivers, counted from 1, has another form, or its join is
    /// refused.
    LocalLine(usize),
    /// The capture of a port without a link has a fault. It isn't `CaptureFault::Memory`.
    Capture(CaptureFault),
    /// The capture of a port with a link has a fault. It isn't `CaptureFault::Memory`.
    InFile {
        /// The fault.
        cause: CaptureFault,
        /// The name of the file.
        file: &'a str,
        /// The number of the record that has the fault, counted from 1.
        record: u64,
    },
    /// The message has a fault in its header, its checksum or its destination.
    Frame(FrameFault),
    /// The body of a Hello has a fault.
    Hello(HelloFault),
    /// The body of a Join/Prune message has a fault.
    JoinPrune(JpFault),
    /// The star of this group, with all its exceptions, doesn't fit a message.
    TooBig(AnyAddress),
    /// The fresh router has no room. Its port would need this number of records.
    Full(usize),
    /// The input has more than 65,536 bytes.
    InputTooLong,
    /// The text has more than 8,388,608 bytes, or its message more than 65,536.
    TextTooLong,
    /// This line of the text, counted from 1, is the first wrong one, or the one that is missing at
    /// the end.
    TextLine(usize),
    /// An address of the text isn't of the family of the message's addresses.
    TextFamily,
    /// The input can't be read.
    InputRead,
    /// The output can't be written.
    Output,
    /// An allocation was refused.
    Memory,
}

impl<'a> From<pim_words::CommandFault<'a>> for Fault<'a> {
    ghost from_gives = { λ fault reported. reported ≡ Words fault };

    fn from(fault: pim_words::CommandFault<'a>) -> Fault<'a> {
        Fault::Words(fault)
    }
}

impl From<RoutesFault> for Fault<'static> {
    ghost from_gives = { λ fault reported. reported ≡ routes_fault fault };

    fn from(fault: RoutesFault) -> Fault<'static> {
        match fault {
            RoutesFault::TooLong => Fault::RoutesTooLong,
            RoutesFault::Read => Fault::RoutesRead,
            RoutesFault::Line(number) => Fault::RoutesLine(number),
            RoutesFault::Memory => Fault::Memory,
        }
    }
}

impl From<LocalFileFault> for Fault<'static> {
    ghost from_gives = { λ fault reported. reported ≡ local_fault fault };

    fn from(fault: LocalFileFault) -> Fault<'static> {
        match fault {
            LocalFileFault::TooLong => Fault::LocalTooLong,
            LocalFileFault::Read => Fault::LocalRead,
            LocalFileFault::Line(number) => Fault::LocalLine(number),
            LocalFileFault::Memory => Fault::Memory,
        }
    }
}

impl From<BuildFault> for Fault<'static> {
    ghost from_gives = { λ fault reported. reported ≡ build_fault fault };

    fn from(fault: BuildFault) -> Fault<'static> {
        match fault {
            BuildFault::Read => Fault::InputRead,
            BuildFault::TooLong => Fault::TextTooLong,
            BuildFault::Line(number) => Fault::TextLine(number),
            BuildFault::Family => Fault::TextFamily,
            BuildFault::Frame(fault) => Fault::Frame(fault),
            BuildFault::Hello(fault) => Fault::Hello(fault),
            BuildFault::JoinPrune(fault) => Fault::JoinPrune(fault),
            BuildFault::Memory => Fault::Memory,
        }
    }
}

/// Writes the words and ends the line.
pub(crate) fn write_plain<W: Drain>(writer: &mut W, words: &[u8]) -> Result<(), Failed>
    ensures bytes { AppendsAll (W.contents writer.old) (W.contents writer.new) result
        (line words.now) }
    ensures count { W.failures writer.new ≡ failures_after (W.failures writer.old) result }
{
    write_all(writer, words)?;
    write_all(writer, b"\n")
}

/// Writes the words and a number, and ends the line.
fn write_numbered<W: Drain>(writer: &mut W, words: &[u8], number: usize) -> Result<(), Failed>
    ensures bytes { AppendsAll (W.contents writer.old) (W.contents writer.new) result
        (line (words.now ++ decimal number)) }
    ensures count { W.failures writer.new ≡ failures_after (W.failures writer.old) result }
{
    write_all(writer, words)?;
    write_all(writer, Buffer::new().format(number).as_bytes())?;
    write_all(writer, b"\n")
}

/// Writes the words and a number.
pub(crate) fn put_number<W: Drain>(writer: &mut W, words: &[u8], number: u64) -> Result<(), Failed>
    ensures bytes { AppendsAll (W.contents writer.old) (W.contents writer.new) result
        (words.now ++ decimal number) }
    ensures count { W.failures writer.new ≡ failures_after (W.failures writer.old) result }
{
    write_all(writer, words)?;
    write_all(writer, Buffer::new().format(number).as_bytes())
}

/// Writes the words and two numbers, with a comma between them.
fn put_two<W: Drain>(writer: &mut W, words: &[u8], first: u32, other: u32) -> Result<(), Failed>
    ensures bytes { AppendsAll (W.contents writer.old) (W.contents writer.new) result
        (words.now ++ decimal first ++ codes "," ++ decimal other) }
    ensures count { W.failures writer.new ≡ failures_after (W.failures writer.old) result }
{
    put_number(writer, words, u64::from(first))?;
    put_number(writer, b",", u64::from(other))
}

/// Writes the words and a VLAN.
#[tactic(auto, unfolding(crate::specs::Words::vlan_words))]
pub(crate) fn put_vlan<W: Drain>(writer: &mut W, words: &[u8], vlan: Vlan) -> Result<(), Failed>
    ensures bytes { AppendsAll (W.contents writer.old) (W.contents writer.new) result
        (words.now ++ vlan_words vlan) }
    ensures count { W.failures writer.new ≡ failures_after (W.failures writer.old) result }
{
    put_number(writer, words, u64::from(vlan.outer))?;
    if vlan.inner == 0 {
        return Ok(());
    }
    put_number(writer, b".", u64::from(vlan.inner))
}

/// Writes the words and two VLANs, with a comma between them.
fn put_vlans<W: Drain>(writer: &mut W, words: &[u8], first: Vlan, other: Vlan) -> Result<(), Failed>
    ensures bytes { AppendsAll (W.contents writer.old) (W.contents writer.new) result
        (words.now ++ vlan_words first ++ codes "," ++ vlan_words other) }
    ensures count { W.failures writer.new ≡ failures_after (W.failures writer.old) result }
{
    put_vlan(writer, words, first)?;
    put_vlan(writer, b",", other)
}

/// Writes the words and a name.
pub(crate) fn put_name<W: Drain>(
    writer: &mut W,
    words: &[u8],
    name: &InterfaceName,
) -> Result<(), Failed>
    ensures bytes { AppendsAll (W.contents writer.old) (W.contents writer.new) result
        (words.now ++ text_of name.now) }
    ensures count { W.failures writer.new ≡ failures_after (W.failures writer.old) result }
{
    write_all(writer, words)?;
    write_all(writer, name.text())
}

/// Writes the words and two names, with a comma between them.
fn put_names<W: Drain>(
    writer: &mut W,
    words: &[u8],
    first: &InterfaceName,
    other: &InterfaceName,
) -> Result<(), Failed>
    ensures bytes { AppendsAll (W.contents writer.old) (W.contents writer.new) result
        (words.now ++ text_of first.now ++ codes "," ++ text_of other.now) }
    ensures count { W.failures writer.new ≡ failures_after (W.failures writer.old) result }
{
    put_name(writer, words, first)?;
    put_name(writer, b",", other)
}

/// Writes the words of a capture's fault.
fn put_capture<W: Drain>(writer: &mut W, cause: CaptureFault) -> Result<(), Failed>
    ensures bytes { AppendsAll (W.contents writer.old) (W.contents writer.new) result
        (capture_words cause) }
    ensures count { W.failures writer.new ≡ failures_after (W.failures writer.old) result }
{
    match cause {
        CaptureFault::Magic => write_all(writer, b"capture magic"),
        CaptureFault::LinkType => write_all(writer, b"capture link-type"),
        CaptureFault::LinkNumber(number) => {
            put_number(writer, b"capture link-type ", u64::from(number))
        }
        CaptureFault::Gzip => write_all(writer, b"capture gzip"),
        CaptureFault::Truncated => write_all(writer, b"capture truncated"),
        CaptureFault::TooLong => write_all(writer, b"capture too-long"),
        CaptureFault::Read | CaptureFault::Failed => write_all(writer, b"capture read"),
        CaptureFault::Memory => write_all(writer, b"memory"),
        CaptureFault::Block => write_all(writer, b"capture block"),
        CaptureFault::Time => write_all(writer, b"capture time"),
        CaptureFault::Vlans { first, other } => {
            put_vlans(writer, b"capture vlans ", first, other)
        }
        CaptureFault::Interfaces { first, other } => {
            put_two(writer, b"capture interfaces ", first, other)
        }
        CaptureFault::InterfaceNames { first, other } => {
            put_names(writer, b"capture interfaces ", &first, &other)
        }
    }
}

/// Writes the words of a capture's fault, and ends the line.
fn write_capture<W: Drain>(writer: &mut W, cause: CaptureFault) -> Result<(), Failed>
    ensures bytes { AppendsAll (W.contents writer.old) (W.contents writer.new) result
        (line (capture_words cause)) }
    ensures count { W.failures writer.new ≡ failures_after (W.failures writer.old) result }
{
    put_capture(writer, cause)?;
    write_all(writer, b"\n")
}

/// Writes words, the name of a file, more words and a number.
pub(crate) fn put_about<W: Drain>(
    writer: &mut W,
    words: &[u8],
    file: &str,
    more: &[u8],
    number: u64,
) -> Result<(), Failed>
    ensures bytes { AppendsAll (W.contents writer.old) (W.contents writer.new) result
        (words.now ++ file.now ++ more.now ++ decimal number) }
    ensures count { W.failures writer.new ≡ failures_after (W.failures writer.old) result }
{
    write_all(writer, words)?;
    write_all(writer, file.as_bytes())?;
    put_number(writer, more, number)
}

/// Writes words, the name of a file, more words and a number, and ends the line.
pub(crate) fn write_about<W: Drain>(
    writer: &mut W,
    words: &[u8],
    file: &str,
    more: &[u8],
    number: u64,
) -> Result<(), Failed>
    ensures bytes { AppendsAll (W.contents writer.old) (W.contents writer.new) result
        (line (words.now ++ file.now ++ more.now ++ decimal number)) }
    ensures count { W.failures writer.new ≡ failures_after (W.failures writer.old) result }
{
    put_about(writer, words, file, more, number)?;
    write_all(writer, b"\n")
}

/// Writes in which file a fault is, and at which record if it is one of a single record, and ends
/// the line.
fn write_place<W: Drain>(
    writer: &mut W,
    is_of_record: bool,
    file: &str,
    number: u64,
) -> Result<(), Failed>
    ensures bytes { AppendsAll (W.contents writer.old) (W.contents writer.new) result
        (line (place_words is_of_record file.now number)) }
    ensures count { W.failures writer.new ≡ failures_after (W.failures writer.old) result }
{
    if !is_of_record {
        return write_word(writer, b" in ", file);
    }
    write_about(writer, b" in ", file, b" at record ", number)
}

/// Writes the words of a capture's fault and its place, and ends the line.
fn write_in_file<W: Drain>(
    writer: &mut W,
    cause: CaptureFault,
    file: &str,
    number: u64,
) -> Result<(), Failed>
    ensures bytes { AppendsAll (W.contents writer.old) (W.contents writer.new) result
        (line (capture_words cause ++ place_words (is_of_record cause) file.now number)) }
    ensures count { W.failures writer.new ≡ failures_after (W.failures writer.old) result }
{
    put_capture(writer, cause)?;
    write_place(writer, is_of_record(cause), file, number)
}

/// Writes the words of a message's fault and ends the line.
fn write_malformed<W: Drain>(fault: Malformed, writer: &mut W) -> Result<(), Failed>
    ensures bytes { AppendsAll (W.contents writer.old) (W.contents writer.new) result
        (line (malformed_words fault)) }
    ensures count { W.failures writer.new ≡ failures_after (W.failures writer.old) result }
{
    write_malformed_words(writer, fault)?;
    write_all(writer, b"\n")
}

/// Writes the words and a word of the command line, and ends the line.
fn write_word<W: Drain>(writer: &mut W, words: &[u8], word: &str) -> Result<(), Failed>
    ensures bytes { AppendsAll (W.contents writer.old) (W.contents writer.new) result
        (line (words.now ++ word.now)) }
    ensures count { W.failures writer.new ≡ failures_after (W.failures writer.old) result }
{
    write_all(writer, words)?;
    write_all(writer, word.as_bytes())?;
    write_all(writer, b"\n")
}

/// Writes words, the name of a file and more words, and ends the line.
fn write_with_name<W: Drain>(
    writer: &mut W,
    words: &[u8],
    file: &str,
    more: &[u8],
) -> Result<(), Failed>
    ensures bytes { AppendsAll (W.contents writer.old) (W.contents writer.new) result
        (line (words.now ++ file.now ++ more.now)) }
    ensures count { W.failures writer.new ≡ failures_after (W.failures writer.old) result }
{
    write_all(writer, words)?;
    write_all(writer, file.as_bytes())?;
    write_plain(writer, more)
}

/// Writes the text of an address at the start of a buffer, and returns its length.
fn address_at_front(address: AnyAddress, text: &mut [u8; 39]) -> usize
    ensures short { result ≤ 39 }
    ensures text { take result text.new ≡ address_words address }
{
    match address {
        AnyAddress::V4(address) => write_text::<V4>(address, text),
        AnyAddress::V6(address) => write_text::<V6>(address, text),
    }
}

/// Writes the words and an address, and ends the line.
fn write_address<W: Drain>(writer: &mut W, words: &[u8], address: AnyAddress) -> Result<(), Failed>
    ensures bytes { AppendsAll (W.contents writer.old) (W.contents writer.new) result
        (line (words.now ++ address_words address)) }
    ensures count { W.failures writer.new ≡ failures_after (W.failures writer.old) result }
{
    let mut text = [0; 39];
    let length = address_at_front(address, &mut text);
    write_all(writer, words)?;
    write_plain(writer, &text[..length])
}

/// The short text that `clap` has for a kind of error. The program prints the full text instead, by
/// `report_fault`.
fn refusal_words(kind: ErrorKind) -> &'static str
    ensures { result.now ≡ refusal_words kind }
{
    kind.as_str().unwrap_or("help")
}

/// Writes the words of a fault of the command line and ends the line.
fn write_plan_words<W: Drain>(
    fault: &pim_words::CommandFault<'_>,
    writer: &mut W,
) -> Result<(), Failed>
    ensures bytes { AppendsAll (W.contents writer.old) (W.contents writer.new) result
        (line (plan_words fault.now)) }
    ensures count { W.failures writer.new ≡ failures_after (W.failures writer.old) result }
{
    match fault {
        pim_words::CommandFault::Clap(refusal) => write_plain(
            writer,
            refusal_words(refusal.kind).as_bytes(),
        ),
        pim_words::CommandFault::TwoEnds => write_plain(writer, b"two ends"),
        pim_words::CommandFault::Address(word) => write_word(writer, b"address ", word),
        pim_words::CommandFault::Word(word) => write_word(writer, b"word ", word),
        pim_words::CommandFault::Family => write_plain(writer, b"family"),
        pim_words::CommandFault::NoPort(side) => write_plain(writer, no_port_words(*side)),
        pim_words::CommandFault::WriterAddress => write_plain(writer, b"writer address"),
        pim_words::CommandFault::Config(cause) => write_plain(writer, config_words(*cause)),
        pim_words::CommandFault::Memory => write_plain(writer, b"memory"),
    }
}

/// Writes the words of a fault and ends the line.
fn write_words<W: Drain>(fault: &Fault<'_>, writer: &mut W) -> Result<(), Failed>
    ensures bytes { AppendsAll (W.contents writer.old) (W.contents writer.new) result
        (line (fault_words fault.now)) }
    ensures count { W.failures writer.new ≡ failures_after (W.failures writer.old) result }
{
    match fault {
        Fault::Words(fault) => write_plan_words(fault, writer),
        Fault::File(word) => write_word(writer, b"file ", word),
        Fault::Unopened { file, cause } => {
            write_with_name(writer, b"file ", file, file_words(*cause))
        }
        Fault::RoutesTooLong => write_plain(writer, b"routes too-long"),
        Fault::RoutesRead => write_plain(writer, b"routes read"),
        Fault::RoutesLine(number) => write_numbered(writer, b"routes line ", *number),
        Fault::LocalTooLong => write_plain(writer, b"local too-long"),
        Fault::LocalRead => write_plain(writer, b"local read"),
        Fault::LocalLine(number) => write_numbered(writer, b"local line ", *number),
        Fault::Capture(cause) => write_capture(writer, *cause),
        Fault::InFile {
            cause,
            file,
            record,
        } => write_in_file(writer, *cause, file, *record),
        Fault::Frame(fault) => write_malformed(Malformed::Frame(*fault), writer),
        Fault::Hello(fault) => write_malformed(Malformed::Hello(*fault), writer),
        Fault::JoinPrune(fault) => write_malformed(Malformed::JoinPrune(*fault), writer),
        Fault::TooBig(group) => write_address(writer, b"too big ", *group),
        Fault::Full(needed) => write_numbered(writer, b"full ", *needed),
        Fault::InputTooLong => write_plain(writer, b"input too-long"),
        Fault::TextTooLong => write_plain(writer, b"text too-long"),
        Fault::TextLine(number) => write_numbered(writer, b"text line ", *number),
        Fault::TextFamily => write_plain(writer, b"family"),
        Fault::InputRead => write_plain(writer, b"input read"),
        Fault::Output => write_plain(writer, b"output"),
        Fault::Memory => write_plain(writer, b"memory"),
    }
}

/// Writes words and those of a fault, and ends the line.
fn write_after<W: Drain>(writer: &mut W, words: &[u8], fault: &Fault<'_>) -> Result<(), Failed>
    ensures bytes { AppendsAll (W.contents writer.old) (W.contents writer.new) result
        (line (words.now ++ fault_words fault.now)) }
    ensures count { W.failures writer.new ≡ failures_after (W.failures writer.old) result }
{
    write_all(writer, words)?;
    write_words(fault, writer)
}

/// Writes the line of a fault: `pimtree: `, its words and a line feed.
///
/// # Errors
/// The writer failed: a prefix of the line was written.
pub fn fault_line<W: Drain>(fault: &Fault<'_>, writer: &mut W) -> Result<(), Failed>
    ensures bytes { AppendsAll (W.contents writer.old) (W.contents writer.new) result
        (fault_text fault.now) }
    ensures count { W.failures writer.new ≡ failures_after (W.failures writer.old) result }
{
    write_after(writer, b"pimtree: ", fault)
}

/// Writes the line that ends the lines of what precedes a fault: `fault `, the words of the fault
/// and a line feed.
///
/// # Errors
/// The writer failed: a prefix of the line was written.
pub fn ending_line<W: Drain>(fault: &Fault<'_>, writer: &mut W) -> Result<(), Failed>
    ensures bytes { AppendsAll (W.contents writer.old) (W.contents writer.new) result
        (ending_text fault.now) }
    ensures count { W.failures writer.new ≡ failures_after (W.failures writer.old) result }
{
    write_after(writer, b"fault ", fault)
}
