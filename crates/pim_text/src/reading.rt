//! Reading the text of a message.

ghost use Rattle.std.specs.Prelude.{◌≡◌, ◌<◌, ◌^◌, ◌&&◌, length, IfOk, IfErr, MatchOption};
ghost use Rattle.pim_text.specs.Lines.{lines};
ghost use Rattle.pim_text.specs.Families.{entry_is_in, line_is_in};
ghost use Rattle.pim_lines.specs.AnyAddress.{is_in};
ghost use Rattle.pim_text.specs.Expected.{Advanced, IsUnexpected, expects_options};
ghost use Rattle.pim_text.specs.Read.{IsRead, IsWrongLine};

use crate::line::{Expected, Line, Stated, TextProgress};
use crate::line_walk::LineWalk;
use crate::steps::{is_whole, step};
use pim_addr::{AddressFamily, written_text_names};
use pim_jp::Entry;
use pim_lines::AnyAddress;

/// Returns whether an address is of this family.
fn is_in(family: AddressFamily, address: &AnyAddress) -> bool
    ensures { result ≡ is_in family address.now }
{
    match family {
        AddressFamily::Ipv4 => matches!(address, AnyAddress::V4(_)),
        AddressFamily::Ipv6 => matches!(address, AnyAddress::V6(_)),
    }
}

/// Returns whether the address of an entry is of this family.
fn entry_is_in(family: AddressFamily, entry: &Entry<AnyAddress>) -> bool
    ensures { result ≡ entry_is_in family entry.now }
{
    match entry {
        Entry::Star(rp) => is_in(family, rp),
        Entry::Source(source) => is_in(family, source),
        Entry::Rpt(source) => is_in(family, source),
    }
}

/// Returns whether the address of a line, if it has one, is of this family.
fn line_is_in(family: AddressFamily, line: &Line) -> bool
    ensures { result ≡ line_is_in family line.now }
{
    match line {
        Line::Secondary(address) => is_in(family, address),
        Line::Head(head) => is_in(family, &head.upstream),
        Line::Set(set) => is_in(family, &set.group),
        Line::Join(entry) => entry_is_in(family, entry),
        Line::Prune(entry) => entry_is_in(family, entry),
        _ => true,
    }
}

/// Returns whether the lines so far are those of a Hello.
fn is_hello(expected: Expected) -> bool
    ensures { result ≡ expects_options expected }
{
    matches!(expected, Expected::Options(_))
}

/// Reads one line more.
fn advance(progress: TextProgress, text: &[u8]) -> Option<TextProgress>
    ensures { MatchOption result (IsUnexpected progress.expected text.now)
        (Advanced progress text.now) }
{
    let found = step(progress.expected, text)?;
    let ipv4 = line_is_in(AddressFamily::Ipv4, &found.line);
    let ipv6 = line_is_in(AddressFamily::Ipv6, &found.line);
    Some(TextProgress {
        expected: found.next,
        all_ipv4: progress.all_ipv4 & ipv4,
        all_ipv6: progress.all_ipv6 & ipv6,
    })
}

/// Reads the text of a message, once and forward, and returns its kind and the families of its
/// addresses.
///
/// # Errors
/// The number, from 1, of the first wrong line: with it, the lines as they stand begin the text of
/// no message. Or the number of the line that is missing at the end.
pub fn read_message_text(text: &[u8]) -> Result<Stated, usize>
    requires { length text.now < 2 ^ 32 }
    ensures read { IfOk result (IsRead text.now) }
    ensures wrong { IfErr result (IsWrongLine text.now) }
{
    written_text_names();
    let mut number = 0;
    let mut progress = TextProgress {
        expected: Expected::Message,
        all_ipv4: true,
        all_ipv6: true,
    };
    for line in LineWalk::new(text) {
        number += 1;
        let Some(next) = advance(progress, line) else {
            return Err(number);
        };
        progress = next;
    }
    if is_whole(progress.expected) {
        Ok(Stated {
            is_hello: is_hello(progress.expected),
            all_ipv4: progress.all_ipv4,
            all_ipv6: progress.all_ipv6,
        })
    } else {
        Err(number + 1)
    }
}
