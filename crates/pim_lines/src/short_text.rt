//! The short text of an address.

ghost use Rattle.std.specs.Prelude.{◌≡◌, ◌+◌, ◌*◌, ◌<◌, ◌≤◌, [], ◌∷◌, ◌++◌, length, codes};
ghost use Rattle.std.specs.Prelude.{option_map};
ghost use Rattle.std.specs.Char.{digit_char};
ghost use Rattle.std.specs.List.{flat_map};
ghost use Rattle.std.specs.Net.Addr.{segments_of};
ghost use Rattle.std.specs.Net.Text.{leading_zero_digits, hex, groups_text, longest_zero_run};
ghost use Rattle.std.specs.Net.Text.{hex_groups_text};
ghost use Rattle.pim_lines.specs.ShortText.{short_text, maybe_short, ShortTextNames, RunIsLongest};

use crate::buffers::put_at;
use pim_addr::{AddressFamily, Family, write_text, written_text_names};
use std::marker::Model;
use std::net::Ipv6Addr;

/// The short text of an address. Contracts see the text.
#[derive(Drop)]
pub struct ShortText {
    text: [u8; 39],
    length: usize,
}

impl Model for ShortText {
    ghost use Rattle.std.specs.Prelude.{ℕ, List, ◌≤◌, take};

    ghost Value = { List ℕ };

    ghost view = { λ shown. take shown.length shown.text };

    ghost invariant = { λ shown. shown.length ≤ 39 };
}

/// A run of zero groups: the index of the first, and their number.
#[derive(Clone, Copy)]
struct Run {
    start: usize,
    count: usize,
}

/// The longest run of zero groups, the first of several that are equally long.
fn longest_run(groups: &[u16]) -> Run
    ensures start { result.start ≡ (longest_zero_run groups.now).0 }
    ensures count { result.count ≡ (longest_zero_run groups.now).1 }
    ensures within { result.start + result.count ≤ length groups.now }
{
    let mut start = groups.len();
    let mut count = 0;
    let mut run = 0;
    for index in (0..groups.len()).rev() {
        run = if groups[index] == 0 { run + 1 } else { 0 };
        if run >= count {
            start = index;
            count = run;
        }
    }
    Run { start, count }
}

/// The lower-case hexadecimal digit of a number below 16.
fn hex_digit(number: u16) -> u8
    requires { number < 16 }
    ensures { result ≡ digit_char number }
{
    if number < 10 {
        b'0' + number as u8
    } else {
        b'a' + (number - 10) as u8
    }
}

/// The number of leading zeros among the four digits of a group, the last digit apart.
fn leading_zeros(group: u16) -> usize
    ensures value { result ≡ leading_zero_digits group }
    ensures within { result < 4 }
{
    match group {
        0x1000.. => 0,
        0x100.. => 1,
        0x10.. => 2,
        _ => 3,
    }
}

impl ShortText {
    /// The empty text.
    fn new() -> Self
        ensures { result ≡ [] }
    {
        ShortText {
            text: [0; 39],
            length: 0,
        }
    }

    /// Appends bytes.
    fn push(&mut self, bytes: &[u8])
        requires { length self.old + length bytes.now ≤ 39 }
        ensures { self.new ≡ self.old ++ bytes.now }
    {
        put_at(&mut self.text, self.length, bytes);
        self.length += bytes.len();
    }

    /// Appends a group in lower-case hexadecimal digits, without leading zeros.
    #[tactic(auto, unfolding(std::specs::Net::Text::hex))]
    fn push_hex(&mut self, group: u16)
        requires { length self.old + 4 ≤ 39 }
        ensures text { self.new ≡ self.old ++ hex group }
        ensures short { length self.new ≤ length self.old + 4 }
    {
        let digits = [
            hex_digit(group / 0x1000),
            hex_digit(group / 0x100 % 16),
            hex_digit(group / 0x10 % 16),
            hex_digit(group % 16),
        ];
        let (_, shown) = digits.split_at(leading_zeros(group));
        self.push(shown);
    }

    /// Appends groups, each after a colon.
    fn push_more_groups(&mut self, groups: &[u16])
        requires { length self.old + 5 * length groups.now ≤ 39 }
        ensures text { self.new
            ≡ self.old ++ flat_map (λ group. codes ":" ++ hex group) groups.now }
        ensures short { length self.new ≤ length self.old + 5 * length groups.now }
    {
        for group in groups {
            self.push(b":");
            self.push_hex(*group);
        }
    }

    /// Appends groups, joined by colons.
    fn push_groups(&mut self, groups: &[u16])
        requires { length self.old + 5 * length groups.now ≤ 40 }
        ensures text { self.new ≡ self.old ++ groups_text groups.now }
        ensures short { length self.new ≤ length self.old + 5 * length groups.now }
    {
        let Some((first, others)) = groups.split_first() else {
            return;
        };
        self.push_hex(*first);
        self.push_more_groups(others);
    }

    /// The text of eight groups.
    #[tactic(auto, unfolding(std::specs::Net::Text::hex_groups_text))]
    fn of_groups(groups: &[u16]) -> Self
        requires { length groups.now ≡ 8 }
        ensures { result ≡ hex_groups_text groups.now }
    {
        let mut shown = ShortText::new();
        let run = longest_run(groups);
        if run.count < 2 {
            shown.push_groups(groups);
            return shown;
        }
        let (front, _) = groups.split_at(run.start);
        let (_, back) = groups.split_at(run.start + run.count);
        shown.push_groups(front);
        shown.push(b"::");
        shown.push_groups(back);
        shown
    }

    /// The text of an IPv6 address.
    fn of_ipv6(address: [u8; 16]) -> Self
        ensures { result ≡ hex_groups_text (segments_of address) }
    {
        let groups = Ipv6Addr::from_octets(address).segments();
        ShortText::of_groups(&groups)
    }

    /// The text of an address. IPv4: four decimals, joined by dots. IPv6: as in RFC 5952, 4,
    /// without a dotted part.
    pub fn of<F: Family>(address: F::Addr) -> Self
        ensures { result ≡ short_text F.family (F.bytes_of address) }
    {
        match F::family() {
            AddressFamily::Ipv4 => {
                let mut text = [0; 39];
                let length = write_text::<F>(address, &mut text);
                ShortText { text, length }
            }
            AddressFamily::Ipv6 => {
                let mut bytes = [0; 16];
                F::put(address, &mut bytes);
                ShortText::of_ipv6(bytes)
            }
        }
    }

    /// The text of an address, or nothing where there is none.
    pub fn maybe<F: Family>(address: Option<F::Addr>) -> Self
        ensures { result ≡ maybe_short F.family (option_map F.bytes_of address) }
    {
        match address {
            Some(address) => ShortText::of::<F>(address),
            None => ShortText::new(),
        }
    }

    /// The text.
    pub fn text(&self) -> &[u8]
        ensures { result.now ≡ self.now }
    {
        &self.text[..self.length]
    }
}

/// A law: the short text of an address names that address, as `read_text` of `pim_addr` reads
/// it. It has no effect.
pub fn short_text_names()
    ensures { ShortTextNames }
{
    written_text_names();
}

/// A law: `::` replaces the longest run of zero groups, the first of several that are equally long.
/// It has no effect.
pub fn run_is_longest()
    ensures { RunIsLongest }
{}
