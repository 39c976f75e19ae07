//! Readers of the text of an address, over std's parsers, whose contracts give the grammar.
//!
//! A text with a zone or a dotted part is not an IPv6 address, since no message can hold either.
//! Leading zeros are refused in a decimal, since some readers take them for octal. They are allowed
//! in a group. `::` may replace a single group, as in RFC 4291; RFC 5952 advises only writers
//! against it.

ghost use Rattle.std.specs.Prelude.{◌≡◌, List, ℕ, IfSome, IfNone, ◌==◌};
ghost use Rattle.std.specs.List.{list_any};
ghost use Rattle.pim_addr.specs.TextForms.{IsText, OneAddress, WrittenTextNames};
ghost use Rattle.pim_addr.specs.declared.family.AddressFamily.TheVariants.{Ipv4, Ipv6};

use crate::family::{AddressFamily, Family};
use std::net::{Ipv4Addr, Ipv6Addr};

/// Returns the IPv4 address that a text names.
fn read_ipv4(text: &str) -> Option<[u8; 4]>
    ensures named { IfSome result (λ a. IsText Ipv4 text.now a) }
    ensures no_text { IfNone result ((address : List ℕ) → IsText Ipv4 text.now address → ⊥) }
{
    match text.parse::<Ipv4Addr>() {
        Ok(address) => Some(address.octets()),
        Err(_) => None,
    }
}

/// Returns whether a text contains a dot.
fn has_dot(text: &str) -> bool
    ensures { result ≡ list_any (λ byte. byte == 46) text.now }
{
    text.as_bytes().contains(&b'.')
}

/// Returns the IPv6 address that a text names. Texts with a dotted part, which std's parser takes,
/// are refused.
fn read_ipv6(text: &str) -> Option<[u8; 16]>
    ensures named { IfSome result (λ a. IsText Ipv6 text.now a) }
    ensures no_text { IfNone result ((address : List ℕ) → IsText Ipv6 text.now address → ⊥) }
{
    if has_dot(text) {
        return None;
    }
    match text.parse::<Ipv6Addr>() {
        Ok(address) => Some(address.octets()),
        Err(_) => None,
    }
}

/// Returns the address that a text names, or `None` where it names none. IPv4: four decimals of 0
/// to 255 without leading zeros, joined by dots. IPv6 (RFC 4291, 2.2, forms 1 and 2): eight groups
/// of one to four hexadecimal digits in either case, joined by colons. One `::` may replace one or
/// more zero groups.
pub fn read_text<F: Family>(text: &str) -> Option<F::Addr>
    ensures named { IfSome result (λ a. IsText F.family text.now (F.bytes_of a)) }
    ensures no_text { IfNone result ((address : List ℕ) → IsText F.family text.now address → ⊥) }
{
    match F::family() {
        AddressFamily::Ipv4 => {
            let address = read_ipv4(text)?;
            Some(F::take(&address))
        }
        AddressFamily::Ipv6 => {
            let address = read_ipv6(text)?;
            Some(F::take(&address))
        }
    }
}

/// A law: a text names at most one address. It has no effect.
pub fn text_names_one_address()
    ensures { OneAddress }
{}

/// A law: the text that is written of an address names it. It has no effect.
pub fn written_text_names()
    ensures { WrittenTextNames }
{}
