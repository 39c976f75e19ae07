//! The lines of a text, one by one.

ghost use Rattle.std.specs.Prelude.{◌≡◌, ◌≤◌, ℕ, List, [], ◌∷◌, ◌++◌, Option, Some, None, codes};
ghost use Rattle.std.specs.Prelude.{IfSome, MatchOption};
ghost use Rattle.pim_jp.specs.declared.entry.Entry.{Entry};
ghost use Rattle.pim_lines.specs.declared.either.AnyAddress.{AnyAddress};
ghost use Rattle.pim_text.specs.declared.line.DelayLine.{DelayLine};
ghost use Rattle.pim_text.specs.declared.line.Head.{Head};
ghost use Rattle.pim_text.specs.declared.line.SetLine.{SetLine};
ghost use Rattle.pim_text.specs.declared.line.Line.{Line};
ghost use Rattle.pim_text.specs.Lines.{IsAddressAfter, IsEntry, IsEntryLine, IsLine, delays_text};

use crate::fields::{is_end, number_line, numbers_line, read_address_after, strip};
use crate::line::{DelayLine, Head, SetLine};
use pim_jp::Entry;
use pim_lines::AnyAddress;

/// Returns the address of a text that has these words, an address and a line feed.
pub(crate) fn address_line(text: &[u8], words: &[u8]) -> Option<AnyAddress>
    ensures read { IfSome result (λ a. IsAddressAfter words.now a (10 ∷ []) text.now) }
    ensures only { (a : AnyAddress) → IsAddressAfter words.now a (10 ∷ []) text.now → result
        ≡ Some a }
{
    let named = read_address_after(text, words)?;
    if is_end(named.behind) {
        Some(named.address)
    } else {
        None
    }
}

/// Returns the entry of a text that has its kind, its address and a line feed.
fn read_entry(text: &[u8]) -> Option<Entry<AnyAddress>>
    ensures read { IfSome result (λ entry. IsEntry entry text.now) }
    ensures only { (entry : Entry AnyAddress) → IsEntry entry text.now → result ≡ Some entry }
{
    if let Some(rp) = address_line(text, b"star ") {
        return Some(Entry::Star(rp));
    }
    if let Some(source) = address_line(text, b"source ") {
        return Some(Entry::Source(source));
    }
    match address_line(text, b"rpt ") {
        Some(source) => Some(Entry::Rpt(source)),
        None => None,
    }
}

/// Returns the entry of a line of this list, `join ` or `prune `.
pub(crate) fn entry_line(text: &[u8], list: &[u8]) -> Option<Entry<AnyAddress>>
    ensures read { IfSome result (λ entry. IsEntryLine list.now entry text.now) }
    ensures only { (entry : Entry AnyAddress) → IsEntryLine list.now entry text.now → result
        ≡ Some entry }
{
    let entry = strip(text, list)?;
    read_entry(entry)
}

/// Returns the delays of a text that has them after the T bit.
fn delays_after(text: &[u8], t: bool) -> Option<DelayLine>
    ensures read { IfSome result (λ d. (d.t ≡ t) × (d.propagation ≤ 32767) × (d.override_ms ≤ 65535)
        × (text.now ≡ delays_text d)) }
    ensures only { (d : DelayLine) → d.t ≡ t → d.propagation ≤ 32767 → d.override_ms ≤ 65535 →
        text.now ≡ delays_text d → result ≡ Some d }
{
    let two = numbers_line(text, b" propagation ", 32_767, b" override ", 65_535)?;
    Some(DelayLine {
        t,
        propagation: two.number as u16,
        override_ms: two.another as u16,
    })
}

/// Returns what the line of a LAN Prune Delay option says.
pub(crate) fn delays_line(text: &[u8]) -> Option<DelayLine>
    ensures read { IfSome result (λ d. IsLine (Line.Delays d) text.now) }
    ensures only { (d : DelayLine) → IsLine (Line.Delays d) text.now → result ≡ Some d }
{
    let rest = strip(text, b"lan-prune-delay t ")?;
    if let Some(behind) = strip(rest, b"1") {
        return delays_after(behind, true);
    }
    let behind = strip(rest, b"0")?;
    delays_after(behind, false)
}

/// Returns what the first line of a Join/Prune message says.
pub(crate) fn head_line(text: &[u8]) -> Option<Head>
    ensures read { IfSome result (λ h. IsLine (Line.Head h) text.now) }
    ensures only { (h : Head) → IsLine (Line.Head h) text.now → result ≡ Some h }
{
    let named = read_address_after(text, b"join/prune upstream ")?;
    let two = numbers_line(named.behind, b" holdtime ", 65_535, b" sets ", 255)?;
    Some(Head {
        upstream: named.address,
        holdtime: two.number as u16,
        sets: two.another as u8,
    })
}

/// Returns what the first line of a group set says.
pub(crate) fn set_line(text: &[u8]) -> Option<SetLine>
    ensures read { IfSome result (λ s. IsLine (Line.Set s) text.now) }
    ensures only { (s : SetLine) → IsLine (Line.Set s) text.now → result ≡ Some s }
{
    let named = read_address_after(text, b"set ")?;
    let two = numbers_line(named.behind, b" joined ", 65_535, b" pruned ", 65_535)?;
    Some(SetLine {
        group: named.address,
        joined: two.number as u16,
        pruned: two.another as u16,
    })
}
