//! The check of a body: once, forward, up to the first fault.

ghost use Rattle.std.specs.Prelude.{◌≡◌, ℕ, ◌+◌, ◌*◌, ◌≤◌, ◌<◌, ◌^◌, List, [], length, map, drop};
ghost use Rattle.std.specs.Prelude.{IfOk, IfErr, Ok};
ghost use Rattle.std.specs.List.{list_any};
ghost use Rattle.pim_addr.specs.Encoded.{unicast_length, group_length, source_length};
ghost use Rattle.pim_jp.specs.declared.fault.JpKind.{JpKind};
ghost use Rattle.pim_jp.specs.Message.{entries_of, after_set};
ghost use Rattle.pim_jp.specs.Spelling.{is_star};
ghost use Rattle.pim_jp.specs.Parts.{upstream, group, rest, entry_parts, set_parts};
ghost use Rattle.pim_jp.specs.Faults.{short_kinds, kinds_at, faults_of, faults};
ghost use Rattle.pim_jp.specs.Whole.{set_length, HoldsSets, HoldsMessage};
ghost use Rattle.pim_jp.specs.Reading.{Judges, is_source_entry, is_rpt_entry, Passes, Stops};
ghost use Rattle.pim_jp.specs.Reading.{EntriesPass, AreApart};
ghost use Rattle.pim_jp.specs.Reading.{ClashesAt};
ghost use Rattle.pim_jp.specs.Reading.{lists_then, lists_length, lists_end, after_lists, set_then};

use crate::clashes::first_clash;
use crate::entries::Entries;
use crate::fault::{JpFault, JpKind};
use crate::walking::{EntryTypes, check_entries, entries_size};
use byteorder::{BigEndian, ByteOrder};
use pim_addr::{AddrFault, Family, group_length, read_group, read_unicast, unicast_length};

impl From<AddrFault> for JpKind {
    ghost use Rattle.std.specs.Prelude.{◌≡◌};
    ghost use Rattle.pim_jp.specs.Faults.{address_kind};

    ghost from_gives = { λ fault kind. kind ≡ address_kind fault };

    fn from(fault: AddrFault) -> JpKind {
        match fault {
            AddrFault::Short => JpKind::Short,
            AddrFault::Family => JpKind::Family,
            AddrFault::Encoding => JpKind::Encoding,
            AddrFault::Mask => JpKind::Mask,
        }
    }
}

/// Checks the upstream neighbour.
fn check_upstream<F: Family>(bytes: &[u8]) -> Result<(), JpKind>
    ensures reported { Judges result (kinds_at F.family upstream bytes.now) }
    ensures whole { IfOk result (λ _. unicast_length F.family ≤ length bytes.now) }
{
    read_unicast::<F>(bytes)?;
    Ok(())
}

/// Checks a part of four bytes with no illegal value: the head of a message, or the counts of a
/// group set.
fn check_four(bytes: &[u8]) -> Result<(), JpKind>
    ensures reported { Judges result (short_kinds 4 bytes.now) }
    ensures whole { IfOk result (λ _. 4 ≤ length bytes.now) }
{
    if bytes.len() < 4 {
        return Err(JpKind::Short);
    }
    Ok(())
}

/// Checks the group of a group set.
fn check_group<F: Family>(bytes: &[u8]) -> Result<(), JpKind>
    ensures reported { Judges result (kinds_at F.family group bytes.now) }
    ensures whole { IfOk result (λ _. group_length F.family ≤ length bytes.now) }
{
    let address = read_group::<F>(bytes)?;
    if !F::is_group(address) {
        return Err(JpKind::NotGroup);
    }
    Ok(())
}

/// Checks that no bytes are left after the last group set.
fn check_rest<F: Family>(bytes: &[u8]) -> Result<(), JpKind>
    ensures { Judges result (kinds_at F.family rest bytes.now) }
{
    if !bytes.is_empty() {
        return Err(JpKind::Trailing);
    }
    Ok(())
}

/// The same result, with the fault at this offset.
fn with_place<T>(at: usize, part: Result<T, JpKind>) -> Result<T, JpFault>
    ensures reported { (kinds : List JpKind) → Judges part kinds
        → Judges result (map (λ kind. record { at = at; kind = kind }) kinds) }
    ensures value { IfOk result (λ value. part ≡ Ok value) }
{
    match part {
        Ok(value) => Ok(value),
        Err(kind) => Err(JpFault { at, kind }),
    }
}

/// Checks the joined entries of a group set, and returns their types.
fn check_joined<F: Family>(at: usize, count: u16, bytes: &[u8]) -> Result<EntryTypes, JpFault>
    requires fits { at + length bytes.now < 2 ^ 64 }
    ensures passes { IfOk result (λ _. EntriesPass F.family count [] at bytes.now) }
    ensures whole { IfOk result (λ _. count * source_length F.family ≤ length bytes.now) }
    ensures star { IfOk result (λ types. types.star
        ≡ list_any is_star (entries_of F.family count bytes.now)) }
    ensures source { IfOk result (λ types. types.source
        ≡ list_any is_source_entry (entries_of F.family count bytes.now)) }
    ensures rpt { IfOk result (λ types. types.rpt
        ≡ list_any is_rpt_entry (entries_of F.family count bytes.now)) }
    ensures stops { IfErr result (Stops F.family (entry_parts F.family count [] [] at bytes.now)) }
{
    match check_entries::<F>(count, bytes, false) {
        Ok(types) => Ok(types),
        Err(stop) => Err(fault_at::<F>(at, stop.place, stop.kind)),
    }
}

/// The fault of this kind at the entry with this index, in a list that starts at the offset `at`.
fn fault_at<F: Family>(at: usize, place: u16, kind: JpKind) -> JpFault
    requires { at + place * source_length F.family < 2 ^ 64 }
    ensures { result ≡ record { at = at + place * source_length F.family; kind = kind } }
{
    JpFault {
        at: at + entries_size::<F>(place),
        kind,
    }
}

/// Looks for the first of `count` pruned entries whose source is joined too, by an entry of its
/// type.
fn check_apart<F: Family>(
    at: usize,
    count: u16,
    bytes: &[u8],
    joined: &Entries<'_, F>,
) -> Result<(), JpFault>
    requires fits { at + length bytes.now < 2 ^ 64 }
    requires long { count * source_length F.family ≤ length bytes.now }
    ensures apart { IfOk result (λ _. AreApart F.family joined.now count bytes.now) }
    ensures clash { IfErr result (ClashesAt F.family joined.now count at bytes.now) }
{
    let place = first_clash::<F>(count, bytes, joined);
    if place < count {
        return Err(fault_at::<F>(at, place, JpKind::BothLists));
    }
    Ok(())
}

/// Checks the pruned entries of a group set whose joined entries have these types. If no entry has
/// a fault by itself and the types of the two lists can't meet, it doesn't search for sources in
/// both lists. The canonical messages of `pim_form` are of that kind.
fn check_pruned<F: Family>(
    at: usize,
    count: u16,
    bytes: &[u8],
    types: EntryTypes,
    joined: &Entries<'_, F>,
) -> Result<(), JpFault>
    requires fits { at + length bytes.now < 2 ^ 64 }
    requires star { types.star ≡ list_any is_star joined.now }
    requires source { types.source ≡ list_any is_source_entry joined.now }
    requires rpt { types.rpt ≡ list_any is_rpt_entry joined.now }
    ensures passes { IfOk result (λ _. EntriesPass F.family count joined.now at bytes.now) }
    ensures whole { IfOk result (λ _. count * source_length F.family ≤ length bytes.now) }
    ensures stops { IfErr result
        (Stops F.family (entry_parts F.family count joined.now joined.now at bytes.now)) }
{
    match check_entries::<F>(count, bytes, types.star) {
        Ok(pruned) => {
            if !pruned.may_clash(types) {
                return Ok(());
            }
            check_apart::<F>(at, count, bytes, joined)
        }
        Err(stop) => {
            check_apart::<F>(at, stop.place, bytes, joined)?;
            Err(fault_at::<F>(at, stop.place, stop.kind))
        }
    }
}

/// Checks the counts and the entries of a group set, and returns the bytes after it.
#[tactic(auto, using(crate::proofs::Walks::entries_end))]
fn check_lists<F: Family>(at: usize, bytes: &[u8]) -> Result<&[u8], JpFault>
    requires fits { at + length bytes.now < 2 ^ 64 }
    ensures passes { IfOk result (λ _. Passes F.family (lists_then F.family at bytes.now)
        (λ next. next (lists_end F.family at bytes.now) (after_lists F.family bytes.now))) }
    ensures whole { IfOk result (λ _. lists_length F.family bytes.now ≤ length bytes.now) }
    ensures after { IfOk result (λ after. after.now ≡ after_lists F.family bytes.now) }
    ensures stops { IfErr result (Stops F.family (lists_then F.family at bytes.now)) }
{
    with_place(at, check_four(bytes))?;
    let (_, second) = bytes.split_at(2);
    let (_, joined) = bytes.split_at(4);
    let joined_count = BigEndian::read_u16(bytes);
    let pruned_count = BigEndian::read_u16(second);
    let types = check_joined::<F>(at + 4, joined_count, joined)?;
    let size = entries_size::<F>(joined_count);
    let (_, pruned) = joined.split_at(size);
    let earlier = Entries::new(joined_count, joined);
    check_pruned::<F>(at + 4 + size, pruned_count, pruned, types, &earlier)?;
    let (_, after) = pruned.split_at(entries_size::<F>(pruned_count));
    Ok(after)
}

/// Checks a group set, and returns the bytes after it.
fn check_set<F: Family>(at: usize, bytes: &[u8]) -> Result<&[u8], JpFault>
    requires fits { at + length bytes.now < 2 ^ 64 }
    ensures passes { IfOk result (λ _. Passes F.family (set_then F.family at bytes.now)
        (λ next. next
        (lists_end F.family (at + group_length F.family) (drop (group_length F.family) bytes.now))
        (after_set F.family bytes.now))) }
    ensures whole { IfOk result (λ _. set_length F.family bytes.now ≤ length bytes.now) }
    ensures after { IfOk result (λ after. after.now ≡ after_set F.family bytes.now) }
    ensures stops { IfErr result (Stops F.family (set_then F.family at bytes.now)) }
{
    with_place(at, check_group::<F>(bytes))?;
    let size = group_length::<F>();
    let (_, counts) = bytes.split_at(size);
    let after = check_lists::<F>(at + size, counts)?;
    Ok(after)
}

/// Checks `count` group sets and what is left after them.
fn check_sets<F: Family>(mut at: usize, count: u8, bytes: &[u8]) -> Result<(), JpFault>
    requires fits { at + length bytes.now < 2 ^ 64 }
    ensures reported { Judges result (faults_of F.family (set_parts F.family count at bytes.now)) }
    ensures whole { IfOk result (λ _. HoldsSets F.family count bytes.now) }
{
    let mut left = bytes;
    for _ in 0..count {
        let after = check_set::<F>(at, left)?;
        at += left.len() - after.len();
        left = after;
    }
    with_place(at, check_rest::<F>(left))?;
    Ok(())
}

/// Checks a whole body. The error is its first fault.
pub(crate) fn check_body<F: Family>(body: &[u8]) -> Result<(), JpFault>
    ensures reported { Judges result (faults F.family body.now) }
    ensures whole { IfOk result (λ _. HoldsMessage F.family body.now) }
{
    with_place(0, check_upstream::<F>(body))?;
    let at = unicast_length::<F>();
    let (_, head) = body.split_at(at);
    with_place(at, check_four(head))?;
    let (_, sets) = head.split_at(4);
    check_sets::<F>(at + 4, head[1], sets)?;
    Ok(())
}
