//! The bytes of each line of a Join/Prune message.

ghost use Rattle.std.specs.Prelude.{◌≡◌, ◌++◌, true, OnOk};
ghost use Rattle.pim_jp.specs.Seen.{entry_seen};
ghost use Rattle.pim_text.specs.Families.{entry_is_in, line_is_in};
ghost use Rattle.pim_lines.specs.AnyAddress.{is_in, address_bytes};
ghost use Rattle.pim_text.specs.Spelled.{entry_bytes, line_bytes};

use crate::line::{Head, Line, SetLine};
use pim_addr::{Family, group_length, source_length};
use pim_jp::{Entry, head_length, put_entry, put_group_and_counts, put_head};
use pim_lines::AnyAddress;
use std::alloc::AllocError;

/// Returns an address of the family.
#[tactic(auto, using(crate::proofs::OfFamily::length_in_v4, crate::proofs::OfFamily::length_in_v6))]
pub(crate) fn address_of<F: Family>(address: AnyAddress) -> F::Addr
    requires { is_in F.family address ≡ true }
    ensures { F.bytes_of result ≡ address_bytes address }
{
    match address {
        AnyAddress::V4(bytes) => F::take(&bytes),
        AnyAddress::V6(bytes) => F::take(&bytes),
    }
}

/// Returns an entry with an address of the family.
fn entry_of<F: Family>(entry: Entry<AnyAddress>) -> Entry<F::Addr>
    requires { entry_is_in F.family entry ≡ true }
    ensures { entry_seen F.bytes_of result ≡ entry_bytes entry }
{
    match entry {
        Entry::Star(rp) => Entry::Star(address_of::<F>(rp)),
        Entry::Source(source) => Entry::Source(address_of::<F>(source)),
        Entry::Rpt(source) => Entry::Rpt(address_of::<F>(source)),
    }
}

/// Adds the head of a message.
#[tactic(auto, using(crate::proofs::OfFamily::head_is_small))]
fn push_head<F: Family>(bytes: &mut Vec<u8>, head: Head) -> Result<(), AllocError>
    requires { is_in F.family head.upstream ≡ true }
    ensures { OnOk result (bytes.new.items ≡ bytes.old.items
        ++ line_bytes F.family (Line.Head head)) }
{
    let mut room = [0; 22];
    let (place, _) = room.split_at_mut(head_length::<F>());
    put_head::<F>(
        address_of::<F>(head.upstream),
        head.sets,
        head.holdtime,
        place,
    );
    bytes.extend_from_slice(place)
}

/// Adds the group and the counts of a group set.
#[tactic(auto, using(crate::proofs::OfFamily::group_is_small))]
fn push_set<F: Family>(bytes: &mut Vec<u8>, set: SetLine) -> Result<(), AllocError>
    requires { is_in F.family set.group ≡ true }
    ensures { OnOk result (bytes.new.items ≡ bytes.old.items
        ++ line_bytes F.family (Line.Set set)) }
{
    let mut room = [0; 24];
    let (place, _) = room.split_at_mut(group_length::<F>() + 4);
    put_group_and_counts::<F>(address_of::<F>(set.group), set.joined, set.pruned, place);
    bytes.extend_from_slice(place)
}

/// Adds an entry.
#[tactic(auto, using(crate::proofs::OfFamily::source_is_small))]
fn push_entry<F: Family>(bytes: &mut Vec<u8>, entry: Entry<AnyAddress>) -> Result<(), AllocError>
    requires { entry_is_in F.family entry ≡ true }
    ensures { OnOk result (bytes.new.items ≡ bytes.old.items
        ++ line_bytes F.family (Line.Join entry)) }
{
    let mut room = [0; 20];
    let (place, _) = room.split_at_mut(source_length::<F>());
    put_entry::<F>(entry_of::<F>(entry), place);
    bytes.extend_from_slice(place)
}

/// Adds the bytes of a line.
pub(crate) fn push_line<F: Family>(bytes: &mut Vec<u8>, line: Line) -> Result<(), AllocError>
    requires { line_is_in F.family line ≡ true }
    ensures { OnOk result (bytes.new.items ≡ bytes.old.items ++ line_bytes F.family line) }
{
    match line {
        Line::Head(head) => push_head::<F>(bytes, head),
        Line::Set(set) => push_set::<F>(bytes, set),
        Line::Join(entry) => push_entry::<F>(bytes, entry),
        Line::Prune(entry) => push_entry::<F>(bytes, entry),
        _ => Ok(()),
    }
}
