//! The canonical spelling of a message (RFC 7761, 4.9.5), written part by part: its head, then each
//! group set. The functions write what they are given, also an address or a list that no legal
//! message has. Refusing is for the reader.

ghost use Rattle.std.specs.Prelude.{◌≡◌, ℕ, ◌+◌, ◌*◌, ◌<◌, ◌≤◌, ◌^◌, List, ◌++◌, length, map, take};
ghost use Rattle.std.specs.Prelude.{drop};
ghost use Rattle.std.specs.List.{flat_map};
ghost use Rattle.byteorder.specs.Endian.{big_bytes};
ghost use Rattle.pim_addr.specs.Encoded.{source_length, group_length};
ghost use Rattle.pim_addr.specs.Canonical.{canonical_group};
ghost use Rattle.pim_addr.specs.Seen.{source_seen};
ghost use Rattle.pim_jp.specs.Spelling.{source_of};
ghost use Rattle.pim_jp.specs.Canonical.{canonical_entry, canonical_set, canonical_head};
ghost use Rattle.pim_jp.specs.Canonical.{canonical_head_length};
ghost use Rattle.pim_jp.specs.Canonical.{canonical_set_length};
ghost use Rattle.pim_jp.specs.Seen.{entry_seen, set_seen};

use crate::entry::Entry;
use bitflags::Flags;
use byteorder::{BigEndian, ByteOrder};
use pim_addr::{
    Family, SourceAddress, SourceBits, group_length, put_group, put_source, put_unicast,
    source_length, unicast_length,
};

/// The length in bytes of the head of a message: the upstream neighbour, a reserved byte, Num
/// groups and the holdtime.
pub fn head_length<F: Family>() -> usize
    ensures { result ≡ canonical_head_length F.family }
{
    unicast_length::<F>() + 4
}

/// The length in bytes of a group set with these numbers of joined and pruned entries. It takes the
/// counts alone, since a caller may not have the entries yet.
pub fn set_length<F: Family>(joined: u16, pruned: u16) -> usize
    ensures { result ≡ canonical_set_length F.family joined pruned }
{
    let entry = source_length::<F>();
    group_length::<F>() + 4 + usize::from(joined) * entry + usize::from(pruned) * entry
}

/// Writes the head of a message, with the holdtime in seconds, into a slice of `head_length` bytes.
pub fn put_head<F: Family>(upstream: F::Addr, sets: u8, holdtime: u16, bytes: &mut [u8])
    requires { length bytes.old ≡ canonical_head_length F.family }
    ensures { bytes.new ≡ canonical_head F.family (F.bytes_of upstream) sets holdtime }
{
    let (address, numbers) = bytes.split_at_mut(unicast_length::<F>());
    put_unicast::<F>(upstream, address);
    let (counted, time) = numbers.split_at_mut(2);
    counted.copy_from_slice(&[0, sets]);
    BigEndian::write_u16(time, holdtime);
}

/// The encoded source of an entry, whose W and R bits name its type.
fn source_of<A>(entry: Entry<A>) -> SourceAddress<A>
    ensures { (bytes_of : A → List ℕ) → source_seen bytes_of result
        ≡ source_of (entry_seen bytes_of entry) }
{
    match entry {
        Entry::Star(address) => SourceAddress {
            address,
            bits: SourceBits::from_bits_retain(
                SourceBits::WILDCARD.bits() | SourceBits::RPT.bits(),
            ),
        },
        Entry::Source(address) => SourceAddress {
            address,
            bits: SourceBits::empty(),
        },
        Entry::Rpt(address) => SourceAddress {
            address,
            bits: SourceBits::RPT,
        },
    }
}

/// Writes an entry into a slice of the length of an encoded source.
pub fn put_entry<F: Family>(entry: Entry<F::Addr>, bytes: &mut [u8])
    requires { length bytes.old ≡ source_length F.family }
    ensures { bytes.new ≡ canonical_entry F.family (entry_seen F.bytes_of entry) }
{
    put_source::<F>(source_of(entry), bytes);
}

/// Writes an entry at the offset `at`.
pub fn put_entry_at<F: Family>(entry: Entry<F::Addr>, at: usize, bytes: &mut [u8])
    requires { at + source_length F.family ≤ length bytes.old }
    ensures written { bytes.new ≡ take at bytes.old
        ++ canonical_entry F.family (entry_seen F.bytes_of entry)
        ++ drop (at + source_length F.family) bytes.old }
    ensures length { length bytes.new ≡ length bytes.old }
{
    let (_, behind) = bytes.split_at_mut(at);
    let (place, _) = behind.split_at_mut(source_length::<F>());
    put_entry::<F>(entry, place);
}

/// Writes the entries of one list.
fn put_entries<F: Family>(entries: &[Entry<F::Addr>], bytes: &mut [u8])
    requires { length bytes.old ≡ length entries.now * source_length F.family }
    ensures { bytes.new
        ≡ flat_map (canonical_entry F.family) (map (entry_seen F.bytes_of) entries.now) }
{
    for (index, entry) in entries.iter().enumerate() {
        put_entry_at::<F>(*entry, index * source_length::<F>(), bytes);
    }
}

/// Writes the front of a group set: the group, and the numbers of joined and pruned entries. The
/// slice is 4 bytes longer than an encoded group.
pub fn put_group_and_counts<F: Family>(group: F::Addr, joined: u16, pruned: u16, bytes: &mut [u8])
    requires { length bytes.old ≡ group_length F.family + 4 }
    ensures { bytes.new ≡ canonical_group F.family (F.bytes_of group) ++ big_bytes 2 joined
        ++ big_bytes 2 pruned }
{
    let (address, counts) = bytes.split_at_mut(group_length::<F>());
    put_group::<F>(group, address);
    let (joined_place, pruned_place) = counts.split_at_mut(2);
    BigEndian::write_u16(joined_place, joined);
    BigEndian::write_u16(pruned_place, pruned);
}

/// Writes a group set into a slice of `set_length` bytes: its group, its joined entries and its
/// pruned entries.
pub fn put_set<F: Family>(
    group: F::Addr,
    joined: &[Entry<F::Addr>],
    pruned: &[Entry<F::Addr>],
    bytes: &mut [u8],
)
    requires joined { length joined.now < 2 ^ 16 }
    requires pruned { length pruned.now < 2 ^ 16 }
    requires length { length bytes.old
        ≡ canonical_set_length F.family (length joined.now) (length pruned.now) }
    ensures { bytes.new ≡ canonical_set F.family (set_seen F.bytes_of group joined.now pruned.now) }
{
    let (front, behind) = bytes.split_at_mut(group_length::<F>() + 4);
    put_group_and_counts::<F>(group, joined.len() as u16, pruned.len() as u16, front);
    let (joins, prunes) = behind.split_at_mut(joined.len() * source_length::<F>());
    put_entries::<F>(joined, joins);
    put_entries::<F>(pruned, prunes);
}
