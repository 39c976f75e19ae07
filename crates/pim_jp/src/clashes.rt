//! The search for sources that are in both lists of a group set by entries of one type. Short lists
//! are compared pair by pair. Otherwise the shorter list is sorted, since sorting a number costs
//! more than looking one up.

mod blocks;
mod marked;
mod pairs;
mod sorting;
mod swapped;

ghost use Rattle.std.specs.Prelude.{◌≡◌, ◌*◌, ◌≤◌, ◌<◌, true, length};
ghost use Rattle.std.specs.List.{list_any};
ghost use Rattle.pim_addr.specs.Encoded.{source_length};
ghost use Rattle.pim_jp.specs.Spelling.{same_source};
ghost use Rattle.pim_jp.specs.Seen.{entry_seen};
ghost use Rattle.pim_jp.specs.Reading.{is_in, entry_at, AreApart};

use crate::clashes::blocks::{TOGETHER, first_clash_by_blocks};
use crate::clashes::swapped::first_clash_by_pruned;
use crate::entries::{Entries, first_entry};
use crate::entry::Entry;
use pim_addr::{AddressFamily, Family, source_length};
use std::mem::size_of_val;

/// Up to this number of joined entries, comparing pair by pair is faster than sorting.
const FEW: u16 = 4;

/// Up to this number of pruned entries, comparing pair by pair is faster than sorting.
const FEW_PRUNED: u16 = 8;

/// The length of the smallest block. Blocks have three sizes, so that small group sets don't pay
/// for filling a large block. The largest has room for the shorter list of each group set of a
/// message of 64 KiB, so it has fewer numbers for IPv6.
const SOME: u16 = 128;

/// The length of the middle block.
const MORE: u16 = 1024;

/// Whether two entries have the same source and are both (S,G) or both (S,G,rpt).
fn same_source<F: Family>(this: Entry<F::Addr>, that: Entry<F::Addr>) -> bool
    ensures { result ≡ same_source (entry_seen F.bytes_of this) (entry_seen F.bytes_of that) }
{
    match (this, that) {
        (Entry::Source(s), Entry::Source(t)) | (Entry::Rpt(s), Entry::Rpt(t)) => s == t,
        _ => false,
    }
}

/// Whether the other list has the entry's source in an entry of the same type.
fn is_among<F: Family>(entry: Entry<F::Addr>, others: Entries<'_, F>) -> bool
    ensures { result ≡ list_any (same_source (entry_seen F.bytes_of entry)) others.entry }
{
    for other in others {
        if same_source::<F>(entry, other) {
            return true;
        }
    }
    false
}

/// The same as `first_clash`. It compares each pruned entry with each joined one, so one of the
/// lists should be short.
fn first_clash_among_few<F: Family>(count: u16, bytes: &[u8], joined: &Entries<'_, F>) -> u16
    requires { count * source_length F.family ≤ length bytes.now }
    ensures bound { result ≤ count }
    ensures apart { AreApart F.family joined.now result bytes.now }
    ensures clash { result < count → is_in joined.now (entry_at F.family result bytes.now) ≡ true }
{
    let mut rest = bytes;
    for place in 0..count {
        if is_among(first_entry::<F>(rest), joined.again()) {
            return place;
        }
        let (_, others) = rest.split_at(source_length::<F>());
        rest = others;
    }
    count
}

/// The same as `first_clash`, by way of sorted blocks of `N` numbers on the stack. The shorter list
/// is sorted if it fits into a block. Otherwise the joined list is sorted block by block, and each
/// pruned entry is looked for in each block. It is never inlined, so that blocks of one size alone
/// are on the stack.
#[inline(never)]
fn first_clash_among_many<F: Family, const N: usize>(
    count: u16,
    bytes: &[u8],
    joined: &Entries<'_, F>,
) -> u16
    requires room { (0 < N) × (N ≤ 4096) }
    requires long { count * source_length F.family ≤ length bytes.now }
    ensures bound { result ≤ count }
    ensures apart { AreApart F.family joined.now result bytes.now }
    ensures clash { result < count → is_in joined.now (entry_at F.family result bytes.now) ≡ true }
{
    if count == 0 {
        return 0;
    }
    let (_, first) = bytes.split_at(4);
    let number = F::number(F::take(first));
    // Each number has at most 16 bytes. The test shows that a block fits in memory.
    if size_of_val(&number) > 16 {
        return first_clash_among_few::<F>(count, bytes, joined);
    }
    let mut block = [number; N];
    let mut spare = [number; N];
    let mut together = [number; TOGETHER as usize];
    if count < joined.count_left() && usize::from(count) <= N {
        return first_clash_by_pruned::<F, N>(
            count,
            bytes,
            joined,
            &mut block,
            &mut spare,
            &mut together,
        );
    }
    first_clash_by_blocks::<F>(count, bytes, joined, &mut block, &mut spare, &mut together)
}

/// The index of the first of `count` pruned entries whose source is joined by an entry of its type,
/// or `count` if there is none.
#[cold]
#[inline(never)]
pub(crate) fn first_clash<F: Family>(count: u16, bytes: &[u8], joined: &Entries<'_, F>) -> u16
    requires { count * source_length F.family ≤ length bytes.now }
    ensures bound { result ≤ count }
    ensures apart { AreApart F.family joined.now result bytes.now }
    ensures clash { result < count → is_in joined.now (entry_at F.family result bytes.now) ≡ true }
{
    if count <= FEW_PRUNED || joined.count_left() <= FEW {
        return first_clash_among_few::<F>(count, bytes, joined);
    }
    let fewer = count.min(joined.count_left());
    if fewer <= SOME {
        return first_clash_among_many::<F, 128>(count, bytes, joined);
    }
    if fewer <= MORE {
        return first_clash_among_many::<F, 1024>(count, bytes, joined);
    }
    match F::family() {
        AddressFamily::Ipv4 => first_clash_among_many::<F, 4096>(count, bytes, joined),
        AddressFamily::Ipv6 => first_clash_among_many::<F, 1640>(count, bytes, joined),
    }
}
