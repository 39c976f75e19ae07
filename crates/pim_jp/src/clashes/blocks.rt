//! The search for sources in both lists by sorted blocks of joined numbers. A block has the sources
//! of (S,G) entries at its front and those of (S,G,rpt) entries at its back. So each block takes
//! one pass over both lists, whichever types they have.

ghost use Rattle.std.specs.Prelude.{◌≡◌, ℕ, ◌*◌, ◌≤◌, ◌<◌, ◌||◌, true, false};
ghost use Rattle.std.specs.Prelude.{List, length, take, drop, nat_eq};
ghost use Rattle.std.specs.Cmp.Lexicographic.{pointwise};
ghost use Rattle.std.specs.List.Sorted.{IsSorted};
ghost use Rattle.pim_addr.specs.Address.{IsAddress, number_of};
ghost use Rattle.pim_addr.specs.Encoded.{source_length};
ghost use Rattle.pim_jp.specs.declared.entry.Entry.{Entry};
ghost use Rattle.pim_jp.specs.Seen.{entry_seen};
ghost use Rattle.pim_jp.specs.Spelling.{same_source};
ghost use Rattle.pim_jp.specs.Reading.{is_in, entry_at, is_source_entry, is_rpt_entry, AreApart};
ghost use Rattle.pim_jp.specs.Sources.{is_listed, one_if, HasAddress};

use crate::clashes::pairs::{are_missing, holds};
use crate::clashes::sorting::sort_numbers;
use crate::entries::{Entries, first_entry};
use crate::entry::Entry;
use pim_addr::{Family, numbers_are_in_order, source_length};

/// The number of pruned entries that are looked for together.
pub(crate) const TOGETHER: u16 = 64;

/// The numbers of some sources, each list sorted: those of (S,G) entries, and those of (S,G,rpt)
/// entries.
#[derive(Clone, Copy)]
pub(crate) struct Listed<'a, N> {
    pub sources: &'a [N],
    pub rpts: &'a [N],
}

/// Where the numbers in a block end: those of (S,G) entries are before `front`, those of (S,G,rpt)
/// entries from `back` on. The places between are free.
#[derive(Clone, Copy)]
pub(crate) struct Ends {
    pub front: usize,
    pub back: usize,
}

/// The number of a source. Sources are equal exactly if their numbers are.
pub(crate) fn number_of_source<F: Family>(source: F::Addr) -> F::Number
    ensures number { F.value_of result ≡ number_of (F.bytes_of source) }
    ensures same { (other : List ℕ) → IsAddress F.family other
        → pointwise nat_eq other (F.bytes_of source)
        ≡ nat_eq (number_of other) (F.value_of result) }
{
    F::address_has_its_bytes(source);
    numbers_are_in_order();
    F::number(source)
}

/// The number of the address of an entry.
fn number_of_entry<F: Family>(entry: Entry<F::Addr>) -> F::Number
    ensures { (this : Entry (List ℕ)) → HasAddress F.family this
        → same_source this (entry_seen F.bytes_of entry)
        ≡ is_listed F.value_of (one_if (is_source_entry (entry_seen F.bytes_of entry)) result)
        (one_if (is_rpt_entry (entry_seen F.bytes_of entry)) result) this }
{
    match entry {
        Entry::Star(address) | Entry::Source(address) | Entry::Rpt(address) => {
            number_of_source::<F>(address)
        }
    }
}

/// Whether the entry is (S,G).
fn is_source<F: Family>(entry: Entry<F::Addr>) -> bool
    ensures { result ≡ is_source_entry (entry_seen F.bytes_of entry) }
{
    matches!(entry, Entry::Source(_))
}

/// Whether the entry is (S,G,rpt).
fn is_rpt<F: Family>(entry: Entry<F::Addr>) -> bool
    ensures { result ≡ is_rpt_entry (entry_seen F.bytes_of entry) }
{
    matches!(entry, Entry::Rpt(_))
}

/// Whether the number of the entry's source is among those of its type. Both lists are sorted.
fn is_listed<F: Family>(listed: Listed<'_, F::Number>, entry: Entry<F::Addr>) -> bool
    requires sources { IsSorted F.Number.cmp listed.sources.now }
    requires rpts { IsSorted F.Number.cmp listed.rpts.now }
    ensures { result ≡ is_listed F.value_of listed.entry.sources.now listed.entry.rpts.now
        (entry_seen F.bytes_of entry) }
{
    match entry {
        Entry::Star(_) => false,
        Entry::Source(source) => holds::<F>(listed.sources, number_of_source::<F>(source)),
        Entry::Rpt(source) => holds::<F>(listed.rpts, number_of_source::<F>(source)),
    }
}

/// The same as `first_listed`, with one search for each entry.
fn first_listed_of_few<F: Family>(listed: Listed<'_, F::Number>, count: u16, bytes: &[u8]) -> u16
    requires long { count * source_length F.family ≤ length bytes.now }
    requires sources { IsSorted F.Number.cmp listed.sources.now }
    requires rpts { IsSorted F.Number.cmp listed.rpts.now }
    ensures bound { result ≤ count }
    ensures before { (place : ℕ) → place < result
        → is_listed F.value_of listed.entry.sources.now listed.entry.rpts.now
        (entry_at F.family place bytes.now) ≡ false }
    ensures at { result < count
        → is_listed F.value_of listed.entry.sources.now listed.entry.rpts.now
        (entry_at F.family result bytes.now) ≡ true }
{
    let mut rest = bytes;
    for place in 0..count {
        if is_listed::<F>(listed, first_entry::<F>(rest)) {
            return place;
        }
        let (_, others) = rest.split_at(source_length::<F>());
        rest = others;
    }
    count
}

/// Moves entries into the block until it is full or none is left. The numbers of (S,G) entries go
/// to its front, those of (S,G,rpt) entries to its back. Each number is written at both ends and
/// then counted at one of them, or for (*,G) at neither. So no branch depends on the type of an
/// entry.
pub(crate) fn fill<F: Family>(entries: &mut Entries<'_, F>, block: &mut [F::Number]) -> Ends
    requires { 0 < length block.old }
    ensures order { result.front ≤ result.back }
    ensures bound { result.back ≤ length block.new }
    ensures room { length block.new ≡ length block.old }
    ensures fewer { 0 < length entries.old → length entries.new < length entries.old }
    ensures all { length entries.old ≤ length block.old → length entries.new ≡ 0 }
    ensures listed { (this : Entry (List ℕ)) → HasAddress F.family this → is_in entries.old this
        ≡ (is_listed F.value_of (take result.front block.new) (drop result.back block.new) this
        || is_in entries.new this) }
{
    let mut front = 0;
    let mut back = block.len();
    for index in 0..block.len() {
        let Some(entry) = entries.next() else {
            return Ends { front, back };
        };
        let number = number_of_entry::<F>(entry);
        block[front] = number;
        block[back - 1] = number;
        front += usize::from(is_source::<F>(entry));
        back -= usize::from(is_rpt::<F>(entry));
    }
    Ends { front, back }
}

/// Whether two-at-a-time searches show that no number of a block is among those of its type. Both
/// lists are sorted. False decides nothing.
pub(crate) fn are_numbers_unlisted<F: Family>(
    listed: Listed<'_, F::Number>,
    ends: Ends,
    block: &[F::Number],
) -> bool
    requires order { ends.front ≤ ends.back }
    requires bound { ends.back ≤ length block.now }
    requires sources { IsSorted F.Number.cmp listed.sources.now }
    requires rpts { IsSorted F.Number.cmp listed.rpts.now }
    ensures { result ≡ true → (this : Entry (List ℕ))
        → is_listed F.value_of (take ends.front block.now) (drop ends.back block.now) this ≡ true
        → is_listed F.value_of listed.entry.sources.now listed.entry.rpts.now this ≡ false }
{
    let (before, these_rpts) = block.split_at(ends.back);
    let (these_sources, _) = before.split_at(ends.front);
    let sources_are_missing = are_missing::<F>(listed.sources, these_sources);
    let rpts_are_missing = are_missing::<F>(listed.rpts, these_rpts);
    sources_are_missing & rpts_are_missing
}

/// Whether two-at-a-time searches show that none of `count` entries is listed. Both lists are
/// sorted. False decides nothing.
fn are_unlisted<F: Family>(
    listed: Listed<'_, F::Number>,
    count: u16,
    bytes: &[u8],
    block: &mut [F::Number],
) -> bool
    requires room { (0 < length block.old) × (count ≤ length block.old) }
    requires long { count * source_length F.family ≤ length bytes.now }
    requires sources { IsSorted F.Number.cmp listed.sources.now }
    requires rpts { IsSorted F.Number.cmp listed.rpts.now }
    ensures room { length block.new ≡ length block.old }
    ensures unlisted { result ≡ true → (place : ℕ) → place < count
        → is_listed F.value_of listed.entry.sources.now listed.entry.rpts.now
        (entry_at F.family place bytes.now) ≡ false }
{
    let mut entries = Entries::<F>::new(count, bytes);
    let ends = fill::<F>(&mut entries, block);
    are_numbers_unlisted::<F>(listed, ends, block)
}

/// The same as `first_listed`, for at most as many entries as the block holds. It is faster where
/// none is listed.
fn first_listed_together<F: Family>(
    listed: Listed<'_, F::Number>,
    count: u16,
    bytes: &[u8],
    block: &mut [F::Number],
) -> u16
    requires room { (0 < length block.old) × (count ≤ length block.old) }
    requires long { count * source_length F.family ≤ length bytes.now }
    requires sources { IsSorted F.Number.cmp listed.sources.now }
    requires rpts { IsSorted F.Number.cmp listed.rpts.now }
    ensures room { length block.new ≡ length block.old }
    ensures bound { result ≤ count }
    ensures before { (place : ℕ) → place < result
        → is_listed F.value_of listed.entry.sources.now listed.entry.rpts.now
        (entry_at F.family place bytes.now) ≡ false }
    ensures at { result < count
        → is_listed F.value_of listed.entry.sources.now listed.entry.rpts.now
        (entry_at F.family result bytes.now) ≡ true }
{
    if are_unlisted::<F>(listed, count, bytes, block) {
        return count;
    }
    first_listed_of_few::<F>(listed, count, bytes)
}

/// The index of the first of `count` entries whose number is among those of its type, or `count` if
/// there is none. Both lists are sorted. Entries are looked for 64 together, and one by one where
/// that doesn't show that none of them is listed.
pub(crate) fn first_listed<F: Family>(
    listed: Listed<'_, F::Number>,
    count: u16,
    bytes: &[u8],
    block: &mut [F::Number],
) -> u16
    requires room { 64 ≤ length block.old }
    requires long { count * source_length F.family ≤ length bytes.now }
    requires sources { IsSorted F.Number.cmp listed.sources.now }
    requires rpts { IsSorted F.Number.cmp listed.rpts.now }
    ensures room { length block.new ≡ length block.old }
    ensures bound { result ≤ count }
    ensures before { (place : ℕ) → place < result
        → is_listed F.value_of listed.entry.sources.now listed.entry.rpts.now
        (entry_at F.family place bytes.now) ≡ false }
    ensures at { result < count
        → is_listed F.value_of listed.entry.sources.now listed.entry.rpts.now
        (entry_at F.family result bytes.now) ≡ true }
{
    let mut rest = bytes;
    let mut place = 0;
    while place < count {
        let many = (count - place).min(TOGETHER);
        let passed = first_listed_together::<F>(listed, many, rest, block);
        if passed < many {
            return place + passed;
        }
        let (_, others) = rest.split_at(usize::from(many) * source_length::<F>());
        rest = others;
        place += many;
    }
    count
}

/// The index of the first of `count` pruned entries whose source is joined by an entry of its type,
/// or `count` if there is none.
pub(crate) fn first_clash_by_blocks<F: Family>(
    count: u16,
    bytes: &[u8],
    joined: &Entries<'_, F>,
    block: &mut [F::Number],
    spare: &mut [F::Number],
    together: &mut [F::Number],
) -> u16
    requires room { 0 < length block.old }
    requires spare { length block.old ≤ length spare.old }
    requires together { 64 ≤ length together.old }
    requires long { count * source_length F.family ≤ length bytes.now }
    ensures room { length block.new ≡ length block.old }
    ensures bound { result ≤ count }
    ensures apart { AreApart F.family joined.now result bytes.now }
    ensures clash { result < count → is_in joined.now (entry_at F.family result bytes.now) ≡ true }
{
    let mut end = count;
    let mut left = joined.again();
    while left.count_left() > 0 {
        let ends = fill::<F>(&mut left, block);
        let (before, rpts) = block.split_at_mut(ends.back);
        let (sources, _) = before.split_at_mut(ends.front);
        sort_numbers(sources, spare);
        sort_numbers(rpts, spare);
        end = first_listed::<F>(Listed { sources, rpts }, end, bytes, together);
    }
    end
}
