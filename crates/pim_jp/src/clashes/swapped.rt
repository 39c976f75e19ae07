//! The search for sources in both lists where the pruned list is the shorter one. Its numbers are
//! sorted, and each joined number is looked for among them and marks the one that it finds. The
//! fault is at the first pruned entry, so the pruned entries are then looked for, in their order,
//! among the marked numbers. Marks need no sorting; the index of each pruned entry would have to be
//! sorted along.

ghost use Rattle.std.specs.Prelude.{◌≡◌, ℕ, ◌+◌, ◌*◌, ◌≤◌, ◌<◌, true, false, List, length};
ghost use Rattle.std.specs.List.Sorted.{IsSorted};
ghost use Rattle.pim_addr.specs.Encoded.{source_length};
ghost use Rattle.pim_jp.specs.declared.entry.Entry.{Entry};
ghost use Rattle.pim_jp.specs.Spelling.{is_star};
ghost use Rattle.pim_jp.specs.Reading.{is_in, entry_at, AreApart};
ghost use Rattle.pim_jp.specs.Sources.{is_listed, HasAddress};

use crate::clashes::blocks::{Listed, are_numbers_unlisted, fill, first_listed};
use crate::clashes::marked::{copy_marked, mark_entries};
use crate::clashes::sorting::sort_numbers;
use crate::entries::Entries;
use pim_addr::Family;

/// The entries from some place on, with all that are listed, or none if no entry is listed. Both
/// lists are sorted.
fn from_listed<'a, F: Family>(
    listed: Listed<'_, F::Number>,
    entries: &Entries<'a, F>,
    together: &mut [F::Number],
) -> Entries<'a, F>
    requires room { 0 < length together.old }
    requires sources { IsSorted F.Number.cmp listed.sources.now }
    requires rpts { IsSorted F.Number.cmp listed.rpts.now }
    ensures { (this : Entry (List ℕ)) → HasAddress F.family this
        → is_listed F.value_of listed.entry.sources.now listed.entry.rpts.now this ≡ true
        → is_in entries.now this ≡ is_in result this }
{
    let mut left = entries.again();
    while left.count_left() > 0 {
        let here = left.again();
        let ends = fill::<F>(&mut left, together);
        if !are_numbers_unlisted::<F>(listed, ends, together) {
            return here;
        }
    }
    left
}

/// The same as `first_clash_of_sorted`. A listed number that is joined gets a mark, and the pruned
/// entries are then looked for among the marked numbers.
fn first_marked<F: Family, const N: usize>(
    listed: Listed<'_, F::Number>,
    count: u16,
    bytes: &[u8],
    joined: Entries<'_, F>,
    copies: &mut [F::Number],
    together: &mut [F::Number],
) -> u16
    requires sources { IsSorted F.Number.cmp listed.sources.now }
    requires rpts { IsSorted F.Number.cmp listed.rpts.now }
    requires few { length listed.sources.now + length listed.rpts.now ≤ N }
    requires size { N ≤ 4096 }
    requires copies { length listed.sources.now + length listed.rpts.now ≤ length copies.old }
    requires together { 64 ≤ length together.old }
    requires long { count * source_length F.family ≤ length bytes.now }
    requires listed { (place : ℕ) → place < count → is_star (entry_at F.family place bytes.now)
        ≡ false
        → is_listed F.value_of listed.sources.now listed.rpts.now
        (entry_at F.family place bytes.now) ≡ true }
    ensures bound { result ≤ count }
    ensures apart { AreApart F.family joined.entry result bytes.now }
    ensures clash { result < count → is_in joined.entry (entry_at F.family result bytes.now)
        ≡ true }
{
    let mut source_marks = [false; N];
    let mut rpt_marks = [false; N];
    let Listed { sources, rpts } = listed;
    mark_entries::<F>(sources, rpts, &mut source_marks, &mut rpt_marks, joined);
    let (source_copies, rpt_copies) = copies.split_at_mut(sources.len());
    let source_count = copy_marked::<F>(sources, &source_marks, source_copies);
    let rpt_count = copy_marked::<F>(rpts, &rpt_marks, rpt_copies);
    let (marked_sources, _) = source_copies.split_at_mut(source_count);
    let (marked_rpts, _) = rpt_copies.split_at_mut(rpt_count);
    marked_sources.sort_unstable();
    marked_rpts.sort_unstable();
    let marked = Listed {
        sources: marked_sources,
        rpts: marked_rpts,
    };
    first_listed::<F>(marked, count, bytes, together)
}

/// The index of the first of `count` listed pruned entries whose source is joined by an entry of
/// its type; `count` if there is none. Both lists are sorted and have at most `N` numbers together.
fn first_clash_of_sorted<F: Family, const N: usize>(
    listed: Listed<'_, F::Number>,
    count: u16,
    bytes: &[u8],
    joined: &Entries<'_, F>,
    copies: &mut [F::Number],
    together: &mut [F::Number],
) -> u16
    requires sources { IsSorted F.Number.cmp listed.sources.now }
    requires rpts { IsSorted F.Number.cmp listed.rpts.now }
    requires few { length listed.sources.now + length listed.rpts.now ≤ N }
    requires size { N ≤ 4096 }
    requires copies { length listed.sources.now + length listed.rpts.now ≤ length copies.old }
    requires together { 64 ≤ length together.old }
    requires long { count * source_length F.family ≤ length bytes.now }
    requires listed { (place : ℕ) → place < count → is_star (entry_at F.family place bytes.now)
        ≡ false
        → is_listed F.value_of listed.sources.now listed.rpts.now
        (entry_at F.family place bytes.now) ≡ true }
    ensures bound { result ≤ count }
    ensures apart { AreApart F.family joined.now result bytes.now }
    ensures clash { result < count → is_in joined.now (entry_at F.family result bytes.now) ≡ true }
{
    let left = from_listed::<F>(listed, joined, together);
    if left.count_left() == 0 {
        return count;
    }
    first_marked::<F, N>(listed, count, bytes, left, copies, together)
}

/// The index of the first of `count` pruned entries whose source is joined by an entry of its type,
/// or `count` if there is none. The block has room for the numbers of all pruned entries.
pub(crate) fn first_clash_by_pruned<F: Family, const N: usize>(
    count: u16,
    bytes: &[u8],
    joined: &Entries<'_, F>,
    block: &mut [F::Number],
    spare: &mut [F::Number],
    together: &mut [F::Number],
) -> u16
    requires room { (0 < length block.old) × (count ≤ length block.old) }
    requires few { length block.old ≤ N }
    requires size { N ≤ 4096 }
    requires spare { length block.old ≤ length spare.old }
    requires together { 64 ≤ length together.old }
    requires long { count * source_length F.family ≤ length bytes.now }
    ensures bound { result ≤ count }
    ensures apart { AreApart F.family joined.now result bytes.now }
    ensures clash { result < count → is_in joined.now (entry_at F.family result bytes.now) ≡ true }
{
    let mut pruned = Entries::<F>::new(count, bytes);
    let ends = fill::<F>(&mut pruned, block);
    let (before, rpts) = block.split_at_mut(ends.back);
    let (sources, _) = before.split_at_mut(ends.front);
    sort_numbers(sources, spare);
    sort_numbers(rpts, spare);
    first_clash_of_sorted::<F, N>(
        Listed { sources, rpts },
        count,
        bytes,
        joined,
        spare,
        together,
    )
}
