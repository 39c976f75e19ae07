//! Marks on sorted numbers that are also among others.

ghost use Rattle.std.specs.Prelude.{◌≡◌, ℕ, ◌≤◌, ◌<◌, ◌||◌, List, true, nat_eq, get_or, take};
ghost use Rattle.std.specs.Prelude.{length};
ghost use Rattle.std.specs.List.Sorted.{IsSorted};
ghost use Rattle.pim_jp.specs.declared.entry.Entry.{Entry};
ghost use Rattle.pim_jp.specs.Seen.{entry_seen};
ghost use Rattle.pim_jp.specs.Spelling.{same_source};
ghost use Rattle.pim_jp.specs.Reading.{is_in};
ghost use Rattle.pim_jp.specs.Sources.{is_among, is_listed, is_marked, has_mark, HasAddress};

use crate::clashes::blocks::number_of_source;
use crate::entries::Entries;
use crate::entry::Entry;
use pim_addr::{Family, count_below};

/// Whether the place has a mark.
#[inline(always)]
fn is_set(marks: &[bool], place: usize) -> bool
    requires { place < length marks.now }
    ensures { result ≡ get_or marks.now place result }
{
    marks[place]
}

/// Marks the number if it is in the sorted list. No branch depends on a number.
fn mark<F: Family>(sorted: &[F::Number], marks: &mut [bool], number: F::Number)
    requires sorted { IsSorted F.Number.cmp sorted.now }
    requires room { length sorted.now ≤ length marks.old }
    ensures room { length marks.new ≡ length marks.old }
    ensures marked { (this : ℕ) → is_among F.value_of sorted.now this ≡ true
        → is_marked F.value_of sorted.now marks.new this
        ≡ (is_marked F.value_of sorted.now marks.old this || nat_eq this (F.value_of number)) }
{
    if sorted.is_empty() {
        return;
    }
    let below = count_below(sorted, number);
    let next = below - usize::from(below == sorted.len());
    let is_there = sorted[next] == number;
    let was = is_set(marks, next);
    marks[next] = was | is_there;
}

/// Marks the number of the entry's source if it is among those of its type. Both lists are sorted.
fn mark_entry<F: Family>(
    sources: &[F::Number],
    rpts: &[F::Number],
    source_marks: &mut [bool],
    rpt_marks: &mut [bool],
    entry: Entry<F::Addr>,
)
    requires sources { IsSorted F.Number.cmp sources.now }
    requires rpts { IsSorted F.Number.cmp rpts.now }
    requires source_room { length sources.now ≤ length source_marks.old }
    requires rpt_room { length rpts.now ≤ length rpt_marks.old }
    ensures source_room { length source_marks.new ≡ length source_marks.old }
    ensures rpt_room { length rpt_marks.new ≡ length rpt_marks.old }
    ensures marked { (this : Entry (List ℕ)) → HasAddress F.family this
        → is_listed F.value_of sources.now rpts.now this ≡ true
        → has_mark F.value_of sources.now rpts.now source_marks.new rpt_marks.new this
        ≡ (has_mark F.value_of sources.now rpts.now source_marks.old rpt_marks.old this
        || same_source this (entry_seen F.bytes_of entry)) }
{
    match entry {
        Entry::Star(_) => {}
        Entry::Source(source) => mark::<F>(sources, source_marks, number_of_source::<F>(source)),
        Entry::Rpt(source) => mark::<F>(rpts, rpt_marks, number_of_source::<F>(source)),
    }
}

/// The same as `mark_entry` for each of the entries.
pub(crate) fn mark_entries<F: Family>(
    sources: &[F::Number],
    rpts: &[F::Number],
    source_marks: &mut [bool],
    rpt_marks: &mut [bool],
    entries: Entries<'_, F>,
)
    requires sources { IsSorted F.Number.cmp sources.now }
    requires rpts { IsSorted F.Number.cmp rpts.now }
    requires source_room { length sources.now ≤ length source_marks.old }
    requires rpt_room { length rpts.now ≤ length rpt_marks.old }
    ensures source_room { length source_marks.new ≡ length source_marks.old }
    ensures rpt_room { length rpt_marks.new ≡ length rpt_marks.old }
    ensures marked { (this : Entry (List ℕ)) → HasAddress F.family this
        → is_listed F.value_of sources.now rpts.now this ≡ true
        → has_mark F.value_of sources.now rpts.now source_marks.new rpt_marks.new this
        ≡ (has_mark F.value_of sources.now rpts.now source_marks.old rpt_marks.old this
        || is_in entries.entry this) }
{
    for entry in entries {
        mark_entry::<F>(sources, rpts, source_marks, rpt_marks, entry);
    }
}

/// Copies the marked numbers to the front of `copies`, and returns their count.
pub(crate) fn copy_marked<F: Family>(
    numbers: &[F::Number],
    marks: &[bool],
    copies: &mut [F::Number],
) -> usize
    requires marks { length numbers.now ≤ length marks.now }
    requires copies { length numbers.now ≤ length copies.old }
    ensures bound { result ≤ length numbers.now }
    ensures room { length copies.new ≡ length copies.old }
    ensures copied { (this : ℕ) → is_among F.value_of (take result copies.new) this
        ≡ is_marked F.value_of numbers.now marks.now this }
{
    let mut done = 0;
    for index in 0..numbers.len() {
        copies[done] = numbers[index];
        let stays = is_set(marks, index);
        done += usize::from(stays);
    }
    done
}
