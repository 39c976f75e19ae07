//! Ranges of addresses, each with the longest row that matches its addresses. They are kept as the
//! numbers of their last addresses, with the rows in a second list.

ghost use Rattle.std.specs.Prelude.{◌≡◌, ◌<◌, ◌≤◌, ◌+◌, ◌^◌, true, map, length, option_map};
ghost use Rattle.std.specs.Prelude.{vec_len};
ghost use Rattle.std.specs.Prelude.{vec_capacity, Some};
ghost use Rattle.pim_addr.specs.Address.{mask_length, number_of, ends_within, last_number};
ghost use Rattle.pim_addr.specs.Routes.{longer_of};
ghost use Rattle.pim_addr.specs.RouteRows.{row_seen, answers_seen, Rises, before, answer_of};
ghost use Rattle.pim_addr.specs.RouteRows.{AreRanges, IsStart, IsEnd};
ghost use Rattle.pim_addr.specs.RouteRows.{KeepAnswers, AnswersBetween};

use crate::below::count_below;
use crate::family::Family;
use crate::route::Route;

/// Returns the number of ranges that end before this number.
fn ranges_before<F: Family>(ends: &[F::Number], number: F::Number) -> usize
    requires { Rises 0 (map F.value_of ends.now) }
    ensures { result ≡ before (F.value_of number) (map F.value_of ends.now) }
{
    count_below(ends, number)
}

/// Returns the row that applies to this number: that of the first range that does not end before
/// it.
pub(crate) fn answer_at<F: Family>(
    ends: &[F::Number],
    answers: &[Option<Route<F::Addr>>],
    number: F::Number,
) -> Option<Route<F::Addr>>
    requires { AreRanges (map F.value_of ends.now) (answers_seen F.bytes_of answers.now) }
    ensures { option_map (row_seen F.bytes_of) result ≡
        answer_of (map F.value_of ends.now) (answers_seen F.bytes_of answers.now)
        (F.value_of number) }
{
    let place = ranges_before::<F>(ends, number);
    *answers.get(place)?
}

/// Cuts the range that contains this number, so that one part ends at it. Nothing changes where a
/// range ends there already. The caller has reserved memory for one range.
fn end_at<F: Family>(
    ends: &mut Vec<F::Number>,
    answers: &mut Vec<Option<Route<F::Addr>>>,
    number: F::Number,
)
    requires ends { vec_len ends.old < vec_capacity ends.old }
    requires answers { vec_len answers.old < vec_capacity answers.old }
    requires ranges { AreRanges (map F.value_of ends.old.items)
        (answers_seen F.bytes_of answers.old.items) }
    ensures ranges { AreRanges (map F.value_of ends.new.items)
        (answers_seen F.bytes_of answers.new.items) }
    ensures end { IsEnd (F.value_of number) (map F.value_of ends.new.items) }
    ensures kept { KeepAnswers
        (map F.value_of ends.old.items) (answers_seen F.bytes_of answers.old.items)
        (map F.value_of ends.new.items) (answers_seen F.bytes_of answers.new.items) }
    ensures few { length ends.new.items ≤ length ends.old.items + 1 }
    ensures room_of_ends { vec_capacity ends.new ≡ vec_capacity ends.old }
    ensures room_of_answers { vec_capacity answers.new ≡ vec_capacity answers.old }
{
    let place = ranges_before::<F>(ends, number);
    if place < ends.len() && ends[place] == number {
        return;
    }
    let answer = answer_at::<F>(ends, answers, number);
    if ends.insert(place, number).is_err() {
        unreachable!()
    }
    if answers.insert(place, answer).is_err() {
        unreachable!()
    }
}

/// Cuts the ranges so that one begins at this number. The caller has reserved memory for one range.
fn start_at<F: Family>(
    ends: &mut Vec<F::Number>,
    answers: &mut Vec<Option<Route<F::Addr>>>,
    number: F::Number,
)
    requires ends { vec_len ends.old < vec_capacity ends.old }
    requires answers { vec_len answers.old < vec_capacity answers.old }
    requires ranges { AreRanges (map F.value_of ends.old.items)
        (answers_seen F.bytes_of answers.old.items) }
    ensures ranges { AreRanges (map F.value_of ends.new.items)
        (answers_seen F.bytes_of answers.new.items) }
    ensures start { IsStart (F.value_of number) (map F.value_of ends.new.items) }
    ensures kept { KeepAnswers
        (map F.value_of ends.old.items) (answers_seen F.bytes_of answers.old.items)
        (map F.value_of ends.new.items) (answers_seen F.bytes_of answers.new.items) }
    ensures few { length ends.new.items ≤ length ends.old.items + 1 }
    ensures room_of_ends { vec_capacity ends.new ≡ vec_capacity ends.old }
    ensures room_of_answers { vec_capacity answers.new ≡ vec_capacity answers.old }
{
    let Some(last_before) = F::number_before(number) else {
        return;
    };
    end_at::<F>(ends, answers, last_before);
}

/// Returns the longer of the two rows, `row` where they are equally long.
fn longer<F: Family>(row: Route<F::Addr>, answer: Option<Route<F::Addr>>) -> Route<F::Addr>
    ensures { row_seen F.bytes_of result ≡
        longer_of (row_seen F.bytes_of row) (option_map (row_seen F.bytes_of) answer) }
{
    match answer {
        Some(other) if other.length > row.length => other,
        _ => row,
    }
}

/// Sets the row for all of these ranges, except those with a longer row.
fn answer_in_all<F: Family>(answers: &mut [Option<Route<F::Addr>>], row: Route<F::Addr>)
    ensures { answers_seen F.bytes_of answers.new ≡
        map (λ answer. Some (longer_of (row_seen F.bytes_of row) answer))
        (answers_seen F.bytes_of answers.old) }
{
    for answer in answers {
        *answer = Some(longer::<F>(row, *answer));
    }
}

/// Sets the row for the ranges from the number `first` to the number `last`, except those with a
/// longer row.
fn answer_between<F: Family>(
    ends: &[F::Number],
    answers: &mut [Option<Route<F::Addr>>],
    first: F::Number,
    last: F::Number,
    row: Route<F::Addr>,
)
    requires ranges { AreRanges (map F.value_of ends.now) (answers_seen F.bytes_of answers.old) }
    requires small { length ends.now < 2 ^ 63 }
    requires order { F.value_of first ≤ F.value_of last }
    requires start { IsStart (F.value_of first) (map F.value_of ends.now) }
    requires end { IsEnd (F.value_of last) (map F.value_of ends.now) }
    ensures paired { length answers.new ≡ length answers.old }
    ensures answers { AnswersBetween (F.value_of first) (F.value_of last) (row_seen F.bytes_of row)
        (answer_of (map F.value_of ends.now) (answers_seen F.bytes_of answers.old))
        (answer_of (map F.value_of ends.now) (answers_seen F.bytes_of answers.new)) }
{
    let first_place = ranges_before::<F>(ends, first);
    let last_place = ranges_before::<F>(ends, last);
    let (_, from_first) = answers.split_at_mut(first_place);
    let (between, _) = from_first.split_at_mut(last_place + 1 - first_place);
    answer_in_all::<F>(between, row);
}

/// Sets the row for the addresses that it matches, except where a longer row applies. The caller
/// has reserved memory for two ranges.
pub(crate) fn answer_for<F: Family>(
    ends: &mut Vec<F::Number>,
    answers: &mut Vec<Option<Route<F::Addr>>>,
    row: Route<F::Addr>,
)
    requires ends { vec_len ends.old + 2 ≤ vec_capacity ends.old }
    requires answers { vec_len answers.old + 2 ≤ vec_capacity answers.old }
    requires ranges { AreRanges (map F.value_of ends.old.items)
        (answers_seen F.bytes_of answers.old.items) }
    requires count { row.length ≤ mask_length F.family }
    requires within { ends_within F.family row.length (F.bytes_of row.prefix) ≡ true }
    ensures ranges { AreRanges (map F.value_of ends.new.items)
        (answers_seen F.bytes_of answers.new.items) }
    ensures few { length ends.new.items ≤ length ends.old.items + 2 }
    ensures answers { AnswersBetween (number_of (F.bytes_of row.prefix))
        (last_number F.family row.length (F.bytes_of row.prefix)) (row_seen F.bytes_of row)
        (answer_of (map F.value_of ends.old.items) (answers_seen F.bytes_of answers.old.items))
        (answer_of (map F.value_of ends.new.items) (answers_seen F.bytes_of answers.new.items)) }
{
    let first = F::number(row.prefix);
    let last = F::last_number(row.prefix, row.length);
    start_at::<F>(ends, answers, first);
    end_at::<F>(ends, answers, last);
    answer_between::<F>(ends, answers, first, last, row);
}
