//! Rows in order: search, insertion and equality.

ghost use Rattle.std.specs.Prelude.{◌≡◌, ◌↔◌, ◌+◌, ◌<◌, ◌≤◌, IsTrue, length, map, OnOk, OnErr};
ghost use Rattle.std.specs.Prelude.{vec_len};
ghost use Rattle.std.specs.Prelude.{vec_capacity, Err};
ghost use Rattle.pim_addr.specs.Routes.{AreInOrder, IsRealRow, with_row};
ghost use Rattle.pim_addr.specs.RouteRows.{row_seen, rows_seen, answers_seen, Stand, IsGap};
ghost use Rattle.pim_addr.specs.RouteRows.{IsRowPlace};
ghost use Rattle.pim_addr.specs.declared.route_fault.RouteFault.TheVariants.{Memory};

use crate::family::Family;
use crate::ranges::answer_for;
use crate::route::Route;
use crate::route_fault::RouteFault;
use std::cmp::Reverse;

/// Returns the place of the row with the same prefix and length, or else the place for this row.
pub(crate) fn find_place<F: Family>(
    rows: &[Route<F::Addr>],
    row: &Route<F::Addr>,
) -> Result<usize, usize>
    requires { AreInOrder (rows_seen F.bytes_of rows.now) }
    ensures { IsRowPlace (row_seen F.bytes_of row.now).0 (rows_seen F.bytes_of rows.now) result }
{
    let key = (Reverse(row.length), row.prefix);
    rows.binary_search_by_key(&key, |held| (Reverse(held.length), held.prefix))
}

/// Takes memory for `more` further items. The items are unchanged, also on an error.
pub(crate) fn reserve<T>(list: &mut Vec<T>, more: usize) -> Result<(), RouteFault>
    ensures same { list.new.items ≡ list.old.items }
    ensures room { OnOk result (vec_len list.new + more ≤ vec_capacity list.new) }
    ensures memory { OnErr result (result ≡ Err Memory) }
{
    match list.reserve(more) {
        Ok(()) => Ok(()),
        Err(_) => Err(RouteFault::Memory),
    }
}

/// Inserts the row at its place and applies it to its ranges. The caller has reserved memory for
/// one row and two ranges.
pub(crate) fn insert_row<F: Family>(
    rows: &mut Vec<Route<F::Addr>>,
    ends: &mut Vec<F::Number>,
    answers: &mut Vec<Option<Route<F::Addr>>>,
    place: usize,
    row: Route<F::Addr>,
)
    requires rows { vec_len rows.old < vec_capacity rows.old }
    requires ends { vec_len ends.old + 2 ≤ vec_capacity ends.old }
    requires answers { vec_len answers.old + 2 ≤ vec_capacity answers.old }
    requires few { length rows.old.items < 4096 }
    requires real { IsRealRow F.family (row_seen F.bytes_of row) }
    requires gap { IsGap (row_seen F.bytes_of row).0 (rows_seen F.bytes_of rows.old.items) place }
    requires stand { Stand F.family (rows_seen F.bytes_of rows.old.items)
        (map F.value_of ends.old.items) (answers_seen F.bytes_of answers.old.items) }
    ensures rows { rows_seen F.bytes_of rows.new.items ≡
        with_row (row_seen F.bytes_of row).0 (row_seen F.bytes_of row).1
        (rows_seen F.bytes_of rows.old.items) }
    ensures stand { Stand F.family (rows_seen F.bytes_of rows.new.items)
        (map F.value_of ends.new.items) (answers_seen F.bytes_of answers.new.items) }
{
    answer_for::<F>(ends, answers, row);
    if rows.insert(place, row).is_err() {
        unreachable!()
    }
}

/// Returns whether the two lists of rows are equal.
pub(crate) fn are_same<F: Family>(one: &[Route<F::Addr>], other: &[Route<F::Addr>]) -> bool
    ensures { IsTrue result ↔ (rows_seen F.bytes_of one.now ≡ rows_seen F.bytes_of other.now) }
{
    one == other
}
