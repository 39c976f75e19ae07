//! How a form is cut into messages.

ghost use Rattle.std.specs.Prelude.{◌≡◌, ◌≤◌, None, IfOk};
ghost use Rattle.pim_form.specs.Rows.{IsKept, form_seen};
ghost use Rattle.pim_form.specs.TooBig.{too_big};
ghost use Rattle.pim_form.specs.Plan.{IsPlan};

use crate::filling::{Filling, add, finish};
use crate::place::GroupPlace;
use pim_addr::Family;
use std::alloc::{AllocError, Global};

/// The pieces of the groups of a form, in order, and where the pieces of each message end.
#[derive(Drop)]
pub(crate) struct PackingPlan<A> {
    /// Where each piece is in the form's row.
    pub(crate) pieces: Vec<GroupPlace<A>>,
    /// For each message, the number of pieces up to its end.
    pub(crate) ends: Vec<usize>,
}

/// Cuts the form at these places of the row into messages of at most `budget` bytes and 255 groups.
/// The only refusal is for lack of memory.
pub(crate) fn plan_messages<F: Family>(
    alloc: Global,
    row: &[F::Addr],
    places: &[GroupPlace<F::Addr>],
    budget: usize,
) -> Result<PackingPlan<F::Addr>, AllocError>
    requires kept { IsKept F.bytes_of F.family row.now places.now }
    requires least { 70 ≤ budget }
    requires most { budget ≤ 65000 }
    requires fits { too_big F.family budget (form_seen F.bytes_of row.now places.now) ≡ None }
    ensures { IfOk result
        (λ plan. IsPlan F.bytes_of F.family budget row.now places.now plan.pieces.items
        plan.ends.items) }
{
    let _row = row;
    let mut filling = Filling::new(alloc, places.len())?;
    for place in places {
        add::<F>(&mut filling, budget, place)?;
    }
    finish::<F>(filling)
}
