//! The canonical messages of a form.
//!
//! A star that is too big is looked for before anything is allocated. So `TooBig` comes exactly for
//! such a form, also where memory is short. The bytes of all messages are reserved once and written
//! in place.

ghost use Rattle.std.specs.Prelude.{◌≡◌, ◌≢◌, true, None, Err, length, map, option_map, IfOk};
ghost use Rattle.std.specs.List.{AllByRecursion};
ghost use Rattle.pim_addr.specs.Routes.{rp_of};
ghost use Rattle.pim_form.specs.Messages.{HaveRps, CarryRuns, AreCanonical};
ghost use Rattle.pim_form.specs.Parts.{IsFitting, PartHasRps, runs_size};
ghost use Rattle.pim_form.specs.Plan.{AreEnds, parts_from, run_of};
ghost use Rattle.pim_form.specs.Refused.{group_too_big};
ghost use Rattle.pim_form.specs.TooBig.{too_big};
ghost use Rattle.pim_form.specs.Toward.{via_of, is_toward};

use crate::fault::FormFault;
use crate::form::NormalForm;
use crate::groups::Groups;
use crate::messages::Messages;
use crate::place::{GroupPlace, between};
use crate::plan::{PackingPlan, plan_messages};
use crate::sizes::too_big;
use crate::writer::Writer;
use crate::written::message_length;
use pim_addr::{Family, Routes};
use std::alloc::{AllocError, Global};

/// The number of bytes of all messages of a plan. It is an error if that can't be addressed.
fn total_length<F: Family>(
    writer: &Writer<F>,
    row: &[F::Addr],
    plan: &PackingPlan<F::Addr>,
) -> Result<usize, AllocError>
    requires ends { AreEnds 0 (length plan.now.pieces.items) plan.now.ends.items }
    requires parts { AllByRecursion (IsFitting F.bytes_of F.family writer.now.budget row.now)
        (parts_from 0 plan.now.ends.items plan.now.pieces.items) }
    ensures { IfOk result (λ total. total ≡ runs_size F.family
        (map (run_of F.bytes_of row.now)
        (parts_from 0 plan.now.ends.items plan.now.pieces.items))) }
{
    writer.is_writing();
    let mut total: usize = 0;
    let mut start = 0;
    for &end in &plan.ends {
        let part = between(&plan.pieces, start, end);
        let length = message_length::<F>(Groups::new(row, part));
        let Some(sum) = total.checked_add(length) else {
            return Err(AllocError);
        };
        total = sum;
        start = end;
    }
    Ok(total)
}

/// The messages of a plan, in one block.
fn write_plan<F: Family>(
    alloc: Global,
    writer: &Writer<F>,
    routes: &Routes<F>,
    row: &[F::Addr],
    plan: &PackingPlan<F::Addr>,
) -> Result<Messages, AllocError>
    requires ends { AreEnds 0 (length plan.now.pieces.items) plan.now.ends.items }
    requires parts { AllByRecursion (IsFitting F.bytes_of F.family writer.now.budget row.now)
        (parts_from 0 plan.now.ends.items plan.now.pieces.items) }
    requires rps { AllByRecursion
        (PartHasRps F.bytes_of F.family (rp_of F.family routes.now) row.now)
        (parts_from 0 plan.now.ends.items plan.now.pieces.items) }
    ensures { IfOk result (λ messages. CarryRuns F.family writer.now (rp_of F.family routes.now)
        (map (run_of F.bytes_of row.now) (parts_from 0 plan.now.ends.items plan.now.pieces.items))
        messages) }
{
    let total = total_length::<F>(writer, row, plan)?;
    let mut messages = Messages::none(alloc);
    messages.reserve(plan.ends.len(), total)?;
    let mut start = 0;
    for &end in &plan.ends {
        let part = between(&plan.pieces, start, end);
        messages.add::<F>(writer, routes, row, part)?;
        start = end;
    }
    Ok(messages)
}

/// The canonical messages of a form, each of whose stars fits one message. The only refusal is for
/// lack of memory.
fn packed<F: Family>(
    alloc: Global,
    normal: &NormalForm<F>,
    writer: &Writer<F>,
    routes: &Routes<F>,
) -> Result<Messages, AllocError>
    requires fits { too_big F.family writer.now.budget normal.now ≡ None }
    requires rps { HaveRps F.family (rp_of F.family routes.now) normal.now }
    ensures { IfOk result
        (λ messages. AreCanonical F.family writer.now (rp_of F.family routes.now) normal.now
        messages) }
{
    writer.is_writing();
    let plan = plan_messages::<F>(alloc, &normal.row, &normal.places, writer.budget())?;
    write_plan::<F>(alloc, writer, routes, &normal.row, &plan)
}

/// Returns the canonical messages that request a form from the writer's upstream neighbour
/// (RFC 7761, 4.9.5). Each holds as many stars and sources as fit, and is sealed from the writer's
/// own address to ALL-PIM-ROUTERS. Each star names the RP that the table has for its group.
///
/// The caller's condition is `is_toward`, so that no message requests from a neighbour what another
/// one should send.
///
/// # Errors
/// `TooBig` with the least group whose star, with all its exceptions, exceeds the budget of a
/// message. `Memory` if an allocation is refused.
pub fn pack<F: Family>(
    alloc: Global,
    normal: &NormalForm<F>,
    writer: &Writer<F>,
    routes: &Routes<F>,
) -> Result<Messages, FormFault<F>>
    requires { is_toward (rp_of F.family routes.now) (via_of F.family routes.now)
        writer.now.upstream normal.now
        ≡ true }
    ensures canonical { IfOk result
        (λ messages. AreCanonical F.family writer.now (rp_of F.family routes.now) normal.now
        messages) }
    ensures too_big { option_map F.bytes_of (group_too_big result)
        ≡ too_big F.family writer.now.budget normal.now }
    ensures not_tables { result ≢ Err FormFault.Tables }
{
    routes.is_sound();
    if let Some(group) = too_big::<F>(normal, writer.budget()) {
        return Err(FormFault::TooBig(group));
    }
    match packed::<F>(alloc, normal, writer, routes) {
        Ok(messages) => Ok(messages),
        Err(_) => Err(FormFault::Memory),
    }
}
