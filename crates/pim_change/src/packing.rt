//! The messages of a change.
//!
//! Each message is made in a vector of its own, since a change is small, and is then added to the
//! list.

ghost use Rattle.std.specs.Prelude.{◌≡◌, ◌≢◌, None, Err, option_map, IfOk};
ghost use Rattle.pim_addr.specs.Routes.{rp_of};
ghost use Rattle.pim_form.specs.Refused.{group_too_big};
ghost use Rattle.pim_change.specs.Change.{change};
ghost use Rattle.pim_change.specs.Seen.{units_seen};
ghost use Rattle.pim_change.specs.TooBig.{too_big};
ghost use Rattle.pim_change.specs.Written.{CarryUnits, CarryChange};

use crate::changes::changed;
use crate::fitting::too_big;
use crate::message::message;
use crate::runs::run_length;
use crate::unit::Unit;
use pim_addr::{Family, Routes};
use pim_form::{FormFault, Messages, NormalForm, Writer};
use std::alloc::{AllocError, Global};

/// The messages of these units, each of which fits a message alone. The only refusal is for lack of
/// memory.
fn write_units<F: Family>(
    alloc: Global,
    units: &[Unit<'_, F::Addr>],
    writer: &Writer<F>,
    routes: &Routes<F>,
) -> Result<Messages, AllocError>
    requires { too_big F.family writer.now.budget (units_seen F.bytes_of units.now) ≡ None }
    ensures { IfOk result (λ messages. CarryUnits F.family writer.now (rp_of F.family routes.now)
        (units_seen F.bytes_of units.now) messages) }
{
    writer.is_writing();
    let mut messages = Messages::none(alloc);
    let mut start = 0;
    while start < units.len() {
        let (_, left) = units.split_at(start);
        let length = run_length::<F>(left, writer.budget());
        let (run, _) = left.split_at(length);
        let bytes = message::<F>(alloc, writer, routes, run)?;
        messages.push(&bytes)?;
        start += length;
    }
    Ok(messages)
}

/// The messages of a change whose new stars fit. The only refusal is for lack of memory.
fn write_change<F: Family>(
    alloc: Global,
    reported: &NormalForm<F>,
    wanted: &NormalForm<F>,
    writer: &Writer<F>,
    routes: &Routes<F>,
) -> Result<Messages, AllocError>
    requires { too_big F.family writer.now.budget (change reported.now wanted.now) ≡ None }
    ensures { IfOk result (λ messages. CarryChange F.family writer.now (rp_of F.family routes.now)
        reported.now wanted.now messages) }
{
    let units = changed::<F>(alloc, reported, wanted)?;
    write_units::<F>(alloc, &units, writer, routes)
}

/// Returns the messages that move the writer's upstream neighbour from the form that was last sent
/// to the form that is wanted (RFC 7761, 4.5.4, 4.5.5 and 4.5.7). Each holds as many units as fit,
/// and is sealed from the writer's own address to ALL-PIM-ROUTERS. Each star, joined or pruned,
/// names the RP that the table has for its group. If the forms are equal, there is no message.
///
/// The caller's condition is that `is_toward` holds of both forms and that neighbour. Without an
/// RP, a star has no (*,G) entry.
///
/// # Errors
/// `TooBig` with the least group whose new star, with all its exceptions, exceeds the budget of a
/// message; it is looked for first. `Memory` if an allocation is refused.
pub fn triggered<F: Family>(
    alloc: Global,
    reported: &NormalForm<F>,
    wanted: &NormalForm<F>,
    writer: &Writer<F>,
    routes: &Routes<F>,
) -> Result<Messages, FormFault<F>>
    ensures change { IfOk result
        (λ messages. CarryChange F.family writer.now (rp_of F.family routes.now)
        reported.now wanted.now messages) }
    ensures too_big { option_map F.bytes_of (group_too_big result)
        ≡ too_big F.family writer.now.budget (change reported.now wanted.now) }
    ensures not_tables { result ≢ Err FormFault.Tables }
{
    if let Some(group) = too_big::<F>(reported, wanted, writer.budget()) {
        return Err(FormFault::TooBig(group));
    }
    match write_change::<F>(alloc, reported, wanted, writer, routes) {
        Ok(messages) => Ok(messages),
        Err(_) => Err(FormFault::Memory),
    }
}
