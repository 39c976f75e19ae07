//! The canonical messages, kept in memory one after another.

ghost use Rattle.std.specs.Prelude.{◌≡◌, ◌≢◌, ◌≤◌, [], None, Err, IfOk, OnOk, length, option_map};
ghost use Rattle.pim_form.specs.Messages.{AreCanonical};
ghost use Rattle.pim_form.specs.Refused.{group_too_big};
ghost use Rattle.pim_form.specs.TooBig.{too_big};
ghost use Rattle.pim_addr.specs.Routes.{rp_of};
ghost use Rattle.pim_emit.specs.Written.{DemandBy, IsTooBig};

use crate::demand::UpstreamDemand;
use crate::message::{next_message, too_big};
use crate::position::Position;
use pim_addr::{Family, Routes};
use pim_down::Ports;
use pim_form::{FormFault, Messages, Writer};
use std::alloc::{AllocError, Global};

/// The buffer for one message: `budget` zeros.
fn blank(alloc: Global, budget: usize) -> Result<Vec<u8>, AllocError>
    ensures { IfOk result (λ buffer. length buffer.items ≡ budget) }
{
    vec![in alloc; 0u8; budget]
}

/// Keeps the messages one after another. Each is made in the buffer, whose length is at least the
/// writer's budget.
fn keep_all<F: Family>(
    demand: &UpstreamDemand<'_, F>,
    writer: &Writer<F>,
    buffer: &mut [u8],
    messages: &mut Messages,
) -> Result<(), AllocError>
    requires none { messages.old ≡ [] }
    requires fits { too_big F.family writer.now.budget demand.now.form ≡ None }
    requires room { writer.now.budget ≤ length buffer.old }
    ensures { OnOk result
        (AreCanonical F.family writer.now (rp_of F.family demand.now.table) demand.now.form
        messages.new) }
{
    let mut position = Position::Start;
    while let Some(length) = next_message::<F>(demand, writer, &mut position, buffer) {
        let (message, _) = buffer.split_at(length);
        let Ok(()) = messages.push(message) else {
            return Err(AllocError);
        };
    }
    Ok(())
}

/// The canonical messages by which the writer's upstream neighbour is asked for what the machines
/// of all ports want of it (RFC 7761, 4.1 and 4.9.5). They are the messages that `pack` gives for
/// the normal form of what is asked. The call makes no form: beside the messages it takes memory
/// for one buffer of the writer's budget, and frees that.
///
/// The time is that of `write_canonical`.
///
/// # Errors
/// `TooBig` of the least group whose star, with all its exceptions, is too big for a message of the
/// writer's budget alone, exactly if there is one. Otherwise `Memory` if a growth is refused.
pub fn canonical_messages<F: Family>(
    alloc: Global,
    ports: &Ports<F>,
    writer: &Writer<F>,
    routes: &Routes<F>,
) -> Result<Messages, FormFault<F>>
    ensures canonical { IfOk result (DemandBy F.family writer.now routes.now ports.now) }
    ensures too_big { IsTooBig F.family writer.now routes.now ports.now
        (option_map F.bytes_of (group_too_big result)) }
    ensures tables { result ≢ Err FormFault.Tables }
{
    ports.is_sound();
    writer.is_writing();
    pim_form::laws::form_of_demand_toward();
    let demand = UpstreamDemand::new(ports, routes, writer.upstream());
    if let Some(group) = too_big::<F>(&demand, writer.budget()) {
        return Err(FormFault::TooBig(group));
    }
    let Ok(mut buffer) = blank(alloc, writer.budget()) else {
        return Err(FormFault::Memory);
    };
    let mut messages = Messages::none(alloc);
    let Ok(()) = keep_all::<F>(&demand, writer, &mut buffer, &mut messages) else {
        return Err(FormFault::Memory);
    };
    Ok(messages)
}
