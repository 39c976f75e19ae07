//! The canonical messages, written to a device. If the device fails, the rest of the messages is
//! never made, so the clause speaks of every list that is the canonical one; a form has at most
//! one.

ghost use Rattle.std.specs.Prelude.{◌≡◌, ◌≤◌, length, option_map};
ghost use Rattle.pim_emit.specs.Written.{IsWritten, IsTooBig, group_too_big, failures_of_write};

use crate::demand::UpstreamDemand;
use crate::fault::WriteFault;
use crate::message::{next_message, too_big};
use crate::position::Position;
use crate::sending::send_framed;
use pim_addr::{Family, Routes};
use pim_device::Drain;
use pim_down::Ports;
use pim_form::Writer;

/// Writes the canonical messages that ask the writer's upstream neighbour for what the machines of
/// all ports want of it (RFC 7761, 4.1 and 4.9.5). Returns their number. Each message follows two
/// bytes of its length, big-endian. They are the messages that `pack` gives for the normal form of
/// what is asked. The call makes no form and takes no memory: it makes each message in the buffer,
/// whose length is at least the writer's budget.
///
/// The time grows with the machines that are passed and with the ports. A source takes a step to
/// the next machine on each port that has it, a look-up in the table, and a comparison on every
/// port. An exception takes a step on the first port that has the star, and at most one look-up on
/// each other port that has it. A group takes some look-ups on every port and one or two in the
/// table; so does a message that begins or ends within a group. A look-up begins near where an
/// earlier one on the port ended. If it passes over records, it is a search by halves in a block of
/// up to 512 records or among all.
///
/// Exceptions are walked three times: to look for stars that are too big, to see whether a star has
/// room, and to write them. They are walked once more if the star begins a new message. Each walk
/// begins with a look-up of the star on every port. The first is made only if some port has as many
/// (S,G,rpt) machines as are too many for one message.
///
/// # Errors
/// `TooBig` of the least group whose star, with all its exceptions, is too big for a message of the
/// writer's budget alone; nothing is written then. `Output` if the device failed, with the number
/// of bytes that it took, from the front of the messages.
pub fn write_canonical<F: Family, D: Drain>(
    ports: &Ports<F>,
    writer: &Writer<F>,
    routes: &Routes<F>,
    buffer: &mut [u8],
    out: &mut D,
) -> Result<u64, WriteFault<F>>
    requires { writer.now.budget ≤ length buffer.old }
    ensures written { IsWritten F.family writer.now routes.now ports.now
        (D.contents out.old) (D.contents out.new) result }
    ensures too_big { IsTooBig F.family writer.now routes.now ports.now
        (option_map F.bytes_of (group_too_big result)) }
    ensures failures { D.failures out.new ≡ failures_of_write (D.failures out.old) result }
{
    ports.is_sound();
    writer.is_writing();
    pim_form::laws::form_of_demand_toward();
    pim_form::laws::first_run_is_written();
    pim_form::laws::one_list_of_messages();
    pim_form::laws::one_normal_form();
    let demand = UpstreamDemand::new(ports, routes, writer.upstream());
    if let Some(group) = too_big::<F>(&demand, writer.budget()) {
        return Err(WriteFault::TooBig(group));
    }
    let mut position = Position::Start;
    let mut sent = 0;
    let mut count = 0;
    while let Some(length) = next_message::<F>(&demand, writer, &mut position, buffer) {
        let (message, _) = buffer.split_at(length);
        let Ok(()) = send_framed(out, message, &mut sent) else {
            return Err(WriteFault::Output { sent });
        };
        count += 1;
    }
    Ok(count)
}
