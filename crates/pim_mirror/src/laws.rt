//! Laws of canonical messages and of a router that hears them. These functions do nothing.

ghost use Rattle.pim_mirror.specs.Laws.{PartIsDemanding, CanonicalMessagesCarryParts};
ghost use Rattle.pim_mirror.specs.Laws.{PartsHaveUnitsOnce, MessagesAreRead};
ghost use Rattle.pim_mirror.specs.Laws.{CanonicalMessagesCarryForm, DemandedStarsHaveRps};
ghost use Rattle.pim_mirror.specs.Laws.{HeardMessagesAreDemandedAgain};
ghost use Rattle.pim_mirror.specs.Laws.{CanonicalPacketIsHeard, RouterLeavesItsPort};
ghost use Rattle.pim_mirror.specs.Laws.{DeliveryIsTaken};
ghost use Rattle.pim_mirror.specs.Laws.{WriterStaysHeard, CourseHearsAll, RouterDemandsAgain};
ghost use Rattle.pim_mirror.specs.Laws.{ReadPacketIsHeard, RouterRunsAsItsMachines};

pub use crate::headline_laws::{
    fresh_router_is_there, fresh_router_knows_the_writer, fresh_router_mirrors,
    fresh_router_sends_no_echo, headline, mirror_answers_for_the_form, normalising_twice_is_once,
    room_is_for_the_units,
};
pub use crate::hello_laws::{hellos_are_heard, neighbours_have_hellos, written_hellos_are_read};
pub use crate::mirror_laws::{canonical_messages_are_short, state_has_messages_unless_too_big};

/// The message of a part of a form asks for traffic, so it announces units (RFC 7761, 4.9.5). The
/// part's groups, sources and exceptions are each in strictly ascending order, and its stars have
/// RPs.
pub fn part_demands()
    ensures { PartIsDemanding }
{}

/// The canonical messages of a normal form announce its parts, one each. These are normal forms
/// whose stars have RPs, and each fits its message. Their units, in order, are those of the form.
pub fn canonical_messages_carry_parts()
    ensures { CanonicalMessagesCarryParts }
{}

/// The messages of the parts of a normal form announce units, and no machine is named by two of
/// them. The machines that they name are exactly those of the form: (*,G) of each star, (S,G,rpt)
/// of each exception, (S,G) of each source.
pub fn parts_have_units_once()
    ensures { PartsHaveUnitsOnce }
{
    pim_fresh::laws::demanding_has_units();
}

/// The bytes of the messages are opened and read without a fault, as the messages of the parts (RFC
/// 7761, 4.9 and 4.9.5).
pub fn messages_are_read()
    ensures { MessagesAreRead }
{
    pim_form::laws::sealed_message_is_read();
}

/// What is read from the canonical messages of a normal form announces its units, and each machine
/// is named in one message.
pub fn canonical_messages_carry_form()
    ensures { CanonicalMessagesCarryForm }
{
    canonical_messages_carry_parts();
    parts_have_units_once();
    messages_are_read();
}

/// In the normal form of what is asked of a neighbour each star has an RP by the route table. The
/// RP is a valid source.
pub fn demanded_stars_have_rps()
    ensures { DemandedStarsHaveRps }
{
    pim_form::laws::test_finds_the_neighbour();
}

/// A fresh router's port heard all canonical messages of what is asked of a neighbour, in any order
/// and however often each. It wants exactly what the form wants, at every moment from the final one
/// of the deliveries on, while no message expires. Under the same route table the form is again the
/// only normal form of what it asks of the neighbour. Its canonical messages are again these.
pub fn heard_messages_are_demanded_again()
    ensures { HeardMessagesAreDemandedAgain }
{
    canonical_messages_carry_form();
    demanded_stars_have_rps();
    pim_fresh::laws::stays_as_wanted();
    pim_down::laws::run_keeps_its_bounds();
    pim_form::laws::one_normal_form();
    pim_form::laws::one_list_of_messages();
}

/// The writer sends a packet to ALL-PIM-ROUTERS whose bytes are opened and read without a fault as
/// a message (RFC 7761, 4.9 and 4.9.5). It comes to a router that knows the writer and is the
/// neighbour to which it is written. The router applies it where there is room for its records.
/// Else it is `Full` with the number that it needs. No other cause refuses it.
pub fn read_packet_is_heard()
    ensures { ReadPacketIsHeard }
{}

/// The writer sends the packet of a canonical message to ALL-PIM-ROUTERS. It comes to a router that
/// knows the writer and is the neighbour to which it is written. The router applies it as the
/// exchange says where there is room for its records. Else it is `Full` with the number that it
/// needs. No other cause refuses it.
pub fn canonical_packet_is_heard()
    ensures { CanonicalPacketIsHeard }
{
    canonical_messages_carry_parts();
    messages_are_read();
    read_packet_is_heard();
}

/// The runs of a router to a moment, through echoes and refreshes, are runs of its machines to that
/// moment. Refreshes and neighbours whose time is over change nothing of them. Its route table and
/// its ports stay.
pub fn router_runs_as_its_machines()
    ensures { RouterRunsAsItsMachines }
{}

/// A router of one port that holds no records hears deliveries of the canonical messages. The units
/// of the different messages are within its limit. It leaves the machines of a fresh port that
/// hears them: its refreshes, its neighbours and their time change nothing of that.
pub fn router_leaves_its_port()
    ensures { RouterLeavesItsPort }
{
    canonical_messages_carry_form();
    canonical_packet_is_heard();
    pim_fresh::laws::no_echo_is_due();
    pim_fresh::laws::every_hearing_reaches();
    pim_fresh::laws::needs_the_units();
    pim_down::laws::run_keeps_its_bounds();
    pim_down::laws::run_has_one_end();
}

/// The packet of one more delivery is applied where the units of the different messages up to it
/// are within the limit. Else it is `Full` with their number.
pub fn delivery_is_taken()
    ensures { DeliveryIsTaken }
{
    router_leaves_its_port();
    canonical_messages_carry_form();
    canonical_packet_is_heard();
    pim_fresh::laws::needs_the_units();
    pim_down::laws::run_keeps_its_bounds();
}

/// A router that knows the writer, as its upstream neighbour, knows it still after runs to a moment
/// by which no neighbour's time is over. The override interval is the same, and so is whether the
/// port has several neighbours.
pub fn writer_stays_heard()
    ensures { WriterStaysHeard }
{}

/// A router gets the moments and the packets of deliveries, the oldest first, and then a moment.
/// Its course hears all of them: each packet is applied, and it knows the writer as at first, since
/// no neighbour's time is over by the last moment.
pub fn course_hears_all()
    ensures { CourseHearsAll }
{
    delivery_is_taken();
    writer_stays_heard();
}

/// A router of one port that knows the writer and holds no records receives the packets of its
/// canonical messages alone. Each comes at least once, in any order and however often, and there is
/// room for their units. From the final moment of the deliveries on it asks again for exactly what
/// they ask for, by the same messages, while no message expires.
pub fn router_demands_again()
    ensures { RouterDemandsAgain }
{
    course_hears_all();
    router_leaves_its_port();
    demanded_stars_have_rps();
    heard_messages_are_demanded_again();
    pim_down::laws::every_state_has_a_run();
    pim_down::laws::run_goes_on();
    pim_down::laws::run_has_one_end();
}
