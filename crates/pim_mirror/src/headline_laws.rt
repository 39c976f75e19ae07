//! The headline, and the laws of its fresh router. These functions do nothing.
//!
//! The headline is a law over the definitions, since its first part is of two states; `mirror` has
//! its last part as clauses. It says nothing of states without canonical messages, of what a state
//! wants without a route, or of refused memory. Room is the premise that no message is `Full` on
//! the course, and `room_is_for_the_units` says when that is so. The other neighbours need to stay
//! only until the final moment, since the router hears nothing after it that depends on their
//! delays.

ghost use Rattle.pim_mirror.specs.Headline.{NormalisingTwiceIsOnce, FreshRouterMirrors};
ghost use Rattle.pim_mirror.specs.Headline.{FreshRouterSendsNoEcho};
ghost use Rattle.pim_mirror.specs.Headline.{RoomIsForTheUnits, FreshRouterIsThere};
ghost use Rattle.pim_mirror.specs.Headline.{FreshRouterKnowsTheWriter};
ghost use Rattle.pim_mirror.specs.Headline.{MirrorAnswersForTheForm, Headline};

use crate::hello_laws::{hellos_are_heard, written_hellos_are_read};
use crate::laws::{
    canonical_messages_carry_form, course_hears_all, delivery_is_taken, demanded_stars_have_rps,
    heard_messages_are_demanded_again, router_leaves_its_port,
};

/// The normal form of what a normal form wants is that normal form.
pub fn normalising_twice_is_once()
    ensures { NormalisingTwiceIsOnce }
{
    pim_form::laws::one_normal_form();
}

/// A new router goes its course over the Hellos of its neighbours and a sender's canonical
/// messages, and the conditions of `Fits` hold. Some message has no room exactly where the entries
/// of all messages together pass the limit of records. The first such message needs as many records
/// as the different messages have units up to it.
pub fn room_is_for_the_units()
    ensures { RoomIsForTheUnits }
{
    written_hellos_are_read();
    hellos_are_heard();
    demanded_stars_have_rps();
    delivery_is_taken();
    course_hears_all();
}

/// A new router receives the Hellos of its neighbours, and then a sender's canonical messages
/// alone. Each comes at least once, in any order and however often. The conditions of `Fits` hold,
/// and each message has room.
///
/// From its final moment until the first of its records expires it holds exactly the machines of
/// the form. (*,G) of each star and (S,G) of each source are in Join, (S,G,rpt) of each exception
/// is in Prune. Each Expiry Timer has the holdtime less the time since the message came last, and
/// no Prune-Pending Timer runs. The router wants exactly what the form wants, and asks for it again
/// by the same messages. From its final moment on it reports no PruneEcho.
pub fn fresh_router_mirrors()
    ensures { FreshRouterMirrors }
{
    written_hellos_are_read();
    hellos_are_heard();
    demanded_stars_have_rps();
    room_is_for_the_units();
    course_hears_all();
    router_leaves_its_port();
    canonical_messages_carry_form();
    heard_messages_are_demanded_again();
    pim_fresh::laws::span_is_of_its_message();
}

/// Up to its final moment such a router reports no PruneEcho either: these messages prune no star
/// and no source.
pub fn fresh_router_sends_no_echo()
    ensures { FreshRouterSendsNoEcho }
{
    written_hellos_are_read();
    hellos_are_heard();
    demanded_stars_have_rps();
    room_is_for_the_units();
    course_hears_all();
    router_leaves_its_port();
    canonical_messages_carry_form();
    delivery_is_taken();
    pim_fresh::laws::no_echo_is_due();
    pim_fresh::laws::every_hearing_reaches();
    pim_down::laws::run_has_one_end();
}

/// At its final moment such a router knows the writer on its only port, with the override interval
/// of its neighbours' Hellos. No neighbour's time is over at any later moment up to which the other
/// neighbours stay.
pub fn fresh_router_knows_the_writer()
    ensures { FreshRouterKnowsTheWriter }
{
    written_hellos_are_read();
    hellos_are_heard();
    demanded_stars_have_rps();
    room_is_for_the_units();
    course_hears_all();
    router_leaves_its_port();
    canonical_messages_carry_form();
    pim_down::laws::run_keeps_its_bounds();
}

/// Where the conditions of `Fits` hold and there is room for the entries of all messages, there is
/// such a router. Its final moment is in the window, it is at that moment, and it runs on to every
/// later one.
pub fn fresh_router_is_there()
    ensures { FreshRouterIsThere }
{
    room_is_for_the_units();
    pim_router::laws::every_list_has_a_course();
    pim_router::laws::run_has_one_end();
    pim_router::laws::run_goes_on();
}

/// The meaning of a result of `mirror` where its messages are the canonical ones of a state. An Ok
/// router had room for the entries of all messages, and no PruneEcho was reported on its course. It
/// mirrors the form at its final moment, which is in the window, and at every moment of the window
/// to which it runs on. It knows the writer as long as the other neighbours stay. `Full` says that
/// the entries of all messages pass the limit. Its number is that of the units of the different
/// messages up to the first delivery at which they do.
pub fn mirror_answers_for_the_form()
    ensures { MirrorAnswersForTheForm }
{
    room_is_for_the_units();
    fresh_router_mirrors();
    fresh_router_sends_no_echo();
    fresh_router_knows_the_writer();
    pim_router::laws::every_list_has_a_course();
    pim_router::laws::run_has_one_end();
    pim_router::laws::run_goes_on();
}

/// The headline. Two downstream states under one route table want the same traffic of an upstream
/// neighbour exactly if their canonical Join/Prune messages to it are byte-equal. The traffic is
/// that of every source, group and tree.
///
/// Normalizing twice is once.
///
/// A fresh router hears these messages alone, in any order and however often. From the end of its
/// prune-pending times until the first expiry it wants exactly the traffic that the state asks of
/// it. It would ask its own address for that by the same bytes.
pub fn headline()
    ensures { Headline }
{
    pim_form::laws::same_messages_same_demand_toward();
    normalising_twice_is_once();
    fresh_router_mirrors();
}
