//! The laws of this crate. Nothing in this module is to be called.

ghost use Rattle.pim_moving.specs.Laws.{ChangeFits, ChangeMovesARouter, LongTimersLast};
ghost use Rattle.pim_moving.specs.Laws.{MirrorIsSettled};

/// A router of one port is settled at one form. It knows the writer, whose upstream neighbour it
/// is, and has the same RPs. By the writer's route table both forms are toward this neighbour. The
/// router is given the packets of the change to the other form, in any order, each at least once
/// and nothing else. Then it is given a moment from the final one of these deliveries on.
///
/// If it has room, and no neighbour's time and no Expiry Timer ends, it is then settled at the
/// other form. It wants exactly what that form means, all of which the writer's table leads to the
/// writer's upstream neighbour.
pub fn change_moves_a_router()
    ensures { ChangeMovesARouter }
{
    pim_down::laws::keys_are_distinct();
    pim_form::laws::test_finds_the_neighbour();
    pim_mirror::laws::read_packet_is_heard();
    pim_mirror::laws::router_runs_as_its_machines();
    pim_mirror::laws::writer_stays_heard();
    pim_down::laws::hearing_acts_at_each_key();
    pim_down::laws::hearing_keeps_the_order();
    pim_down::laws::run_keeps_its_bounds();
    pim_down::laws::run_keeps_the_order();
    pim_change::laws::change_is_read();
    pim_settling::laws::written_change_settles();
    pim_settling::laws::settled_wants();
}

/// While a router hears the messages of a change, none of its Expiry Timers ends if each has more
/// left than there is until the last moment. This is so of those that run at the start and of those
/// that a message starts.
pub fn long_timers_last()
    ensures { LongTimersLast }
{
    pim_down::laws::keys_are_distinct();
    pim_mirror::laws::read_packet_is_heard();
    pim_mirror::laws::router_runs_as_its_machines();
    pim_mirror::laws::writer_stays_heard();
    pim_down::laws::hearing_acts_at_each_key();
    pim_down::laws::hearing_keeps_the_order();
    pim_down::laws::run_keeps_its_bounds();
    pim_down::laws::run_keeps_the_order();
    pim_change::laws::change_is_read();
}

/// A mirror is settled, from its final moment on, at the form of the messages that it heard. None
/// of its Expiry Timers ends while each message came less than its holdtime ago.
pub fn mirror_is_settled()
    ensures { MirrorIsSettled }
{}

/// If each star of a form, with all its exceptions, fits a message alone, so does what a change to
/// that form says.
pub fn change_fits()
    ensures { ChangeFits }
{}
