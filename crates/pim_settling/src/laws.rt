//! The laws of this crate. Nothing in this module is to be called.

ghost use Rattle.pim_settling.specs.Laws.{CoursesAreKept, ChangeSettles, RunsCarryTheChange};
ghost use Rattle.pim_settling.specs.Laws.{WrittenChangeSettles};
ghost use Rattle.pim_settling.specs.Laws.{SettledWants};

/// A port whose machines each go some course hears messages, and no Expiry Timer ends. Then each
/// machine goes the course that the messages make of its own, and no Prune-Pending Timer is due.
pub fn courses_are_kept()
    ensures { CoursesAreKept }
{
    pim_down::laws::keys_are_distinct();
    pim_down::laws::hearing_keeps_the_order();
    pim_down::laws::hearing_acts_at_each_key();
}

/// A port is settled at one form and hears messages that say exactly the change to another form.
/// They come in any order and any number of times, and no Expiry Timer ends. From the final moment
/// of these deliveries on the port is settled at the other form.
pub fn change_settles()
    ensures { ChangeSettles }
{
    pim_down::laws::keys_are_distinct();
    pim_down::laws::hearing_keeps_the_order();
    pim_down::laws::hearing_acts_at_each_key();
}

/// If each message of a change came and the RPs of all stars are known, the messages say exactly
/// that change, cut into any runs.
pub fn runs_carry_the_change()
    ensures { RunsCarryTheChange }
{
    pim_down::laws::keys_are_distinct();
}

/// A port that is settled at one normal form hears the messages of the change to another one, as
/// `triggered` of `pim_change` gives them. They come in any order, each at least once and nothing
/// else, and no Expiry Timer ends. From the final moment of these deliveries on the port is settled
/// at the other form.
pub fn written_change_settles()
    ensures { WrittenChangeSettles }
{
    pim_down::laws::keys_are_distinct();
    pim_down::laws::hearing_keeps_the_order();
    pim_down::laws::hearing_acts_at_each_key();
    pim_change::laws::change_is_read();
}

/// A router of one port that is settled at a normal form wants exactly what the form means.
pub fn settled_wants()
    ensures { SettledWants }
{}
