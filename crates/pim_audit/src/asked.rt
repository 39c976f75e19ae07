//! What an upstream neighbour was asked for.

ghost use Rattle.std.specs.Prelude.{◌≡◌, ◌≤◌, ◌^◌, max, OnOk, OnErr};
ghost use Rattle.pim_addr.specs.Routes.{rp_of};
ghost use Rattle.pim_down.specs.Heard.{needed_for, new_for, IsWithin, MayWantMemory};
ghost use Rattle.pim_audit.specs.Asked.{PassesTo, AskedBy};
ghost use Rattle.pim_audit.specs.Touched.{Grows, OthersStay};

use crate::touched::Touched;
use pim_addr::{Family, Routes};
use pim_down::laws::{firing_says_more, hearing_acts_at_each_key, timers_run_out};
use pim_down::{HearFault, Ports, Timing};
use pim_jp::JpView;

/// Lets time pass up to this moment, in milliseconds, at most 10^15. An earlier moment counts as
/// the present one. Each timer on the way fires. Touches the machines of these timers.
///
/// It looks only at the timer that fires first.
pub(crate) fn pass_to<F: Family>(asked: &mut Ports<F>, moment: u64, touched: &mut Touched<F>)
    requires { moment ≤ 10 ^ 15 }
    ensures passes { PassesTo moment asked.old asked.new }
    ensures ports { asked.new.ports ≡ asked.old.ports }
    ensures limit { asked.new.limit ≡ asked.old.limit }
    ensures moment { asked.new.moment ≡ max asked.old.moment moment }
    ensures stays { OthersStay touched.new asked.old asked.new }
    ensures grows { Grows touched.old touched.new }
{
    timers_run_out();
    firing_says_more();
    while let Some(firing) = asked.fire_to(moment) {
        touched.touch(firing.before.key.group, firing.before.key.what);
    }
}

/// Hears a message that the upstream neighbour hears. Its Prunes take effect at once. The machines
/// are those of port 0. Touches those that may change.
///
/// # Errors
/// As those of `Ports::hear`: the message needs more records than the limit, or memory was refused.
/// Then nothing has changed, but machines may be touched.
pub(crate) fn hear_at_once<F: Family>(
    asked: &mut Ports<F>,
    message: &JpView<'_, F>,
    routes: &Routes<F>,
    touched: &mut Touched<F>,
) -> Result<(), HearFault>
    requires port { 1 ≤ asked.old.ports }
    requires moment { asked.old.moment ≤ 10 ^ 15 }
    ensures ok { OnOk result
        (AskedBy message.now (rp_of F.family routes.now) asked.old asked.new) }
    ensures err { OnErr result (asked.new ≡ asked.old) }
    ensures room { IsWithin asked.old.limit
        (needed_for 0 message.now (rp_of F.family routes.now) asked.old) result }
    ensures memory { MayWantMemory
        (new_for 0 message.now (rp_of F.family routes.now) asked.old) result }
    ensures ports { asked.new.ports ≡ asked.old.ports }
    ensures limit { OnOk result (asked.new.limit ≡ asked.old.limit) }
    ensures present { asked.new.moment ≡ asked.old.moment }
    ensures stays { OthersStay touched.new asked.old asked.new }
    ensures grows { Grows touched.old touched.new }
{
    asked.is_sound();
    hearing_acts_at_each_key();
    let timing = Timing {
        override_ms: 0,
        several: false,
    };
    touched.touch_message(asked, 0, message);
    asked.hear(0, message, routes, timing)?;
    let moment = asked.now();
    pass_to::<F>(asked, moment, touched);
    Ok(())
}
