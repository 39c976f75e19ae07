//! The ports that have (*,G) of a group, kept during a walk over its exceptions, and what they want
//! on its shared tree.

ghost use Rattle.std.specs.Prelude.{◌≡◌, ◌≤◌, ℕ, Bool, false, Some};
ghost use Rattle.pim_down.specs.declared.machines.key.What.TheVariants.{Rpt};
ghost use Rattle.pim_form.specs.Wants.{is_pruned, state_on, some_below, wants_on, wants};
ghost use Rattle.pim_form.specs.declared.tree.Tree.TheVariants.{Shared};
ghost use Rattle.pim_emit.specs.Machines.{is_starred};
ghost use Rattle.pim_emit.specs.Stars.{AreFlags, IsFirstBelow, AreStars};

use crate::hints::PORTS;
use crate::machines::{HeldMachine, is_starred};
use crate::nearby::Nearby;
use pim_addr::Family;
use pim_down::What;
use pim_form::is_pruned;

/// Which ports have (*,G) of a group in Join or Prune-Pending.
#[derive(Clone, Copy)]
pub(crate) struct Stars {
    /// The first of them.
    pub(crate) first: Option<usize>,
    /// Whether each port is one of them.
    pub(crate) on: [bool; PORTS],
}

/// Whether each port has (*,G) in Join or Prune-Pending.
fn starred_ports<F: Family>(ports: &Nearby<'_, F>, group: F::Addr) -> [bool; PORTS]
    ensures { AreFlags ports.now.ports (is_starred ports.now (F.bytes_of group)) result }
{
    ports.is_sound();
    let count = ports.port_count();
    let mut flags = [false; PORTS];
    for port in 0..count {
        flags[port] = is_starred::<F>(ports, port, group);
    }
    flags
}

/// The first of `count` flags that is set.
fn first_set(flags: &[bool; PORTS], count: usize) -> Option<usize>
    requires { count ≤ 64 }
    ensures { (test : ℕ → Bool) → AreFlags count test flags.now → IsFirstBelow count test result }
{
    for place in 0..count {
        if flags[place] {
            return Some(place);
        }
    }
    None
}

/// The ports that have (*,G) in Join or Prune-Pending.
pub(crate) fn stars_of<F: Family>(ports: &Nearby<'_, F>, group: F::Addr) -> Stars
    ensures { AreStars ports.now (F.bytes_of group) result }
{
    ports.is_sound();
    let on = starred_ports::<F>(ports, group);
    let first = first_set(&on, ports.port_count());
    Stars { first, on }
}

/// Whether the port wants the traffic of this source on the shared tree of the group. `starred`
/// says whether it has the star.
fn wants_on<F: Family>(
    ports: &Nearby<'_, F>,
    starred: bool,
    source: F::Addr,
    group: F::Addr,
    port: usize,
) -> bool
    requires { starred ≡ is_starred ports.now (F.bytes_of group) port }
    ensures { result
        ≡ wants_on ports.now.records (F.bytes_of source) (F.bytes_of group) Shared port }
{
    if !starred {
        return false;
    }
    let rpt = ports.state_of(port, group, What::Rpt(source));
    !is_pruned(rpt)
}

/// Whether some port wants the traffic of this source on the shared tree of the group, where no
/// port before `from` does.
fn wants_from<F: Family>(
    ports: &Nearby<'_, F>,
    stars: &Stars,
    from: usize,
    source: F::Addr,
    group: F::Addr,
) -> bool
    requires stars { AreStars ports.now (F.bytes_of group) stars.now }
    requires within { from ≤ ports.now.ports }
    requires none { some_below from
        (wants_on ports.now.records (F.bytes_of source) (F.bytes_of group) Shared)
        ≡ false }
    ensures { result ≡ wants ports.now (F.bytes_of source) (F.bytes_of group) Shared }
{
    ports.is_sound();
    let count = ports.port_count();
    for port in from..count {
        if wants_on::<F>(ports, stars.on[port], source, group, port) {
            return true;
        }
    }
    false
}

/// Whether some port wants the traffic of this source on the shared tree of the group (RFC 7761,
/// 4.1). The source is that of an (S,G,rpt) machine of the first port that has the star. The state
/// of this machine decides first.
pub(crate) fn wants_shared<F: Family>(
    ports: &Nearby<'_, F>,
    stars: &Stars,
    first: usize,
    held: &HeldMachine<F::Addr>,
    group: F::Addr,
) -> bool
    requires stars { AreStars ports.now (F.bytes_of group) stars.now }
    requires first { IsFirstBelow ports.now.ports (is_starred ports.now (F.bytes_of group))
        (Some first) }
    requires state { state_on ports.now.records first (F.bytes_of group)
        (Rpt (F.bytes_of held.now.source))
        ≡ Some held.now.state }
    ensures { result ≡ wants ports.now (F.bytes_of held.now.source) (F.bytes_of group) Shared }
{
    ports.is_sound();
    if !is_pruned(Some(held.state)) {
        return true;
    }
    wants_from::<F>(ports, stars, first + 1, held.source, group)
}
