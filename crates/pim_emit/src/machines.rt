//! The machines of a group over all ports. What comes next is the least over all ports, looked up
//! on each.

ghost use Rattle.std.specs.Prelude.{◌≡◌, ◌<◌, ◌≤◌, ◌&&◌, List, ℕ, option_map};
ghost use Rattle.std.specs.declared.cmp.Ordering.TheVariants.{Less};
ghost use Rattle.pim_addr.specs.Address.{IsSourceAddress};
ghost use Rattle.pim_down.specs.After.{is_above};
ghost use Rattle.pim_down.specs.Hearing.{rpt_count_on};
ghost use Rattle.pim_down.specs.Key.{address_cmp};
ghost use Rattle.pim_form.specs.Wants.{some_below};
ghost use Rattle.pim_emit.specs.Least.{IsLeast};
ghost use Rattle.pim_emit.specs.Machines.{is_starred, has_group, IsSomeBelow};

use crate::least::lesser;
use crate::nearby::Nearby;
use pim_addr::Family;
use pim_down::{State, What};

/// Whether the port has (*,G) in Join or Prune-Pending.
pub(crate) fn is_starred<F: Family>(ports: &Nearby<'_, F>, port: usize, group: F::Addr) -> bool
    ensures { result ≡ is_starred ports.now (F.bytes_of group) port }
{
    matches!(
        ports.state_of(port, group, What::Star),
        Some(State::Join | State::PrunePending)
    )
}

/// A port that has (*,G) in Join or Prune-Pending, if one has.
pub(crate) fn first_starred<F: Family>(ports: &Nearby<'_, F>, group: F::Addr) -> Option<usize>
    ensures { IsSomeBelow ports.now.ports (is_starred ports.now (F.bytes_of group)) result }
{
    let count = ports.port_count();
    for port in 0..count {
        if is_starred::<F>(ports, port, group) {
            return Some(port);
        }
    }
    None
}

/// An (S,G,rpt) machine that is held on a port.
#[derive(Clone, Copy)]
pub(crate) struct HeldMachine<A> {
    /// Its source.
    pub(crate) source: A,
    /// Its state.
    pub(crate) state: State,
}

/// The greatest number of (S,G,rpt) machines that a port has.
pub(crate) fn most_rpts<F: Family>(ports: &Nearby<'_, F>) -> usize
    ensures { (port : ℕ) → port < ports.now.ports → rpt_count_on port ports.now.records ≤ result }
{
    let count = ports.port_count();
    let mut most = 0;
    for port in 0..count {
        let rpts = ports.rpt_count_on(port);
        if most < rpts {
            most = rpts;
        }
    }
    most
}

/// An address below all valid sources.
pub(crate) fn lowest<F: Family>() -> F::Addr
    ensures { (source : List ℕ) → IsSourceAddress F.family source →
        address_cmp (F.bytes_of result) source ≡ Less }
{
    F::take(&[0; 16])
}

/// The least group above the bound, or of all, with a record on some port.
pub(crate) fn least_group<F: Family>(
    ports: &Nearby<'_, F>,
    bound: Option<F::Addr>,
) -> Option<F::Addr>
    ensures { IsLeast
        (λ group. some_below ports.now.ports (λ port. is_above (option_map F.bytes_of bound) group
        && has_group ports.now group port)) (option_map F.bytes_of result) }
{
    ports.is_sound();
    let count = ports.port_count();
    let mut least = None;
    for port in 0..count {
        least = lesser::<F>(least, ports.group_after(port, bound));
    }
    least
}
