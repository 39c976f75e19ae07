//! What the machines of the ports want, looked up in their state.

ghost use Rattle.std.specs.Prelude.{◌≡◌, ◌≤◌};
ghost use Rattle.pim_form.specs.Wants.{is_joined, is_pruned, wants_on, some_below, wants};

use crate::tree::Tree;
use pim_addr::Family;
use pim_down::{Ports, State, What};

/// Whether this state puts a port into joins(*,G) or joins(S,G).
pub(crate) fn is_joined(state: Option<State>) -> bool
    ensures { result ≡ is_joined state }
{
    matches!(state, Some(State::Join | State::PrunePending))
}

/// Returns whether this state puts a port into prunes(S,G,rpt) (RFC 7761, 4.1.6).
pub fn is_pruned(state: Option<State>) -> bool
    ensures { result ≡ is_pruned state }
{
    matches!(state, Some(State::Prune))
}

/// Whether one port wants the traffic.
fn wants_on<F: Family>(
    ports: &Ports<F>,
    source: F::Addr,
    group: F::Addr,
    tree: Tree,
    port: usize,
) -> bool
    ensures { result ≡ wants_on ports.now.records (F.bytes_of source) (F.bytes_of group) tree port }
{
    match tree {
        Tree::Shared => {
            let star = ports.state_of(port, group, What::Star);
            let rpt = ports.state_of(port, group, What::Rpt(source));
            is_joined(star) && !is_pruned(rpt)
        }
        Tree::Source => is_joined(ports.state_of(port, group, What::Source(source))),
    }
}

#[tactic(auto, using(crate::proofs::Below::none_more), unfolding(crate::specs::Wants::some_below))]
/// Returns whether some port wants the traffic of this source to this group on this tree
/// (RFC 7761, 4.1). A port wants it on the shared tree if it is in joins(*,G) and not in
/// prunes(S,G,rpt), and on the source's tree if it is in joins(S,G).
///
/// It takes at most two look-ups for each port, and stops at the first port that wants the traffic.
pub fn wants<F: Family>(ports: &Ports<F>, source: F::Addr, group: F::Addr, tree: Tree) -> bool
    ensures { result ≡ wants ports.now (F.bytes_of source) (F.bytes_of group) tree }
{
    let count = ports.port_count();
    for port in 0..count {
        if wants_on(ports, source, group, tree, port) {
            return true;
        }
    }
    false
}
