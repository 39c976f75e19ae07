//! A walk over the (S,G,rpt) machines of a group on the first port that has its star. An exception
//! is pruned on each port that has the star, so the first such port has all of them.

ghost use Rattle.std.specs.Prelude.{◌≡◌, ◌&&◌, ℕ, List, Some, IfSome, option_map};
ghost use Rattle.std.specs.declared.cmp.Ordering.TheVariants.{Less};
ghost use Rattle.pim_addr.specs.Address.{IsSourceAddress};
ghost use Rattle.pim_down.specs.After.{is_above};
ghost use Rattle.pim_down.specs.Key.{address_cmp};
ghost use Rattle.pim_down.specs.declared.machines.key.What.TheVariants.{Rpt};
ghost use Rattle.pim_form.specs.Wants.{state_on};
ghost use Rattle.pim_emit.specs.Least.{IsLeast};
ghost use Rattle.pim_emit.specs.Machines.{has_rpt, source_held};
ghost use Rattle.pim_emit.specs.Rpts.{AreRptsOn, AreRpts};

use crate::machines::{HeldMachine, lowest};
use crate::nearby::Nearby;
use crate::stars::Stars;
use pim_addr::Family;
use pim_down::{GroupMachines, Near, What};
use std::marker::Model;

/// The machines that are left, and the source above which theirs are.
#[derive(Drop)]
pub(crate) struct Rpts<'a, F: Family> {
    bound: F::Addr,
    left: GroupMachines<'a, F>,
}

impl<'a, F: Family> Model for Rpts<'a, F> {
    ghost use Rattle.pim_emit.specs.Rpts.{RptsLeft};

    ghost Value = { RptsLeft };

    ghost view = { λ rpts. record { bound = F.bytes_of rpts.bound; left = rpts.left } };
}

impl<'a, F: Family> Rpts<'a, F> {
    /// The place of the next machine, or where it would be.
    pub(crate) fn near(&self) -> Near {
        self.left.near()
    }
}

/// All (S,G,rpt) machines of the group on the first port that has its star. If no port has it,
/// those of the first port.
pub(crate) fn rpts_of<'a, F: Family>(
    ports: &Nearby<'a, F>,
    group: F::Addr,
    stars: &Stars,
) -> Rpts<'a, F>
    ensures lowest { (source : List ℕ) → IsSourceAddress F.family source →
        address_cmp result.bound source ≡ Less }
    ensures rpts { AreRpts ports.now (F.bytes_of group) stars.now.first result }
{
    let bound = lowest::<F>();
    let port = match stars.first {
        Some(port) => port,
        None => 0,
    };
    let left = ports.machines_after(port, group, What::Rpt(bound));
    Rpts { bound, left }
}

/// Takes the next machine: that of the least source above the bound whose (S,G,rpt) machine is held
/// on the port.
pub(crate) fn next_rpt<F: Family>(
    ports: &Nearby<'_, F>,
    rpts: &mut Rpts<'_, F>,
) -> Option<HeldMachine<F::Addr>>
    ensures least { (port : ℕ) (group : List ℕ) → AreRptsOn ports.now port group rpts.old →
        IsLeast (λ source. is_above (Some rpts.old.bound) source
        && has_rpt ports.now port group source)
        (option_map (source_held F.bytes_of) result) }
    ensures state { (port : ℕ) (group : List ℕ) → AreRptsOn ports.now port group rpts.old →
        IfSome result (λ held. state_on ports.now.records port group (Rpt (F.bytes_of held.source))
        ≡ Some held.state) }
    ensures left { (port : ℕ) (group : List ℕ) → AreRptsOn ports.now port group rpts.old →
        IfSome result (λ _. AreRptsOn ports.now port group rpts.new) }
    ensures bound { IfSome result (λ held. rpts.new.bound ≡ F.bytes_of held.source) }
{
    ports.is_sound();
    pim_down::laws::keys_are_distinct();
    let record = rpts.left.next_machine()?;
    let What::Rpt(source) = record.key.what else {
        return None;
    };
    rpts.bound = source;
    Some(HeldMachine {
        source,
        state: record.machine.state,
    })
}
