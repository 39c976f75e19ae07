//! What was asked and what is wanted, looked up in the machines of both sides.

ghost use Rattle.std.specs.Prelude.{◌≡◌, ◌||◌, List};
ghost use Rattle.pim_down.specs.Hearing.{Event};
ghost use Rattle.pim_down.specs.Seen.{what_seen};
ghost use Rattle.pim_down.specs.declared.machines.key.What.TheVariants.{Rpt, Star};
ghost use Rattle.pim_form.specs.Demanded.{either_demand};
ghost use Rattle.pim_form.specs.Wants.{is_joined, state_on, wants};
ghost use Rattle.pim_form.specs.declared.tree.Tree.TheVariants.{Shared, Source};
ghost use Rattle.pim_audit.specs.Between.{AreDue};
ghost use Rattle.pim_audit.specs.Dues.{change_of, due_of, is_excepted};
ghost use Rattle.pim_audit.specs.Gathering.{AreExactly};
ghost use Rattle.pim_audit.specs.Local.{local_port};
ghost use Rattle.pim_audit.specs.Order.{EntriesAscend};
ghost use Rattle.pim_audit.specs.Sides.{has_star, is_rp_reached, asked_side, wanted_side};
ghost use Rattle.pim_audit.specs.Stars.{AreStars};

use pim_addr::{Family, Routes};
use pim_change::laws::addresses_are_in_order;
use pim_down::laws::keys_are_distinct;
use pim_down::{Ports, State, What};
use pim_form::laws::{
    form_of_all_ports, form_of_demand_toward, joined_star_wants_some_source,
    merge_is_the_form_of_either, some_source_is_outside,
};
use pim_form::{Tree, is_neighbour, rpf_neighbour, wants};
use pim_local::LocalJoins;
use std::marker::Model;

/// What an upstream neighbour was asked for, and what a router wants of it.
#[derive(Drop)]
pub(crate) struct Sides<'a, F: Family> {
    /// The machines that heard what the neighbour heard.
    pub(crate) asked: &'a Ports<F>,
    /// The machines of the router.
    pub(crate) wanted: &'a Ports<F>,
    /// What the router's local receivers have joined.
    pub(crate) local: &'a LocalJoins<F>,
    /// The routes of the router.
    pub(crate) routes: &'a Routes<F>,
    /// The neighbour.
    pub(crate) upstream: F::Addr,
}

impl<'a, F: Family> Model for Sides<'a, F> {
    ghost use Rattle.pim_audit.specs.Sides.{SidesState};

    ghost Value = { SidesState };

    ghost view = { λ sides. record {
      asked = sides.asked.now;
      wanted = sides.wanted.now;
      local = sides.local.now;
      routes = sides.routes.now;
      upstream = F.bytes_of sides.upstream;
    } };
}

/// Whether a group has a star on either side.
#[derive(Clone, Copy)]
pub(crate) struct Stars {
    /// The neighbour was asked for it.
    pub(crate) asked: bool,
    /// The router wants it.
    pub(crate) wanted: bool,
}

/// Whether this port has (*,G) of the group in Join or Prune-Pending.
fn has_star_on<F: Family>(ports: &Ports<F>, group: F::Addr, port: usize) -> bool
    ensures { result ≡ is_joined (state_on ports.now.records port (F.bytes_of group) Star) }
{
    let state = ports.state_of(port, group, What::Star);
    matches!(state, Some(State::Join | State::PrunePending))
}

/// Whether some port has (*,G) of the group in Join or Prune-Pending.
fn has_star<F: Family>(ports: &Ports<F>, group: F::Addr) -> bool
    ensures { result ≡ has_star ports.now (F.bytes_of group) }
{
    for port in 0..ports.port_count() {
        if has_star_on::<F>(ports, group, port) {
            return true;
        }
    }
    false
}

/// What is due of something that was asked for or not, and is wanted or not: a Join (`true`) if it
/// comes, a Prune (`false`) if it goes.
fn change_of(was: bool, is: bool) -> Option<bool>
    ensures { result ≡ change_of was is }
{
    match (was, is) {
        (false, true) => Some(true),
        (true, false) => Some(false),
        _ => None,
    }
}

impl<'a, F: Family> Sides<'a, F> {
    /// Whether the neighbour is RPF'(*,G) of the group.
    fn is_rp_reached(&self, group: F::Addr) -> bool
        ensures { result ≡ is_rp_reached F.family self.now (F.bytes_of group) }
    {
        let demanded = rpf_neighbour::<F>(self.routes, group, group, Tree::Shared);
        is_neighbour::<F>(demanded, self.upstream)
    }

    /// Whether a port or a local receiver has joined the group's star.
    #[tactic(auto, using(crate::proofs::LocalPort::local_star))]
    fn has_joined_star(&self, group: F::Addr) -> bool
        ensures { result ≡ (has_star self.now.wanted (F.bytes_of group)
            || has_star (local_port self.now.local) (F.bytes_of group)) }
    {
        has_star::<F>(self.wanted, group) || self.local.has_star(group)
    }

    /// Whether the router wants the group's star (RFC 7761, 4.5.4).
    fn is_star_wanted(&self, group: F::Addr) -> bool
        ensures { result ≡ (wanted_side F.family self.now).star (F.bytes_of group) }
    {
        self.has_joined_star(group) && self.is_rp_reached(group)
    }

    /// Whether the group has a star on either side.
    pub(crate) fn stars(&self, group: F::Addr) -> Stars
        ensures { AreStars F.family self.now (F.bytes_of group) result }
    {
        Stars {
            asked: has_star::<F>(self.asked, group),
            wanted: self.is_star_wanted(group),
        }
    }

    /// Whether a port or a local receiver has joined the source.
    #[tactic(auto, using(crate::proofs::LocalPort::local_source))]
    fn has_joined_source(&self, source: F::Addr, group: F::Addr) -> bool
        ensures { result ≡ either_demand (wants self.now.wanted)
            (wants (local_port self.now.local)) (F.bytes_of source) (F.bytes_of group) Source }
    {
        wants::<F>(self.wanted, source, group, Tree::Source) || self.local.has_source(source, group)
    }

    /// Whether the router wants the source on its own tree (RFC 7761, 4.5.5).
    fn is_source_wanted(&self, source: F::Addr, group: F::Addr) -> bool
        ensures { result ≡ (wanted_side F.family self.now).demand (F.bytes_of source)
            (F.bytes_of group) Source }
    {
        self.has_joined_source(source, group)
            && is_neighbour::<F>(self.routes.via(source), self.upstream)
    }

    /// Whether a port or a local receiver wants the source on the shared tree.
    #[tactic(auto, using(crate::proofs::LocalPort::local_shared))]
    fn has_joined_shared(&self, source: F::Addr, group: F::Addr) -> bool
        ensures { result ≡ either_demand (wants self.now.wanted)
            (wants (local_port self.now.local)) (F.bytes_of source) (F.bytes_of group) Shared }
    {
        wants::<F>(self.wanted, source, group, Tree::Shared) || self.local.has_star(group)
    }

    /// Whether the neighbour was asked for the group's star without the source.
    fn was_excepted(&self, stars: Stars, source: F::Addr, group: F::Addr) -> bool
        requires { AreStars F.family self.now (F.bytes_of group) stars }
        ensures { result
            ≡ is_excepted (asked_side self.now) (F.bytes_of source) (F.bytes_of group) }
    {
        stars.asked && !wants::<F>(self.asked, source, group, Tree::Shared)
    }

    /// What is due of an exception of a group's star (RFC 7761, 4.5.6).
    fn due_of_exception(&self, stars: Stars, source: F::Addr, group: F::Addr) -> Option<bool>
        requires { AreStars F.family self.now (F.bytes_of group) stars }
        ensures { result ≡ due_of (asked_side self.now) (wanted_side F.family self.now)
            (F.bytes_of group) (Rpt (F.bytes_of source)) }
    {
        if !stars.wanted {
            return None;
        }
        let was = !self.was_excepted(stars, source, group);
        change_of(was, self.has_joined_shared(source, group))
    }

    /// What is due of one machine of a group: a Join, a Prune, or nothing.
    pub(crate) fn due_of(&self, stars: Stars, group: F::Addr, what: What<F::Addr>) -> Option<bool>
        requires { AreStars F.family self.now (F.bytes_of group) stars }
        ensures { result ≡ due_of (asked_side self.now) (wanted_side F.family self.now)
            (F.bytes_of group) (what_seen F.bytes_of what) }
    {
        match what {
            What::Star => change_of(stars.asked, stars.wanted),
            What::Rpt(source) => self.due_of_exception(stars, source, group),
            What::Source(source) => {
                let was = wants::<F>(self.asked, source, group, Tree::Source);
                change_of(was, self.is_source_wanted(source, group))
            }
        }
    }

    /// A law: entries in order that are exactly those that are due are the entries of a change from
    /// what was asked to what is wanted. It does nothing.
    pub(crate) fn are_of_a_change(&self)
        ensures { (entries : List Event) → EntriesAscend entries
            → AreExactly F.family self.now entries → AreDue F.family self.now entries }
    {
        self.asked.is_sound();
        self.wanted.is_sound();
        self.local.is_sound();
        keys_are_distinct();
        addresses_are_in_order();
        some_source_is_outside();
        form_of_all_ports();
        form_of_demand_toward();
        joined_star_wants_some_source();
        merge_is_the_form_of_either();
    }
}
