//! What an upstream neighbour is asked for, read from the records. Contracts see a normal form,
//! which is kept nowhere; each call answers a question about it by look-ups.

ghost use Rattle.std.specs.Prelude.{◌≡◌, ◌≤◌, ◌<◌, ◌||◌, ℕ, List, true, None, Some, IfSome, length};
ghost use Rattle.std.specs.Prelude.{option_map, is_some};
ghost use Rattle.pim_addr.specs.Address.{IsGroupAddress};
ghost use Rattle.pim_form.specs.Demanded.{demanded_form};
ghost use Rattle.pim_form.specs.NormalForm.{groups_of, IsNormal};
ghost use Rattle.pim_form.specs.Units.{units_of};
ghost use Rattle.pim_form.specs.Toward.{is_neighbour};
ghost use Rattle.pim_addr.specs.Routes.{rp_of};
ghost use Rattle.pim_emit.specs.Left.{above, next_above, star_of, exceptions_in, sources_in};
ghost use Rattle.pim_emit.specs.Stars.{AreStars};
ghost use Rattle.pim_emit.specs.Ahead.{AreNext};
ghost use Rattle.pim_emit.specs.Rpts.{AreRpts};

use crate::ahead::{Ahead, keep_ahead, look_ahead, source_on, take_next};
use crate::machines::{first_starred, least_group, most_rpts};
use crate::nearby::Nearby;
use crate::rpts::{Rpts, next_rpt, rpts_of};
use crate::stars::{Stars, stars_of, wants_shared};
use pim_addr::{Family, Routes};
use pim_down::Ports;
use pim_form::{Tree, is_neighbour, rpf_neighbour};
use std::marker::Model;

/// What the machines of all ports want of an upstream neighbour (RFC 7761, 4.1). Contracts see its
/// normal form. Each call reads the records, from near where an earlier look-up ended.
#[derive(Drop)]
pub(crate) struct UpstreamDemand<'a, F: Family> {
    ports: Nearby<'a, F>,
    routes: &'a Routes<F>,
    upstream: F::Addr,
}

impl<'a, F: Family> Model for UpstreamDemand<'a, F> {
    ghost use Rattle.pim_form.specs.Demanded.{demanded_form};
    ghost use Rattle.pim_emit.specs.DemandSeen.{DemandSeen};

    ghost Value = { DemandSeen };

    ghost view = { λ demand. record {
      form = demanded_form F.family demand.routes.now (F.bytes_of demand.upstream) demand.ports;
      table = demand.routes.now;
      machines = demand.ports;
    } };
}

impl<'a, F: Family> UpstreamDemand<'a, F> {
    /// What these ports want of this neighbour, for the routes that lead to it.
    pub(crate) fn new(ports: &'a Ports<F>, routes: &'a Routes<F>, upstream: F::Addr) -> Self
        ensures { result ≡ record {
          form = demanded_form F.family routes.now (F.bytes_of upstream) ports.now;
          table = routes.now;
          machines = ports.now;
        } }
    {
        UpstreamDemand {
            ports: Nearby::new(ports),
            routes,
            upstream,
        }
    }

    /// A law: what is asked is a normal form of at most 6,400,000 units. It does nothing.
    pub(crate) fn is_normal(&self)
        ensures normal { IsNormal F.family self.now.form }
        ensures few { length (units_of self.now.form) ≤ 6400000 }
    {
        self.ports.is_sound();
        pim_form::laws::form_of_demand_toward();
    }

    /// A law: a group that has a star has an RP. It does nothing.
    pub(crate) fn star_has_rp(&self, group: F::Addr)
        requires { IsGroupAddress F.family (F.bytes_of group) }
        ensures { is_some (star_of (F.bytes_of group) self.now.form) ≡ true →
            is_some (rp_of F.family self.now.table (F.bytes_of group)) ≡ true }
    {
        self.ports.is_sound();
        pim_form::laws::form_of_demand_toward();
    }

    /// The RP of a group.
    pub(crate) fn rp_of(&self, group: F::Addr) -> Option<F::Addr>
        ensures { option_map F.bytes_of result ≡ rp_of F.family self.now.table (F.bytes_of group) }
    {
        self.routes.rp_of(group)
    }

    /// Whether the group has a star.
    pub(crate) fn has_star(&self, group: F::Addr) -> bool
        requires { IsGroupAddress F.family (F.bytes_of group) }
        ensures { result ≡ is_some (star_of (F.bytes_of group) self.now.form) }
    {
        self.ports.is_sound();
        pim_form::laws::form_of_demand_toward();
        first_starred::<F>(&self.ports, group).is_some()
            && is_neighbour::<F>(
                rpf_neighbour::<F>(self.routes, group, group, Tree::Shared),
                self.upstream,
            )
    }

    /// The least source of the group above the bound, or of all.
    pub(crate) fn next_source(&self, group: F::Addr, bound: Option<F::Addr>) -> Option<F::Addr>
        requires { IsGroupAddress F.family (F.bytes_of group) }
        ensures { option_map F.bytes_of result
            ≡ next_above (option_map F.bytes_of bound)
            (sources_in (F.bytes_of group) self.now.form) }
    {
        let mut nowhere: [Option<Ahead<'a, F>>; 0] = [];
        self.next_ahead(group, bound, &mut nowhere)
    }

    /// Whether the route to the port's least source of the group above the bound, or of all, leads
    /// to the neighbour.
    fn goes_on_at(&self, port: usize, group: F::Addr, bound: Option<F::Addr>) -> bool
        requires group { IsGroupAddress F.family (F.bytes_of group) }
        requires port { port < self.now.machines.ports }
        ensures { result ≡ true → is_some (next_above (option_map F.bytes_of bound)
            (sources_in (F.bytes_of group) self.now.form)) ≡ true }
    {
        self.ports.is_sound();
        pim_down::laws::keys_are_distinct();
        pim_form::laws::form_of_demand_toward();
        match source_on::<F>(&self.ports, port, group, bound) {
            Some(source) => is_neighbour::<F>(self.routes.via(source), self.upstream),
            None => false,
        }
    }

    /// Whether that is so on some port. If not, the group may still have a later source above the
    /// bound.
    fn goes_on(&self, group: F::Addr, bound: Option<F::Addr>) -> bool
        requires { IsGroupAddress F.family (F.bytes_of group) }
        ensures { result ≡ true → is_some (next_above (option_map F.bytes_of bound)
            (sources_in (F.bytes_of group) self.now.form)) ≡ true }
    {
        let count = self.port_count();
        for port in 0..count {
            if self.goes_on_at(port, group, bound) {
                return true;
            }
        }
        false
    }

    /// Whether the group has a source above the bound, or any. For most groups the first port
    /// decides.
    pub(crate) fn has_source(&self, group: F::Addr, bound: Option<F::Addr>) -> bool
        requires { IsGroupAddress F.family (F.bytes_of group) }
        ensures { result ≡ is_some (next_above (option_map F.bytes_of bound)
            (sources_in (F.bytes_of group) self.now.form)) }
    {
        self.goes_on(group, bound) || self.next_source(group, bound).is_some()
    }

    /// Whether the group has a star or a source. The star is looked up only if no port's first
    /// source decides.
    fn has_any(&self, group: F::Addr) -> bool
        requires { IsGroupAddress F.family (F.bytes_of group) }
        ensures { result ≡ (is_some (star_of (F.bytes_of group) self.now.form)
            || is_some (next_above None (sources_in (F.bytes_of group) self.now.form))) }
    {
        if self.goes_on(group, None) {
            return true;
        }
        self.has_star(group) || self.next_source(group, None).is_some()
    }

    /// The number of ports.
    pub(crate) fn port_count(&self) -> usize
        ensures { result ≡ self.now.machines.ports }
    {
        self.ports.port_count()
    }

    /// What is kept of a port before a look-up.
    pub(crate) fn nothing_ahead(&self) -> Option<Ahead<'a, F>> {
        None
    }

    /// Looks up what comes next of the group above the bound, or at all, on each port, if there is
    /// a place for each.
    pub(crate) fn look_ahead(
        &self,
        group: F::Addr,
        bound: Option<F::Addr>,
        nexts: &mut [Option<Ahead<'a, F>>],
    )
        ensures next { self.now.machines.ports ≤ length nexts.old →
            AreNext self.now.machines (F.bytes_of group) (option_map F.bytes_of bound) nexts.new }
        ensures length { length nexts.new ≡ length nexts.old }
    {
        if nexts.len() < self.port_count() {
            return;
        }
        look_ahead::<F>(&self.ports, group, bound, nexts);
    }

    /// Keeps the place of what comes next on each port for the next look-up there, if `nexts` has a
    /// place for each.
    pub(crate) fn keep_ahead(&self, nexts: &[Option<Ahead<'a, F>>]) {
        if nexts.len() >= self.port_count() {
            keep_ahead::<F>(&self.ports, nexts);
        }
    }

    /// The least source of the group above the bound, or of all. If `nexts` has a place for each
    /// port, it holds what comes next on each above the bound, and after the call what follows the
    /// source. Otherwise each port is looked up.
    #[inline(always)]
    pub(crate) fn next_ahead(
        &self,
        group: F::Addr,
        bound: Option<F::Addr>,
        nexts: &mut [Option<Ahead<'a, F>>],
    ) -> Option<F::Addr>
        requires group { IsGroupAddress F.family (F.bytes_of group) }
        requires next { self.now.machines.ports ≤ length nexts.old →
            AreNext self.now.machines (F.bytes_of group) (option_map F.bytes_of bound) nexts.old }
        ensures source { option_map F.bytes_of result
            ≡ next_above (option_map F.bytes_of bound)
            (sources_in (F.bytes_of group) self.now.form) }
        ensures next { self.now.machines.ports ≤ length nexts.old → IfSome result (λ source.
            AreNext self.now.machines (F.bytes_of group) (Some (F.bytes_of source)) nexts.new) }
        ensures length { length nexts.new ≡ length nexts.old }
    {
        self.ports.is_sound();
        pim_down::laws::keys_are_distinct();
        pim_form::laws::form_of_demand_toward();
        let mut bound = bound;
        while let Some(source) = take_next::<F>(&self.ports, group, bound, nexts) {
            if is_neighbour::<F>(self.routes.via(source), self.upstream) {
                return Some(source);
            }
            bound = Some(source);
        }
        None
    }

    /// The ports that have (*,G) of the group in Join or Prune-Pending.
    pub(crate) fn stars(&self, group: F::Addr) -> Stars
        ensures { AreStars self.now.machines (F.bytes_of group) result }
    {
        stars_of::<F>(&self.ports, group)
    }

    /// The (S,G,rpt) machines that include those of all exceptions of the group's star, if these
    /// ports have the star.
    pub(crate) fn rpts(&self, group: F::Addr, stars: &Stars) -> Rpts<'a, F>
        requires { IsGroupAddress F.family (F.bytes_of group) }
        ensures all { above (Some result.bound) (exceptions_in (F.bytes_of group) self.now.form)
            ≡ exceptions_in (F.bytes_of group) self.now.form }
        ensures rpts { AreRpts self.now.machines (F.bytes_of group) stars.now.first result }
    {
        self.ports.is_sound();
        pim_form::laws::form_of_demand_toward();
        rpts_of::<F>(&self.ports, group, stars)
    }

    /// The least exception of the group's star above the bound of what is left. Afterwards the
    /// machines after it are left. The group has a star, on these ports.
    pub(crate) fn next_exception(
        &self,
        group: F::Addr,
        stars: &Stars,
        rpts: &mut Rpts<'a, F>,
    ) -> Option<F::Addr>
        requires group { IsGroupAddress F.family (F.bytes_of group) }
        requires star { is_some (star_of (F.bytes_of group) self.now.form) ≡ true }
        requires stars { AreStars self.now.machines (F.bytes_of group) stars.now }
        requires rpts { AreRpts self.now.machines (F.bytes_of group) stars.now.first rpts.old }
        ensures exception { option_map F.bytes_of result
            ≡ next_above (Some rpts.old.bound) (exceptions_in (F.bytes_of group) self.now.form) }
        ensures bound { IfSome result (λ exception. rpts.new.bound ≡ F.bytes_of exception) }
        ensures rpts { IfSome result (λ _.
            AreRpts self.now.machines (F.bytes_of group) stars.now.first rpts.new) }
    {
        self.ports.is_sound();
        pim_down::laws::keys_are_distinct();
        pim_form::laws::form_of_demand_toward();
        let port = stars.first?;
        while let Some(held) = next_rpt::<F>(&self.ports, rpts) {
            if !wants_shared::<F>(&self.ports, stars, port, &held, group) {
                return Some(held.source);
            }
        }
        None
    }

    /// Keeps the place of what is left of the (S,G,rpt) machines for the next look-up on the first
    /// port that has the star.
    pub(crate) fn keep_rpts(&self, stars: &Stars, rpts: &Rpts<'a, F>) {
        if let Some(port) = stars.first {
            self.ports.keep(port, rpts.near());
        }
    }

    /// The least group above the bound, or of all.
    pub(crate) fn next_group(&self, bound: Option<F::Addr>) -> Option<F::Addr>
        ensures { option_map F.bytes_of result
            ≡ next_above (option_map F.bytes_of bound) (groups_of self.now.form) }
    {
        self.ports.is_sound();
        pim_down::laws::keys_are_distinct();
        pim_form::laws::form_of_demand_toward();
        let mut bound = bound;
        while let Some(group) = least_group::<F>(&self.ports, bound) {
            if self.has_any(group) {
                return Some(group);
            }
            bound = Some(group);
        }
        None
    }

    /// A bound of the number of exceptions of every star: each is an (S,G,rpt) machine of every
    /// port that has the star.
    pub(crate) fn most_exceptions(&self) -> usize
        ensures { (group : List ℕ) → IsGroupAddress F.family group →
            length (exceptions_in group self.now.form) ≤ result }
    {
        self.ports.is_sound();
        pim_down::laws::keys_are_distinct();
        pim_form::laws::form_of_demand_toward();
        most_rpts::<F>(&self.ports)
    }

    /// The number of exceptions of the group's star, which the group has. The walk keeps no place,
    /// so the next look-up begins where one before the walk ended.
    pub(crate) fn exception_count(&self, group: F::Addr) -> usize
        requires group { IsGroupAddress F.family (F.bytes_of group) }
        requires star { is_some (star_of (F.bytes_of group) self.now.form) ≡ true }
        ensures { result ≡ length (exceptions_in (F.bytes_of group) self.now.form) }
    {
        self.ports.is_sound();
        pim_form::laws::form_of_demand_toward();
        let stars = self.stars(group);
        let mut rpts = self.rpts(group, &stars);
        let mut count = 0;
        while let Some(_exception) = self.next_exception(group, &stars, &mut rpts) {
            count += 1;
        }
        count
    }
}
