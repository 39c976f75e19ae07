//! An audit of a router.

ghost use Rattle.std.specs.Prelude.{◌≡◌, ◌≤◌, ◌<◌, ◌^◌, ℕ, List, [], true, length, map, max};
ghost use Rattle.std.specs.Prelude.{IfOk, OnOk, OnErr};
ghost use Rattle.std.specs.Option.{is_some};
ghost use Rattle.pim_hello.specs.Neighbours.{neighbour_at};
ghost use Rattle.pim_addr.specs.Routes.{rp_of};
ghost use Rattle.pim_down.specs.Heard.{needed_for, new_for, IsWithin, MayWantMemory};
ghost use Rattle.pim_down.specs.Hearing.{Event};
ghost use Rattle.pim_down.specs.Seen.{event_seen};
ghost use Rattle.pim_down.specs.Time.{IsNextDue};
ghost use Rattle.pim_router.specs.State.{table_at};
ghost use Rattle.pim_audit.specs.Asked.{PassesTo, AskedBy};
ghost use Rattle.pim_audit.specs.Audited.{LooksAt, has_neighbour, is_heard, sides_of};
ghost use Rattle.pim_audit.specs.Audited.{with_due, with_asked, without_records};
ghost use Rattle.pim_audit.specs.Between.{AreDue};
ghost use Rattle.pim_audit.specs.Changes.{AreChanges, AreChanged};
ghost use Rattle.pim_audit.specs.Gathering.{AreExactly};
ghost use Rattle.pim_audit.specs.Holding.{HoldsOutside, AreExactlyNow};
ghost use Rattle.pim_audit.specs.Order.{EntriesAscend};
ghost use Rattle.pim_audit.specs.Seen.{dues_seen, report_seen};
ghost use Rattle.pim_audit.specs.Touched.{Grows, OthersStay};

use crate::asked::{hear_at_once, pass_to};
use crate::changes::{Changes, changes_of};
use crate::dues::Dues;
use crate::look::{Report, look_at};
use crate::sides::Sides;
use crate::touched::Touched;
use crate::watched::watched_machines;
use pim_addr::{Family, Routes};
use pim_down::{HearFault, Ports};
use pim_jp::JpView;
use pim_local::LocalJoins;
use pim_router::Router;
use std::alloc::{AllocError, Global};
use std::marker::Model;

/// What an upstream neighbour was asked for, and what is due toward it. It has a router of its own
/// beside it, whose machines say what has to be asked.
#[derive(Drop)]
pub(crate) struct Audit<'t, F: Family> {
    upstream: F::Addr,
    grace: u64,
    local: &'t LocalJoins<F>,
    asked: Ports<F>,
    dues: Dues<F>,
}

impl<'t, F: Family> Model for Audit<'t, F> {
    ghost use Rattle.pim_audit.specs.Audited.{AuditState, IsAudit};

    ghost Value = { AuditState };

    ghost view = { λ audit. record {
      upstream = F.bytes_of audit.upstream;
      grace = audit.grace;
      local = audit.local.now;
      asked = audit.asked;
      due = audit.dues;
    } };

    ghost invariant = { λ audit. IsAudit (record {
      upstream = F.bytes_of audit.upstream;
      grace = audit.grace;
      local = audit.local.now;
      asked = audit.asked;
      due = audit.dues;
    }) };
}

/// Whether the router has a neighbour with this address on the port.
fn has_neighbour_on<F: Family>(router: &Router<'_, F>, port: usize, address: F::Addr) -> bool
    requires { port < length router.now.ports }
    ensures { result ≡ is_some (neighbour_at (F.bytes_of address) (table_at port router.now)) }
{
    router.neighbour(port, address).is_some()
}

/// Whether the router has a neighbour with this address on some port.
pub(crate) fn has_neighbour<F: Family>(router: &Router<'_, F>, address: F::Addr) -> bool
    ensures { result ≡ has_neighbour (F.bytes_of address) router.now }
{
    for port in 0..router.port_count() {
        if has_neighbour_on::<F>(router, port, address) {
            return true;
        }
    }
    false
}

impl<'t, F: Family> Audit<'t, F> {
    /// Begins the audit of what a router asks of this neighbour. An entry is late if it is due for
    /// more than `grace` milliseconds. `local` is what the router's local receivers have joined. At
    /// most `limit` records are kept of what is asked, 1 to 100,000.
    pub(crate) fn new(
        alloc: Global,
        upstream: F::Addr,
        grace: u64,
        local: &'t LocalJoins<F>,
        limit: usize,
    ) -> Self
        requires room { 1 ≤ limit }
        requires limit { limit ≤ 100000 }
        ensures { result ≡ record {
          upstream = F.bytes_of upstream;
          grace = grace;
          local = local.now;
          asked = record { ports = 1; limit = limit; moment = 0; records = [] };
          due = [];
        } }
    {
        Audit {
            upstream,
            grace,
            local,
            asked: Ports::new(alloc, 1, limit),
            dues: Dues::new(alloc),
        }
    }

    /// The upstream neighbour.
    pub(crate) fn upstream(&self) -> F::Addr
        ensures { F.bytes_of result ≡ self.now.upstream }
    {
        self.upstream
    }

    /// What was due at the last look.
    pub(crate) fn dues(&self) -> &Dues<F>
        ensures { result.now ≡ self.now.due }
    {
        &self.dues
    }

    /// The present moment of what was asked, in milliseconds.
    pub(crate) fn now(&self) -> u64
        ensures { result ≡ self.now.asked.moment }
    {
        self.asked.now()
    }

    /// The first moment, from the present one on, at which a timer of what was asked ends; `None`
    /// if none ever does.
    pub(crate) fn next_due(&self) -> Option<u64>
        ensures { IsNextDue self.now.asked result }
    {
        self.asked.next_due()
    }

    /// What the neighbour was asked for, and what the router wants of it.
    fn sides<'s>(&'s self, router: &'s Router<'_, F>) -> Sides<'s, F>
        ensures { result ≡ sides_of self.now router.now }
    {
        Sides {
            asked: &self.asked,
            wanted: router.ports(),
            local: self.local,
            routes: router.routes(),
            upstream: self.upstream,
        }
    }

    /// A law: entries in order that are exactly those that are due now are the entries of a change.
    /// It does nothing.
    fn are_of_a_change(&self, router: &Router<'_, F>)
        ensures { (entries : List Event) → EntriesAscend entries
            → AreExactly F.family (sides_of self.now router.now) entries
            → AreDue F.family (sides_of self.now router.now) entries }
    {
        let sides = self.sides(router);
        sides.are_of_a_change();
    }

    /// What changed of the machines at which a look has to look.
    ///
    /// # Errors
    /// Memory was refused.
    fn changes_now(
        &self,
        alloc: Global,
        router: &Router<'_, F>,
        touched: &Touched<F>,
    ) -> Result<Changes<F::Addr>, AllocError>
        requires { HoldsOutside F.family touched.now self.now router.now }
        ensures order { IfOk result (λ changes.
            EntriesAscend (map (event_seen F.bytes_of) changes.new.items)) }
        ensures changes { IfOk result (λ changes. AreChanges self.now.due
            (map (event_seen F.bytes_of) changes.new.items)
            (dues_seen F.bytes_of changes.gone.items)) }
        ensures exact { IfOk result (λ changes. (entries : List Event) → AreChanged self.now.due
            (map (event_seen F.bytes_of) changes.new.items)
            (dues_seen F.bytes_of changes.gone.items) entries
            → AreExactlyNow F.family self.now router.now entries) }
    {
        let is_known = has_neighbour::<F>(router, self.upstream);
        let sides = self.sides(router);
        let machines = watched_machines::<F>(alloc, &sides, &self.dues, touched)?;
        let changes = changes_of::<F>(alloc, &sides, is_known, &self.dues, &machines)?;
        Ok(changes)
    }

    /// Looks at what is due at the router's present moment. Afterwards no machine is touched.
    ///
    /// # Errors
    /// Memory was refused.
    pub(crate) fn look(
        &mut self,
        alloc: Global,
        router: &Router<'_, F>,
        touched: &mut Touched<F>,
    ) -> Result<Report<F::Addr>, AllocError>
        requires { HoldsOutside F.family touched.old self.old router.now }
        ensures looks { IfOk result (λ report.
            LooksAt F.family self.old router.now (report_seen F.bytes_of self.new.due report)) }
        ensures rest { self.new ≡ with_due self.old self.new.due }
        ensures holds { OnOk result (HoldsOutside F.family touched.new self.new router.now) }
    {
        self.are_of_a_change(router);
        let changes = self.changes_now(alloc, router, touched)?;
        touched.clear();
        let report = look_at::<F>(alloc, &mut self.dues, changes, router.now(), self.grace);
        self.dues.is_sound();
        report
    }

    /// Whether the upstream neighbour hears this message of this source on the port: the message
    /// names it and is not its own, and the source is the router itself or a neighbour of it.
    pub(crate) fn hears(
        &self,
        router: &Router<'_, F>,
        port: usize,
        src: F::Addr,
        message: &JpView<'_, F>,
    ) -> bool
        requires { port < length router.now.ports }
        ensures { result ≡ is_heard port (F.bytes_of src) message.now self.now router.now }
    {
        message.upstream() == self.upstream
            && src != self.upstream
            && (src == router.port(port).address || has_neighbour_on::<F>(router, port, src))
    }

    /// Lets the upstream neighbour hear a message. Its Prunes take effect at once. Touches the
    /// machines that it may change.
    ///
    /// # Errors
    /// As those of `Ports::hear`. Then nothing has changed, but machines may be touched.
    pub(crate) fn hear(
        &mut self,
        message: &JpView<'_, F>,
        routes: &Routes<F>,
        touched: &mut Touched<F>,
    ) -> Result<(), HearFault>
        requires { self.old.asked.moment ≤ 10 ^ 15 }
        ensures ok { OnOk result (AskedBy message.now (rp_of F.family routes.now)
            self.old.asked self.new.asked) }
        ensures rest { self.new ≡ with_asked self.old self.new.asked }
        ensures err { OnErr result (self.new ≡ self.old) }
        ensures room { IsWithin self.old.asked.limit
            (needed_for 0 message.now (rp_of F.family routes.now) self.old.asked) result }
        ensures memory { MayWantMemory
            (new_for 0 message.now (rp_of F.family routes.now) self.old.asked) result }
        ensures present { self.new.asked.moment ≡ self.old.asked.moment }
        ensures stays { OthersStay touched.new self.old.asked self.new.asked }
        ensures grows { Grows touched.old touched.new }
    {
        hear_at_once::<F>(&mut self.asked, message, routes, touched)
    }

    /// Lets time pass for what was asked, up to this moment, at most 10^15 milliseconds. Touches
    /// the machines of the timers that fire.
    pub(crate) fn pass_to(&mut self, moment: u64, touched: &mut Touched<F>)
        requires { moment ≤ 10 ^ 15 }
        ensures passes { PassesTo moment self.old.asked self.new.asked }
        ensures rest { self.new ≡ with_asked self.old self.new.asked }
        ensures moment { self.new.asked.moment ≡ max self.old.asked.moment moment }
        ensures stays { OthersStay touched.new self.old.asked self.new.asked }
        ensures grows { Grows touched.old touched.new }
    {
        pass_to::<F>(&mut self.asked, moment, touched);
    }

    /// Forgets what the upstream neighbour was asked for: it restarted, or it is gone. Touches all
    /// machines.
    pub(crate) fn forget(&mut self, alloc: Global, touched: &mut Touched<F>)
        requires { self.old.asked.moment ≤ 10 ^ 15 }
        ensures forgets { self.new ≡ with_asked self.old (without_records self.old.asked) }
        ensures touches { touched.new.all ≡ true }
    {
        let mut asked = Ports::new(alloc, 1, self.asked.limit());
        pass_to::<F>(&mut asked, self.asked.now(), touched);
        self.asked = asked;
        touched.touch_all();
    }
}
