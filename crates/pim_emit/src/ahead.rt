//! The source that comes next on each port. While the sources of a set are written, it is kept on
//! the stack for each port, with the machines after it. So a port whose source was written goes on
//! to its next machine without a search.

ghost use Rattle.std.specs.Prelude.{◌≡◌, ◌≤◌, ◌<◌, ◌+◌, ℕ, false, List, Option, Some, IfSome};
ghost use Rattle.std.specs.Prelude.{length, option_map};
ghost use Rattle.std.specs.Prelude.{slice_index_or};
ghost use Rattle.pim_down.specs.Key.{address_cmp};
ghost use Rattle.pim_down.specs.Seen.{what_seen};
ghost use Rattle.pim_form.specs.NormalForm.{same_address};
ghost use Rattle.pim_emit.specs.Ahead.{passed, SourceAhead, its_source, IsAheadOn, IsNextOn};
ghost use Rattle.pim_emit.specs.Ahead.{IsNextSource, AreNext};
ghost use Rattle.pim_emit.specs.Ahead.{is_this, least_seen, source_of_least, AreLeastBelow};
ghost use Rattle.pim_emit.specs.Ahead.{FindsNext};

use crate::least::lesser;
use crate::nearby::Nearby;
use pim_addr::Family;
use pim_down::{GroupMachines, Near, What, compare_addresses};
use std::cmp::Ordering;
use std::marker::Model;

/// A source that comes next on a port, and the machines of its group that follow it there.
#[derive(Drop)]
pub(crate) struct Ahead<'a, F: Family> {
    source: F::Addr,
    left: GroupMachines<'a, F>,
    /// The place of the source's machine. No result depends on it.
    near: Near,
}

impl<'a, F: Family> Model for Ahead<'a, F> {
    ghost use Rattle.pim_emit.specs.Ahead.{SourceAhead};

    ghost Value = { SourceAhead };

    ghost view = { λ ahead. record { source = F.bytes_of ahead.source; left = ahead.left } };
}

/// The least of the sources that come next on some ports.
#[derive(Clone, Copy)]
struct LeastAhead<A> {
    source: A,
    /// A port on which it comes next.
    port: usize,
    /// Whether it comes next on no other port.
    is_alone: bool,
}

/// The machine after which the sources above the bound follow, or all sources.
pub(crate) fn passed<F: Family>(bound: Option<F::Addr>) -> What<F::Addr>
    ensures { what_seen F.bytes_of result ≡ passed (option_map F.bytes_of bound) }
{
    match bound {
        Some(source) => What::Source(source),
        None => What::Star,
    }
}

/// Takes the next of these machines, and returns its source if it is (S,G).
fn next_source<F: Family>(left: &mut GroupMachines<'_, F>) -> Option<F::Addr>
    ensures { FindsNext F.family left.old left.new (option_map F.bytes_of result) }
{
    pim_down::laws::keys_are_distinct();
    match left.next_machine()?.key.what {
        What::Source(source) => Some(source),
        _ => None,
    }
}

/// What comes next on the port above the bound, or at all.
fn ahead_on<'a, F: Family>(
    ports: &Nearby<'a, F>,
    port: usize,
    group: F::Addr,
    bound: Option<F::Addr>,
) -> Option<Ahead<'a, F>>
    ensures { IsAheadOn ports.now (F.bytes_of group) (option_map F.bytes_of bound) port result }
{
    ports.is_sound();
    let mut left = ports.machines_after(port, group, passed::<F>(bound));
    let near = left.near();
    let next = next_source::<F>(&mut left);
    ports.keep(port, near);
    Some(Ahead {
        source: next?,
        left,
        near,
    })
}

/// Looks up, on each port, the least source above the bound, or of all, with (S,G) in Join or
/// Prune-Pending.
pub(crate) fn look_ahead<'a, F: Family>(
    ports: &Nearby<'a, F>,
    group: F::Addr,
    bound: Option<F::Addr>,
    nexts: &mut [Option<Ahead<'a, F>>],
)
    requires { ports.now.ports ≤ length nexts.old }
    ensures next { AreNext ports.now (F.bytes_of group) (option_map F.bytes_of bound) nexts.new }
    ensures length { length nexts.new ≡ length nexts.old }
{
    let count = ports.port_count();
    for port in 0..count {
        nexts[port] = ahead_on::<F>(ports, port, group, bound);
    }
}

/// Keeps the place of what comes next on the port.
fn keep_on<F: Family>(ports: &Nearby<'_, F>, port: usize, next: &Option<Ahead<'_, F>>) {
    if let Some(ahead) = next {
        ports.keep(port, ahead.near);
    }
}

/// Keeps the place of what comes next on each port for the next look-up there.
pub(crate) fn keep_ahead<F: Family>(ports: &Nearby<'_, F>, nexts: &[Option<Ahead<'_, F>>])
    requires { ports.now.ports ≤ length nexts.now }
{
    let count = ports.port_count();
    for port in 0..count {
        keep_on::<F>(ports, port, &nexts[port]);
    }
}

/// The source that comes next, if one does.
fn source_of<F: Family>(next: &Option<Ahead<'_, F>>) -> Option<F::Addr>
    ensures { option_map F.bytes_of result ≡ its_source next.now }
{
    match next {
        Some(ahead) => Some(ahead.source),
        None => None,
    }
}

/// The least source above the bound, or of all, with (S,G) in Join or Prune-Pending on the port.
pub(crate) fn source_on<F: Family>(
    ports: &Nearby<'_, F>,
    port: usize,
    group: F::Addr,
    bound: Option<F::Addr>,
) -> Option<F::Addr>
    ensures { IsNextOn ports.now (F.bytes_of group) (option_map F.bytes_of bound) port
        (option_map F.bytes_of result) }
{
    let next = ahead_on::<F>(ports, port, group, bound);
    source_of::<F>(&next)
}

/// The least source above the bound, or of all, with (S,G) in Join or Prune-Pending on some port.
/// Each port is looked up.
fn least_source<F: Family>(
    ports: &Nearby<'_, F>,
    group: F::Addr,
    bound: Option<F::Addr>,
) -> Option<F::Addr>
    ensures { IsNextSource ports.now (F.bytes_of group) (option_map F.bytes_of bound)
        (option_map F.bytes_of result) }
{
    let count = ports.port_count();
    let mut least = None;
    for port in 0..count {
        let next = ahead_on::<F>(ports, port, group, bound);
        least = lesser::<F>(least, source_of::<F>(&next));
    }
    least
}

impl<A> LeastAhead<A> {
    /// The same least source, which comes next on one more port.
    fn beside_another(self) -> Self
        ensures { (bytes_of : A → List ℕ) → least_seen bytes_of result
            ≡ record { source = bytes_of self.source; port = self.port; is_alone = false } }
    {
        LeastAhead {
            source: self.source,
            port: self.port,
            is_alone: false,
        }
    }
}

/// Compares a source with the least one.
#[inline(always)]
fn compare_with<F: Family>(source: F::Addr, least: &LeastAhead<F::Addr>) -> Ordering
    ensures { result ≡ address_cmp (F.bytes_of source) (F.bytes_of least.now.source) }
{
    compare_addresses::<F>(source, least.source)
}

/// The least of the sources that come next on the ports before this one and on this one.
#[inline(always)]
fn with_port<F: Family>(
    least: Option<LeastAhead<F::Addr>>,
    port: usize,
    next: &Option<Ahead<'_, F>>,
) -> Option<LeastAhead<F::Addr>>
    ensures { (nexts : List (Option SourceAhead)) →
        ((other : Option SourceAhead) → slice_index_or nexts port other ≡ next.now) →
        AreLeastBelow port nexts (option_map (least_seen F.bytes_of) least) →
        AreLeastBelow (port + 1) nexts (option_map (least_seen F.bytes_of) result) }
{
    let Some(source) = source_of::<F>(next) else {
        return least;
    };
    let here = LeastAhead {
        source,
        port,
        is_alone: true,
    };
    let Some(before) = least else {
        return Some(here);
    };
    match compare_with::<F>(source, &before) {
        Ordering::Less => Some(here),
        Ordering::Equal => Some(before.beside_another()),
        Ordering::Greater => Some(before),
    }
}

/// The least of the sources that come next on the ports.
#[inline(always)]
fn least_ahead<F: Family>(
    ports: &Nearby<'_, F>,
    nexts: &[Option<Ahead<'_, F>>],
) -> Option<LeastAhead<F::Addr>>
    requires { ports.now.ports ≤ length nexts.now }
    ensures source { (group : List ℕ) (bound : Option (List ℕ))
        → AreNext ports.now group bound nexts.now →
        IsNextSource ports.now group bound
        (source_of_least (option_map (least_seen F.bytes_of) result)) }
    ensures places { AreLeastBelow ports.now.ports nexts.now
        (option_map (least_seen F.bytes_of) result) }
{
    let count = ports.port_count();
    let mut least = None;
    for port in 0..count {
        least = with_port::<F>(least, port, &nexts[port]);
    }
    least
}

/// Whether the two addresses are the same.
fn is_same<F: Family>(one: F::Addr, other: F::Addr) -> bool
    ensures { result ≡ same_address (F.bytes_of one) (F.bytes_of other) }
{
    compare_addresses::<F>(one, other).is_eq()
}

/// Whether the source comes next.
fn comes_next<F: Family>(next: &Option<Ahead<'_, F>>, source: F::Addr) -> bool
    ensures { result ≡ is_this (F.bytes_of source) (its_source next.now) }
{
    match next {
        Some(ahead) => is_same::<F>(ahead.source, source),
        None => false,
    }
}

/// Goes on to what follows the source that comes next on the port.
#[inline(always)]
fn pass_here<F: Family>(ports: &Nearby<'_, F>, port: usize, next: &mut Option<Ahead<'_, F>>)
    ensures { (group passed : List ℕ) (bound : Option (List ℕ)) →
        its_source next.old ≡ Some passed → IsAheadOn ports.now group bound port next.old →
        IsAheadOn ports.now group (Some passed) port next.new }
{
    ports.is_sound();
    let Some(ahead) = next else {
        return;
    };
    ahead.near = ahead.left.near();
    match next_source::<F>(&mut ahead.left) {
        Some(source) => ahead.source = source,
        None => {
            ports.keep(port, ahead.near);
            *next = None;
        }
    }
}

/// Goes on to what follows the passed source, if it comes next on the port. It is the least of the
/// sources that come next on the ports.
#[inline(always)]
fn pass_on<F: Family>(
    ports: &Nearby<'_, F>,
    port: usize,
    passed: F::Addr,
    next: &mut Option<Ahead<'_, F>>,
)
    requires { port < ports.now.ports }
    ensures { (group : List ℕ) (bound : Option (List ℕ)) →
        IsAheadOn ports.now group bound port next.old
        → IsNextSource ports.now group bound (Some (F.bytes_of passed)) →
        IsAheadOn ports.now group (Some (F.bytes_of passed)) port next.new }
{
    if !comes_next::<F>(next, passed) {
        return;
    }
    pass_here::<F>(ports, port, next);
}

/// Passes a source on all ports, so that `nexts` holds what follows it on each.
fn pass_all<F: Family>(ports: &Nearby<'_, F>, passed: F::Addr, nexts: &mut [Option<Ahead<'_, F>>])
    requires { ports.now.ports ≤ length nexts.old }
    ensures next { (group : List ℕ) (bound : Option (List ℕ))
        → AreNext ports.now group bound nexts.old →
        IsNextSource ports.now group bound (Some (F.bytes_of passed)) →
        AreNext ports.now group (Some (F.bytes_of passed)) nexts.new }
    ensures length { length nexts.new ≡ length nexts.old }
{
    let count = ports.port_count();
    for port in 0..count {
        pass_on::<F>(ports, port, passed, &mut nexts[port]);
    }
}

/// Passes the least source. If it comes next on one port alone, no other port is looked at.
#[inline(always)]
fn pass_ahead<F: Family>(
    ports: &Nearby<'_, F>,
    least: LeastAhead<F::Addr>,
    nexts: &mut [Option<Ahead<'_, F>>],
)
    requires room { ports.now.ports ≤ length nexts.old }
    requires places { AreLeastBelow ports.now.ports nexts.old (Some (least_seen F.bytes_of least)) }
    ensures next { (group : List ℕ) (bound : Option (List ℕ))
        → AreNext ports.now group bound nexts.old →
        IsNextSource ports.now group bound (Some (F.bytes_of least.source)) →
        AreNext ports.now group (Some (F.bytes_of least.source)) nexts.new }
    ensures length { length nexts.new ≡ length nexts.old }
{
    if least.is_alone {
        pass_here::<F>(ports, least.port, &mut nexts[least.port]);
        return;
    }
    pass_all::<F>(ports, least.source, nexts);
}

/// Takes the least source above the bound, or of all, with (S,G) in Join or Prune-Pending on some
/// port. If `nexts` has a place for each port, it holds what comes next on each above the bound,
/// and after the call what follows the source. Otherwise each port is looked up.
#[inline(always)]
pub(crate) fn take_next<F: Family>(
    ports: &Nearby<'_, F>,
    group: F::Addr,
    bound: Option<F::Addr>,
    nexts: &mut [Option<Ahead<'_, F>>],
) -> Option<F::Addr>
    requires { ports.now.ports ≤ length nexts.old →
        AreNext ports.now (F.bytes_of group) (option_map F.bytes_of bound) nexts.old }
    ensures least { IsNextSource ports.now (F.bytes_of group) (option_map F.bytes_of bound)
        (option_map F.bytes_of result) }
    ensures next { ports.now.ports ≤ length nexts.old → IfSome result (λ source.
        AreNext ports.now (F.bytes_of group) (Some (F.bytes_of source)) nexts.new) }
    ensures length { length nexts.new ≡ length nexts.old }
{
    if nexts.len() < ports.port_count() {
        return least_source::<F>(ports, group, bound);
    }
    let Some(least) = least_ahead::<F>(ports, nexts) else {
        return None;
    };
    pass_ahead::<F>(ports, least, nexts);
    Some(least.source)
}
