//! The keys of machines, and the order in which machines are held and returned.

ghost use Rattle.std.specs.Prelude.{◌≡◌};
ghost use Rattle.pim_down.specs.Words.{nat_cmp, ordering_then, address_cmp, what_cmp, key_cmp};
ghost use Rattle.pim_down.specs.Words.{what_seen, key_seen};

use pim_addr::{Family, numbers_are_in_order};
use std::cmp::Ordering;
use std::marker::PhantomData;

/// One of the machines that a port has for a group (RFC 7761, 4.5).
#[derive(Clone, Copy, Debug, PartialEq, Eq, PartialOrd, Ord)]
pub enum What<A> {
    /// (*,G).
    Star,
    /// (S,G).
    Source(A),
    /// (S,G,rpt).
    Rpt(A),
}

/// The key of one machine: its port, its group, and which machine of the group it is.
#[derive(Clone, Copy, Debug, PartialEq, Eq, PartialOrd, Ord)]
pub struct Key<A> {
    /// The port, numbered from 0.
    pub port: usize,
    /// The group.
    pub group: A,
    /// Which machine of the group.
    pub what: What<A>,
}

/// Compares two addresses in the order of their bytes. The code compares their numbers, which have
/// the same order and cost one comparison.
pub fn compare_addresses<F: Family>(a: F::Addr, b: F::Addr) -> Ordering
    ensures { result ≡ address_cmp (F.bytes_of a) (F.bytes_of b) }
{
    F::address_has_its_bytes(a);
    F::address_has_its_bytes(b);
    numbers_are_in_order();
    F::number(a).cmp(&F::number(b))
}

/// Compares two machines of a group: (*,G) first, then (S,G) by source, then (S,G,rpt) by source.
#[tactic(auto, unfolding(crate::specs::Key::what_cmp))]
pub fn compare_whats<F: Family>(a: &What<F::Addr>, b: &What<F::Addr>) -> Ordering
    ensures { result ≡ what_cmp (what_seen F.bytes_of a.now) (what_seen F.bytes_of b.now) }
{
    match (a, b) {
        (What::Star, What::Star) => Ordering::Equal,
        (What::Star, _) => Ordering::Less,
        (_, What::Star) => Ordering::Greater,
        (What::Source(_), What::Rpt(_)) => Ordering::Less,
        (What::Rpt(_), What::Source(_)) => Ordering::Greater,
        (What::Source(s), What::Source(t)) => compare_addresses::<F>(*s, *t),
        (What::Rpt(s), What::Rpt(t)) => compare_addresses::<F>(*s, *t),
    }
}

/// By port, then by group.
pub(crate) fn compare_groups<F: Family>(key: &Key<F::Addr>, port: usize, group: F::Addr) -> Ordering
    ensures { result ≡ ordering_then (nat_cmp key.now.port port)
        (address_cmp (F.bytes_of key.now.group) (F.bytes_of group)) }
{
    let by_port = key.port.cmp(&port);
    if by_port.is_ne() {
        return by_port;
    }
    compare_addresses::<F>(key.group, group)
}

/// By port, then by group, then by machine.
#[tactic(auto, unfolding(crate::specs::Key::key_cmp))]
pub(crate) fn compare_keys<F: Family>(a: &Key<F::Addr>, b: &Key<F::Addr>) -> Ordering
    ensures { result ≡ key_cmp (key_seen F.bytes_of a.now) (key_seen F.bytes_of b.now) }
{
    let by_group = compare_groups::<F>(a, b.port, b.group);
    if by_group.is_ne() {
        return by_group;
    }
    compare_whats::<F>(&a.what, &b.what)
}

/// An order of keys, with the bytes of their addresses.
pub(crate) trait KeyOrder<A> {
    ghost use Rattle.std.specs.Prelude.{ℕ, List};

    /// The bytes of an address.
    ghost bytes_of: { A → List ℕ };

    /// By port, then by group, then by machine.
    fn compare(a: &Key<A>, b: &Key<A>) -> Ordering
        ensures { result ≡ key_cmp (key_seen bytes_of a.now) (key_seen bytes_of b.now) };
}

/// The order of the keys of an address family.
pub(crate) struct OfFamily<F: Family> {
    family: PhantomData<F>,
}

impl<F: Family> KeyOrder<F::Addr> for OfFamily<F> {
    ghost bytes_of = { F.bytes_of };

    fn compare(a: &Key<F::Addr>, b: &Key<F::Addr>) -> Ordering {
        compare_keys::<F>(a, b)
    }
}
