//! One join.

ghost use Rattle.std.specs.Prelude.{◌≡◌, true};
ghost use Rattle.pim_local.specs.Joins.{is_valid, IsValidJoin};
ghost use Rattle.pim_local.specs.Seen.{join_seen};

use pim_addr::Family;

/// A join of local receivers: all sources of a group, or one of them.
#[derive(Clone, Copy, Debug, PartialEq, Eq)]
pub struct LocalJoin<A> {
    /// The group.
    pub group: A,
    /// The source, `None` for the star of the group: all its sources.
    pub source: Option<A>,
}

/// Whether the group is a multicast group, and the source, if any, a valid source.
pub(crate) fn is_valid<F: Family>(join: &LocalJoin<F::Addr>) -> bool
    ensures test { result ≡ is_valid F.family (join_seen F.bytes_of join.now) }
    ensures valid { result ≡ true → IsValidJoin F.family (join_seen F.bytes_of join.now) }
{
    F::address_has_its_bytes(join.group);
    let source = join.source;
    match source {
        Some(source) => {
            F::address_has_its_bytes(source);
            F::is_group(join.group) && F::is_source(source)
        }
        None => F::is_group(join.group),
    }
}
