//! Places in a list of joins in order.

ghost use Rattle.std.specs.Prelude.{◌≡◌, filter};
ghost use Rattle.pim_local.specs.Joins.{AreInOrder, of_group};
ghost use Rattle.pim_local.specs.Seen.{join_seen, joins_seen, IsJoinPlace};

use crate::join::LocalJoin;
use pim_addr::Family;

/// Returns the place of this join, or else the place where it belongs.
pub(crate) fn find_place<F: Family>(
    joins: &[LocalJoin<F::Addr>],
    join: &LocalJoin<F::Addr>,
) -> Result<usize, usize>
    requires { AreInOrder (joins_seen F.bytes_of joins.now) }
    ensures { IsJoinPlace (join_seen F.bytes_of join.now) (joins_seen F.bytes_of joins.now) result }
{
    let key = (join.group, join.source);
    joins.binary_search_by_key(&key, |held| (held.group, held.source))
}

/// Returns the joins of this group.
pub(crate) fn part_of<F: Family>(
    joins: &[LocalJoin<F::Addr>],
    group: F::Addr,
) -> &[LocalJoin<F::Addr>]
    requires { AreInOrder (joins_seen F.bytes_of joins.now) }
    ensures { joins_seen F.bytes_of result.now
        ≡ filter (of_group (F.bytes_of group)) (joins_seen F.bytes_of joins.now) }
{
    let begin = joins.partition_point(|held| held.group.cmp(&group).is_lt());
    let (_, others) = joins.split_at(begin);
    let end = others.partition_point(|held| held.group.cmp(&group).is_le());
    let (part, _) = others.split_at(end);
    part
}
