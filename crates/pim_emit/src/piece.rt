//! The piece of a group that is written next.

ghost use Rattle.std.specs.Prelude.{option_map};
ghost use Rattle.pim_emit.specs.Left.{IsPosition, IsNextPiece, position_seen, piece_seen};

use crate::demand::UpstreamDemand;
use crate::position::Position;
use pim_addr::Family;

/// What is left of a group.
#[derive(Clone, Copy)]
pub(crate) struct Piece<A> {
    /// The group.
    pub(crate) group: A,
    /// Whether its star is left.
    pub(crate) starred: bool,
    /// The source up to which its sources are written, if any is.
    pub(crate) from: Option<A>,
}

/// The piece that comes next after this position; `None` if nothing is left.
pub(crate) fn next_piece<F: Family>(
    demand: &UpstreamDemand<'_, F>,
    position: Position<F::Addr>,
) -> Option<Piece<F::Addr>>
    requires { IsPosition F.family (position_seen F.bytes_of position) }
    ensures { IsNextPiece F.family (position_seen F.bytes_of position) demand.now.form
        (option_map (piece_seen F.bytes_of) result) }
{
    demand.is_normal();
    let bound = match position {
        Position::Start => None,
        Position::Behind(group) => Some(group),
        Position::Within(group, from) => {
            if demand.has_source(group, from) {
                return Some(Piece {
                    group,
                    starred: false,
                    from,
                });
            }
            Some(group)
        }
    };
    let group = demand.next_group(bound)?;
    Some(Piece {
        group,
        starred: demand.has_star(group),
        from: None,
    })
}
