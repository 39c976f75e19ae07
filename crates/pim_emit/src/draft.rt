//! A message that is being made in the caller's buffer, set by set. Nothing of a form is copied.

ghost use Rattle.std.specs.Prelude.{◌≡◌, ◌+◌, ◌*◌, ◌≤◌, ◌<◌, ◌↔◌, ℕ, length, true, false, List};
ghost use Rattle.std.specs.Prelude.{is_some, option_map};
ghost use Rattle.std.specs.Int.{from_bool};
ghost use Rattle.pim_form.specs.Units.{empty_set_size, entry_size};
ghost use Rattle.pim_form.specs.Rows.{exceptions_of};
ghost use Rattle.pim_emit.specs.declared.position.Position.{Position};
ghost use Rattle.pim_emit.specs.Drafts.{draft_seen, body_start, IsDraft, IsBegun, steps_left};
ghost use Rattle.pim_emit.specs.Left.{IsPiece, position_seen, piece_seen, piece_form, star_of};
ghost use Rattle.pim_emit.specs.Left.{sources_in, next_above};
ghost use Rattle.pim_emit.specs.Sets.{AreWritten, sources_seen};
ghost use Rattle.pim_addr.specs.Address.{IsGroupAddress};

use crate::demand::UpstreamDemand;
use crate::piece::{Piece, next_piece};
use crate::position::Position;
use crate::set::{WrittenSources, write_set};
use pim_addr::{Family, group_length, source_length};
use pim_form::MOST_GROUPS;
use pim_jp::{head_length, set_length};

/// How far a message is made.
#[derive(Clone, Copy)]
pub(crate) struct Draft<A> {
    /// The position after the units that are written.
    pub(crate) position: Position<A>,
    /// The number of its groups.
    pub(crate) groups: usize,
    /// The index at which its last set ends.
    pub(crate) end: usize,
    /// Whether the next unit has no room in it, or no unit is left.
    pub(crate) is_full: bool,
}

/// A message without groups.
pub(crate) fn empty_draft<F: Family>(position: Position<F::Addr>) -> Draft<F::Addr>
    ensures { result
        ≡ record { position = position; groups = 0; end = body_start F.family; is_full = false } }
{
    Draft {
        position,
        groups: 0,
        end: 4 + head_length::<F>(),
        is_full: false,
    }
}

/// The number of entries of one more group for which there is room.
pub(crate) fn room<F: Family>(draft: &Draft<F::Addr>, budget: usize) -> usize
    requires end { draft.now.end ≤ 65000 }
    requires budget { budget ≤ 65000 }
    ensures { (count : ℕ) → 1 ≤ count → (count ≤ result) ↔ ((draft.now.groups < 255)
        × (draft.now.end + empty_set_size F.family + count * entry_size F.family ≤ budget)) }
{
    if draft.groups >= MOST_GROUPS {
        return 0;
    }
    let set = group_length::<F>() + 4;
    budget.saturating_sub(draft.end + set) / source_length::<F>()
}

/// Whether a group has sources after those of a piece that were written, at most `most`.
fn has_more<F: Family>(
    demand: &UpstreamDemand<'_, F>,
    piece: &Piece<F::Addr>,
    most: usize,
    reported: &WrittenSources<F::Addr>,
) -> bool
    requires group { IsGroupAddress F.family (F.bytes_of piece.now.group) }
    requires reported { AreWritten (piece_seen F.bytes_of piece.now) demand.now.form most
        (sources_seen F.bytes_of reported.now) }
    ensures { result ≡ is_some (next_above (option_map F.bytes_of reported.now.last)
        (sources_in (F.bytes_of piece.now.group) demand.now.form)) }
{
    reported.count == most && demand.has_source(piece.group, reported.last)
}

/// Writes a piece, as far as there is room: for `room` entries, at least one, which suffice for its
/// star with `exceptions` exceptions.
fn write_piece<F: Family>(
    demand: &UpstreamDemand<'_, F>,
    piece: &Piece<F::Addr>,
    exceptions: usize,
    room: usize,
    draft: &mut Draft<F::Addr>,
    bytes: &mut [u8],
)
    requires begun { IsBegun F.family (length bytes.old) demand.now
        (draft_seen F.bytes_of draft.old)
        bytes.old }
    requires open { draft.old.is_full ≡ false }
    requires budget { length bytes.old ≤ 65000 }
    requires piece { IsPiece F.family (position_seen F.bytes_of draft.old.position) demand.now.form
        (piece_seen F.bytes_of piece.now) }
    requires exceptions { exceptions
        ≡ length (exceptions_of
        (piece_form (piece_seen F.bytes_of piece.now) demand.now.form).star) }
    requires some { 1 ≤ room }
    requires star { from_bool piece.now.starred + exceptions ≤ room }
    requires room { (count : ℕ) → 1 ≤ count → (count ≤ room) ↔ ((draft.old.groups < 255)
        × (draft.old.end + empty_set_size F.family + count * entry_size F.family
        ≤ length bytes.old)) }
    ensures draft { (begun : Position (List ℕ)) →
        IsDraft F.family (length bytes.old) demand.now begun (draft_seen F.bytes_of draft.old)
        bytes.old →
        IsDraft F.family (length bytes.old) demand.now begun (draft_seen F.bytes_of draft.new)
        bytes.new }
    ensures falls { steps_left F.family (length bytes.old) demand.now
        (draft_seen F.bytes_of draft.new)
        < steps_left F.family (length bytes.old) demand.now (draft_seen F.bytes_of draft.old) }
    ensures length { length bytes.new ≡ length bytes.old }
{
    pim_form::laws::groups_are_counted();
    demand.star_has_rp(piece.group);
    let stars = usize::from(piece.starred);
    let (_, set) = bytes.split_at_mut(draft.end);
    let most = room - (stars + exceptions);
    let reported = write_set::<F>(demand, piece, exceptions, most, set);
    draft.groups += 1;
    draft.end += set_length::<F>((stars + reported.count) as u16, exceptions as u16);
    if has_more::<F>(demand, piece, most, &reported) {
        draft.position = Position::Within(piece.group, reported.last);
        draft.is_full = true;
    } else {
        draft.position = Position::Behind(piece.group);
    }
}

/// The number of exceptions of the star of a piece, if the piece has the star.
fn exceptions_left<F: Family>(demand: &UpstreamDemand<'_, F>, piece: &Piece<F::Addr>) -> usize
    requires group { IsGroupAddress F.family (F.bytes_of piece.now.group) }
    requires star { piece.now.starred ≡ true
        → is_some (star_of (F.bytes_of piece.now.group) demand.now.form) ≡ true }
    ensures { result
        ≡ length (exceptions_of
        (piece_form (piece_seen F.bytes_of piece.now) demand.now.form).star) }
{
    if piece.starred {
        demand.exception_count(piece.group)
    } else {
        0
    }
}

/// Writes what comes next, as far as there is room, in a message of at most as many bytes as these.
pub(crate) fn write_next<F: Family>(
    demand: &UpstreamDemand<'_, F>,
    draft: &mut Draft<F::Addr>,
    bytes: &mut [u8],
)
    requires begun { IsBegun F.family (length bytes.old) demand.now
        (draft_seen F.bytes_of draft.old)
        bytes.old }
    requires open { draft.old.is_full ≡ false }
    requires budget { length bytes.old ≤ 65000 }
    ensures draft { (begun : Position (List ℕ)) →
        IsDraft F.family (length bytes.old) demand.now begun (draft_seen F.bytes_of draft.old)
        bytes.old →
        IsDraft F.family (length bytes.old) demand.now begun (draft_seen F.bytes_of draft.new)
        bytes.new }
    ensures falls { steps_left F.family (length bytes.old) demand.now
        (draft_seen F.bytes_of draft.new)
        < steps_left F.family (length bytes.old) demand.now (draft_seen F.bytes_of draft.old) }
    ensures length { length bytes.new ≡ length bytes.old }
{
    pim_form::laws::groups_are_counted();
    demand.is_normal();
    let Some(piece) = next_piece::<F>(demand, draft.position) else {
        draft.is_full = true;
        return;
    };
    let exceptions = exceptions_left::<F>(demand, &piece);
    let room = room::<F>(draft, bytes.len());
    if room == 0 || room < usize::from(piece.starred) + exceptions {
        draft.is_full = true;
        return;
    }
    write_piece::<F>(demand, &piece, exceptions, room, draft, bytes);
}
