//! The canonical messages, one after another. Each exception of a star is an (S,G,rpt) machine of
//! every port that has the star. So stars that are too big are looked for only if some port has
//! enough (S,G,rpt) machines.

ghost use Rattle.std.specs.Prelude.{◌≡◌, ◌+◌, ◌≤◌, ◌<◌, ◌^◌, ◌++◌, None, IfSome, length, take};
ghost use Rattle.std.specs.Prelude.{drop, option_map};
ghost use Rattle.pim_frame.specs.Frame.{all_routers};
ghost use Rattle.pim_frame.specs.Seal.{IsSealed};
ghost use Rattle.pim_frame.specs.declared.frame.MessageType.TheVariants.{JoinPrune};
ghost use Rattle.pim_jp.specs.Canonical.{canonical_head};
ghost use Rattle.pim_form.specs.NormalForm.{groups_of};
ghost use Rattle.pim_form.specs.TooBig.{too_big};
ghost use Rattle.pim_emit.specs.Drafts.{body_start, IsNext};
ghost use Rattle.pim_emit.specs.Left.{IsPosition, groups_above, position_seen};

use crate::demand::UpstreamDemand;
use crate::draft::{empty_draft, room, write_next};
use crate::position::Position;
use pim_addr::Family;
use pim_form::Writer;

/// The least group above the bound, or of all, whose star, with all its exceptions, doesn't fit a
/// message of this budget alone, if there is one. The groups are walked only if some port has
/// enough (S,G,rpt) machines for a star that is too big.
pub(crate) fn too_big_above<F: Family>(
    demand: &UpstreamDemand<'_, F>,
    budget: usize,
    bound: Option<F::Addr>,
) -> Option<F::Addr>
    requires { budget ≤ 65000 }
    ensures { option_map F.bytes_of result
        ≡ too_big F.family budget (groups_above (option_map F.bytes_of bound) demand.now.form) }
{
    demand.is_normal();
    pim_form::laws::groups_are_counted();
    let room = room::<F>(&empty_draft::<F>(Position::Start), budget);
    if demand.most_exceptions() < room {
        return None;
    }
    let mut passed = bound;
    while let Some(group) = demand.next_group(passed) {
        if demand.has_star(group) && room <= demand.exception_count(group) {
            return Some(group);
        }
        passed = Some(group);
    }
    None
}

/// The least group of all whose star, with all its exceptions, doesn't fit a message of this budget
/// alone, if there is one.
pub(crate) fn too_big<F: Family>(demand: &UpstreamDemand<'_, F>, budget: usize) -> Option<F::Addr>
    requires { budget ≤ 65000 }
    ensures { option_map F.bytes_of result ≡ too_big F.family budget demand.now.form }
{
    too_big_above::<F>(demand, budget, None)
}

/// Writes the next message at the front of the buffer, whose length is at least the writer's
/// budget. Returns the length of the message and moves the position after it; `None` if no unit is
/// left.
pub(crate) fn next_message<F: Family>(
    demand: &UpstreamDemand<'_, F>,
    writer: &Writer<F>,
    position: &mut Position<F::Addr>,
    buffer: &mut [u8],
) -> Option<usize>
    requires position { IsPosition F.family (position_seen F.bytes_of position.old) }
    requires fits { too_big F.family writer.now.budget demand.now.form ≡ None }
    requires room { writer.now.budget ≤ length buffer.old }
    ensures next { IsNext F.family writer.now demand.now (position_seen F.bytes_of position.old)
        (position_seen F.bytes_of position.new) buffer.new result }
    ensures within { IfSome result (λ size. size ≤ writer.now.budget) }
    ensures length { length buffer.new ≡ length buffer.old }
{
    writer.is_writing();
    demand.is_normal();
    pim_form::laws::groups_are_counted();
    let (bytes, _) = buffer.split_at_mut(writer.budget());
    let mut draft = empty_draft::<F>(*position);
    while !draft.is_full {
        write_next::<F>(demand, &mut draft, bytes);
    }
    if draft.groups == 0 {
        return None;
    }
    let (message, _) = bytes.split_at_mut(draft.end);
    writer.seal_message(draft.groups as u8, message);
    *position = draft.position;
    Some(draft.end)
}
