//! The pieces of a capture, read one after the other.
//!
//! The buffer is filled with zeros in reserved room, since `resize` of the standard library doesn't
//! promise that the capacity stays.

ghost use Rattle.std.specs.Prelude.{◌≡◌, ◌≢◌, ◌+◌, ◌<◌, ◌≤◌, ◌⊎◌, ℕ, length, max, IfOk, OnOk};
ghost use Rattle.std.specs.Prelude.{OnErr, IfSome, Some, vec_len, vec_capacity};
ghost use Rattle.pim_container.specs.Pieces.{head_length};
ghost use Rattle.pim_container.specs.Block.{most_block};
ghost use Rattle.pim_container.specs.Next.{FillsAfter, TakesPiece, CountsReads, behind};
ghost use Rattle.pim_container.specs.Next.{OnMemory, NeedsMemory};
ghost use Rattle.pim_container.specs.Room.{stated_length, taken_by, Takes, GrowsBy, LacksRoom};
ghost use Rattle.pim_container.specs.Room.{GrowsList, CountsList, DescribesFirst};
ghost use Rattle.pim_container.specs.EventSeen.{EventLiesIn, IsBy, latest_moment};

use crate::container::Container;
use crate::event::ContainerEvent;
use crate::fault::ContainerFault;
use crate::interface::Interface;
use pim_addr::{Feed, read_up_to};
use std::alloc::AllocError;

/// What a piece gives.
#[derive(Clone, Debug, PartialEq, Eq, Drop)]
pub struct FoundPiece {
    /// How the pieces after it are written.
    pub container: Container,
    /// Its event.
    pub event: ContainerEvent,
}

/// Sets the length of the buffer. It grows only if its capacity is less, and then to exactly this
/// length.
fn fit(buffer: &mut Vec<u8>, size: usize) -> Result<(), AllocError>
    ensures length { OnOk result (vec_len buffer.new ≡ size) }
    ensures refused { OnErr result (vec_capacity buffer.old < size) }
    ensures same_length { OnErr result (vec_len buffer.new ≡ vec_len buffer.old) }
    ensures capacity { OnOk result (vec_capacity buffer.new ≡ max (vec_capacity buffer.old) size) }
    ensures same_capacity { OnErr result (vec_capacity buffer.new ≡ vec_capacity buffer.old) }
{
    let more = size.saturating_sub(buffer.len());
    buffer.reserve_exact(more)?;
    buffer.truncate(size);
    while buffer.len() < size {
        buffer.push_reserved(0);
    }
    Ok(())
}

/// Fills the buffer with a head that was read and the bytes after it, `size` bytes in all.
pub fn read_after<R: Feed>(
    device: &mut R,
    head: &[u8],
    size: usize,
    buffer: &mut Vec<u8>,
) -> Result<(), ContainerFault>
    requires { length head.now ≤ size }
    ensures answer { FillsAfter head.now size (R.remaining device.old) (R.remaining device.new)
        buffer.new.items result }
    ensures reads { CountsReads ⊥ (R.failures device.old) (R.failures device.new) result }
    ensures memory { OnMemory result (vec_capacity buffer.old < size) }
    ensures length { vec_len buffer.new ≤ max (vec_len buffer.old) size }
    ensures capacity { vec_capacity buffer.new ≤ max (vec_capacity buffer.old) size }
    ensures grows { GrowsBy (Some size) (vec_capacity buffer.old) (vec_capacity buffer.new) }
    ensures taken { Takes size result (behind head.now (R.remaining device.old))
        (R.remaining device.new) }
{
    fit(buffer, size)?;
    let (front, rest) = buffer.as_mut_slice().split_at_mut(head.len());
    front.copy_from_slice(head);
    let got = read_up_to(device, rest)?;
    if got < size - head.len() {
        return Err(ContainerFault::Truncated);
    }
    Ok(())
}

/// Reads the piece of which this head was read.
pub fn take_piece<R: Feed>(
    device: &mut R,
    container: Container,
    head: &[u8],
    interfaces: &mut Vec<Interface>,
    buffer: &mut Vec<u8>,
) -> Result<FoundPiece, ContainerFault>
    requires { length head.now ≡ head_length container }
    ensures answer { TakesPiece container interfaces.old.items
        (behind head.now (R.remaining device.old)) (R.remaining device.new) interfaces.new.items
        buffer.new.items result }
    ensures reads { CountsReads ⊥ (R.failures device.old) (R.failures device.new) result }
    ensures ranges { IfOk result (λ found. EventLiesIn buffer.new.items found.event) }
    ensures moment { IfOk result (λ found. IsBy latest_moment found.event) }
    ensures record { IfOk result (λ found. found.event ≢ ContainerEvent.End) }
    ensures memory { OnMemory result (IfSome (behind head.now (R.remaining device.old))
        (NeedsMemory (vec_capacity buffer.old) container)) }
    ensures length { vec_len buffer.new ≤ max (vec_len buffer.old) most_block }
    ensures capacity { vec_capacity buffer.new ≤ max (vec_capacity buffer.old) most_block }
    ensures grows { GrowsBy (stated_length container head.now) (vec_capacity buffer.old)
        (vec_capacity buffer.new) }
    ensures taken { Takes (taken_by (length head.now) (stated_length container head.now)) result
        (behind head.now (R.remaining device.old)) (R.remaining device.new) }
    ensures lacking { OnMemory result
        (LacksRoom (vec_capacity buffer.old) (Some (stated_length container head.now))
        ⊎ ((vec_capacity interfaces.old ≤ vec_len interfaces.old)
        × IfSome (behind head.now (R.remaining device.old)) (DescribesFirst container))) }
    ensures list { IfOk result (λ found. GrowsList found.event (vec_len interfaces.old)
        (vec_capacity interfaces.old) (vec_capacity interfaces.new)) }
    ensures counted { IfOk result (λ found. CountsList found.event (vec_len interfaces.old)
        (vec_len interfaces.new)) }
    ensures same_list { OnErr result
        (vec_capacity interfaces.new ≡ vec_capacity interfaces.old) }
{
    let extent = container.extent_of(head)?;
    read_after(device, head, extent.length, buffer)?;
    let event = extent.container.read_piece(interfaces, buffer)?;
    Ok(FoundPiece {
        container: extent.container,
        event,
    })
}
