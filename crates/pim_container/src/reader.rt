//! A capture that is read event by event.

ghost use Rattle.std.specs.Prelude.{◌≡◌, ◌<◌, ◌≤◌, ◌⊎◌, [], length, IfOk, Ok, max, vec_len};
ghost use Rattle.std.specs.Prelude.{IfSome, Some, OnErr, vec_capacity};
ghost use Rattle.std.specs.Option.{option_map};
ghost use Rattle.pim_container.specs.declared.reader.ReaderState.TheVariants.{Unbegun, Pieces};
ghost use Rattle.pim_container.specs.Block.{most_block};
ghost use Rattle.pim_container.specs.Pieces.{answers, pieces, head_length};
ghost use Rattle.pim_container.specs.Next.{coming, seen, device_of, state_of, IsNext, IsRefusal};
ghost use Rattle.pim_container.specs.Next.{CountsReads};
ghost use Rattle.pim_container.specs.Next.{pieces_left, IsRepeated, StaysOver, Reads, behind};
ghost use Rattle.pim_container.specs.Next.{BeginsClassic, OnMemory, NeedsMemory, NeedsToBegin};
ghost use Rattle.pim_container.specs.Next.{NeedsNext};
ghost use Rattle.pim_container.specs.Room.{stated_length, next_length, first_length, length_ahead};
ghost use Rattle.pim_container.specs.Room.{taken_by};
ghost use Rattle.pim_container.specs.Room.{Takes, TakesNext, IsUnread, GrowsBy, GrowsFor};
ghost use Rattle.pim_container.specs.Room.{LacksRoom, LacksPlace, GrowsList, CountsList, list_room};
ghost use Rattle.pim_container.specs.Room.{described_by, count_in, DescribesFirst, DescribesNext};
ghost use Rattle.pim_container.specs.Room.{needs, needs_in, needs_of, PassesNeed};
ghost use Rattle.pim_container.specs.EventSeen.{EventLiesIn, IsBy, latest_moment};

use crate::block::is_section;
use crate::classic::{ClassicFormat, read_header};
use crate::container::Container;
use crate::event::ContainerEvent;
use crate::fault::ContainerFault;
use crate::interface::Interface;
use crate::link::BlockEndianness;
use crate::piece::{read_after, take_piece};
use pim_addr::{Feed, read_up_to};
use std::alloc::Global;
use std::mem::swap;

/// The greatest number of records or blocks that are read of a file.
const MOST_PIECES: u32 = 4_294_967_295;

/// How far a file was read.
#[derive(Clone, Copy, Debug)]
pub enum ReaderState {
    /// Nothing was read.
    Unbegun,
    /// Its beginning, and none or some pieces, were read.
    Pieces {
        /// How the next piece is written.
        container: Container,
        /// The number of pieces that may still be read.
        left: u32,
    },
    /// Nothing is left.
    Ended,
    /// A call returned a fault.
    Failed,
}

/// A capture, read event by event from any device.
#[derive(Debug, Drop)]
pub struct Reader<R> {
    device: R,
    state: ReaderState,
    interfaces: Vec<Interface>,
}

/// An event, and the state after it.
#[derive(Debug, Drop)]
struct ReaderStep {
    state: ReaderState,
    event: ContainerEvent,
}

/// Reads the piece of which this head was read.
fn go_on<R: Feed>(
    device: &mut R,
    container: Container,
    left: u32,
    head: &[u8],
    interfaces: &mut Vec<Interface>,
    buffer: &mut Vec<u8>,
) -> Result<ReaderStep, ContainerFault>
    requires head { length head.now ≡ head_length container }
    requires left { 0 < left }
    ensures answer { Reads (R.failures device.old) (R.failures device.new)
        (option_map (pieces left container interfaces.old.items)
        (behind head.now (R.remaining device.old)))
        (R.remaining device.new) interfaces.new.items buffer.new.items result }
    ensures reads { CountsReads ⊥ (R.failures device.old) (R.failures device.new) result }
    ensures ranges { IfOk result (λ step. EventLiesIn buffer.new.items step.event) }
    ensures moment { IfOk result (λ step. IsBy latest_moment step.event) }
    ensures over { IfOk result (λ step. StaysOver (Ok step.event) step.state) }
    ensures fewer { IfOk result
        (λ step. step.event ≡ ContainerEvent.End ⊎ pieces_left step.state < left) }
    ensures memory { OnMemory result (IfSome (behind head.now (R.remaining device.old))
        (NeedsMemory (vec_capacity buffer.old) container)) }
    ensures length { vec_len buffer.new ≤ max (vec_len buffer.old) most_block }
    ensures capacity { vec_capacity buffer.new ≤ max (vec_capacity buffer.old) most_block }
    ensures grows { GrowsBy (stated_length container head.now) (vec_capacity buffer.old)
        (vec_capacity buffer.new) }
    ensures taken { Takes (taken_by (length head.now) (stated_length container head.now)) result
        (behind head.now (R.remaining device.old)) (R.remaining device.new) }
    ensures lacking { OnMemory result
        (LacksRoom (vec_capacity buffer.old) (Some (stated_length container head.now))
        ⊎ ((vec_capacity interfaces.old ≤ vec_len interfaces.old)
        × IfSome (behind head.now (R.remaining device.old)) (DescribesFirst container))) }
    ensures list { IfOk result (λ step. GrowsList step.event (vec_len interfaces.old)
        (vec_capacity interfaces.old) (vec_capacity interfaces.new)) }
    ensures counted { IfOk result (λ step. CountsList step.event (vec_len interfaces.old)
        (count_in step.state (vec_len interfaces.new))) }
    ensures ahead { IfOk result (λ step. PassesNeed step.event
        (option_map (needs left container (vec_len interfaces.old) interfaces.old.items)
        (behind head.now (R.remaining device.old)))
        (option_map (needs_in step.state (vec_len interfaces.new) interfaces.new.items)
        (R.remaining device.new))) }
    ensures same_list { OnErr result
        (vec_capacity interfaces.new ≡ vec_capacity interfaces.old) }
{
    let found = take_piece(device, container, head, interfaces, buffer)?;
    Ok(ReaderStep {
        state: ReaderState::Pieces {
            container: found.container,
            left: left - 1,
        },
        event: found.event,
    })
}

/// Reads the header of a classic file, of which this head was read.
fn begin_classic<R: Feed>(
    device: &mut R,
    head: &[u8],
    buffer: &mut Vec<u8>,
) -> Result<ClassicFormat, ContainerFault>
    requires { length head.now ≡ 12 }
    ensures answer { BeginsClassic (behind head.now (R.remaining device.old))
        (R.remaining device.new) result }
    ensures reads { CountsReads ⊥ (R.failures device.old) (R.failures device.new) result }
    ensures memory { OnMemory result (vec_capacity buffer.old < 24) }
    ensures length { vec_len buffer.new ≤ max (vec_len buffer.old) 24 }
    ensures capacity { vec_capacity buffer.new ≤ max (vec_capacity buffer.old) 24 }
    ensures grows { GrowsBy (Some 24) (vec_capacity buffer.old) (vec_capacity buffer.new) }
    ensures taken { Takes 24 result (behind head.now (R.remaining device.old))
        (R.remaining device.new) }
{
    read_after(device, head, 24, buffer)?;
    read_header(buffer.as_slice())
}

/// Reads the beginning of a file: the header of a classic file, or the first section header.
fn begin<R: Feed>(
    device: &mut R,
    interfaces: &mut Vec<Interface>,
    buffer: &mut Vec<u8>,
) -> Result<ReaderStep, ContainerFault>
    ensures answer { Reads (R.failures device.old) (R.failures device.new)
        (option_map answers (R.remaining device.old))
        (R.remaining device.new) interfaces.new.items buffer.new.items result }
    ensures reads { CountsReads ⊥ (R.failures device.old) (R.failures device.new) result }
    ensures ranges { IfOk result (λ step. EventLiesIn buffer.new.items step.event) }
    ensures moment { IfOk result (λ step. IsBy latest_moment step.event) }
    ensures over { IfOk result (λ step. StaysOver (Ok step.event) step.state) }
    ensures fewer { IfOk result (λ step.
        step.event ≡ ContainerEvent.End ⊎ pieces_left step.state < 4294967296) }
    ensures memory { OnMemory result (IfSome (R.remaining device.old)
        (NeedsToBegin (vec_capacity buffer.old))) }
    ensures length { vec_len buffer.new ≤ max (vec_len buffer.old) most_block }
    ensures capacity { vec_capacity buffer.new ≤ max (vec_capacity buffer.old) most_block }
    ensures grows { GrowsFor (option_map first_length (R.remaining device.old))
        (vec_capacity buffer.old) (vec_capacity buffer.new) }
    ensures taken { TakesNext Unbegun result (R.remaining device.old) (R.remaining device.new) }
    ensures lacking { OnMemory result (LacksRoom (vec_capacity buffer.old)
        (option_map first_length (R.remaining device.old))
        ⊎ ((vec_capacity interfaces.old ≤ 0)
        × IfSome (R.remaining device.old) (DescribesNext Unbegun))) }
    ensures list { IfOk result (λ step. GrowsList step.event 0 (vec_capacity interfaces.old)
        (vec_capacity interfaces.new)) }
    ensures counted { IfOk result (λ step. CountsList step.event 0
        (count_in step.state (vec_len interfaces.new))) }
    ensures ahead { IfOk result (λ step. PassesNeed step.event
        (option_map (needs_in Unbegun 0 []) (R.remaining device.old))
        (option_map (needs_in step.state (vec_len interfaces.new) interfaces.new.items)
        (R.remaining device.new))) }
    ensures same_list { OnErr result
        (vec_capacity interfaces.new ≡ vec_capacity interfaces.old) }
{
    interfaces.clear();
    let mut head = [0; 12];
    let got = read_up_to(device, &mut head)?;
    if got < 12 {
        return Err(ContainerFault::Truncated);
    }
    if is_section(&head) {
        let blocks = Container::Blocks(BlockEndianness::Big);
        return go_on(device, blocks, MOST_PIECES, &head, interfaces, buffer);
    }
    let format = begin_classic(device, &head, buffer)?;
    Ok(ReaderStep {
        state: ReaderState::Pieces {
            container: Container::Classic(format),
            left: MOST_PIECES,
        },
        event: ContainerEvent::Section,
    })
}

/// Reads the next piece, or finds the end.
fn next_piece<R: Feed>(
    device: &mut R,
    container: Container,
    left: u32,
    interfaces: &mut Vec<Interface>,
    buffer: &mut Vec<u8>,
) -> Result<ReaderStep, ContainerFault>
    ensures answer { Reads (R.failures device.old) (R.failures device.new)
        (option_map (pieces left container interfaces.old.items) (R.remaining device.old))
        (R.remaining device.new) interfaces.new.items buffer.new.items result }
    ensures reads { CountsReads (left ≡ 0) (R.failures device.old) (R.failures device.new) result }
    ensures ranges { IfOk result (λ step. EventLiesIn buffer.new.items step.event) }
    ensures moment { IfOk result (λ step. IsBy latest_moment step.event) }
    ensures over { IfOk result (λ step. StaysOver (Ok step.event) step.state) }
    ensures fewer { IfOk result
        (λ step. step.event ≡ ContainerEvent.End ⊎ pieces_left step.state < left) }
    ensures memory { OnMemory result (IfSome (R.remaining device.old)
        (NeedsMemory (vec_capacity buffer.old) container)) }
    ensures length { vec_len buffer.new ≤ max (vec_len buffer.old) most_block }
    ensures capacity { vec_capacity buffer.new ≤ max (vec_capacity buffer.old) most_block }
    ensures grows { GrowsFor (option_map (next_length left container) (R.remaining device.old))
        (vec_capacity buffer.old) (vec_capacity buffer.new) }
    ensures taken { TakesNext (Pieces container left) result (R.remaining device.old)
        (R.remaining device.new) }
    ensures lacking { OnMemory result (LacksRoom (vec_capacity buffer.old)
        (option_map (next_length left container) (R.remaining device.old))
        ⊎ ((vec_capacity interfaces.old ≤ vec_len interfaces.old)
        × IfSome (R.remaining device.old) (DescribesNext (Pieces container left)))) }
    ensures list { IfOk result (λ step. GrowsList step.event (vec_len interfaces.old)
        (vec_capacity interfaces.old) (vec_capacity interfaces.new)) }
    ensures counted { IfOk result (λ step. CountsList step.event (vec_len interfaces.old)
        (count_in step.state (vec_len interfaces.new))) }
    ensures ahead { IfOk result (λ step. PassesNeed step.event
        (option_map (needs left container (vec_len interfaces.old) interfaces.old.items)
        (R.remaining device.old))
        (option_map (needs_in step.state (vec_len interfaces.new) interfaces.new.items)
        (R.remaining device.new))) }
    ensures same_list { OnErr result
        (vec_capacity interfaces.new ≡ vec_capacity interfaces.old) }
{
    let mut first = [0; 16];
    let (head, _) = first.split_at_mut(container.head_length());
    let got = read_up_to(device, head)?;
    if got == 0 {
        return Ok(ReaderStep {
            state: ReaderState::Ended,
            event: ContainerEvent::End,
        });
    }
    if left == 0 {
        return Err(ContainerFault::Read);
    }
    if got < head.len() {
        return Err(ContainerFault::Truncated);
    }
    go_on(device, container, left, head, interfaces, buffer)
}

impl<R: Feed> Reader<R> {
    /// A capture of which nothing was read.
    pub fn new(alloc: Global, device: R) -> Self
        ensures device { device_of result ≡ device }
        ensures state { state_of result ≡ Unbegun }
        ensures coming { coming R.remaining result ≡ option_map answers (R.remaining device) }
        ensures list { list_room result ≡ 0 }
        ensures ahead { needs_of R.remaining result
            ≡ option_map (needs_in Unbegun 0 []) (R.remaining device) }
    {
        Reader {
            device,
            state: ReaderState::Unbegun,
            interfaces: Vec::new(alloc),
        }
    }

    /// Takes this device in place of its own, which the caller gets. Of the new one nothing was
    /// read, whatever was read of the old one. No memory is taken.
    pub fn exchange(&mut self, device: &mut R)
        ensures device { device_of self.new ≡ device.old }
        ensures given { device.new ≡ device_of self.old }
        ensures state { state_of self.new ≡ Unbegun }
        ensures coming { coming R.remaining self.new ≡ option_map answers (R.remaining device.old) }
        ensures list { list_room self.new ≡ list_room self.old }
        ensures ahead { needs_of R.remaining self.new
            ≡ option_map (needs_in Unbegun 0 []) (R.remaining device.old) }
    {
        swap(&mut self.device, device);
        self.state = ReaderState::Unbegun;
    }

    /// Reads the next event. After a packet the buffer holds its bytes.
    ///
    /// # Errors
    /// The first fault of the bytes, a failed read, or refused memory. Later calls return `Failed`.
    pub fn next(&mut self, buffer: &mut Vec<u8>) -> Result<ContainerEvent, ContainerFault>
        // Where the bytes of the device are known, the results are those of the file, in order.
        ensures answer { IsRefusal (R.failures (device_of self.old))
            (R.failures (device_of self.new)) result
            ⊎ IsNext (coming R.remaining self.old) (seen buffer.new.items result)
            (coming R.remaining self.new) }
        ensures reads { CountsReads (pieces_left (state_of self.old) ≡ 0)
            (R.failures (device_of self.old)) (R.failures (device_of self.new)) result }
        // Each event but the end leaves fewer pieces to read.
        ensures fewer { IfOk result (λ event. event ≡ ContainerEvent.End
            ⊎ pieces_left (state_of self.new) < pieces_left (state_of self.old)) }
        ensures ranges { IfOk result (EventLiesIn buffer.new.items) }
        ensures moment { IfOk result (IsBy latest_moment) }
        // Memory is refused only if the next piece is longer than the buffer's capacity, or
        // describes an interface.
        ensures memory { OnMemory result (IfSome (R.remaining (device_of self.old))
            (NeedsNext (vec_capacity buffer.old) (state_of self.old))) }
        ensures length { vec_len buffer.new ≤ max (vec_len buffer.old) most_block }
        ensures capacity { vec_capacity buffer.new ≤ max (vec_capacity buffer.old) most_block }
        // The capacity stays, or grows to exactly the length of the next piece.
        ensures grows { GrowsFor (length_ahead R.remaining self.old) (vec_capacity buffer.old)
            (vec_capacity buffer.new) }
        // The next piece is taken. Of one that its head refuses, only the head is.
        ensures taken { TakesNext (state_of self.old) result (R.remaining (device_of self.old))
            (R.remaining (device_of self.new)) }
        ensures unread { IsUnread (state_of self.old) (device_of self.old) (device_of self.new) }
        // Memory is refused only if the buffer has less room than the next piece needs, or if that
        // describes an interface for which the list has no room.
        ensures lacking { OnMemory result (LacksRoom (vec_capacity buffer.old)
            (length_ahead R.remaining self.old) ⊎ LacksPlace R.remaining self.old) }
        ensures list { IfOk result (λ event. GrowsList event (described_by self.old)
            (list_room self.old) (list_room self.new)) }
        ensures counted { IfOk result (λ event. CountsList event (described_by self.old)
            (described_by self.new)) }
        // What the other pieces need stays, up to the next record.
        ensures ahead { IfOk result (λ event. PassesNeed event (needs_of R.remaining self.old)
            (needs_of R.remaining self.new)) }
        ensures same_list { OnErr result (list_room self.new ≡ list_room self.old) }
        ensures repeated { IsRepeated (state_of self.old) result }
        ensures over { StaysOver result (state_of self.new) }
    {
        let state = self.state;
        self.state = ReaderState::Failed;
        let step = match state {
            ReaderState::Unbegun => begin(&mut self.device, &mut self.interfaces, buffer)?,
            ReaderState::Pieces { container, left } => next_piece(
                &mut self.device,
                container,
                left,
                &mut self.interfaces,
                buffer,
            )?,
            ReaderState::Ended => ReaderStep {
                state: ReaderState::Ended,
                event: ContainerEvent::End,
            },
            ReaderState::Failed => return Err(ContainerFault::Failed),
        };
        self.state = step.state;
        Ok(step.event)
    }

    /// Calls `pass_record` of the device. The reader stays as it is.
    pub fn pass_record(&mut self)
        ensures coming { coming R.remaining self.new ≡ coming R.remaining self.old }
        ensures failures { R.failures (device_of self.new) ≡ R.failures (device_of self.old) }
        ensures state { state_of self.new ≡ state_of self.old }
        ensures next { length_ahead R.remaining self.new ≡ length_ahead R.remaining self.old }
        ensures described { described_by self.new ≡ described_by self.old }
        ensures ahead { needs_of R.remaining self.new ≡ needs_of R.remaining self.old }
        ensures list { list_room self.new ≡ list_room self.old }
    {
        self.device.pass_record();
    }
}
