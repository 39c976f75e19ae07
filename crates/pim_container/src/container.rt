//! The containers, and the heads of their pieces.

ghost use Rattle.std.specs.Prelude.{◌≡◌, ◌≤◌, ◌⊎◌, length, IfOk, IfErr, Err, ◌≢◌, vec_len};
ghost use Rattle.std.specs.Prelude.{OnErr, vec_capacity};
ghost use Rattle.pim_addr.specs.Faults.{Answers, judged};
ghost use Rattle.pim_container.specs.Pieces.{head_length, head_faults, extent_of, piece_event};
ghost use Rattle.pim_container.specs.Pieces.{interfaces_after};
ghost use Rattle.pim_container.specs.Block.{most_block};
ghost use Rattle.pim_container.specs.Next.{IsPiece, IsOfBytes, OnMemory, Describes};
ghost use Rattle.pim_container.specs.Room.{GrowsList, CountsList};
ghost use Rattle.pim_container.specs.EventSeen.{event_seen, EventLiesIn, IsBy, latest_moment};

use crate::block::{read_block, read_head};
use crate::classic::{ClassicFormat, read_record, record_length};
use crate::event::ContainerEvent;
use crate::fault::ContainerFault;
use crate::interface::Interface;
use crate::link::BlockEndianness;

/// How the pieces of a file are written: its records or blocks.
#[derive(Clone, Copy, Debug, PartialEq, Eq)]
pub enum Container {
    /// Records of a classic file with this format.
    Classic(ClassicFormat),
    /// Blocks of a pcapng section of this byte order.
    Blocks(BlockEndianness),
}

/// What the head of a piece says.
#[derive(Clone, Copy, Debug, PartialEq, Eq)]
pub struct Extent {
    /// How it and the pieces after it are written.
    pub container: Container,
    /// Its length with its head, in bytes.
    pub length: usize,
}

impl Container {
    /// The length of the head of a piece, in bytes.
    pub fn head_length(self) -> usize
        ensures value { result ≡ head_length self }
        ensures bound { result ≤ 16 }
    {
        match self {
            Container::Classic(_) => 16,
            Container::Blocks(_) => 12,
        }
    }

    /// What the head of a piece says.
    ///
    /// # Errors
    /// `Magic`, `Block` or `TooLong`, in this order.
    pub fn extent_of(self, head: &[u8]) -> Result<Extent, ContainerFault>
        requires { head_length self ≤ length head.now }
        ensures answer { Answers (λ it. it) result
            (judged (head_faults self head.now) (extent_of self head.now)) }
        ensures whole { IfOk result (λ extent. head_length self ≤ extent.length) }
        ensures most { IfOk result (λ extent. extent.length ≤ most_block) }
        ensures not_other { IfErr result IsOfBytes }
    {
        match self {
            Container::Classic(format) => Ok(Extent {
                container: self,
                length: record_length(format, head)?,
            }),
            Container::Blocks(before) => {
                let head = read_head(before, head)?;
                Ok(Extent {
                    container: Container::Blocks(head.order),
                    length: head.length,
                })
            }
        }
    }

    /// The event of a whole piece in the buffer. Interfaces are added or, by a new section,
    /// removed.
    pub fn read_piece(
        self,
        interfaces: &mut Vec<Interface>,
        buffer: &mut Vec<u8>,
    ) -> Result<ContainerEvent, ContainerFault>
        requires { IsPiece self buffer.now.items }
        ensures answer { (result ≡ Err ContainerFault.Memory)
            ⊎ Answers (event_seen buffer.new.items) result
            (piece_event self interfaces.old.items buffer.old.items) }
        ensures interfaces { IfOk result (λ _. interfaces.new.items
            ≡ interfaces_after self interfaces.old.items buffer.old.items) }
        ensures ranges { IfOk result (EventLiesIn buffer.new.items) }
        ensures moment { IfOk result (IsBy latest_moment) }
        ensures record { IfOk result (λ event. event ≢ ContainerEvent.End) }
        ensures not_read { result ≢ Err ContainerFault.Read }
        ensures memory { OnMemory result (Describes self buffer.old.items) }
        ensures full { OnMemory result (vec_capacity interfaces.old ≤ vec_len interfaces.old) }
        ensures list { IfOk result (λ event. GrowsList event (vec_len interfaces.old)
            (vec_capacity interfaces.old) (vec_capacity interfaces.new)) }
        ensures counted { IfOk result (λ event. CountsList event (vec_len interfaces.old)
            (vec_len interfaces.new)) }
        ensures same_list { OnErr result
            (vec_capacity interfaces.new ≡ vec_capacity interfaces.old) }
        ensures length { vec_len buffer.new ≤ vec_len buffer.old }
        ensures capacity { vec_capacity buffer.new ≡ vec_capacity buffer.old }
    {
        match self {
            Container::Classic(format) => Ok(read_record(format, buffer.as_slice())),
            Container::Blocks(order) => read_block(order, interfaces, buffer),
        }
    }
}
