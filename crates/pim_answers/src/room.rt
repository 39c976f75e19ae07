//! Room for the message of a command.

ghost use Rattle.std.specs.Prelude.{◌≡◌, ◌≤◌, ◌+◌, length, drop};
ghost use Rattle.pim_frame.specs.Seal.{IsSealed};
ghost use Rattle.pim_request.specs.Forms.{IsHex, hex_bytes};
ghost use Rattle.pim_answers.specs.Packets.{room_limit};

use pim_addr::Family;
use pim_frame::{MessageType, seal};
use pim_request::decode_hex;
use std::alloc::{AllocError, Global};
use std::marker::Model;

/// The most bytes that the digits of a command state.
const ROOM: usize = 524_288;

/// Room for the message of a command. It has place for the longest one, so that none needs memory.
#[derive(Drop)]
pub struct Room {
    bytes: Vec<u8>,
}

impl Model for Room {
    ghost use Rattle.std.specs.Prelude.{ℕ, List, ◌≤◌, vec_capacity};
    ghost use Rattle.pim_answers.specs.Packets.{room_limit};

    ghost Value = { List ℕ };

    ghost view = { λ room. room.bytes.items };

    ghost invariant = { λ room. room_limit ≤ vec_capacity room.bytes };
}

impl Room {
    /// Returns room for the longest message.
    ///
    /// # Errors
    /// If memory is refused.
    pub fn new(alloc: Global) -> Result<Self, AllocError> {
        Ok(Room {
            bytes: Vec::with_capacity(alloc, ROOM)?,
        })
    }

    /// Returns the message.
    pub(crate) fn message(&self) -> &[u8]
        ensures { result.now ≡ self.now }
    {
        self.bytes.as_slice()
    }

    /// Makes the bytes that these digits state the message.
    pub(crate) fn decode(&mut self, hex: &[u8])
        requires hex { IsHex hex.now }
        requires short { length (hex_bytes hex.now) ≤ room_limit }
        ensures { self.new ≡ hex_bytes hex.now }
    {
        decode_hex(hex, &mut self.bytes);
    }

    /// Makes the room of a header and this body the message.
    fn fill(&mut self, body: &[u8])
        requires { length body.now ≤ 65532 }
        ensures body { drop 4 self.new ≡ body.now }
        ensures length { length self.new ≡ 4 + length body.now }
    {
        self.bytes.clear();
        let Ok(()) = self.bytes.extend_from_slice(&[0; 4]) else {
            unreachable!();
        };
        let Ok(()) = self.bytes.extend_from_slice(body) else {
            unreachable!();
        };
    }

    /// Makes this body the message, sealed.
    pub(crate) fn fill_sealed<F: Family>(
        &mut self,
        source: F::Addr,
        destination: F::Addr,
        message_type: MessageType,
        body: &[u8],
    )
        requires { length body.now ≤ 65532 }
        ensures sealed { IsSealed F.family (F.bytes_of source) (F.bytes_of destination)
            message_type body.now self.new }
        ensures short { length self.new ≤ 65536 }
    {
        self.fill(body);
        seal::<F>(source, destination, message_type, &mut self.bytes);
    }
}
