//! Messages in one block of bytes.

ghost use Rattle.std.specs.Prelude.{IsTrue, ◌↔◌, ◌≡◌, ◌<◌, true, [], ◌∷◌, ◌++◌, length, slice_get};
ghost use Rattle.std.specs.Prelude.{OnOk, OnErr};
ghost use Rattle.pim_addr.specs.Routes.{rp_of};
ghost use Rattle.pim_form.specs.Added.{IsAdded};
ghost use Rattle.pim_form.specs.Blocks.{written_bytes};
ghost use Rattle.pim_form.specs.Messages.{HaveRps};
ghost use Rattle.pim_form.specs.Packing.{fits};
ghost use Rattle.pim_form.specs.Plan.{run_of};
ghost use Rattle.pim_form.specs.Rows.{IsKept, form_seen};

use crate::place::GroupPlace;
use crate::writer::Writer;
use crate::written::append_message;
use pim_addr::{Family, Routes};
use std::alloc::{AllocError, Global};
use std::marker::Model;

/// Where a message is in the block.
#[derive(Clone, Copy)]
pub(crate) struct Span {
    /// The index of its first byte.
    pub(crate) start: usize,
    /// The index after its last byte.
    pub(crate) end: usize,
}

/// A list of messages. Contracts see the list of their bytes.
#[derive(Drop)]
pub struct Messages {
    bytes: Vec<u8>,
    spans: Vec<Span>,
}

impl Model for Messages {
    ghost use Rattle.std.specs.Prelude.{ℕ, List, length};
    ghost use Rattle.std.specs.List.{AllByRecursion};
    ghost use Rattle.pim_form.specs.Blocks.{IsSpan, messages_seen};

    ghost Value = { List (List ℕ) };

    ghost view = { λ messages. messages_seen messages.bytes.items messages.spans.items };

    ghost invariant = { λ messages. AllByRecursion (IsSpan (length messages.bytes.items))
        messages.spans.items };
}

impl Messages {
    /// Returns an empty list.
    pub fn none(alloc: Global) -> Self
        ensures { result ≡ [] }
    {
        Messages {
            bytes: Vec::new(alloc),
            spans: Vec::new(alloc),
        }
    }

    /// Reserves room for this number of further messages, and of their bytes together.
    pub(crate) fn reserve(&mut self, messages: usize, bytes: usize) -> Result<(), AllocError>
        ensures { self.new ≡ self.old }
    {
        self.bytes.reserve_exact(bytes)?;
        self.spans.reserve_exact(messages)
    }

    /// Adds the message of a part of a form, which fits the writer's budget. The only refusal is
    /// for lack of memory.
    pub(crate) fn add<F: Family>(
        &mut self,
        writer: &Writer<F>,
        routes: &Routes<F>,
        row: &[F::Addr],
        pieces: &[GroupPlace<F::Addr>],
    ) -> Result<(), AllocError>
        requires kept { IsKept F.bytes_of F.family row.now pieces.now }
        requires rps { HaveRps F.family (rp_of F.family routes.now)
            (form_seen F.bytes_of row.now pieces.now) }
        requires fitting { fits F.family writer.now.budget (run_of F.bytes_of row.now pieces.now)
            ≡ true }
        ensures { OnOk result (IsAdded F.family writer.now (rp_of F.family routes.now)
            (form_seen F.bytes_of row.now pieces.now) self.old self.new) }
    {
        let start = self.bytes.len();
        append_message::<F>(writer, routes, row, pieces, &mut self.bytes)?;
        let end = self.bytes.len();
        self.spans.push(Span { start, end })?;
        Ok(())
    }

    /// Adds a message with these bytes at the end. The only refusal is for lack of memory; then
    /// nothing changes.
    pub fn push(&mut self, message: &[u8]) -> Result<(), AllocError>
        ensures ok { OnOk result (self.new ≡ self.old ++ message.now ∷ []) }
        ensures err { OnErr result (self.new ≡ self.old) }
    {
        self.spans.reserve(1)?;
        let start = self.bytes.len();
        self.bytes.extend_from_slice(message)?;
        let end = self.bytes.len();
        self.spans.push_reserved(Span { start, end });
        Ok(())
    }

    /// Returns the number of messages.
    #[tactic(auto, using(crate::proofs::Spans::spans_count))]
    pub fn count(&self) -> usize
        ensures { result ≡ length self.now }
    {
        self.spans.len()
    }

    /// Returns the bytes of one message, PIM header included. Messages are numbered from 0; from
    /// `count()` on there is none.
    pub fn get(&self, index: usize) -> Option<&[u8]>
        ensures { written_bytes result ≡ slice_get self.now index }
    {
        if index >= self.spans.len() {
            return None;
        }
        let span = self.spans[index];
        let (front, _) = self.bytes.split_at(span.end);
        let (_, message) = front.split_at(span.start);
        Some(message)
    }

    /// Returns whether both lists have the same messages, byte for byte.
    pub fn same_bytes(&self, other: &Messages) -> bool
        ensures { IsTrue result ↔ (self.now ≡ other.now) }
    {
        let count = self.count();
        if count != other.count() {
            return false;
        }
        for index in 0..count {
            if !same_at(self, other, index) {
                return false;
            }
        }
        true
    }
}

/// Whether both lists have the same message with this number, or neither has one.
fn same_at(one: &Messages, other: &Messages, index: usize) -> bool
    ensures { IsTrue result ↔ (slice_get one.now index ≡ slice_get other.now index) }
{
    match (one.get(index), other.get(index)) {
        (Some(a), Some(b)) => a == b,
        (None, None) => true,
        _ => false,
    }
}
