//! The fragments of one packet.

ghost use Rattle.std.specs.Prelude.{◌≡◌, ◌≤◌, ◌+◌, length, IfOk, OnOk, OnErr, None, Some, []};
ghost use Rattle.std.specs.Prelude.{IsSome, is_none, true, if◌then◌else◌};
ghost use Rattle.pim_fragments.specs.Stored.{piece_seen, pieces_seen, IsFreeAt};
ghost use Rattle.pim_fragments.specs.Stored.{new_in, settled_in, found_in, payload_seen};
ghost use Rattle.pim_fragments.specs.Stored.{IsShort};
ghost use Rattle.pim_fragments.specs.Pieces.{piece_of, end_of, is_misshapen, ends_elsewhere};
ghost use Rattle.pim_fragments.specs.Pieces.{is_breaking, are_same, abut, joined, taken};
ghost use Rattle.pim_fragments.specs.Pieces.{piece_at, with_piece, size_of, IsSmall, is_added};

use crate::headers::Fragment;
use std::alloc::{AllocError, Global};
use std::collections::BTreeMap;
use std::marker::Model;

/// The greatest number of bytes of a packet.
const MOST_BYTES: usize = 65_535;

/// A fragment that is kept under its offset.
#[derive(Drop)]
pub(crate) struct Held {
    more: bool,
    bytes: Vec<u8>,
}

/// The fragments of one packet, in order of their offsets.
#[derive(Drop)]
pub(crate) struct Pieces {
    alloc: Global,
    held: BTreeMap<u16, Held>,
    /// How many bytes they have.
    size: usize,
    /// The end of the last fragment.
    end: Option<usize>,
    /// Nothing is held of a broken packet.
    is_broken: bool,
}

impl Model for Pieces {
    ghost use Rattle.std.specs.Prelude.{List, Option};
    ghost use Rattle.pim_fragments.specs.Pieces.{Piece};

    ghost Value = { Option (List Piece) };

    ghost use Rattle.pim_fragments.specs.Stored.{held_seen, AreTheirs};

    ghost view = { λ pieces. held_seen pieces.is_broken pieces.held.entries };

    ghost invariant = { λ pieces. AreTheirs pieces.held.entries pieces.size pieces.end };
}

/// The end of a packet with one more fragment.
fn end_with(fragment: Fragment, bytes: &[u8], end: Option<usize>) -> Option<usize>
    ensures { result ≡ if fragment.more then end else Some (end_of (piece_of fragment bytes.now)) }
{
    if fragment.more {
        return end;
    }
    Some(end_of(fragment, bytes))
}

/// Where the bytes of a fragment end.
fn end_of(fragment: Fragment, bytes: &[u8]) -> usize
    ensures { result ≡ end_of (piece_of fragment bytes.now) }
{
    usize::from(fragment.offset) + bytes.len()
}

/// Whether no packet has this fragment.
fn is_misshapen(fragment: Fragment, bytes: &[u8]) -> bool
    ensures { result ≡ is_misshapen (piece_of fragment bytes.now) }
{
    bytes.is_empty()
        || (fragment.more && bytes.len() % 8 != 0)
        || end_of(fragment, bytes) > MOST_BYTES
}

/// Whether this is the last fragment of a packet with another end.
fn ends_elsewhere(fragment: Fragment, bytes: &[u8], end: Option<usize>) -> bool
    ensures { result ≡ ends_elsewhere (piece_of fragment bytes.now) end }
{
    match end {
        None => false,
        Some(end) => !fragment.more && end != end_of(fragment, bytes),
    }
}

/// Whether this fragment breaks a packet with this end and this number of bytes.
fn is_breaking(fragment: Fragment, bytes: &[u8], end: Option<usize>, size: usize) -> bool
    requires { size ≤ 65535 }
    ensures breaks { result ≡ is_breaking (piece_of fragment bytes.now) end size }
{
    is_misshapen(fragment, bytes)
        || ends_elsewhere(fragment, bytes, end)
        || size + bytes.len() > MOST_BYTES
}

/// Whether the fragment that is held at an offset is this one.
fn are_same(there: &Held, fragment: Fragment, bytes: &[u8]) -> bool
    ensures { result ≡ are_same (piece_seen (fragment.offset, there.now))
        (piece_of fragment bytes.now) }
{
    there.more == fragment.more && there.bytes.as_slice() == bytes
}

/// Whether the fragments follow one another to this end.
fn abut(held: &BTreeMap<u16, Held>, end: usize) -> bool
    ensures { result ≡ abut 0 end (pieces_seen held.now.entries) }
{
    let mut at = 0;
    for (offset, piece) in held.iter() {
        if at != usize::from(*offset) {
            return false;
        }
        at += piece.bytes.len();
    }
    at == end
}

/// The bytes of the fragments, one after another.
fn joined(alloc: Global, held: &BTreeMap<u16, Held>) -> Result<Vec<u8>, AllocError>
    ensures joined { IfOk result (λ bytes. bytes.items ≡ joined (pieces_seen held.now.entries)) }
    ensures size { IfOk result
        (λ bytes. length bytes.items ≡ size_of (pieces_seen held.now.entries)) }
{
    let mut bytes = Vec::new(alloc);
    for (_, piece) in held.iter() {
        bytes.extend_from_slice(piece.bytes.as_slice())?;
    }
    Ok(bytes)
}

/// Keeps a fragment under its offset.
fn keep(
    alloc: Global,
    held: &mut BTreeMap<u16, Held>,
    fragment: Fragment,
    bytes: &[u8],
) -> Result<(), AllocError>
    requires { piece_at fragment.offset (pieces_seen held.old.entries) ≡ None }
    ensures kept { OnOk result (pieces_seen held.new.entries
        ≡ with_piece (piece_of fragment bytes.now) (pieces_seen held.old.entries)) }
    ensures refused { OnErr result (held.new.entries ≡ held.old.entries) }
{
    let piece = Held {
        more: fragment.more,
        bytes: Vec::from_slice(alloc, bytes)?,
    };
    held.insert(fragment.offset, piece)?;
    Ok(())
}

impl Pieces {
    /// A packet of which nothing is held.
    pub(crate) fn new(alloc: Global) -> Self
        ensures { result ≡ Some [] }
    {
        Pieces {
            alloc,
            held: BTreeMap::new(alloc),
            size: 0,
            end: None,
            is_broken: false,
        }
    }

    /// A law: at most 65,535 bytes are held. It has no effect.
    pub(crate) fn is_small(&self)
        ensures { IsSmall self.now }
    {
        let _size = &self.size;
    }

    /// Whether the packet is broken.
    fn is_broken(&self) -> bool
        ensures { result ≡ is_none self.now }
    {
        self.is_broken
    }

    /// Frees what is held. From now on the packet takes nothing.
    fn break_up(&mut self)
        ensures { self.new ≡ None }
    {
        self.held.clear();
        self.size = 0;
        self.end = None;
        self.is_broken = true;
    }

    /// Whether the fragment that is held at the offset of this one is the same.
    fn find(&self, fragment: Fragment, bytes: &[u8]) -> Option<bool>
        requires { IsSome self.now }
        ensures { result ≡ found_in (piece_of fragment bytes.now) self.now }
    {
        match self.held.get(&fragment.offset) {
            None => None,
            Some(there) => Some(are_same(there, fragment, bytes)),
        }
    }

    /// Returns the payload if the packet is whole. A packet whose fragments overlap breaks.
    fn settle(&mut self) -> Result<Option<Vec<u8>>, AllocError>
        requires { IsSome self.old }
        ensures whole { IfOk result (λ whole. payload_seen whole ≡ (settled_in self.old).whole) }
        ensures held { OnOk result (self.new ≡ (settled_in self.old).held) }
        ensures refused { OnErr result (self.new ≡ self.old) }
        ensures short { IfOk result IsShort }
    {
        let Some(end) = self.end else {
            return Ok(None);
        };
        if self.size < end {
            return Ok(None);
        }
        if !abut(&self.held, end) {
            self.break_up();
            return Ok(None);
        }
        let whole = joined(self.alloc, &self.held)?;
        self.break_up();
        Ok(Some(whole))
    }

    /// Takes a fragment where none is held at its offset.
    fn take_new(&mut self, fragment: Fragment, bytes: &[u8]) -> Result<Option<Vec<u8>>, AllocError>
        requires { IsFreeAt fragment.offset self.old }
        ensures whole { IfOk result (λ whole. payload_seen whole
            ≡ (new_in (piece_of fragment bytes.now) self.old).whole) }
        ensures held { OnOk result (self.new
            ≡ (new_in (piece_of fragment bytes.now) self.old).held) }
        ensures refused { OnErr result (self.new ≡ self.old) }
        ensures short { IfOk result IsShort }
        ensures lacking { OnErr result
            (is_added (piece_of fragment bytes.now) self.old ≡ true) }
    {
        let size = self.size;
        let end = self.end;
        if is_breaking(fragment, bytes, end, size) {
            self.break_up();
            return Ok(None);
        }
        keep(self.alloc, &mut self.held, fragment, bytes)?;
        self.size = size + bytes.len();
        self.end = end_with(fragment, bytes, end);
        match self.settle() {
            Ok(whole) => Ok(whole),
            Err(fault) => {
                self.held.remove(&fragment.offset);
                self.size = size;
                self.end = end;
                Err(fault)
            }
        }
    }

    /// Takes one more fragment of the packet. Returns the packet's payload if it is whole now.
    ///
    /// # Errors
    /// Memory was refused. Nothing has changed. Only a fragment that is added asks for memory.
    pub(crate) fn take(
        &mut self,
        fragment: Fragment,
        bytes: &[u8],
    ) -> Result<Option<Vec<u8>>, AllocError>
        ensures whole { IfOk result (λ whole. payload_seen whole
            ≡ (taken (piece_of fragment bytes.now) self.old).whole) }
        ensures held { OnOk result (self.new
            ≡ (taken (piece_of fragment bytes.now) self.old).held) }
        ensures refused { OnErr result (self.new ≡ self.old) }
        ensures short { IfOk result IsShort }
        ensures lacking { OnErr result
            (is_added (piece_of fragment bytes.now) self.old ≡ true) }
    {
        if self.is_broken() {
            return Ok(None);
        }
        match self.find(fragment, bytes) {
            None => self.take_new(fragment, bytes),
            Some(true) => Ok(None),
            Some(false) => {
                self.break_up();
                Ok(None)
            }
        }
    }
}
