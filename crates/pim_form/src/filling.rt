//! How the messages of a plan are filled, one after another.

ghost use Rattle.std.specs.Prelude.{◌≡◌, ℕ, ◌≤◌, ◌<◌, ◌+◌, ◌↔◌, ◌++◌, [], ◌∷◌, List, length};
ghost use Rattle.std.specs.Prelude.{IsTrue, IfOk, true};
ghost use Rattle.pim_form.specs.Filling.{HasRoom, star_count, star_entries, place_sources};
ghost use Rattle.pim_form.specs.Filling.{IsFilling, IsNext};
ghost use Rattle.pim_form.specs.Plan.{IsPlan};
ghost use Rattle.pim_form.specs.declared.place.GroupPlace.{GroupPlace};

use crate::place::GroupPlace;
use crate::plan::PackingPlan;
use crate::sizes::{MOST_GROUPS, message_size};
use pim_addr::{Family, source_length};
use std::alloc::{AllocError, Global};
use std::marker::Model;

/// A plan under construction. Its last message is open.
#[derive(Drop)]
pub(crate) struct Filling<A> {
    pieces: Vec<GroupPlace<A>>,
    ends: Vec<usize>,
    /// The number of groups of the open message.
    groups: usize,
    /// The number of entries of the open message.
    entries: usize,
}

impl<A> Model for Filling<A> {
    ghost use Rattle.pim_form.specs.Filling.{Filled};

    ghost Value = { Filled A };

    ghost view = { λ f. record {
      pieces = f.pieces.items;
      ends = f.ends.items;
      groups = f.groups;
      entries = f.entries;
    } };
}

impl<A: Copy> Filling<A> {
    /// An empty plan with room for `count` pieces.
    pub(crate) fn new(alloc: Global, count: usize) -> Result<Self, AllocError>
        ensures { IfOk result (λ filling. filling
            ≡ record { pieces = []; ends = []; groups = 0; entries = 0 }) }
    {
        Ok(Filling {
            pieces: Vec::with_capacity(alloc, count)?,
            ends: Vec::new(alloc),
            groups: 0,
            entries: 0,
        })
    }

    /// Puts a piece into the open message.
    fn push(&mut self, piece: &GroupPlace<A>) -> Result<(), AllocError>
        requires sources { piece.now.sources_start ≤ piece.now.sources_end }
        requires exceptions { piece.now.exceptions_start ≤ piece.now.exceptions_end }
        requires groups { self.old.groups < 255 }
        requires entries { self.old.entries + (star_entries piece.now + place_sources piece.now)
            ≤ 65000 }
        ensures { IfOk result (λ _. self.new ≡ record {
          pieces = self.old.pieces ++ piece.now ∷ [];
          ends = self.old.ends;
          groups = self.old.groups + 1;
          entries = self.old.entries + (star_entries piece.now + place_sources piece.now);
        }) }
    {
        let sources = piece.sources_end - piece.sources_start;
        let entries = star_entries(piece) + sources;
        self.pieces.push(*piece)?;
        self.groups += 1;
        self.entries += entries;
        Ok(())
    }

    /// Closes the open message.
    fn close(&mut self) -> Result<(), AllocError>
        ensures { IfOk result (λ _. self.new ≡ record {
          pieces = self.old.pieces;
          ends = self.old.ends ++ length self.old.pieces ∷ [];
          groups = 0;
          entries = 0;
        }) }
    {
        self.ends.push(self.pieces.len())?;
        self.groups = 0;
        self.entries = 0;
        Ok(())
    }
}

/// The most entries of one more group that fit the open message.
fn fitting<F: Family>(filling: &Filling<F::Addr>, budget: usize) -> usize
    requires room { HasRoom F.family budget filling.now.groups filling.now.entries }
    requires budget { budget ≤ 65000 }
    ensures { (count : ℕ) → 1 ≤ count →
        (count ≤ result)
        ↔ HasRoom F.family budget (filling.now.groups + 1) (filling.now.entries + count) }
{
    if filling.groups == MOST_GROUPS {
        return 0;
    }
    let size = message_size::<F>(filling.groups + 1, filling.entries);
    budget.saturating_sub(size) / source_length::<F>()
}

/// The number of entries of a star; none without a star.
fn star_entries<A>(place: &GroupPlace<A>) -> usize
    requires within { place.now.exceptions_start ≤ place.now.exceptions_end }
    requires exceptions { place.now.starred ≡ true →
        place.now.exceptions_end < place.now.exceptions_start + 65000 }
    ensures { result ≡ star_entries place.now }
{
    if !place.starred {
        return 0;
    }
    1 + (place.exceptions_end - place.exceptions_start)
}

/// Closes the open message with as much of a group as fits, and returns what is left of the group.
fn cut<F: Family>(
    filling: &mut Filling<F::Addr>,
    budget: usize,
    place: &GroupPlace<F::Addr>,
) -> Result<GroupPlace<F::Addr>, AllocError>
    requires next { IsNext F.bytes_of F.family budget place.now filling.old }
    requires budget { budget ≤ 65000 }
    requires long { HasRoom F.family budget (filling.old.groups + 1)
        (filling.old.entries + (star_entries place.now + place_sources place.now)) → ⊥ }
    ensures cut { IfOk result
        (λ rest. (row : List F.Addr) (places left : List (GroupPlace F.Addr)) →
        IsFilling F.bytes_of F.family budget row places (place.now ∷ left) filling.old →
        IsFilling F.bytes_of F.family budget row places (rest ∷ left) filling.new) }
    ensures falls { IfOk result (λ rest.
        star_count rest + place_sources rest + filling.new.groups
        < star_count place.now + place_sources place.now + filling.old.groups) }
{
    let place = *place;
    let room = fitting::<F>(filling, budget);
    let star = star_entries(&place);
    if room == 0 || room < star {
        filling.close()?;
        return Ok(place);
    }
    let end = place.sources_start + (room - star);
    let front = GroupPlace {
        sources_end: end,
        ..place
    };
    let rest = GroupPlace {
        starred: false,
        sources_start: end,
        exceptions_end: place.exceptions_start,
        ..place
    };
    filling.push(&front)?;
    filling.close()?;
    Ok(rest)
}

/// Whether a piece has at most `room` entries.
fn has_at_most<A>(place: &GroupPlace<A>, room: usize) -> bool
    requires sources { place.now.sources_start ≤ place.now.sources_end }
    requires within { place.now.exceptions_start ≤ place.now.exceptions_end }
    requires exceptions { place.now.starred ≡ true →
        place.now.exceptions_end < place.now.exceptions_start + 65000 }
    ensures { IsTrue result ↔ (star_entries place.now + place_sources place.now ≤ room) }
{
    let star = star_entries(place);
    star <= room && place.sources_end - place.sources_start <= room - star
}

/// Puts a group that the open message can't hold whole into this message and further ones, as far
/// as it fills them. It returns the piece that is left for the message that is open then.
fn fill<F: Family>(
    filling: &mut Filling<F::Addr>,
    budget: usize,
    place: &GroupPlace<F::Addr>,
) -> Result<GroupPlace<F::Addr>, AllocError>
    requires next { IsNext F.bytes_of F.family budget place.now filling.old }
    requires budget { budget ≤ 65000 }
    requires long { HasRoom F.family budget (filling.old.groups + 1)
        (filling.old.entries + (star_entries place.now + place_sources place.now)) → ⊥ }
    ensures filled { IfOk result
        (λ last. (row : List F.Addr) (places left : List (GroupPlace F.Addr)) →
        IsFilling F.bytes_of F.family budget row places (place.now ∷ left) filling.old →
        IsFilling F.bytes_of F.family budget row places (last ∷ left) filling.new) }
    ensures fits { IfOk result (λ last. HasRoom F.family budget (filling.new.groups + 1)
        (filling.new.entries + (star_entries last + place_sources last))) }
{
    let mut left = cut::<F>(filling, budget, place)?;
    while !has_at_most(&left, fitting::<F>(filling, budget)) {
        left = cut::<F>(filling, budget, &left)?;
    }
    Ok(left)
}

/// Adds a group to the plan: to the open message as far as it fits, then to further messages.
pub(crate) fn add<F: Family>(
    filling: &mut Filling<F::Addr>,
    budget: usize,
    place: &GroupPlace<F::Addr>,
) -> Result<(), AllocError>
    requires next { IsNext F.bytes_of F.family budget place.now filling.old }
    requires budget { budget ≤ 65000 }
    ensures { IfOk result (λ _. (row : List F.Addr) (places left : List (GroupPlace F.Addr)) →
        IsFilling F.bytes_of F.family budget row places (place.now ∷ left) filling.old →
        IsFilling F.bytes_of F.family budget row places left filling.new) }
{
    if has_at_most(place, fitting::<F>(filling, budget)) {
        return filling.push(place);
    }
    let last = fill::<F>(filling, budget, place)?;
    filling.push(&last)
}

/// Closes the open message, if it isn't empty, and returns the plan.
pub(crate) fn finish<F: Family>(
    filling: Filling<F::Addr>,
) -> Result<PackingPlan<F::Addr>, AllocError>
    ensures { IfOk result
        (λ plan. (budget : ℕ) (row : List F.Addr) (places : List (GroupPlace F.Addr)) →
        IsFilling F.bytes_of F.family budget row places [] filling →
        IsPlan F.bytes_of F.family budget row places plan.pieces.items plan.ends.items) }
{
    let mut filling = filling;
    if filling.groups != 0 {
        filling.close()?;
    }
    Ok(PackingPlan {
        pieces: filling.pieces,
        ends: filling.ends,
    })
}
