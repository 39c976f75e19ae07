//! Iteration over the groups of a form.

ghost use Rattle.std.specs.Prelude.{◌≡◌, length, map};
ghost use Rattle.std.specs.Option.{is_some};
ghost use Rattle.std.specs.Iterator.{YieldsFirst, item_count};
ghost use Rattle.pim_form.specs.NormalForm.{IsNormalGroup, group_wants};
ghost use Rattle.pim_form.specs.Rows.{IsWithin, AreKept, exceptions_of, place_seen, form_seen};
ghost use Rattle.pim_form.specs.Rows.{IsCut};

use crate::place::{GroupPlace, between};
use crate::sorted::is_listed;
use crate::tree::Tree;
use pim_addr::Family;
use std::marker::Model;

/// What is wanted of one group. Contracts see the group, its sources, and the exceptions of its
/// star if it has one.
#[derive(Drop)]
pub struct GroupView<'a, F: Family> {
    group: F::Addr,
    starred: bool,
    exceptions: &'a [F::Addr],
    sources: &'a [F::Addr],
}

impl<'a, F: Family> Model for GroupView<'a, F> {
    ghost use Rattle.pim_form.specs.NormalForm.{GroupForm, IsNormalGroup};
    ghost use Rattle.pim_form.specs.Rows.{group_seen};

    ghost Value = { GroupForm };

    ghost view = { λ this. group_seen F.bytes_of this.group this.starred this.exceptions.now
        this.sources.now };

    ghost invariant = { λ this.
        IsNormalGroup F.family
        (group_seen F.bytes_of this.group this.starred this.exceptions.now this.sources.now) };
}

impl<'a, F: Family> GroupView<'a, F> {
    /// Returns the group address.
    pub fn group(&self) -> F::Addr
        ensures { F.bytes_of result ≡ self.now.group }
    {
        self.group
    }

    /// Returns whether the group has a star: all sources but the exceptions are wanted on the
    /// shared tree.
    pub fn star(&self) -> bool
        ensures { result ≡ is_some self.now.star }
    {
        self.starred
    }

    /// Returns the exceptions of the star, in order; none without a star.
    pub fn exceptions(&self) -> &'a [F::Addr]
        ensures { map F.bytes_of result.now ≡ exceptions_of self.now.star }
    {
        if self.starred {
            return self.exceptions;
        }
        let (none, _) = self.exceptions.split_at(0);
        none
    }

    /// Returns the sources that are wanted on their own trees, in order.
    pub fn sources(&self) -> &'a [F::Addr]
        ensures { map F.bytes_of result.now ≡ self.now.sources }
    {
        self.sources
    }

    /// A law: each group is normal. It does nothing.
    pub fn is_normal(&self)
        ensures { IsNormalGroup F.family self.now }
    {
        let _starred = self.starred;
    }

    /// Returns whether the traffic of this source is wanted on this tree.
    pub fn wants(&self, source: F::Addr, tree: Tree) -> bool
        ensures { result ≡ group_wants self.now (F.bytes_of source) tree }
    {
        match tree {
            Tree::Shared => self.starred && !is_listed::<F>(self.exceptions, source),
            Tree::Source => is_listed::<F>(self.sources, source),
        }
    }
}

/// The group at this place of the row.
pub(crate) fn group_at<'a, F: Family>(
    row: &'a [F::Addr],
    place: &GroupPlace<F::Addr>,
) -> GroupView<'a, F>
    requires within { IsWithin (length row.now) place.now }
    requires normal { IsNormalGroup F.family (place_seen F.bytes_of row.now place.now) }
    ensures { result ≡ place_seen F.bytes_of row.now place.now }
{
    GroupView {
        group: place.group,
        starred: place.starred,
        exceptions: between(row, place.exceptions_start, place.exceptions_end),
        sources: between(row, place.sources_start, place.sources_end),
    }
}

/// The groups of a form, in order. Contracts see those that are left.
#[derive(Drop)]
pub struct Groups<'a, F: Family> {
    row: &'a [F::Addr],
    places: &'a [GroupPlace<F::Addr>],
}

impl<'a, F: Family> Model for Groups<'a, F> {
    ghost use Rattle.std.specs.Prelude.{List};
    ghost use Rattle.pim_form.specs.NormalForm.{GroupForm};
    ghost use Rattle.pim_form.specs.Rows.{form_seen, AreKept};

    ghost Value = { List GroupForm };

    ghost view = { λ groups. form_seen F.bytes_of groups.row.now groups.places.now };

    ghost invariant = { λ groups. AreKept F.bytes_of F.family groups.row.now groups.places.now };
}

impl<'a, F: Family> Groups<'a, F> {
    /// The groups at these places of the row.
    pub(crate) fn new(row: &'a [F::Addr], places: &'a [GroupPlace<F::Addr>]) -> Self
        requires { AreKept F.bytes_of F.family row.now places.now }
        ensures { result ≡ form_seen F.bytes_of row.now places.now }
    {
        Groups { row, places }
    }

    /// Returns the number of groups that are left.
    #[tactic(auto, using(crate::proofs::Kept::places_count))]
    pub fn count_left(&self) -> usize
        ensures { result ≡ length self.now }
    {
        self.places.len()
    }

    /// Returns the first group and those after it, or `None` if none is left.
    pub fn split_first(&self) -> Option<(GroupView<'a, F>, Groups<'a, F>)>
        ensures { IsCut self.now result }
    {
        let (place, behind) = self.places.split_first()?;
        let group = group_at::<F>(self.row, place);
        Some((group, Groups::new(self.row, behind)))
    }
}

#[tactic(auto, using(crate::proofs::Kept::form_first, crate::proofs::Kept::places_count))]
impl<'a, F: Family> Iterator for Groups<'a, F> {
    type Item = GroupView<'a, F>;

    ghost next_gives = { YieldsFirst (λ groups. groups) };

    ghost remaining = { item_count (λ groups. groups) };

    fn next(&mut self) -> Option<GroupView<'a, F>> {
        let (first, others) = self.places.split_first()?;
        let group = group_at::<F>(self.row, first);
        self.places = others;
        Some(group)
    }
}
