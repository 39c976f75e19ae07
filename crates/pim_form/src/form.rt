//! The normal form of a demand.
//!
//! A form is kept in two blocks: one row with all addresses, and for each group where its sources
//! and its exceptions are in the row. A piece of a group that goes into one message is then a place
//! in the same row. A plan of messages is a list of places.

ghost use Rattle.std.specs.Prelude.{◌≡◌, List, [], IfOk, unwrap_or};
ghost use Rattle.pim_form.specs.NormalForm.{IsNormal, form_wants};
ghost use Rattle.pim_form.specs.Settled.{unwanted, group_in};

use crate::groups::{GroupView, Groups, group_at};
use crate::place::GroupPlace;
use crate::sorted::find_group;
use crate::tree::Tree;
use pim_addr::Family;
use std::alloc::{AllocError, Global};
use std::marker::Model;

/// A demand in its normal form. Contracts see the list of its groups.
#[derive(Drop)]
pub struct NormalForm<F: Family> {
    /// The addresses of all groups.
    pub(crate) row: Vec<F::Addr>,
    /// Where the addresses of each group are, in the order of groups.
    pub(crate) places: Vec<GroupPlace<F::Addr>>,
}

impl<F: Family> Model for NormalForm<F> {
    ghost use Rattle.std.specs.Prelude.{List};
    ghost use Rattle.pim_form.specs.NormalForm.{GroupForm};
    ghost use Rattle.pim_form.specs.Rows.{form_seen, IsKept};

    ghost Value = { List GroupForm };

    ghost view = { λ form. form_seen F.bytes_of form.row.items form.places.items };

    ghost invariant = { λ form. IsKept F.bytes_of F.family form.row.items form.places.items };
}

impl<F: Family> NormalForm<F> {
    /// The form that wants nothing.
    pub(crate) fn empty(alloc: Global) -> Self
        ensures { result ≡ [] }
    {
        NormalForm {
            row: Vec::new(alloc),
            places: Vec::new(alloc),
        }
    }

    /// Returns the groups, in order.
    pub fn groups(&self) -> Groups<'_, F>
        ensures { result ≡ self.now }
    {
        Groups::new(&self.row, &self.places)
    }

    /// What the form has of this group, found by binary search; `None` if it has nothing.
    pub(crate) fn group(&self, group: F::Addr) -> Option<GroupView<'_, F>>
        ensures { unwrap_or result (unwanted (F.bytes_of group))
            ≡ group_in (F.bytes_of group) self.now }
    {
        match find_group::<F>(&self.places, group) {
            Some(index) => Some(group_at::<F>(&self.row, &self.places[index])),
            None => None,
        }
    }

    /// Returns whether the form wants the traffic of this source to this group on this tree. It
    /// takes two binary searches, for the group and for the source.
    pub fn wants(&self, source: F::Addr, group: F::Addr, tree: Tree) -> bool
        ensures { result ≡ form_wants self.now (F.bytes_of source) (F.bytes_of group) tree }
    {
        match find_group::<F>(&self.places, group) {
            Some(index) => group_at::<F>(&self.row, &self.places[index]).wants(source, tree),
            None => false,
        }
    }

    /// A law: each form is normal. It does nothing.
    pub fn is_normal(&self)
        ensures { IsNormal F.family self.now }
    {
        let _row = &self.row;
    }
}

/// A copy of these values.
fn copied<T: Copy>(alloc: Global, values: &[T]) -> Result<Vec<T>, AllocError>
    ensures { IfOk result (λ copy. copy.items ≡ values.now) }
{
    let mut copy = Vec::new(alloc);
    copy.extend_from_slice(values)?;
    Ok(copy)
}

/// Returns the normal form of what a normal form wants, which is that form again. The only refusal
/// is for lack of memory.
pub fn normal_again<F: Family>(
    alloc: Global,
    normal: &NormalForm<F>,
) -> Result<NormalForm<F>, AllocError>
    ensures { IfOk result (λ form. form ≡ normal.now) }
{
    let row = copied(alloc, &normal.row)?;
    let places = copied(alloc, &normal.places)?;
    Ok(NormalForm { row, places })
}
