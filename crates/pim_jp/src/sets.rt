//! The group sets of a message, read in place.

ghost use Rattle.std.specs.Prelude.{◌≡◌, ◌≤◌, length};
ghost use Rattle.std.specs.Iterator.{YieldsFirst, item_count};
ghost use Rattle.pim_jp.specs.Message.{joined_count, pruned_count, joined_bytes, pruned_bytes};
ghost use Rattle.pim_jp.specs.Message.{after_set, set_of};
ghost use Rattle.pim_jp.specs.Message.{sets_of};
ghost use Rattle.pim_jp.specs.Whole.{set_length, HoldsSets};

use crate::entries::Entries;
use byteorder::{BigEndian, ByteOrder};
use pim_addr::{Family, group_length, source_length};
use std::marker::{Model, PhantomData};

/// What follows the group of a set: both counts, and the bytes from the first entry of each list
/// and after the set.
#[derive(Clone, Copy)]
struct Lists<'a> {
    joined_count: u16,
    joined: &'a [u8],
    pruned_count: u16,
    pruned: &'a [u8],
    after: &'a [u8],
}

/// The lists of the group set at the front.
fn lists_of<F: Family>(bytes: &[u8]) -> Lists<'_>
    requires { set_length F.family bytes.now ≤ length bytes.now }
    ensures joined_count { result.joined_count ≡ joined_count F.family bytes.now }
    ensures joined { result.joined.now ≡ joined_bytes F.family bytes.now }
    ensures pruned_count { result.pruned_count ≡ pruned_count F.family bytes.now }
    ensures pruned { result.pruned.now ≡ pruned_bytes F.family bytes.now }
    ensures after { result.after.now ≡ after_set F.family bytes.now }
{
    let (_, counts) = bytes.split_at(group_length::<F>());
    let (_, second) = counts.split_at(2);
    let (_, joined) = counts.split_at(4);
    let joined_count = BigEndian::read_u16(counts);
    let pruned_count = BigEndian::read_u16(second);
    let (_, pruned) = joined.split_at(usize::from(joined_count) * source_length::<F>());
    let (_, after) = pruned.split_at(usize::from(pruned_count) * source_length::<F>());
    Lists {
        joined_count,
        joined,
        pruned_count,
        pruned,
        after,
    }
}

/// A group set (RFC 7761, 4.9.5): a group with its entries. Contracts see the group and both lists.
#[derive(Drop)]
pub struct SetView<'a, F: Family> {
    bytes: &'a [u8],
    lists: Lists<'a>,
    family: PhantomData<F>,
}

impl<'a, F: Family> Model for SetView<'a, F> {
    ghost use Rattle.std.specs.Prelude.{◌≤◌, length};
    ghost use Rattle.std.specs.Prelude.{◌≡◌};
    ghost use Rattle.pim_jp.specs.Message.{GroupSet, joined_count, pruned_count, joined_bytes};
    ghost use Rattle.pim_jp.specs.Message.{pruned_bytes, set_of};
    ghost use Rattle.pim_jp.specs.Whole.{set_length};

    ghost Value = { GroupSet };

    ghost view = { λ set. set_of F.family set.bytes.now };

    ghost invariant = { λ set. (set_length F.family set.bytes.now ≤ length set.bytes.now)
        × (set.lists.joined_count ≡ joined_count F.family set.bytes.now)
        × (set.lists.joined.now ≡ joined_bytes F.family set.bytes.now)
        × (set.lists.pruned_count ≡ pruned_count F.family set.bytes.now)
        × (set.lists.pruned.now ≡ pruned_bytes F.family set.bytes.now) };
}

impl<'a, F: Family> SetView<'a, F> {
    /// The group set at the front of the bytes, with its lists.
    fn new(bytes: &'a [u8], lists: Lists<'a>) -> Self
        requires long { set_length F.family bytes.now ≤ length bytes.now }
        requires joined_count { lists.joined_count ≡ joined_count F.family bytes.now }
        requires joined { lists.joined.now ≡ joined_bytes F.family bytes.now }
        requires pruned_count { lists.pruned_count ≡ pruned_count F.family bytes.now }
        requires pruned { lists.pruned.now ≡ pruned_bytes F.family bytes.now }
        ensures { result ≡ set_of F.family bytes.now }
    {
        SetView {
            bytes,
            lists,
            family: PhantomData,
        }
    }

    /// The multicast group.
    pub fn group(&self) -> F::Addr
        ensures { F.bytes_of result ≡ self.now.group }
    {
        let (_, address) = self.bytes.split_at(4);
        F::take(address)
    }

    /// Number of Joined Sources.
    #[tactic(auto, using(crate::proofs::Walks::entries_count))]
    pub fn joined_count(&self) -> u16
        ensures { result ≡ length self.now.joined }
    {
        self.lists.joined_count
    }

    /// Number of Pruned Sources.
    #[tactic(auto, using(crate::proofs::Walks::entries_count))]
    pub fn pruned_count(&self) -> u16
        ensures { result ≡ length self.now.pruned }
    {
        self.lists.pruned_count
    }

    /// The joined entries, in their order.
    pub fn joined(&self) -> Entries<'a, F>
        ensures { result ≡ self.now.joined }
    {
        Entries::new(self.lists.joined_count, self.lists.joined)
    }

    /// The pruned entries, in their order.
    pub fn pruned(&self) -> Entries<'a, F>
        ensures { result ≡ self.now.pruned }
    {
        Entries::new(self.lists.pruned_count, self.lists.pruned)
    }
}

/// The group sets of a message, in their order. Contracts see those that are left.
#[derive(Drop)]
pub struct Sets<'a, F: Family> {
    bytes: &'a [u8],
    left: u8,
    family: PhantomData<F>,
}

impl<'a, F: Family> Model for Sets<'a, F> {
    ghost use Rattle.std.specs.Prelude.{List};
    ghost use Rattle.pim_jp.specs.Message.{GroupSet, sets_of};
    ghost use Rattle.pim_jp.specs.Whole.{HoldsSets};

    ghost Value = { List GroupSet };

    ghost view = { λ sets. sets_of F.family sets.left sets.bytes.now };

    ghost invariant = { λ sets. HoldsSets F.family sets.left sets.bytes.now };
}

impl<'a, F: Family> Sets<'a, F> {
    /// The first `count` group sets of the bytes.
    pub(crate) fn new(count: u8, bytes: &'a [u8]) -> Self
        requires { HoldsSets F.family count bytes.now }
        ensures { result ≡ sets_of F.family count bytes.now }
    {
        Sets {
            bytes,
            left: count,
            family: PhantomData,
        }
    }

    /// The number of group sets that are left.
    #[tactic(auto, using(crate::proofs::Walks::sets_count))]
    pub fn count_left(&self) -> u8
        ensures { result ≡ length self.now }
    {
        self.left
    }
}

#[tactic(auto, using(crate::proofs::Walks::sets_step, crate::proofs::Walks::sets_end, crate::proofs::Walks::sets_count, crate::proofs::Walks::holds_first, crate::proofs::Walks::holds_others))]
impl<'a, F: Family> Iterator for Sets<'a, F> {
    type Item = SetView<'a, F>;

    ghost next_gives = { YieldsFirst (λ sets. sets) };

    ghost remaining = { item_count (λ sets. sets) };

    fn next(&mut self) -> Option<SetView<'a, F>> {
        if self.left == 0 {
            return None;
        }
        let lists = lists_of::<F>(self.bytes);
        let set = SetView::new(self.bytes, lists);
        self.bytes = lists.after;
        self.left -= 1;
        Some(set)
    }
}
