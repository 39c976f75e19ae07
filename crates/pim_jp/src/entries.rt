//! The entries of one list of a group set, read in place.

ghost use Rattle.std.specs.Prelude.{◌≡◌, ℕ, ◌*◌, ◌≤◌, List, length, drop};
ghost use Rattle.std.specs.Iterator.{YieldsFirstBy, item_count};
ghost use Rattle.pim_addr.specs.Encoded.{source_length, source_value};
ghost use Rattle.pim_addr.specs.Seen.{source_seen};
ghost use Rattle.pim_jp.specs.Message.{entry_of, entries_of};
ghost use Rattle.pim_jp.specs.Seen.{entry_seen};

use crate::entry::Entry;
use crate::walking::entries_size;
use bitflags::Flags;
use pim_addr::{Family, SourceAddress, SourceBits, source_length};
use std::marker::{Model, PhantomData};

/// The entry that a source and its bits name. W without R, which no legal message has, counts as
/// (S,G).
fn entry_of_source<A>(source: SourceAddress<A>) -> Entry<A>
    ensures { (bytes_of : A → List ℕ) → entry_seen bytes_of result
        ≡ entry_of (source_seen bytes_of source) }
{
    let SourceAddress { address, bits } = source;
    match (bits.is_rpt(), bits.is_wildcard()) {
        (true, true) => Entry::Star(address),
        (true, false) => Entry::Rpt(address),
        (false, _) => Entry::Source(address),
    }
}

/// The entry at the front, without a check of its other bytes.
pub(crate) fn first_entry<F: Family>(bytes: &[u8]) -> Entry<F::Addr>
    requires { source_length F.family ≤ length bytes.now }
    ensures { entry_seen F.bytes_of result ≡ entry_of (source_value F.family bytes.now) }
{
    let bits = SourceBits::from_bits_retain(bytes[2]);
    let (_, behind) = bytes.split_at(4);
    // A compiler knows this length, so that loops over entries have no test of it.
    let (address, _) = behind.split_at(F::LEN);
    entry_of_source(SourceAddress {
        address: F::take(address),
        bits,
    })
}

/// The entries of one list of a group set, in their order. Contracts see those that are left.
#[derive(Drop)]
pub struct Entries<'a, F: Family> {
    bytes: &'a [u8],
    left: u16,
    family: PhantomData<F>,
}

impl<'a, F: Family> Model for Entries<'a, F> {
    ghost use Rattle.std.specs.Prelude.{ℕ, ◌*◌, ◌≤◌, List, length};
    ghost use Rattle.pim_addr.specs.Encoded.{source_length};
    ghost use Rattle.pim_jp.specs.declared.entry.Entry.{Entry};
    ghost use Rattle.pim_jp.specs.Message.{entries_of};

    ghost Value = { List (Entry (List ℕ)) };

    ghost view = { λ e. entries_of F.family e.left e.bytes.now };

    ghost invariant = { λ e. e.left * source_length F.family ≤ length e.bytes.now };
}

impl<'a, F: Family> Entries<'a, F> {
    /// The first `count` entries of the bytes.
    pub(crate) fn new(count: u16, bytes: &'a [u8]) -> Self
        requires { count * source_length F.family ≤ length bytes.now }
        ensures { result ≡ entries_of F.family count bytes.now }
    {
        Entries {
            bytes,
            left: count,
            family: PhantomData,
        }
    }

    /// The number of entries that are left.
    #[tactic(auto, using(crate::proofs::Walks::entries_count))]
    pub fn count_left(&self) -> u16
        ensures { result ≡ length self.now }
    {
        self.left
    }

    /// Another iterator over the entries that are left.
    pub fn again(&self) -> Entries<'a, F>
        ensures { result ≡ self.now }
    {
        Entries {
            bytes: self.bytes,
            left: self.left,
            family: PhantomData,
        }
    }

    /// Passes over the first `count` entries at once.
    pub fn pass(&mut self, count: usize)
        requires { count ≤ length self.old }
        ensures { self.new ≡ drop count self.old }
    {
        let _most = self.count_left();
        let passed = count as u16;
        let (_, others) = self.bytes.split_at(entries_size::<F>(passed));
        self.bytes = others;
        self.left -= passed;
    }
}

#[tactic(auto, using(crate::proofs::Walks::entries_step, crate::proofs::Walks::entries_count))]
impl<'a, F: Family> Iterator for Entries<'a, F> {
    type Item = Entry<F::Addr>;

    ghost next_gives = { YieldsFirstBy (entry_seen F.bytes_of) (λ entries. entries) };

    ghost remaining = { item_count (λ entries. entries) };

    fn next(&mut self) -> Option<Entry<F::Addr>> {
        if self.left == 0 {
            return None;
        }
        let entry = first_entry::<F>(self.bytes);
        let (_, others) = self.bytes.split_at(source_length::<F>());
        self.bytes = others;
        self.left -= 1;
        Some(entry)
    }
}
