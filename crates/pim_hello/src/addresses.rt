//! The addresses of an Address List, read in place.

ghost use Rattle.std.specs.Prelude.{◌≡◌, ◌<◌, ◌^◌, ⊤, [], length};

use crate::row::{is_row, native_size};
use crate::writing::put_each;
use pim_addr::{Family, read_unicast, unicast_length};
use std::alloc::AllocError;
use std::marker::PhantomData;

/// The addresses of the family `F` in an Address List (RFC 7761, 4.9.2, option 24), in their order.
/// Those of the other family are skipped.
#[derive_where(Debug)]
pub struct Addresses<'a, F> {
    pub(crate) row: &'a [u8],
    pub(crate) family: PhantomData<F>,
    ghost fits_an_option: { length row.now < 2 ^ 16 },
}

impl<'a, F> Clone for Addresses<'a, F> {
    ghost is_clone = { λ s r. r ≡ s };

    ghost is_infallible = { λ _. ⊤ };

    fn clone(&self) -> Result<Addresses<'a, F>, AllocError> {
        Ok(*self)
    }
}

impl<'a, F> Copy for Addresses<'a, F> {}

impl<'a, F: Family> Addresses<'a, F> {
    ghost use Rattle.std.specs.Prelude.{◌≡◌, ◌==◌, ◌&&◌, ◌<◌, ◌*◌, ◌^◌, [], nat_lt, map, length};
    ghost use Rattle.pim_addr.specs.Encoded.{unicast_length};
    ghost use Rattle.std.specs.Option.{IfSome, is_some};
    ghost use Rattle.pim_hello.specs.Row.{is_row, addresses_of};
    ghost use Rattle.pim_hello.specs.Seen.{addresses_seen};

    /// No address.
    #[tactic(auto, unfolding(crate::specs::Row::row_within))]
    pub fn none() -> Addresses<'a, F>
        ensures { addresses_seen F.family result ≡ [] }
    {
        Addresses {
            row: &[],
            family: PhantomData,
        }
    }

    /// The length in bytes of `count` encoded addresses.
    pub fn row_length(count: u16) -> usize
        ensures { result ≡ count * unicast_length F.family }
    {
        usize::from(count) * unicast_length::<F>()
    }

    /// Writes these addresses into a row, one encoded unicast address (RFC 7761, 4.9.1) after the
    /// other, and returns the iterator over them. The row has `row_length` bytes, fewer than 2^16.
    pub fn put(addresses: &[F::Addr], row: &'a mut [u8]) -> Addresses<'a, F>
        requires length { length row.old ≡ length addresses.now * unicast_length F.family }
        requires fits_an_option { length row.old < 2 ^ 16 }
        ensures { addresses_seen F.family result ≡ map F.bytes_of addresses.now }
    {
        put_each::<F>(addresses, row);
        let row: &'a [u8] = row;
        Addresses {
            row,
            family: PhantomData,
        }
    }

    /// The number of addresses that are left.
    pub fn len(&self) -> usize
        ensures { result ≡ length (addresses_seen F.family self.now) }
    {
        let left = *self;
        left.count()
    }

    /// Whether no address is left.
    pub fn is_empty(&self) -> bool
        ensures { result ≡ (length (addresses_seen F.family self.now) == 0) }
    {
        self.len() == 0
    }

    /// The addresses of the family in a row of encoded unicast addresses. `None` if the row has
    /// bytes that are no whole native address, or is too long for one option.
    pub fn in_row(row: &'a [u8]) -> Option<Addresses<'a, F>>
        ensures row { is_some result ≡ (is_row row.now && nat_lt (length row.now) (2 ^ 16)) }
        ensures addresses { IfSome result (λ a. addresses_seen F.family a
            ≡ addresses_of F.family row.now) }
    {
        if row.len() <= usize::from(u16::MAX) && is_row(row) {
            Some(Addresses {
                row,
                family: PhantomData,
            })
        } else {
            None
        }
    }
}

impl<'a, F: Family> Iterator for Addresses<'a, F> {
    type Item = F::Addr;

    ghost use Rattle.std.specs.Iterator.{YieldsFirstBy, item_count};
    ghost use Rattle.pim_hello.specs.Seen.{addresses_seen};

    ghost next_gives = { YieldsFirstBy F.bytes_of (addresses_seen F.family) };

    ghost remaining = { item_count (addresses_seen F.family) };

    #[tactic(auto, using(crate::proofs::Rows::steps))]
    fn next(&mut self) -> Option<F::Addr> {
        while let Some(size) = native_size(self.row) {
            let address = read_unicast::<F>(self.row);
            let (_, others) = self.row.split_at(size);
            self.row = others;
            if let Ok(address) = address {
                return Some(address);
            }
        }
        None
    }
}
