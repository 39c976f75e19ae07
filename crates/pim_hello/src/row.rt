//! The encoded addresses in the value of an Address List.

ghost use Rattle.std.specs.Prelude.{◌≡◌};
ghost use Rattle.std.specs.Option.{option_map};
ghost use Rattle.pim_addr.specs.Encoded.{unicast_length};
ghost use Rattle.pim_hello.specs.Row.{first_family, is_row};

use pim_addr::{V4, V6, read_unicast, unicast_length};

/// The length in bytes of the address at the front, or `None` if no whole native address is there.
pub(crate) fn native_size(bytes: &[u8]) -> Option<usize>
    ensures { result ≡ option_map unicast_length (first_family bytes.now) }
{
    if read_unicast::<V4>(bytes).is_ok() {
        Some(unicast_length::<V4>())
    } else if read_unicast::<V6>(bytes).is_ok() {
        Some(unicast_length::<V6>())
    } else {
        None
    }
}

/// Whether the bytes consist of whole native addresses.
#[tactic(auto, using(crate::proofs::Rows::steps))]
pub(crate) fn is_row(bytes: &[u8]) -> bool
    ensures { result ≡ is_row bytes.now }
{
    let mut rest = bytes;
    while let Some(size) = native_size(rest) {
        let (_, others) = rest.split_at(size);
        rest = others;
    }
    rest.is_empty()
}
