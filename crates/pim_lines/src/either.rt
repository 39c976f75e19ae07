//! An address of either family, and its texts.

ghost use Rattle.std.specs.Prelude.{◌≡◌, true, false, IfNone, IfSome, MatchOption};
ghost use Rattle.pim_lines.specs.AnyAddress.{Names, IsUnread, is_in, address_bytes, address_in};

use pim_addr::{AddressFamily, Family, V4, V6, read_text};

/// An address of either family.
#[derive(Clone, Copy, Debug, PartialEq, Eq)]
pub enum AnyAddress {
    /// IPv4: 4 bytes.
    V4([u8; 4]),
    /// IPv6: 16 bytes.
    V6([u8; 16]),
}

/// Returns the address that a text names. `None` if it names none of either family.
#[tactic(auto, using(crate::proofs::Unread::unread))]
pub fn read_any_address(text: &str) -> Option<AnyAddress>
    ensures { MatchOption result (IsUnread text.now) (Names text.now) }
{
    if let Some(address) = read_text::<V4>(text) {
        return Some(AnyAddress::V4(address));
    }
    match read_text::<V6>(text) {
        Some(address) => Some(AnyAddress::V6(address)),
        None => None,
    }
}

/// Returns an address as one of this family, if it is.
pub fn of_family<F: Family>(address: AnyAddress) -> Option<F::Addr>
    ensures same { IfSome result (λ a. F.bytes_of a ≡ address_bytes address) }
    ensures within { IfSome result (λ a. is_in F.family address ≡ true) }
    ensures other { IfNone result (is_in F.family address ≡ false) }
{
    match F::family() {
        AddressFamily::Ipv4 => match address {
            AnyAddress::V4(bytes) => Some(F::take(&bytes)),
            AnyAddress::V6(_) => None,
        },
        AddressFamily::Ipv6 => match address {
            AnyAddress::V4(_) => None,
            AnyAddress::V6(bytes) => Some(F::take(&bytes)),
        },
    }
}

/// Returns an address of this family as one of either family.
pub fn any_address<F: Family>(address: F::Addr) -> AnyAddress
    ensures { result ≡ address_in F.family (F.bytes_of address) }
{
    match F::family() {
        AddressFamily::Ipv4 => {
            let mut bytes = [0; 4];
            F::put(address, &mut bytes);
            AnyAddress::V4(bytes)
        }
        AddressFamily::Ipv6 => {
            let mut bytes = [0; 16];
            F::put(address, &mut bytes);
            AnyAddress::V6(bytes)
        }
    }
}
