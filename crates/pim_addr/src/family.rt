//! The two address families, and the functions that each has for its addresses.

ghost use Rattle.std.specs.Prelude.{◌≡◌, ◌≤◌, ◌↔◌, ℕ, true, List, length, take, option_map, IsTrue};
ghost use Rattle.std.specs.Ordering.{nat_cmp};
ghost use Rattle.std.specs.Cmp.Lexicographic.{slice_cmp};
ghost use Rattle.pim_addr.specs.Address.{IsAddress, address_length, mask_length, family_byte};
ghost use Rattle.pim_addr.specs.Address.{is_group, is_source};
ghost use Rattle.pim_addr.specs.Address.{is_unspecified, number_of, ends_within, last_number};
ghost use Rattle.pim_addr.specs.Address.{number_after};
ghost use Rattle.pim_addr.specs.Address.{NumbersAreInOrder};

use std::fmt::Debug;

/// The address families of PIM messages (RFC 7761, 4.9.1).
#[derive(Clone, Copy, Debug, PartialEq, Eq)]
pub enum AddressFamily {
    /// IPv4: addresses of 4 bytes, family byte 1.
    Ipv4,
    /// IPv6: addresses of 16 bytes, family byte 2.
    Ipv6,
}

/// An address family, with the type of its addresses.
///
/// Contracts see an address as its list of bytes, `bytes_of`, so no definition above this trait is
/// generic. Definitions take the family and lists of bytes.
pub trait Family {
    /// An address. Its order is the order of its bytes.
    type Addr: Copy + Ord + Debug;

    /// The number of an address: a type of 32 or of 128 bits, ordered as numbers.
    type Number: Copy + Ord + Debug;

    ghost use Rattle.pim_addr.specs.declared.family.AddressFamily.{AddressFamily};

    ghost family: { AddressFamily };

    ghost value_of: { Self.Number → ℕ };

    ghost bytes_of: { Self.Addr → List ℕ };

    ghost address_of: { List ℕ → Self.Addr };

    ghost LEN: { ℕ };

    ghost FULL: { ℕ };

    ghost AFI: { ℕ };

    /// The number of bytes of an address: 4 or 16.
    const LEN: usize;

    /// The mask length of one whole address, in bits: 32 or 128.
    const FULL: u8;

    /// The Addr Family field of an encoded address (RFC 7761, 4.9.1): 1 or 2.
    const AFI: u8;

    /// Returns which of the two families this is.
    fn family() -> AddressFamily
        ensures { result ≡ family };

    /// Reads the address in the first `LEN` bytes.
    fn take(bytes: &[u8]) -> Self::Addr
        requires { address_length family ≤ length bytes.now }
        ensures bytes { bytes_of result ≡ take (address_length family) bytes.now }
        ensures address { result ≡ address_of (take (address_length family) bytes.now) };

    /// Writes the address into a slice of `LEN` bytes.
    fn put(address: Self::Addr, bytes: &mut [u8])
        requires { length bytes.old ≡ address_length family }
        ensures { bytes.new ≡ bytes_of address };

    /// Returns whether it is a multicast group: in 224.0.0.0/4 (RFC 5771, 3) or ff00::/8
    /// (RFC 4291, 2.7).
    fn is_group(address: Self::Addr) -> bool
        ensures { result ≡ is_group family (bytes_of address) };

    /// Returns whether it is a valid source: above 0.0.0.0 and below 224.0.0.0, or neither :: nor
    /// in ff00::/8. RFC 7761 gives no range; this is the widest in which a source or an RP makes
    /// sense.
    fn is_source(address: Self::Addr) -> bool
        ensures { result ≡ is_source family (bytes_of address) };

    /// Returns the number of the address, the first byte the most significant.
    fn number(address: Self::Addr) -> Self::Number
        ensures { value_of result ≡ number_of (bytes_of address) };

    /// Returns whether all bits after the first `count` are 0.
    fn ends_within(address: Self::Addr, count: u8) -> bool
        requires { count ≤ mask_length family }
        ensures { result ≡ ends_within family count (bytes_of address) };

    /// Returns the number of the last address with this prefix of `count` bits: all later bits are
    /// 1.
    fn last_number(prefix: Self::Addr, count: u8) -> Self::Number
        requires count { count ≤ mask_length family }
        requires within { ends_within family count (bytes_of prefix) ≡ true }
        ensures { value_of result ≡ last_number family count (bytes_of prefix) };

    /// Returns the number before this one, `None` for 0.
    fn number_before(number: Self::Number) -> Option<Self::Number>
        ensures { number_after (option_map value_of result) ≡ value_of number };

    /// A law: an address has the number of bytes of its family, each below 256. It has no effect.
    fn address_has_its_bytes(address: Self::Addr)
        ensures { IsAddress family (bytes_of address) };

    ghost length_of_family: { LEN ≡ address_length family };

    ghost length_is_small: { LEN ≤ 16 };

    ghost mask_of_family: { FULL ≡ mask_length family };

    ghost byte_of_family: { AFI ≡ family_byte family };

    ghost take_of_put: { (a : Self.Addr) → address_of (bytes_of a) ≡ a };

    ghost put_of_take: { (b : List ℕ) → bytes_of (address_of b) ≡ b };

    ghost order_of_bytes: { (a b : Self.Addr) → Self.Addr.cmp a b
        ≡ slice_cmp nat_cmp (bytes_of a) (bytes_of b) };

    ghost equality_of_bytes: { (a b : Self.Addr) → IsTrue (Self.Addr.eq a b)
        ↔ (bytes_of a ≡ bytes_of b) };

    ghost order_of_numbers: { (a b : Self.Number) → Self.Number.cmp a b
        ≡ nat_cmp (value_of a) (value_of b) };

    ghost equality_of_numbers: { (a b : Self.Number) → IsTrue (Self.Number.eq a b)
        ↔ (value_of a ≡ value_of b) };
}

/// IPv4.
#[derive(Clone, Copy, Debug, PartialEq, Eq)]
pub struct V4;

/// IPv6.
#[derive(Clone, Copy, Debug, PartialEq, Eq)]
pub struct V6;

/// A law: within a family, the byte order of addresses is the order of their numbers. It has no
/// effect.
pub fn numbers_are_in_order()
    ensures { NumbersAreInOrder }
{}

impl Family for V4 {
    type Addr = [u8; 4];

    type Number = u32;

    ghost use Rattle.std.specs.Prelude.{refl};
    ghost use Rattle.std.proofs.Common.{lit≤};
    ghost use Rattle.pim_addr.specs.declared.family.AddressFamily.TheVariants.{Ipv4};
    ghost use Rattle.pim_addr.specs.Equality.{bytes_equal, numbers_equal};

    ghost family = { Ipv4 };

    ghost value_of = { λ n. n };

    ghost bytes_of = { λ a. a };

    ghost address_of = { λ b. b };

    ghost LEN = { 4 };

    ghost FULL = { 32 };

    ghost AFI = { 1 };

    const LEN: usize = 4;

    const FULL: u8 = 32;

    const AFI: u8 = 1;

    fn family() -> AddressFamily {
        AddressFamily::Ipv4
    }

    fn take(bytes: &[u8]) -> [u8; 4] {
        match bytes.split_first_chunk::<4>() {
            Some((address, _)) => *address,
            None => unreachable!(),
        }
    }

    fn put(address: [u8; 4], bytes: &mut [u8]) {
        bytes.copy_from_slice(&address);
    }

    fn is_group(address: [u8; 4]) -> bool {
        address[0] >= 224 && address[0] < 240
    }

    #[tactic(auto, using(crate::proofs::Numbers::first_of_four, crate::proofs::Numbers::unspecified_is_zero))]
    fn is_source(address: [u8; 4]) -> bool {
        Self::address_has_its_bytes(address);
        let number = Self::number(address);
        number < 0xe000_0000 && number != 0
    }

    fn number(address: [u8; 4]) -> u32 {
        u32::from_be_bytes(address)
    }

    fn ends_within(address: [u8; 4], count: u8) -> bool {
        let number = Self::number(address);
        if count == 0 {
            return number == 0;
        }
        let past = 32 - count;
        (number >> past) << past == number
    }

    fn last_number(prefix: [u8; 4], count: u8) -> u32 {
        Self::address_has_its_bytes(prefix);
        if count == 0 {
            return u32::MAX;
        }
        Self::number(prefix) + ((1 << (32 - count)) - 1)
    }

    fn number_before(number: u32) -> Option<u32> {
        number.checked_sub(1)
    }

    fn address_has_its_bytes(_address: [u8; 4]) {}

    ghost length_of_family = { refl };

    ghost length_is_small = { lit≤ tt };

    ghost mask_of_family = { refl };

    ghost byte_of_family = { refl };

    ghost take_of_put = { λ a. refl };

    ghost put_of_take = { λ b. refl };

    ghost order_of_bytes = { λ a b. refl };

    ghost equality_of_bytes = { bytes_equal };

    ghost order_of_numbers = { λ a b. refl };

    ghost equality_of_numbers = { numbers_equal };
}

impl Family for V6 {
    type Addr = [u8; 16];

    type Number = u128;

    ghost use Rattle.std.specs.Prelude.{refl};
    ghost use Rattle.std.proofs.Common.{lit≤};
    ghost use Rattle.pim_addr.specs.declared.family.AddressFamily.TheVariants.{Ipv6};
    ghost use Rattle.pim_addr.specs.Equality.{bytes_equal, numbers_equal};

    ghost family = { Ipv6 };

    ghost value_of = { λ n. n };

    ghost bytes_of = { λ a. a };

    ghost address_of = { λ b. b };

    ghost LEN = { 16 };

    ghost FULL = { 128 };

    ghost AFI = { 2 };

    const LEN: usize = 16;

    const FULL: u8 = 128;

    const AFI: u8 = 2;

    fn family() -> AddressFamily {
        AddressFamily::Ipv6
    }

    fn take(bytes: &[u8]) -> [u8; 16] {
        match bytes.split_first_chunk::<16>() {
            Some((address, _)) => *address,
            None => unreachable!(),
        }
    }

    fn put(address: [u8; 16], bytes: &mut [u8]) {
        bytes.copy_from_slice(&address);
    }

    fn is_group(address: [u8; 16]) -> bool {
        address[0] == 255
    }

    #[tactic(auto, using(crate::proofs::Numbers::unspecified_is_zero))]
    fn is_source(address: [u8; 16]) -> bool {
        address[0] != 255 && Self::number(address) != 0
    }

    fn number(address: [u8; 16]) -> u128 {
        u128::from_be_bytes(address)
    }

    fn ends_within(address: [u8; 16], count: u8) -> bool {
        let number = Self::number(address);
        if count == 0 {
            return number == 0;
        }
        let past = 128 - count;
        (number >> past) << past == number
    }

    fn last_number(prefix: [u8; 16], count: u8) -> u128 {
        Self::address_has_its_bytes(prefix);
        if count == 0 {
            return u128::MAX;
        }
        Self::number(prefix) + ((1 << (128 - count)) - 1)
    }

    fn number_before(number: u128) -> Option<u128> {
        number.checked_sub(1)
    }

    fn address_has_its_bytes(_address: [u8; 16]) {}

    ghost length_of_family = { refl };

    ghost length_is_small = { lit≤ tt };

    ghost mask_of_family = { refl };

    ghost byte_of_family = { refl };

    ghost take_of_put = { λ a. refl };

    ghost put_of_take = { λ b. refl };

    ghost order_of_bytes = { λ a b. refl };

    ghost equality_of_bytes = { bytes_equal };

    ghost order_of_numbers = { λ a b. refl };

    ghost equality_of_numbers = { numbers_equal };
}
