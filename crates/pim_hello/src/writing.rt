//! Options as they are written (RFC 7761, 4.9.2). An absent option has no bytes.

ghost use Rattle.std.specs.Prelude.{◌≡◌, ℕ, ◌+◌, ◌*◌, ◌<◌, ◌≤◌, ◌^◌, ◌++◌, map, length};
ghost use Rattle.std.specs.Option.{IfSome, option_map};
ghost use Rattle.byteorder.specs.Endian.{big_bytes};
ghost use Rattle.pim_addr.specs.Encoded.{unicast_length};
ghost use Rattle.pim_hello.specs.Delays.{delays_seen};
ghost use Rattle.pim_hello.specs.Seen.{addresses_seen};
ghost use Rattle.pim_hello.specs.Spelling.{if_there, delays_spelled, address_spelled, row_spelled};
ghost use Rattle.pim_hello.specs.Spelling.{row_there};
ghost use Rattle.pim_hello.specs.Spelling.{AreAddresses};

use crate::addresses::Addresses;
use crate::delay::{LanDelay, T_BIT};
use crate::option::{ADDRESS_LIST, HEADER_LENGTH, LAN_PRUNE_DELAY};
use byteorder::{BigEndian, ByteOrder};
use pim_addr::{Family, put_unicast, unicast_length};

/// Writes an option's type and length.
fn put_header(type_code: u16, size: u16, out: &mut [u8])
    requires { length out.old ≡ 4 }
    ensures { out.new ≡ big_bytes 2 type_code ++ big_bytes 2 size }
{
    let (first, second) = out.split_at_mut(2);
    BigEndian::write_u16(first, type_code);
    BigEndian::write_u16(second, size);
}

/// The length in bytes of an option whose value has 16 bits.
pub(crate) fn size_number16(number: Option<u16>) -> usize
    ensures size { (type_code : ℕ) → result
        ≡ length (if_there type_code (option_map (big_bytes 2) number)) }
    ensures small { result ≤ 8 }
{
    if number.is_some() {
        HEADER_LENGTH + 2
    } else {
        0
    }
}

/// Writes an option whose value has 16 bits.
pub(crate) fn put_number16(type_code: u16, number: Option<u16>, out: &mut [u8])
    requires { length out.old ≡ length (if_there type_code (option_map (big_bytes 2) number)) }
    ensures spelled { out.new ≡ if_there type_code (option_map (big_bytes 2) number) }
    ensures fits { IfSome number (λ n. n < 2 ^ 16) }
{
    if let Some(number) = number {
        let (header, value) = out.split_at_mut(HEADER_LENGTH);
        put_header(type_code, 2, header);
        BigEndian::write_u16(value, number);
    }
}

/// The length in bytes of an option whose value has 32 bits.
pub(crate) fn size_number32(number: Option<u32>) -> usize
    ensures size { (type_code : ℕ) → result
        ≡ length (if_there type_code (option_map (big_bytes 4) number)) }
    ensures small { result ≤ 8 }
{
    if number.is_some() {
        HEADER_LENGTH + 4
    } else {
        0
    }
}

/// Writes an option whose value has 32 bits.
pub(crate) fn put_number32(type_code: u16, number: Option<u32>, out: &mut [u8])
    requires { length out.old ≡ length (if_there type_code (option_map (big_bytes 4) number)) }
    ensures spelled { out.new ≡ if_there type_code (option_map (big_bytes 4) number) }
    ensures fits { IfSome number (λ n. n < 2 ^ 32) }
{
    if let Some(number) = number {
        let (header, value) = out.split_at_mut(HEADER_LENGTH);
        put_header(type_code, 4, header);
        BigEndian::write_u32(value, number);
    }
}

/// The length in bytes of the LAN Prune Delay option.
pub(crate) fn size_delays(lan: Option<LanDelay>) -> usize
    ensures size { result
        ≡ length (if_there 2 (option_map delays_spelled (option_map delays_seen lan))) }
    ensures small { result ≤ 8 }
{
    if lan.is_some() { HEADER_LENGTH + 4 } else { 0 }
}

/// Writes the LAN Prune Delay option.
pub(crate) fn put_delays(lan: Option<LanDelay>, out: &mut [u8])
    requires { length out.old
        ≡ length (if_there 2 (option_map delays_spelled (option_map delays_seen lan))) }
    ensures spelled { out.new
        ≡ if_there 2 (option_map delays_spelled (option_map delays_seen lan)) }
    ensures fits { IfSome (option_map delays_seen lan) (λ d. (d.propagation < 2 ^ 15)
        × (d.override_ms < 2 ^ 16)) }
{
    if let Some(delays) = lan {
        let (header, value) = out.split_at_mut(HEADER_LENGTH);
        put_header(LAN_PRUNE_DELAY, 4, header);
        let (propagation, interval) = value.split_at_mut(2);
        let t_bit = if delays.t { T_BIT } else { 0 };
        BigEndian::write_u16(propagation, t_bit + delays.propagation);
        BigEndian::write_u16(interval, delays.override_ms);
    }
}

/// The length in bytes of the encoded addresses.
fn size_row<F: Family>(addresses: Addresses<'_, F>) -> usize
    ensures size { result
        ≡ length (row_spelled F.family (addresses_seen F.family addresses.entry)) }
    ensures small { result < 2 ^ 16 }
{
    addresses.len() * unicast_length::<F>()
}

/// Writes the encoded addresses, one after the other.
fn put_row<F: Family>(addresses: Addresses<'_, F>, row: &mut [u8])
    requires { length row.old ≡ length (row_spelled F.family (addresses_seen F.family addresses)) }
    ensures { row.new ≡ row_spelled F.family (addresses_seen F.family addresses.entry) }
{
    let size = unicast_length::<F>();
    let mut at = 0;
    for address in addresses {
        let (_, rest) = row.split_at_mut(at);
        let (first, _) = rest.split_at_mut(size);
        put_unicast::<F>(address, first);
        at += size;
    }
}

/// Writes these addresses, each encoded, one after the other.
pub(crate) fn put_each<F: Family>(addresses: &[F::Addr], row: &mut [u8])
    requires { length row.old ≡ length addresses.now * unicast_length F.family }
    ensures row { row.new ≡ row_spelled F.family (map F.bytes_of addresses.now) }
    ensures addresses { AreAddresses F.family (map F.bytes_of addresses.now) }
{
    let size = unicast_length::<F>();
    let mut at = 0;
    for address in addresses {
        let (_, rest) = row.split_at_mut(at);
        let (first, _) = rest.split_at_mut(size);
        put_unicast::<F>(*address, first);
        at += size;
    }
}

/// The length in bytes of the Address List option, which is absent if there is no address.
#[tactic(auto, using(crate::proofs::Spelled::nothing_written))]
pub(crate) fn size_addresses<F: Family>(addresses: Addresses<'_, F>) -> usize
    ensures size { result
        ≡ length (if_there 24 (row_there F.family (addresses_seen F.family addresses.entry))) }
    ensures small { result < 2 ^ 17 }
{
    match size_row(addresses) {
        0 => 0,
        size => HEADER_LENGTH + size,
    }
}

/// Writes the Address List option, which is absent if there is no address.
#[tactic(auto, using(crate::proofs::Spelled::nothing_written))]
pub(crate) fn put_addresses<F: Family>(addresses: Addresses<'_, F>, out: &mut [u8])
    requires { length out.old
        ≡ length (if_there 24 (row_there F.family (addresses_seen F.family addresses))) }
    ensures { out.new ≡ if_there 24 (row_there F.family (addresses_seen F.family addresses.entry)) }
{
    let size = size_row(addresses);
    if size != 0 {
        let (header, row) = out.split_at_mut(HEADER_LENGTH);
        put_header(ADDRESS_LIST, size as u16, header);
        put_row(addresses, row);
    }
}
