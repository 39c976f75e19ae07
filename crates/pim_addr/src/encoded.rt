//! Readers of encoded addresses (RFC 7761, 4.9.1). Of the flags of a source only the W and R bits
//! are kept, so that sources that say the same compare equal.

ghost use Rattle.std.specs.Prelude.{◌≡◌, ◌≤◌, length, take, slice_index, IfOk, Ok, bit_and};
ghost use Rattle.pim_addr.specs.Faults.{judged, Answers};
ghost use Rattle.pim_addr.specs.Encoded.{unicast_length, masked_length, group_length};
ghost use Rattle.pim_addr.specs.Encoded.{source_length};
ghost use Rattle.pim_addr.specs.Encoded.{unicast_faults, unicast_address, masked_faults};
ghost use Rattle.pim_addr.specs.Encoded.{masked_address};
ghost use Rattle.pim_addr.specs.Encoded.{group_faults, source_faults, source_value, IsUnicast};
ghost use Rattle.pim_addr.specs.Encoded.{IsGroup, IsSource};
ghost use Rattle.pim_addr.specs.Encoded.{wildcard_bit, rpt_bit, type_bits};
ghost use Rattle.pim_addr.specs.Seen.{source_seen, bits_kept};

use crate::family::Family;
use bitflags::{Flag, Flags, bitflag_items};
use thiserror::Error;

/// A fault of an encoded address. Of several faults, a reader returns the first in this order.
#[derive(Clone, Copy, Debug, PartialEq, Eq, Error)]
pub enum AddrFault {
    /// The bytes are fewer than the form has.
    #[error("short")]
    Short,
    /// The Addr Family field is not that of the reader's family.
    #[error("family")]
    Family,
    /// The Encoding Type field is not 0.
    #[error("encoding")]
    Encoding,
    /// The Mask Len field is not that of one whole address.
    #[error("mask")]
    Mask,
}

/// The W and R bits of an Encoded-Source address (RFC 7761, 4.9.1), without the S bit and the
/// reserved bits.
#[derive(Clone, Copy, PartialEq, Eq, Debug)]
pub struct SourceBits(u8);

bitflag_items! {
    impl SourceBits: u8 {
        const WILDCARD = 2;
        const RPT = 1;
    }
}

impl Flags for SourceBits {
    type Bits = u8;

    ghost use Rattle.std.specs.Prelude.{⊤, ◌∷◌, [], codes};

    ghost exact = { ⊤ };

    ghost table = { (codes "WILDCARD", 2) ∷ (codes "RPT", 1) ∷ [] };

    ghost set_of = { λ p. p.0 };

    fn flags<'a>() -> &'a [Flag<SourceBits>] {
        SourceBits::FLAGS
    }

    fn bits(&self) -> u8 {
        self.0
    }

    fn from_bits_retain(bits: u8) -> SourceBits {
        SourceBits(bits)
    }
}

impl SourceBits {
    /// Returns the W and R bits of a flags byte.
    fn from_flags_byte(flags: u8) -> SourceBits
        ensures kept { result.0 ≡ type_bits flags }
        ensures wildcard { wildcard_bit result.0 ≡ wildcard_bit flags }
        ensures rpt { rpt_bit result.0 ≡ rpt_bit flags }
    {
        SourceBits(flags & 3)
    }

    /// Returns whether the W (Wildcard) bit is set, as in a (*,G) entry.
    pub fn is_wildcard(self) -> bool
        ensures { result ≡ wildcard_bit (⟦<SourceBits as Flags>⟧.set_of self) }
    {
        self.contains(SourceBits::WILDCARD)
    }

    /// Returns whether the R (RPT) bit is set: the entry is about the RP tree.
    pub fn is_rpt(self) -> bool
        ensures { result ≡ rpt_bit (⟦<SourceBits as Flags>⟧.set_of self) }
    {
        self.contains(SourceBits::RPT)
    }
}

/// The source of a Join/Prune entry: its address, with its W and R bits.
#[derive(Clone, Copy, PartialEq, Eq, Debug)]
pub struct SourceAddress<A> {
    /// The address; in a (*,G) entry that of the RP.
    pub address: A,
    /// The W and R bits, which give the type of the entry.
    pub bits: SourceBits,
}

/// Returns the number of bytes of an Encoded-Unicast address: 6 or 18.
pub fn unicast_length<F: Family>() -> usize
    ensures { result ≡ unicast_length F.family }
{
    2 + F::LEN
}

/// Returns the number of bytes of a form with a Mask Len: 8 or 20.
fn masked_length<F: Family>() -> usize
    ensures { result ≡ masked_length F.family }
{
    4 + F::LEN
}

/// Returns the number of bytes of an Encoded-Group address: 8 or 20.
pub fn group_length<F: Family>() -> usize
    ensures { result ≡ group_length F.family }
{
    masked_length::<F>()
}

/// Returns the number of bytes of an Encoded-Source address: 8 or 20.
pub fn source_length<F: Family>() -> usize
    ensures { result ≡ source_length F.family }
{
    masked_length::<F>()
}

/// Reads the Encoded-Unicast address at the front of the bytes, or returns its first fault. Bytes
/// after it are ignored.
pub fn read_unicast<F: Family>(bytes: &[u8]) -> Result<F::Addr, AddrFault>
    ensures answer { Answers F.bytes_of result
        (judged (unicast_faults F.family bytes.now) (unicast_address F.family bytes.now)) }
    ensures spelled { IfOk result
        (λ a. IsUnicast F.family (F.bytes_of a) (take (unicast_length F.family) bytes.now)) }
{
    if bytes.len() < unicast_length::<F>() {
        return Err(AddrFault::Short);
    }
    if bytes[0] != F::AFI {
        return Err(AddrFault::Family);
    }
    if bytes[1] != 0 {
        return Err(AddrFault::Encoding);
    }
    let (_, address) = bytes.split_at(2);
    Ok(F::take(address))
}

/// Reads the address of the form with a Mask Len at the front. Its third byte is left to the
/// caller.
fn read_masked<F: Family>(bytes: &[u8]) -> Result<F::Addr, AddrFault>
    ensures answer { Answers F.bytes_of result
        (judged (masked_faults F.family bytes.now) (masked_address F.family bytes.now)) }
    ensures whole { IfOk result (λ a. masked_length F.family ≤ length bytes.now) }
    ensures spelled { IfOk result
        (λ a. IsGroup F.family (F.bytes_of a) (take (masked_length F.family) bytes.now)) }
{
    if bytes.len() < masked_length::<F>() {
        return Err(AddrFault::Short);
    }
    if bytes[0] != F::AFI {
        return Err(AddrFault::Family);
    }
    if bytes[1] != 0 {
        return Err(AddrFault::Encoding);
    }
    if bytes[3] != F::FULL {
        return Err(AddrFault::Mask);
    }
    let (_, address) = bytes.split_at(4);
    Ok(F::take(address))
}

/// Reads the Encoded-Group address at the front of the bytes, or returns its first fault. The B and
/// Z bits, the reserved bits, and bytes after it are ignored.
pub fn read_group<F: Family>(bytes: &[u8]) -> Result<F::Addr, AddrFault>
    ensures answer { Answers F.bytes_of result
        (judged (group_faults F.family bytes.now) (masked_address F.family bytes.now)) }
    ensures spelled { IfOk result
        (λ a. IsGroup F.family (F.bytes_of a) (take (group_length F.family) bytes.now)) }
{
    read_masked::<F>(bytes)
}

/// Reads the Encoded-Source address at the front of the bytes, with its W and R bits, or returns
/// its first fault. The S bit, the reserved bits, and bytes after it are ignored.
pub fn read_source<F: Family>(bytes: &[u8]) -> Result<SourceAddress<F::Addr>, AddrFault>
    ensures answer { Answers (source_seen F.bytes_of) result
        (judged (source_faults F.family bytes.now) (source_value F.family bytes.now)) }
    ensures spelled { IfOk result
        (λ s. IsSource F.family (source_seen F.bytes_of s)
        (take (source_length F.family) bytes.now)) }
    ensures bits { IfOk result (λ s. bits_kept s ≡ type_bits (slice_index bytes.now 2)) }
{
    let address = read_masked::<F>(bytes)?;
    let bits = SourceBits::from_flags_byte(bytes[2]);
    Ok(SourceAddress { address, bits })
}
