//! Writers of encoded addresses in their one canonical spelling (RFC 7761, 4.9.1). The B, Z and
//! reserved bits are 0, and the S bit is 1.

ghost use Rattle.std.specs.Prelude.{◌≡◌, ◌+◌, ◌∷◌, length};
ghost use Rattle.pim_addr.specs.Address.{address_length, mask_length, family_byte};
ghost use Rattle.pim_addr.specs.Encoded.{unicast_length, group_length, source_length, IsUnicast};
ghost use Rattle.pim_addr.specs.Encoded.{IsGroup, IsSource};
ghost use Rattle.pim_addr.specs.Encoded.{wildcard_bit, rpt_bit};
ghost use Rattle.pim_addr.specs.Canonical.{canonical_unicast, canonical_group, canonical_flags};
ghost use Rattle.pim_addr.specs.Canonical.{canonical_source};
ghost use Rattle.pim_addr.specs.Canonical.{UnicastReadsBack, GroupReadsBack, SourceReadsBack};
ghost use Rattle.pim_addr.specs.Seen.{source_seen};

use crate::encoded::{SourceAddress, SourceBits};
use crate::family::Family;
use bitflags::Flags;

/// The S (Sparse) bit of an Encoded-Source address, which is always written as 1.
const SPARSE: u8 = 4;

/// Writes the Encoded-Unicast address into a slice of `unicast_length` bytes.
pub fn put_unicast<F: Family>(address: F::Addr, bytes: &mut [u8])
    requires { length bytes.old ≡ unicast_length F.family }
    ensures written { bytes.new ≡ canonical_unicast F.family (F.bytes_of address) }
    ensures spelled { IsUnicast F.family (F.bytes_of address) bytes.new }
{
    let (front, place) = bytes.split_at_mut(2);
    front.copy_from_slice(&[F::AFI, 0]);
    F::put(address, place);
}

/// Writes a form with a Mask Len: Addr Family, Encoding Type 0, the given third byte, Mask Len,
/// address.
fn put_masked<F: Family>(third: u8, address: F::Addr, bytes: &mut [u8])
    requires { length bytes.old ≡ 4 + address_length F.family }
    ensures address { length (F.bytes_of address) ≡ address_length F.family }
    ensures written { bytes.new ≡ family_byte F.family ∷ 0 ∷ third ∷ mask_length F.family
        ∷ F.bytes_of address }
{
    let (front, place) = bytes.split_at_mut(4);
    front.copy_from_slice(&[F::AFI, 0, third, F::FULL]);
    F::put(address, place);
}

/// Writes the Encoded-Group address into a slice of `group_length` bytes.
pub fn put_group<F: Family>(address: F::Addr, bytes: &mut [u8])
    requires { length bytes.old ≡ group_length F.family }
    ensures written { bytes.new ≡ canonical_group F.family (F.bytes_of address) }
    ensures spelled { IsGroup F.family (F.bytes_of address) bytes.new }
{
    put_masked::<F>(0, address, bytes);
}

/// Returns the flags byte of a source: S is set, W and R are as given.
fn flags_byte(bits: SourceBits) -> u8
    ensures { result ≡ canonical_flags (wildcard_bit bits.0) (rpt_bit bits.0) }
{
    let wildcard = if bits.is_wildcard() {
        SourceBits::WILDCARD.bits()
    } else {
        0
    };
    let rpt = if bits.is_rpt() {
        SourceBits::RPT.bits()
    } else {
        0
    };
    SPARSE + wildcard + rpt
}

/// Writes the Encoded-Source address, with its W and R bits, into a slice of `source_length` bytes.
pub fn put_source<F: Family>(source: SourceAddress<F::Addr>, bytes: &mut [u8])
    requires { length bytes.old ≡ source_length F.family }
    ensures written { bytes.new ≡ canonical_source F.family (source_seen F.bytes_of source) }
    ensures spelled { IsSource F.family (source_seen F.bytes_of source) bytes.new }
{
    put_masked::<F>(flags_byte(source.bits), source.address, bytes);
}

/// A law: what `put_unicast` writes has no fault and is read as that address. It has no effect.
pub fn unicast_reads_back()
    ensures { UnicastReadsBack }
{}

/// A law: what `put_group` writes has no fault and is read as that group. It has no effect.
pub fn group_reads_back()
    ensures { GroupReadsBack }
{}

/// A law: what `put_source` writes has no fault and is read as that source with its W and R bits.
/// It has no effect.
pub fn source_reads_back()
    ensures { SourceReadsBack }
{}
