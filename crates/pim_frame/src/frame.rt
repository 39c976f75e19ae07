//! Reading and writing of the header of a PIM message (RFC 7761, 4.9).

ghost use Rattle.std.specs.Prelude.{◌≡◌, ◌≢◌, ◌↔◌, ◌^◌, ◌<◌, ◌≤◌, length, drop, IsErrAnd, IsFalse};
ghost use Rattle.std.specs.Prelude.{IsOk, Ok, Err};
ghost use Rattle.pim_addr.specs.Faults.{judged, Answers};
ghost use Rattle.pim_frame.specs.Frame.{all_routers, frame_faults, content, version, message_type};
ghost use Rattle.pim_frame.specs.Frame.{is_hello_or_join_prune, IsAccepted};
ghost use Rattle.pim_frame.specs.Seal.{first_byte, framed, IsSealed, OneChecksum, SealedOpens};
ghost use Rattle.pim_frame.specs.Seal.{SomeMessageIsSealed};
ghost use Rattle.pim_frame.specs.Seen.{content_of};

use crate::checksum::{complement, sums_rightly};
use pim_addr::{AddressFamily, Family};
use thiserror::Error;

/// The PIM version.
const VERSION: u8 = 2;

/// The message type of a Hello (RFC 7761, 4.9).
const HELLO: u8 = 0;

/// The message type of a Join/Prune (RFC 7761, 4.9).
const JOIN_PRUNE: u8 = 3;

/// A fault of the header of a message. Of several faults, `open` returns the first in this order.
#[derive(Clone, Copy, Debug, PartialEq, Eq, Error)]
pub enum FrameFault {
    /// The message has fewer bytes than the header, which has 4.
    #[error("short")]
    Short,
    /// The version, given in the field, is not 2.
    #[error("version {0}")]
    Version(u8),
    /// The checksum is not correct.
    #[error("checksum")]
    Checksum,
    /// The destination is not ALL-PIM-ROUTERS.
    #[error("not-all-routers")]
    NotAllRouters,
}

/// The content of a message after its header.
#[derive(Clone, Copy, Debug, PartialEq, Eq)]
pub enum Body<'a> {
    /// The options of a Hello (RFC 7761, 4.9.2).
    Hello(&'a [u8]),
    /// The body of a Join/Prune (RFC 7761, 4.9.5).
    JoinPrune(&'a [u8]),
    /// Another message, of which only the type is known.
    Other(u8),
}

/// The types of messages that `seal` writes.
#[derive(Clone, Copy, Debug, PartialEq, Eq)]
pub enum MessageType {
    /// A Hello (RFC 7761, 4.9.2).
    Hello,
    /// A Join/Prune (RFC 7761, 4.9.5).
    JoinPrune,
}

impl MessageType {
    /// Returns the first byte of its header: version 2 and the type.
    fn first_byte(self) -> u8
        ensures { result ≡ first_byte self }
    {
        let message_type = match self {
            MessageType::Hello => HELLO,
            MessageType::JoinPrune => JOIN_PRUNE,
        };
        VERSION * 16 + message_type
    }
}

/// Returns ALL-PIM-ROUTERS, the destination of Hellos and Join/Prunes: 224.0.0.13 or ff02::d
/// (RFC 7761, 4.3.1).
pub fn all_routers<F: Family>() -> F::Addr
    ensures { F.bytes_of result ≡ all_routers F.family }
{
    match F::family() {
        AddressFamily::Ipv4 => F::take(&[224, 0, 0, 13]),
        AddressFamily::Ipv6 => F::take(&[255, 2, 0, 0, 0, 0, 0, 0, 0, 0, 0, 0, 0, 0, 0, 13]),
    }
}

/// Opens a message from `src` to `dst`, the bytes from the PIM header on. Of a Hello or a
/// Join/Prune it returns the bytes after the header. Of another message it checks only length and
/// version, and returns the type.
///
/// # Errors
/// The first fault of the header, in the order of `FrameFault`.
pub fn open<'a, F: Family>(
    src: F::Addr,
    dst: F::Addr,
    bytes: &'a [u8],
) -> Result<Body<'a>, FrameFault>
    requires { length bytes.now < 2 ^ 32 }
    ensures answer { Answers content_of result
        (judged (frame_faults F.family (F.bytes_of src) (F.bytes_of dst) bytes.now)
        (content bytes.now)) }

    // What this implies for acceptance, for the first two faults, and for the types that are not
    // read.
    ensures accepted { IsOk result
        ↔ IsAccepted F.family (F.bytes_of src) (F.bytes_of dst) bytes.now }
    ensures short { (result ≡ Err FrameFault.Short) ↔ (length bytes.now < 4) }
    ensures version { IsErrAnd result (λ fault. fault ≡ FrameFault.Version (version bytes.now))
        ↔ ((4 ≤ length bytes.now) × (version bytes.now ≢ 2)) }
    ensures other { 4 ≤ length bytes.now → version bytes.now ≡ 2
        → IsFalse (is_hello_or_join_prune bytes.now)
        → result ≡ Ok (Body.Other (message_type bytes.now)) }
{
    if bytes.len() < 4 {
        return Err(FrameFault::Short);
    }
    let version = bytes[0] / 16;
    let message_type = bytes[0] % 16;
    if version != VERSION {
        return Err(FrameFault::Version(version));
    }
    if message_type != HELLO && message_type != JOIN_PRUNE {
        return Ok(Body::Other(message_type));
    }
    if !sums_rightly::<F>(src, dst, bytes) {
        return Err(FrameFault::Checksum);
    }
    if dst != all_routers::<F>() {
        return Err(FrameFault::NotAllRouters);
    }
    let (_, body) = bytes.split_at(4);
    if message_type == HELLO {
        Ok(Body::Hello(body))
    } else {
        Ok(Body::JoinPrune(body))
    }
}

/// Writes a header with this type and checksum over the first 4 bytes.
fn put_header(message_type: MessageType, checksum: u16, bytes: &mut [u8])
    requires { 4 ≤ length bytes.old }
    ensures { bytes.new ≡ framed message_type checksum (drop 4 bytes.old) }
{
    let [high, low] = checksum.to_be_bytes();
    let (header, _) = bytes.split_at_mut(4);
    header.copy_from_slice(&[message_type.first_byte(), 0, high, low]);
}

/// Seals a message from `src` to `dst` whose body starts at byte 4: it overwrites the first 4 bytes
/// with the header. The checksum is the only correct one below 65,535.
pub fn seal<F: Family>(src: F::Addr, dst: F::Addr, message_type: MessageType, bytes: &mut [u8])
    requires header { 4 ≤ length bytes.old }
    requires counted { length bytes.old < 2 ^ 32 }
    ensures sealed { IsSealed F.family (F.bytes_of src) (F.bytes_of dst) message_type
        (drop 4 bytes.old) bytes.new }
    ensures body { drop 4 bytes.new ≡ drop 4 bytes.old }
    ensures length { length bytes.new ≡ length bytes.old }
{
    put_header(message_type, 0, bytes);
    let checksum = complement::<F>(src, dst, bytes);
    put_header(message_type, checksum, bytes);
}

/// A law: at most one message with a given type and body has a correct checksum below 65,535. It
/// has no effect.
pub fn one_checksum()
    ensures { OneChecksum }
{}

/// A law: a message that is sealed for ALL-PIM-ROUTERS opens without a fault, as its type with its
/// body. It has no effect.
pub fn sealed_opens()
    ensures { SealedOpens }
{}

/// A law: at least one message with a given type and body has a correct checksum below 65,535. It
/// has no effect.
pub fn some_message_is_sealed()
    ensures { SomeMessageIsSealed }
{}
