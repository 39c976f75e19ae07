//! A PIM message that was read, before any port takes it.

ghost use Rattle.std.specs.Prelude.{◌≡◌, ◌<◌, ◌^◌, length};
ghost use Rattle.pim_addr.specs.Faults.{judged};
ghost use Rattle.pim_hello.specs.Faults.{faults as hello_faults};
ghost use Rattle.pim_hello.specs.Value.{hello_of};
ghost use Rattle.pim_jp.specs.Faults.{faults as join_prune_faults};
ghost use Rattle.pim_jp.specs.Message.{message_of};
ghost use Rattle.pim_router.specs.Reading.{reading_seen, hello_by, message_by, read_as};

use crate::verdict::Malformed;
use pim_addr::Family;
use pim_frame::{Body, open};
use pim_hello::Hello;
use pim_jp::JpView;

/// What a PIM message reads as. It borrows the bytes that were read.
#[derive(Drop)]
pub enum PimMessage<'a, F: Family> {
    /// A Hello (RFC 7761, 4.9.2).
    Hello(Hello<'a, F>),
    /// A Join/Prune message (RFC 7761, 4.9.5).
    JoinPrune(JpView<'a, F>),
    /// A message of another type, which this is. Its body isn't looked at.
    Other(u8),
    /// A message with a fault: the first one of its header, or else of its body.
    Malformed(Malformed),
}

/// Reads the body of a Hello.
fn read_hello<'a, F: Family>(body: &'a [u8]) -> PimMessage<'a, F>
    ensures { reading_seen F.family result
        ≡ hello_by (judged (hello_faults body.now) (hello_of F.family body.now)) }
{
    match Hello::<F>::read(body) {
        Ok(hello) => PimMessage::Hello(hello),
        Err(fault) => PimMessage::Malformed(Malformed::Hello(fault)),
    }
}

/// Reads the body of a Join/Prune message.
fn read_join_prune<'a, F: Family>(body: &'a [u8]) -> PimMessage<'a, F>
    ensures { reading_seen F.family result
        ≡ message_by (judged (join_prune_faults F.family body.now) (message_of F.family body.now)) }
{
    match JpView::<F>::read(body) {
        Ok(message) => PimMessage::JoinPrune(message),
        Err(fault) => PimMessage::Malformed(Malformed::JoinPrune(fault)),
    }
}

/// Reads the PIM message of a packet with this IP source and destination: first its header and
/// checksum (RFC 7761, 4.9), then its body. It has fewer than 2^32 bytes.
pub fn read_message<'a, F: Family>(
    source: F::Addr,
    destination: F::Addr,
    bytes: &'a [u8],
) -> PimMessage<'a, F>
    requires { length bytes.now < 2 ^ 32 }
    ensures { reading_seen F.family result
        ≡ read_as F.family (F.bytes_of source) (F.bytes_of destination) bytes.now }
{
    match open::<F>(source, destination, bytes) {
        Ok(Body::Hello(body)) => read_hello(body),
        Ok(Body::JoinPrune(body)) => read_join_prune(body),
        Ok(Body::Other(message_type)) => PimMessage::Other(message_type),
        Err(fault) => PimMessage::Malformed(Malformed::Frame(fault)),
    }
}
