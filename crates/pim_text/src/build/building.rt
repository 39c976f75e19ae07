//! The bytes of the message that a text states.

ghost use Rattle.std.specs.Prelude.{◌≡◌, ◌+◌, ◌≤◌, length, IfOk, IfErr};
ghost use Rattle.pim_addr.specs.Faults.{judged};
ghost use Rattle.pim_frame.specs.Seal.{IsSealed};
ghost use Rattle.pim_frame.specs.Seen.{content_of};
ghost use Rattle.pim_text.specs.ReadingText.{text_limit};
ghost use Rattle.pim_text.specs.Building.{content_faults, message_faults, IsBuilt, IsBuildFault};
ghost use Rattle.pim_text.specs.Spell.{type_of};

use crate::build::fault::{BuildFault, text_fault};
use crate::message::{Spelled, spell};
use pim_addr::{Family, group_reads_back, source_reads_back};
use pim_frame::{Body, open, seal};
use pim_hello::{Hello, reads_back};
use pim_jp::JpView;
use pim_jp::laws::canonical_head_is_read;
use std::alloc::{AllocError, Global};

/// Returns the message from `src` to `dst` with this body, sealed.
fn sealed<F: Family>(
    alloc: Global,
    src: F::Addr,
    dst: F::Addr,
    spelled: &Spelled,
) -> Result<Vec<u8>, AllocError>
    requires { length spelled.now.body.items ≤ 65532 }
    ensures sealed { IfOk result (λ m. IsSealed F.family (F.bytes_of src) (F.bytes_of dst)
        (type_of spelled.now.is_hello) spelled.now.body.items m.items) }
    ensures length { IfOk result (λ m. length m.items ≡ length spelled.now.body.items + 4) }
{
    let mut message = Vec::new(alloc);
    message.extend_from_slice(&[0; 4])?;
    message.extend_from_slice(&spelled.body)?;
    seal::<F>(src, dst, spelled.message_type(), &mut message);
    Ok(message)
}

/// Checks a body as its receiver does.
fn judge_body<F: Family>(body: Body<'_>) -> Result<(), BuildFault>
    ensures { result ≡ judged (content_faults F.family (content_of body.entry)) tt }
{
    match body {
        Body::Hello(body) => match Hello::<F>::read(body) {
            Ok(_) => Ok(()),
            Err(fault) => Err(BuildFault::Hello(fault)),
        },
        Body::JoinPrune(body) => match JpView::<F>::read(body) {
            Ok(_) => Ok(()),
            Err(fault) => Err(BuildFault::JoinPrune(fault)),
        },
        Body::Other(_) => Ok(()),
    }
}

/// Checks a message from `src` to `dst` as its receiver does.
fn judge<F: Family>(src: F::Addr, dst: F::Addr, message: &[u8]) -> Result<(), BuildFault>
    requires { length message.now ≤ 65536 }
    ensures { result
        ≡ judged (message_faults F.family (F.bytes_of src) (F.bytes_of dst) message.now) tt }
{
    match open::<F>(src, dst, message) {
        Ok(body) => judge_body::<F>(body),
        Err(fault) => Err(BuildFault::Frame(fault)),
    }
}

/// Returns the bytes of the message from `src` to `dst` that a text states: its header and its body
/// in the canonical spelling. They are at most 65,536, and a receiver takes them.
///
/// # Errors
/// The first of these that holds:
/// - `Line`: the text states no message.
/// - `Family`: an address of the text is not of the family.
/// - `TooLong`: the message has more than 65,536 bytes.
/// - `Frame`, else `Hello` or `JoinPrune`: the first fault that a receiver finds in the message.
///
/// `Memory` may come in place of `TooLong` and of those after it. Then the text states a message of
/// the family.
pub fn build_message<F: Family>(
    alloc: Global,
    src: F::Addr,
    dst: F::Addr,
    text: &[u8],
) -> Result<Vec<u8>, BuildFault>
    requires { length text.now ≤ text_limit }
    ensures built { IfOk result
        (λ m. IsBuilt F.family (F.bytes_of src) (F.bytes_of dst) text.now m.items) }
    ensures fault { IfErr result
        (IsBuildFault F.family (F.bytes_of src) (F.bytes_of dst) text.now) }
{
    reads_back();
    canonical_head_is_read();
    group_reads_back();
    source_reads_back();
    let spelled = match spell::<F>(alloc, text) {
        Ok(spelled) => spelled,
        Err(fault) => return Err(text_fault(fault)),
    };
    let Ok(message) = sealed::<F>(alloc, src, dst, &spelled) else {
        return Err(BuildFault::Memory);
    };
    judge::<F>(src, dst, &message)?;
    Ok(message)
}
