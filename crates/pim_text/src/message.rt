//! The body of the message that a text states.

ghost use Rattle.std.specs.Prelude.{◌≡◌, ◌<◌, ◌≤◌, ◌^◌, length, IfOk, IfErr};
ghost use Rattle.pim_text.specs.Spelled.{StatesMessage};
ghost use Rattle.pim_text.specs.SpelledHello.{StatesHello};
ghost use Rattle.pim_text.specs.Spell.{stated_in, IsSpelled, IsTextFault, reported, type_of};

use crate::laws::stated_in_its_family;
use crate::line::Stated;
use crate::reading::read_message_text;
use crate::spelling::{SpellFault, spell_join_prune};
use crate::spelling_hello::spell_hello;
use pim_addr::{AddressFamily, Family};
use pim_frame::MessageType;
use std::alloc::Global;
use thiserror::Error;

/// Why a text has no body.
#[derive(Clone, Copy, Debug, PartialEq, Eq, Error)]
pub enum TextFault {
    /// The line with this number, from 1, is the first wrong one, or the one that is missing at the
    /// end.
    #[error("text line {0}")]
    Line(usize),
    /// An address is not of the family.
    #[error("family")]
    Family,
    /// The message would have more than 65,536 bytes with its header of 4.
    #[error("text too-long")]
    TooLong,
    /// Memory ran out. The text states a message of the family.
    #[error("memory")]
    Memory,
}

/// The body of a message.
#[derive(Debug, Drop)]
pub struct Spelled {
    /// Whether it is a Hello, else a Join/Prune message.
    pub is_hello: bool,
    /// The bytes after the header.
    pub body: Vec<u8>,
}

impl Spelled {
    /// The type of the message.
    pub fn message_type(&self) -> MessageType
        ensures { result ≡ type_of self.now.is_hello }
    {
        if self.is_hello {
            MessageType::Hello
        } else {
            MessageType::JoinPrune
        }
    }
}

/// Returns whether each address that was read is of the family.
pub fn stated_in<F: Family>(stated: Stated) -> bool
    ensures { result ≡ stated_in F.family stated }
{
    match F::family() {
        AddressFamily::Ipv4 => stated.all_ipv4,
        AddressFamily::Ipv6 => stated.all_ipv6,
    }
}

/// Returns the fault of writing a body, as one of a text.
fn reported(fault: SpellFault) -> TextFault
    ensures { result ≡ reported fault }
{
    match fault {
        SpellFault::TooLong => TextFault::TooLong,
        SpellFault::Memory => TextFault::Memory,
    }
}

/// Writes the body of a Hello.
fn hello_body<F: Family>(alloc: Global, text: &[u8]) -> Result<Spelled, TextFault>
    requires { StatesHello F.family text.now }
    ensures spelled { IfOk result (λ s. IsSpelled F.family text.now s.is_hello s.body.items) }
    ensures short { IfOk result (λ s. length s.body.items ≤ 65532) }
    ensures fault { IfErr result (IsTextFault F.family text.now) }
{
    match spell_hello::<F>(alloc, text) {
        Ok(body) => Ok(Spelled {
            is_hello: true,
            body,
        }),
        Err(fault) => Err(reported(fault)),
    }
}

/// Writes the body of a Join/Prune message.
fn join_prune_body<F: Family>(alloc: Global, text: &[u8]) -> Result<Spelled, TextFault>
    requires { StatesMessage F.family text.now }
    ensures spelled { IfOk result (λ s. IsSpelled F.family text.now s.is_hello s.body.items) }
    ensures short { IfOk result (λ s. length s.body.items ≤ 65532) }
    ensures fault { IfErr result (IsTextFault F.family text.now) }
{
    match spell_join_prune::<F>(alloc, text) {
        Ok(body) => Ok(Spelled {
            is_hello: false,
            body,
        }),
        Err(fault) => Err(reported(fault)),
    }
}

/// Writes the body of the message that a text states, in the canonical spelling, whether the
/// message is legal or not. The text is read twice, forward.
///
/// # Errors
/// The first of these that holds:
/// - `Line`: the text states no message.
/// - `Family`: an address is not of the family.
/// - `TooLong`: the body has more than 65,532 bytes.
///
/// `Memory` may come in place of `TooLong`. Lines and families are judged without memory, so the
/// text states a message of the family then.
pub fn spell<F: Family>(alloc: Global, text: &[u8]) -> Result<Spelled, TextFault>
    requires { length text.now < 2 ^ 32 }
    ensures spelled { IfOk result (λ s. IsSpelled F.family text.now s.is_hello s.body.items) }
    ensures short { IfOk result (λ s. length s.body.items ≤ 65532) }
    ensures fault { IfErr result (IsTextFault F.family text.now) }
{
    stated_in_its_family();
    let stated = match read_message_text(text) {
        Ok(stated) => stated,
        Err(number) => return Err(TextFault::Line(number)),
    };
    if !stated_in::<F>(stated) {
        return Err(TextFault::Family);
    }
    if stated.is_hello {
        hello_body::<F>(alloc, text)
    } else {
        join_prune_body::<F>(alloc, text)
    }
}
