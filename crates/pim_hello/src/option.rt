//! The options of a body, and the values of the known ones (RFC 7761, 4.9.2).

ghost use Rattle.std.specs.Prelude.{◌≡◌, ◌==◌, ◌<◌, ◌^◌, true, false, length, not};
ghost use Rattle.std.specs.Option.{MatchOption, IfSome};
ghost use Rattle.byteorder.specs.Endian.{big_number};
ghost use Rattle.pim_addr.specs.Faults.{fault_if, judged, Answers};
ghost use Rattle.pim_hello.specs.declared.fault.HelloKind.TheVariants.{OptionLength};
ghost use Rattle.pim_hello.specs.Options.{is_whole, option_type, option_value, behind_option};

use crate::fault::HelloKind;
use byteorder::{BigEndian, ByteOrder};

/// The length in bytes of an option's type and length.
pub(crate) const HEADER_LENGTH: usize = 4;

/// Type 1: how long the sender is kept as a neighbour.
pub(crate) const HOLDTIME: u16 = 1;

/// Type 2: the sender's delays on a LAN.
pub(crate) const LAN_PRUNE_DELAY: u16 = 2;

/// Type 19: the priority in the election of a designated router.
pub(crate) const DR_PRIORITY: u16 = 19;

/// Type 20: a number that changes whenever the sender starts.
pub(crate) const GENERATION_ID: u16 = 20;

/// Type 24: the sender's secondary addresses.
pub(crate) const ADDRESS_LIST: u16 = 24;

/// An option, and the bytes after it.
#[derive(Clone, Copy)]
pub(crate) struct FirstOption<'a> {
    pub(crate) type_code: u16,
    pub(crate) value: &'a [u8],
    pub(crate) behind: &'a [u8],
}

/// The option at the front, or `None` if it isn't whole.
pub(crate) fn first_option(bytes: &[u8]) -> Option<FirstOption<'_>>
    ensures whole { MatchOption result (is_whole bytes.now ≡ false) (λ _. is_whole bytes.now
        ≡ true) }
    ensures type_code { IfSome result (λ o. o.type_code ≡ option_type bytes.now) }
    ensures value { IfSome result (λ o. o.value.now ≡ option_value bytes.now) }
    ensures behind { IfSome result (λ o. o.behind.now ≡ behind_option bytes.now) }
    ensures size { IfSome result (λ o. length o.value.now < 2 ^ 16) }
{
    if bytes.len() < HEADER_LENGTH {
        return None;
    }
    let type_code = BigEndian::read_u16(bytes);
    let (_, length) = bytes.split_at(2);
    let size = usize::from(BigEndian::read_u16(length));
    let (_, rest) = bytes.split_at(HEADER_LENGTH);
    if rest.len() < size {
        return None;
    }
    let (value, behind) = rest.split_at(size);
    Some(FirstOption {
        type_code,
        value,
        behind,
    })
}

/// Reads a value of 16 bits.
pub(crate) fn read_number16(value: &[u8]) -> Result<u16, HelloKind>
    ensures { Answers (λ n. n) result
        (judged (fault_if (not (length value.now == 2)) OptionLength) (big_number 2 value.now)) }
{
    if value.len() != 2 {
        return Err(HelloKind::OptionLength);
    }
    Ok(BigEndian::read_u16(value))
}

/// Reads a value of 32 bits.
pub(crate) fn read_number32(value: &[u8]) -> Result<u32, HelloKind>
    ensures { Answers (λ n. n) result
        (judged (fault_if (not (length value.now == 4)) OptionLength) (big_number 4 value.now)) }
{
    if value.len() != 4 {
        return Err(HelloKind::OptionLength);
    }
    Ok(BigEndian::read_u32(value))
}
