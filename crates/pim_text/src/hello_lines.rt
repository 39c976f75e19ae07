//! The text of a Hello.

ghost use Rattle.std.specs.Prelude.{◌≡◌, ◌++◌, codes, decimal, OnOk, IfOk};
ghost use Rattle.std.specs.List.{flat_map};
ghost use Rattle.std.specs.Option.{option_map};
ghost use Rattle.pim_hello.specs.Delays.{delays_seen};
ghost use Rattle.pim_hello.specs.Kept.{parameters_seen};
ghost use Rattle.pim_hello.specs.Seen.{addresses_seen, hello_seen};
ghost use Rattle.pim_text.specs.Text.{line};
ghost use Rattle.pim_text.specs.HelloText.{number_text, bit, delays_line, delays_text};
ghost use Rattle.pim_text.specs.HelloText.{parameters_text, address_line};
ghost use Rattle.pim_text.specs.HelloText.{hello_text};

use crate::pieces::{push_address, push_number};
use pim_addr::Family;
use pim_hello::{Addresses, Hello, LanDelay, Parameters};
use std::alloc::{AllocError, Global};

/// Adds the words and a number, and ends the line.
fn push_number_line(text: &mut Vec<u8>, words: &[u8], number: usize) -> Result<(), AllocError>
    ensures { OnOk result (text.new.items ≡ text.old.items ++ line (words.now ++ decimal number)) }
{
    push_number(text, words, number)?;
    text.extend_from_slice(b"\n")
}

/// Adds the line of the holdtime, if there is one.
fn push_holdtime(text: &mut Vec<u8>, holdtime: Option<u16>) -> Result<(), AllocError>
    ensures { OnOk result (text.new.items ≡ text.old.items
        ++ number_text (codes "holdtime ") holdtime) }
{
    match holdtime {
        Some(seconds) => push_number_line(text, b"holdtime ", usize::from(seconds)),
        None => Ok(()),
    }
}

/// Adds the line of the words and a number, if there is a number.
fn push_option(text: &mut Vec<u8>, words: &[u8], number: Option<u32>) -> Result<(), AllocError>
    ensures { OnOk result (text.new.items ≡ text.old.items ++ number_text words.now number) }
{
    match number {
        Some(number) => push_number_line(text, words, number as usize),
        None => Ok(()),
    }
}

/// Adds the words and a bit, as 0 or 1.
fn push_bit(text: &mut Vec<u8>, words: &[u8], is_set: bool) -> Result<(), AllocError>
    ensures { OnOk result (text.new.items ≡ text.old.items ++ (words.now ++ bit is_set)) }
{
    text.extend_from_slice(words)?;
    if is_set {
        text.extend_from_slice(b"1")
    } else {
        text.extend_from_slice(b"0")
    }
}

/// Adds the line of a LAN Prune Delay option.
fn push_delays_line(text: &mut Vec<u8>, delays: LanDelay) -> Result<(), AllocError>
    ensures { OnOk result (text.new.items ≡ text.old.items ++ delays_line (delays_seen delays)) }
{
    push_bit(text, b"lan-prune-delay t ", delays.t)?;
    push_number(text, b" propagation ", usize::from(delays.propagation))?;
    push_number(text, b" override ", usize::from(delays.override_ms))?;
    text.extend_from_slice(b"\n")?;
    Ok(())
}

/// Adds the line of the LAN Prune Delay option, if there is one.
fn push_delays(text: &mut Vec<u8>, delays: Option<LanDelay>) -> Result<(), AllocError>
    ensures { OnOk result (text.new.items ≡ text.old.items
        ++ delays_text (option_map delays_seen delays)) }
{
    match delays {
        Some(delays) => push_delays_line(text, delays),
        None => Ok(()),
    }
}

/// Adds the lines of the options except the Address List.
fn push_parameters(text: &mut Vec<u8>, parameters: Parameters) -> Result<(), AllocError>
    ensures { OnOk result (text.new.items ≡ text.old.items
        ++ parameters_text (parameters_seen parameters)) }
{
    push_holdtime(text, parameters.holdtime)?;
    push_delays(text, parameters.lan)?;
    push_option(text, b"dr-priority ", parameters.priority)?;
    push_option(text, b"generation ", parameters.generation)?;
    Ok(())
}

/// Adds the line of a secondary address.
fn push_address_line<F: Family>(text: &mut Vec<u8>, address: F::Addr) -> Result<(), AllocError>
    ensures { OnOk result (text.new.items ≡ text.old.items
        ++ address_line F.family (F.bytes_of address)) }
{
    push_address::<F>(text, b"address ", address)?;
    text.extend_from_slice(b"\n")
}

/// Adds the lines of the secondary addresses.
fn push_addresses<F: Family>(
    text: &mut Vec<u8>,
    addresses: Addresses<'_, F>,
) -> Result<(), AllocError>
    ensures { OnOk result (text.new.items
        ≡ text.old.items
        ++ flat_map (address_line F.family) (addresses_seen F.family addresses.entry)) }
{
    for address in addresses {
        push_address_line::<F>(text, address)?;
    }
    Ok(())
}

/// The text of a Hello: a line of its own, then one for each option and each secondary address.
pub fn hello_text<F: Family>(alloc: Global, hello: &Hello<'_, F>) -> Result<Vec<u8>, AllocError>
    ensures { IfOk result (λ text. text.items
        ≡ hello_text F.family (hello_seen F.family hello.now)) }
{
    let mut text = Vec::new(alloc);
    text.extend_from_slice(b"hello\n")?;
    push_parameters(&mut text, hello.parameters())?;
    push_addresses(&mut text, hello.addresses)?;
    Ok(text)
}
