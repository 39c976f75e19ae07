//! The bytes of a Hello, from its text.

ghost use Rattle.std.specs.Prelude.{◌≡◌, ◌≤◌, ◌++◌, ◌*◌, true, length, map, vec_len, OnOk, IfOk};
ghost use Rattle.std.specs.Prelude.{IfErr};
ghost use Rattle.pim_addr.specs.Encoded.{unicast_length};
ghost use Rattle.pim_hello.specs.Kept.{parameters_seen};
ghost use Rattle.pim_hello.specs.Spelling.{spelling_of};
ghost use Rattle.pim_text.specs.Families.{line_is_in};
ghost use Rattle.pim_text.specs.SpelledHello.{with_line, line_addresses, DelaysFit, HaveLength};
ghost use Rattle.pim_text.specs.SpelledHello.{hello_of, StatesHello};
ghost use Rattle.pim_text.specs.SpelledHello.{SpellsHello, IsHelloFault, IsTooLong};

use crate::line::{Expected, Line};
use crate::line_walk::LineWalk;
use crate::spelling::SpellFault;
use crate::spelling_lines::address_of;
use crate::steps::step;
use pim_addr::Family;
use pim_hello::{Addresses, Hello, LanDelay, Parameters};
use std::alloc::{AllocError, Global};

/// The most bytes of a body.
const LONGEST_BODY: usize = 65_532;

/// Returns a buffer of `length` bytes.
fn blank(alloc: Global, length: usize) -> Result<Vec<u8>, SpellFault>
    ensures length { IfOk result (λ buffer. vec_len buffer ≡ length) }
    ensures memory { IfErr result (λ fault. fault ≡ SpellFault.Memory) }
{
    vec![in alloc; 0u8; length].map_err(|_| SpellFault::Memory)
}

/// Returns the options with that of a line.
fn with_line(mut parameters: Parameters, line: Line) -> Parameters
    requires { DelaysFit line }
    ensures { parameters_seen result ≡ with_line line (parameters_seen parameters) }
{
    match line {
        Line::Holdtime(seconds) => parameters.holdtime = Some(seconds),
        Line::Delays(delays) => {
            parameters.lan = Some(LanDelay {
                t: delays.t,
                propagation: delays.propagation,
                override_ms: delays.override_ms,
            });
        }
        Line::Priority(number) => parameters.priority = Some(number),
        Line::Generation(number) => parameters.generation = Some(number),
        _ => {}
    }
    parameters
}

/// Adds the address of a line, if it is one of a secondary address.
fn push_address<F: Family>(addresses: &mut Vec<F::Addr>, line: Line) -> Result<(), AllocError>
    requires within { line_is_in F.family line ≡ true }
    requires lengths { HaveLength F.family (map F.bytes_of addresses.old.items) }
    ensures added { OnOk result (map F.bytes_of addresses.new.items
        ≡ map F.bytes_of addresses.old.items ++ line_addresses line) }
    ensures lengths { OnOk result (HaveLength F.family (map F.bytes_of addresses.new.items)) }
{
    if let Line::Secondary(address) = line {
        let address = address_of::<F>(address);
        F::address_has_its_bytes(address);
        addresses.push(address)?;
    }
    Ok(())
}

/// Writes the body of a Hello.
fn write_hello<F: Family>(
    alloc: Global,
    parameters: Parameters,
    addresses: &[F::Addr],
) -> Result<Vec<u8>, SpellFault>
    requires { HaveLength F.family (map F.bytes_of addresses.now) }
    ensures spelled { IfOk result (λ body. body.items
        ≡ spelling_of F.family
        (hello_of (parameters_seen parameters) (map F.bytes_of addresses.now))) }
    ensures short { IfOk result (λ body. length body.items ≤ 65532) }
    ensures fault { IfErr result
        (IsTooLong F.family
        (hello_of (parameters_seen parameters) (map F.bytes_of addresses.now))) }
{
    let Ok(count) = u16::try_from(addresses.len()) else {
        return Err(SpellFault::TooLong);
    };
    let length = Addresses::<F>::row_length(count);
    if length > LONGEST_BODY {
        return Err(SpellFault::TooLong);
    }
    let mut row = blank(alloc, length)?;
    let hello = Hello::<F> {
        holdtime: parameters.holdtime,
        lan: parameters.lan,
        priority: parameters.priority,
        generation: parameters.generation,
        addresses: Addresses::put(addresses, &mut row),
    };
    let length = hello.length();
    if length > LONGEST_BODY {
        return Err(SpellFault::TooLong);
    }
    let mut body = blank(alloc, length)?;
    hello.put(&mut body);
    Ok(body)
}

/// Writes the body of the Hello that a text states, as `Hello::put` writes it.
///
/// # Errors
/// - `TooLong`: the body has more than 65,532 bytes.
/// - `Memory`: memory ran out.
pub fn spell_hello<F: Family>(alloc: Global, text: &[u8]) -> Result<Vec<u8>, SpellFault>
    requires { StatesHello F.family text.now }
    ensures spelled { IfOk result (λ body. SpellsHello F.family text.now body.items) }
    ensures short { IfOk result (λ body. length body.items ≤ 65532) }
    ensures fault { IfErr result (IsHelloFault F.family text.now) }
{
    let mut parameters = Parameters {
        holdtime: None,
        lan: None,
        priority: None,
        generation: None,
    };
    let mut addresses = Vec::new(alloc);
    let mut expected = Expected::Message;
    for line in LineWalk::new(text) {
        let Some(found) = step(expected, line) else {
            unreachable!();
        };
        parameters = with_line(parameters, found.line);
        let Ok(()) = push_address::<F>(&mut addresses, found.line) else {
            return Err(SpellFault::Memory);
        };
        expected = found.next;
    }
    write_hello::<F>(alloc, parameters, &addresses)
}
