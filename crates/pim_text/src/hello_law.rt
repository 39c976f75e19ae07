//! The law on the text of a Hello that was read.

ghost use Rattle.std.specs.Prelude.{◌<◌, ◌^◌};
ghost use Rattle.std.specs.List.{AllByRecursion};
ghost use Rattle.std.specs.Option.{IfSome, option_map};
ghost use Rattle.pim_addr.specs.Address.{IsAddress};
ghost use Rattle.pim_hello.specs.Delays.{delays_seen};
ghost use Rattle.pim_hello.specs.Kept.{parameters_seen};
ghost use Rattle.pim_hello.specs.Seen.{addresses_seen, hello_seen};
ghost use Rattle.pim_hello.specs.Spelling.{ParametersFit};
ghost use Rattle.pim_text.specs.HelloText.{hello_text};
ghost use Rattle.pim_text.specs.Value.{hello_in};
ghost use Rattle.pim_text.specs.Read.{States};

use crate::laws::hello_text_states;
use pim_addr::Family;
use pim_hello::{Addresses, Hello, LanDelay, Parameters};

/// A law: a number of 16 bits fits them.
fn fits_16_bits(number: Option<u16>)
    ensures { IfSome number (λ n. n < 2 ^ 16) }
{
    if let Some(number) = number {
        let _number = number;
    }
}

/// A law: a number of 32 bits fits them.
fn fits_32_bits(number: Option<u32>)
    ensures { IfSome number (λ n. n < 2 ^ 32) }
{
    if let Some(number) = number {
        let _number = number;
    }
}

/// A law: delays fit their bits.
fn delays_fit(lan: Option<LanDelay>)
    ensures { IfSome (option_map delays_seen lan) (λ d. (d.propagation < 2 ^ 15)
        × (d.override_ms < 2 ^ 16)) }
{
    if let Some(delays) = lan {
        let _propagation = delays.propagation;
        let _override = delays.override_ms;
    }
}

/// A law: options fit their bits.
fn parameters_fit(parameters: Parameters)
    ensures { ParametersFit (parameters_seen parameters) }
{
    fits_16_bits(parameters.holdtime);
    delays_fit(parameters.lan);
    fits_32_bits(parameters.priority);
    fits_32_bits(parameters.generation);
}

/// A law: the addresses of an Address List are addresses of the family. It passes over them.
fn addresses_are_of_the_family<F: Family>(addresses: Addresses<'_, F>)
    ensures { AllByRecursion (IsAddress F.family) (addresses_seen F.family addresses.entry) }
{
    for address in addresses {
        F::address_has_its_bytes(address);
    }
}

/// A law: the text of a Hello that was read states it. It passes over the addresses, and does
/// nothing else.
pub fn hello_text_states_it<F: Family>(hello: &Hello<'_, F>)
    ensures { States (hello_text F.family (hello_seen F.family hello.now))
        (hello_in F.family (hello_seen F.family hello.now)) }
{
    hello_text_states();
    parameters_fit(hello.parameters());
    addresses_are_of_the_family(hello.addresses);
}
