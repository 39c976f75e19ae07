//! The lines of a router's neighbours.

ghost use Rattle.std.specs.Prelude.{◌≡◌, ◌<◌, length, option_map};
ghost use Rattle.std.specs.List.{flat_map};
ghost use Rattle.pim_device.specs.Device.{AppendsAll, failures_after};
ghost use Rattle.pim_hello.specs.Delays.{delays_seen};
ghost use Rattle.pim_hello.specs.Kept.{parameters_seen};
ghost use Rattle.pim_hello.specs.Walk.{neighbour_seen};
ghost use Rattle.pim_text.specs.HelloText.{number_text, bit, delays_text};
ghost use Rattle.pim_answers.specs.Neighbours.{option_words, parameters_words, place_words};
ghost use Rattle.pim_answers.specs.Neighbours.{neighbour_line};
ghost use Rattle.pim_answers.specs.Neighbours.{neighbours_text};

use itoa::Buffer;
use pim_addr::{Drain, Failed, Family, write_all};
use pim_hello::{KnownNeighbour, KnownNeighbours, LanDelay, Parameters};
use pim_lines::{Shown, number_or, write_pieces};
use pim_router::Router;

/// The same number, in more bits.
fn widened(number: Option<u16>) -> Option<u32>
    ensures { result ≡ number }
{
    match number {
        Some(number) => Some(u32::from(number)),
        None => None,
    }
}

/// A bit as a digit.
fn bit(is_set: bool) -> &'static [u8]
    ensures { result.now ≡ bit is_set }
{
    if is_set { b"1" } else { b"0" }
}

/// Writes a space, the words and the number, if there is a number.
fn write_number<W: Drain>(writer: &mut W, words: &[u8], number: Option<u32>) -> Result<(), Failed>
    ensures bytes { AppendsAll (W.contents writer.old) (W.contents writer.new) result
        (option_words (number_text words.now number)) }
    ensures count { W.failures writer.new ≡ failures_after (W.failures writer.old) result }
{
    let Some(number) = number else {
        return Ok(());
    };
    let mut digits = Buffer::new();
    let pieces = [b" ", words, digits.format(number).as_bytes()];
    write_pieces(writer, &pieces)
}

/// Writes a space and the words of the LAN Prune Delay option, if there is one.
fn write_delays<W: Drain>(writer: &mut W, lan: Option<LanDelay>) -> Result<(), Failed>
    ensures bytes { AppendsAll (W.contents writer.old) (W.contents writer.new) result
        (option_words (delays_text (option_map delays_seen lan))) }
    ensures count { W.failures writer.new ≡ failures_after (W.failures writer.old) result }
{
    let Some(lan) = lan else {
        return Ok(());
    };
    let mut propagation = Buffer::new();
    let mut interval = Buffer::new();
    let pieces = [
        b" lan-prune-delay t ",
        bit(lan.t),
        b" propagation ",
        propagation.format(lan.propagation).as_bytes(),
        b" override ",
        interval.format(lan.override_ms).as_bytes(),
    ];
    write_pieces(writer, &pieces)
}

/// Writes the words of the options that are there, each after a space.
fn write_parameters<W: Drain>(writer: &mut W, parameters: Parameters) -> Result<(), Failed>
    ensures bytes { AppendsAll (W.contents writer.old) (W.contents writer.new) result
        (parameters_words (parameters_seen parameters)) }
    ensures count { W.failures writer.new ≡ failures_after (W.failures writer.old) result }
{
    write_number(writer, b"holdtime ", widened(parameters.holdtime))?;
    write_delays(writer, parameters.lan)?;
    write_number(writer, b"dr-priority ", parameters.priority)?;
    write_number(writer, b"generation ", parameters.generation)
}

/// Writes the port and the address of a neighbour, and the time that is left to it.
fn write_place<F: Family, W: Drain>(
    writer: &mut W,
    port: usize,
    address: F::Addr,
    left: Option<u64>,
) -> Result<(), Failed>
    ensures bytes { AppendsAll (W.contents writer.old) (W.contents writer.new) result
        (place_words F.family port (F.bytes_of address) left) }
    ensures count { W.failures writer.new ≡ failures_after (W.failures writer.old) result }
{
    let shown = Shown::address::<F>(address);
    let mut on = Buffer::new();
    let mut time = Buffer::new();
    let pieces = [
        b"port ",
        on.format(port).as_bytes(),
        b" neighbour ",
        shown.text(),
        b" left ",
        number_or(&mut time, left, b"never"),
    ];
    write_pieces(writer, &pieces)
}

/// Writes the line of a neighbour of this port.
fn write_neighbour<F: Family, W: Drain>(
    writer: &mut W,
    port: usize,
    neighbour: KnownNeighbour<F::Addr>,
) -> Result<(), Failed>
    ensures bytes { AppendsAll (W.contents writer.old) (W.contents writer.new) result
        (neighbour_line F.family port (neighbour_seen F.bytes_of neighbour)) }
    ensures count { W.failures writer.new ≡ failures_after (W.failures writer.old) result }
{
    write_place::<F, W>(writer, port, neighbour.address, neighbour.left)?;
    write_parameters(writer, neighbour.parameters)?;
    write_all(writer, b"\n")
}

/// Writes the lines of the neighbours of this port.
fn write_port<F: Family, W: Drain>(
    writer: &mut W,
    port: usize,
    neighbours: KnownNeighbours<'_, F>,
) -> Result<(), Failed>
    ensures bytes { AppendsAll (W.contents writer.old) (W.contents writer.new) result
        (flat_map (neighbour_line F.family port) neighbours.entry) }
    ensures count { W.failures writer.new ≡ failures_after (W.failures writer.old) result }
{
    for neighbour in neighbours {
        write_neighbour::<F, W>(writer, port, neighbour)?;
    }
    Ok(())
}

/// Writes the lines of all neighbours of a router, by port and address: the time that is left to
/// each, in milliseconds, and what is kept of its Hello in the words of its text.
///
/// # Errors
/// The device failed: a prefix of the lines was written.
pub fn write_neighbours<F: Family, W: Drain>(
    writer: &mut W,
    router: &Router<'_, F>,
) -> Result<(), Failed>
    ensures bytes { AppendsAll (W.contents writer.old) (W.contents writer.new) result
        (neighbours_text F.family router.now) }
    ensures count { W.failures writer.new ≡ failures_after (W.failures writer.old) result }
{
    router.is_router();
    for port in 0..router.port_count() {
        write_port::<F, W>(writer, port, router.neighbours(port))?;
    }
    Ok(())
}
