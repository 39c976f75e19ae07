//! Why there is no plan.
//!
//! A refusal holds `clap`'s kind and text, not its error: `clap`'s contract doesn't say what an
//! error displays. `plan` makes the text, while it can still return `Memory`.

ghost use Rattle.std.specs.Prelude.{◌≡◌};
ghost use Rattle.pim_words.specs.Plan.{refusal_fault};

use clap::error::ErrorKind;
use std::alloc::AllocError;

/// A router of a command with two routers.
#[derive(Clone, Copy, Debug, PartialEq, Eq)]
pub enum RouterSide {
    /// The router whose words begin with `a=`, or the only router of a command.
    A,
    /// The router whose words begin with `b=`.
    B,
}

/// Why the words give no configuration of a router.
#[derive(Clone, Copy, Debug, PartialEq, Eq)]
pub enum ConfigCause {
    /// The router has no port, or more than 64.
    Ports,
    /// The address of a port isn't a valid source.
    Address,
    /// The RP isn't a valid source.
    Rp,
}

/// What `clap` refuses, or shows since the words ask for help or the version.
#[derive(Debug, Drop)]
pub struct Refusal {
    /// The kind of the mistake, or of the request.
    pub kind: ErrorKind,
    /// `clap`'s own text, with its line feeds.
    pub text: String,
}

/// Why there is no plan. Of several causes, `plan` returns the first in the order that it lists, or
/// `Memory`.
#[derive(Debug, Drop)]
pub enum CommandFault<'a> {
    /// `clap` refuses the words, or they ask for help or the version.
    Clap(Refusal),
    /// A value of an option isn't an address, or the address in a word can't be read. The text is
    /// the value or the whole word.
    Address(&'a str),
    /// The words give both `--after` and `--at`.
    TwoEnds,
    /// The word isn't `ADDRESS@FILE`, or with two routers `a=ADDRESS@FILE` or `b=ADDRESS@FILE`.
    /// Or its name isn't one of a port, or is that of a port before it. Or it is `+FILE` where any
    /// container is read: FILE is empty, no port is before it, or it is the 4,097th. Or it is the
    /// value of `--at` or `--from` and names no time. Or it is that of `--time` or `--input` and
    /// names no form or input, or the 65th value of `--group` or `--source`. Or it is a value of
    /// `--vlan` or `--interface` that picks no link: any container isn't read, it has another form,
    /// it names a port that isn't there, or an earlier value is for the same ports. Or it is `-`,
    /// which names standard input where any container is read, and a second file has that name.
    Word(&'a str),
    /// The addresses of the command aren't all of one family.
    Family,
    /// No word is a port of this router of two.
    NoPort(RouterSide),
    /// The upstream neighbour and the own address aren't two different valid sources. Or the
    /// upstream neighbour of an audit isn't a valid source, or has the address of a port.
    WriterAddress,
    /// The words give no configuration of a router.
    Config(ConfigCause),
    /// An allocation was refused. It may replace any other cause.
    Memory,
}

/// The fault of a refusal of this kind and text. It is `Memory` if memory was refused, in `clap` or
/// for the text.
pub(crate) fn refusal_fault(
    kind: ErrorKind,
    text: Result<String, AllocError>,
) -> CommandFault<'static>
    ensures { result ≡ refusal_fault kind text }
{
    match (kind, text) {
        (ErrorKind::OutOfMemory, _) | (_, Err(_)) => CommandFault::Memory,
        (kind, Ok(text)) => CommandFault::Clap(Refusal { kind, text }),
    }
}
