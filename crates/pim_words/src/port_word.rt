//! The ports that the words of a command name, with their names and their further files.
//!
//! A word is `ADDRESS@FILE`, in a trace or an audit also `NAME=ADDRESS@FILE`, and with two routers
//! `a=ADDRESS@FILE` or `b=ADDRESS@FILE`. Where any container is read, it may be `+FILE`.

ghost use Rattle.std.specs.Prelude.{◌≡◌, MatchResult, [], map};
ghost use Rattle.pim_words.specs.Labels.{IsLabelled, IsWrongLabelled, AreLabelled, IsFirstWrong};
ghost use Rattle.pim_words.specs.Given.{is_sided};
ghost use Rattle.pim_words.specs.Ports.{port_words, AreMore};
ghost use Rattle.pim_words.specs.Seen.{OrMemory};

use crate::fault::CommandFault;
use crate::label::{is_fresh, label_of};
use crate::more::{is_more, read_more};
use crate::port::cut_word;
use crate::task::{CommandKind, More, Port};
use pim_lines::{AnyAddress, read_any_address};
use std::alloc::Global;

/// A port and its name, if it has one.
#[derive(Clone, Copy)]
struct PortWord<'a> {
    port: Port<'a, AnyAddress>,
    name: Option<&'a str>,
}

/// The ports of a command, the name of each if it has one, and their further files.
#[derive(Drop)]
pub(crate) struct Labelled<'a> {
    /// The ports, in the order of the words.
    pub ports: Vec<Port<'a, AnyAddress>>,
    /// Their names, in the same order.
    pub names: Vec<Option<&'a str>>,
    /// The further files of ports, in the order of the words.
    pub more: Vec<More<'a>>,
}

impl<'a> Labelled<'a> {
    /// No ports.
    pub fn none(alloc: Global) -> Labelled<'a>
        ensures ports { result.ports.items ≡ [] }
        ensures names { result.names.items ≡ [] }
        ensures more { result.more.items ≡ [] }
    {
        Labelled {
            ports: Vec::new(alloc),
            names: Vec::new(alloc),
            more: Vec::new(alloc),
        }
    }
}

/// Whether the command has two routers.
fn is_sided(kind: CommandKind) -> bool
    ensures { result ≡ is_sided kind }
{
    matches!(kind, CommandKind::Same | CommandKind::Change)
}

/// The port that a word names, after ports with these names. Or the fault of the word.
fn read_port_word<'a>(
    kind: CommandKind,
    earlier: &[Option<&'a str>],
    word: &'a str,
) -> Result<PortWord<'a>, CommandFault<'a>>
    ensures { MatchResult result
        (λ port_word. IsLabelled kind earlier.now word.now port_word.port port_word.name)
        (IsWrongLabelled kind earlier.now word.now) }
{
    let label = label_of(kind, word);
    if !is_fresh(earlier, label.name) {
        return Err(CommandFault::Word(word));
    }
    let Some(cut) = cut_word(is_sided(kind), label.text) else {
        return Err(CommandFault::Word(word));
    };
    let Some(address) = read_any_address(cut.address) else {
        return Err(CommandFault::Address(word));
    };
    let port = Port {
        side: cut.side,
        address,
        file: cut.file,
        word,
        link: None,
    };
    Ok(PortWord {
        port,
        name: label.name,
    })
}

/// The ports that the words name, in order, with their names and further files, where any container
/// is read or not. Or the fault of the first wrong word.
pub(crate) fn read_labelled<'a>(
    alloc: Global,
    kind: CommandKind,
    is_any: bool,
    words: &[&'a str],
) -> Result<Labelled<'a>, CommandFault<'a>>
    ensures { MatchResult result
        (λ labelled. AreLabelled kind (port_words is_any (map (λ w. w.now) words.now))
        labelled.ports.items labelled.names.items
        × AreMore is_any (map (λ w. w.now) words.now) labelled.more.items)
        (OrMemory (IsFirstWrong kind is_any [] 0 (map (λ w. w.now) words.now))) }
{
    let mut labelled = Labelled::none(alloc);
    for word in words {
        if is_more(is_any, word) {
            let more = read_more(labelled.names.len(), labelled.more.len(), word)?;
            if labelled.more.push(more).is_err() {
                return Err(CommandFault::Memory);
            }
            continue;
        }
        let port_word = read_port_word(kind, &labelled.names, word)?;
        if labelled.ports.push(port_word.port).is_err() {
            return Err(CommandFault::Memory);
        }
        if labelled.names.push(port_word.name).is_err() {
            return Err(CommandFault::Memory);
        }
    }
    Ok(labelled)
}
