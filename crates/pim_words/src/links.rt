//! The links of ports, by the options `--input`, `--vlan` and `--interface`.

ghost use Rattle.std.specs.Prelude.{◌≡◌, MatchOption, MatchResult, map, codes, length, []};
ghost use Rattle.clap.specs.Words.{rows_of, found_of};
ghost use Rattle.pim_words.specs.Given.{values_of};
ghost use Rattle.pim_words.specs.Links.{ArePicks, IsFirstWrongPick, AreLinks, IsWrongLinks};
ghost use Rattle.pim_words.specs.Links.{link_at, word_count, input_name, IsNoInput};
ghost use Rattle.pim_words.specs.Links.{AreChosenLinks, AreWrongChoices};
ghost use Rattle.pim_words.specs.Links.{AreAnyLinks, AreWrongAny};
ghost use Rattle.pim_words.specs.Seen.{OrMemory, with_link, with_links};
ghost use Rattle.pim_words.specs.declared.fault.CommandFault.TheVariants.{Memory};

use crate::fault::CommandFault;
use crate::given::{option_or, values_of};
use crate::more::count_ports;
use crate::picks::{Part, Pick, chosen_for, read_picks};
use crate::task::{CommandKind, LinkWord, Port};
use clap::ArgMatches;
use pim_lines::AnyAddress;
use std::alloc::Global;

/// How the captures of a command are read.
#[derive(Drop)]
pub(crate) struct Links {
    /// Whether they are read as any container.
    pub is_any: bool,
    /// The VLANs that are picked.
    pub vlans: Vec<Pick>,
    /// The interfaces that are picked.
    pub interfaces: Vec<Pick>,
}

/// The links that the values of this option pick.
fn read_part<'a>(
    alloc: Global,
    part: Part,
    is_any: bool,
    name: &str,
    options: &ArgMatches<'a>,
) -> Result<Vec<Pick>, CommandFault<'a>>
    ensures { MatchResult result
        (λ picks. ArePicks part is_any (word_count is_any (rows_of (found_of options.now)))
        (values_of name.now (rows_of (found_of options.now))) picks.items)
        (OrMemory (IsFirstWrongPick part is_any
        (word_count is_any (rows_of (found_of options.now))) []
        (values_of name.now (rows_of (found_of options.now))))) }
{
    let count = count_ports(is_any, values_of(options, "words"));
    read_picks(alloc, part, is_any, count, values_of(options, name))
}

/// The links that the words pick, where any container is read or not.
fn read_links<'a>(
    alloc: Global,
    is_any: bool,
    options: &ArgMatches<'a>,
) -> Result<Links, CommandFault<'a>>
    ensures { MatchResult result (AreLinks is_any (rows_of (found_of options.now)))
        (OrMemory (IsWrongLinks is_any (rows_of (found_of options.now)))) }
{
    let vlans = read_part(alloc, Part::Vlan, is_any, "vlan", options)?;
    let interfaces = read_part(alloc, Part::Interface, is_any, "interface", options)?;
    Ok(Links {
        is_any,
        vlans,
        interfaces,
    })
}

/// Whether the input of this name is any container. `None` for any other text.
fn read_input(text: &str) -> Option<bool>
    ensures { MatchOption result (IsNoInput text.now) (λ is_any. text.now ≡ input_name is_any) }
{
    match text {
        "any" => Some(true),
        "classic" => Some(false),
        _ => None,
    }
}

/// The links that the words of a trace or an audit pick, which read any container.
fn read_any_links<'a>(alloc: Global, options: &ArgMatches<'a>) -> Result<Links, CommandFault<'a>>
    ensures { MatchResult result (AreAnyLinks (rows_of (found_of options.now)))
        (OrMemory (AreWrongAny (rows_of (found_of options.now)))) }
{
    let text = option_or(options, "input", "any");
    if text != "any" {
        return Err(CommandFault::Word(text));
    }
    read_links(alloc, true, options)
}

/// The links that the words pick. A trace and an audit read any container; otherwise `--input` says
/// whether a command does.
pub(crate) fn read_chosen_links<'a>(
    alloc: Global,
    kind: CommandKind,
    options: &ArgMatches<'a>,
) -> Result<Links, CommandFault<'a>>
    ensures { MatchResult result (AreChosenLinks kind (rows_of (found_of options.now)))
        (OrMemory (AreWrongChoices kind (rows_of (found_of options.now)))) }
{
    if let CommandKind::Trace | CommandKind::Audit = kind {
        return read_any_links(alloc, options);
    }
    let text = option_or(options, "input", "classic");
    let Some(is_any) = read_input(text) else {
        return Err(CommandFault::Word(text));
    };
    read_links(alloc, is_any, options)
}

/// The link of the port of this number, if any container is read.
fn link_at(links: &Links, number: usize) -> Option<LinkWord>
    ensures { result ≡ link_at links.now number }
{
    if !links.is_any {
        return None;
    }
    Some(LinkWord {
        vlan: chosen_for(&links.vlans, number).vlan,
        interface: chosen_for(&links.interfaces, number).interface,
    })
}

/// The port with the link of this number.
fn with_link<'a>(links: &Links, number: usize, port: Port<'a, AnyAddress>) -> Port<'a, AnyAddress>
    ensures { result ≡ with_link links.now number port.entry }
{
    Port {
        side: port.side,
        address: port.address,
        file: port.file,
        word: port.word,
        link: link_at(links, number),
    }
}

/// The ports, each with the link of its number.
pub(crate) fn linked<'a>(
    alloc: Global,
    links: &Links,
    ports: &[Port<'a, AnyAddress>],
) -> Result<Vec<Port<'a, AnyAddress>>, CommandFault<'static>>
    ensures { MatchResult result (λ made. made.items ≡ with_links links.now 0 ports.now)
        (λ fault. fault ≡ Memory) }
{
    let mut made = Vec::new(alloc);
    for (number, port) in ports.iter().enumerate() {
        if made.push(with_link(links, number, *port)).is_err() {
            return Err(CommandFault::Memory);
        }
    }
    Ok(made)
}
