//! The values of `--vlan` and `--interface`, each of which picks a link for a port or for all.
//!
//! A value is `SPEC`, for all ports that have none of their own, or `P=SPEC` for the port P. Of
//! `--vlan`, SPEC is `N`, `N.M`, or `0` for frames without a tag. Of `--interface` it is the name
//! or the number of an interface.

ghost use Rattle.std.specs.Prelude.{◌≡◌, MatchOption, MatchResult, map, []};
ghost use Rattle.pim_words.specs.Links.{IsPortNumber, IsNoPortNumber, IsVlanText, IsNoVlan};
ghost use Rattle.pim_words.specs.Links.{IsInterfaceText, IsNoInterface};
ghost use Rattle.pim_words.specs.Links.{IsLinkText, IsNoLink, IsTargetOf, IsNoTarget};
ghost use Rattle.pim_words.specs.Links.{is_same_port, pick_for, chosen_for};
ghost use Rattle.pim_words.specs.Links.{IsPick, IsNoPick, ArePicks, IsFirstWrongPick};
ghost use Rattle.pim_words.specs.Seen.{OrMemory};

use crate::fault::CommandFault;
use crate::given::number_between;
use crate::task::LinkWord;
use pim_capture::{InterfaceChoice, InterfaceName, Vlan};
use std::alloc::Global;

/// What the values of an option choose.
#[derive(Clone, Copy)]
pub(crate) enum Part {
    /// The VLAN, by `--vlan`.
    Vlan,
    /// The interface, by `--interface`.
    Interface,
}

/// A value that is cut into its port, if it has one, and the rest.
#[derive(Clone, Copy)]
pub(crate) struct Target<'a> {
    /// The number of the port. `None` stands for all ports that have no value of their own.
    pub port: Option<usize>,
    /// The rest of the value.
    pub text: &'a str,
}

/// A link that a value picks.
#[derive(Clone, Copy)]
pub(crate) struct Pick {
    /// The number of the port. `None` stands for all ports that have no pick of their own.
    pub port: Option<usize>,
    /// The link, of which only the part of the option is chosen.
    pub link: LinkWord,
}

/// The number of the port that a text spells, if it is one of `count` ports.
fn read_port_number(count: usize, text: &str) -> Option<usize>
    ensures { MatchOption result (IsNoPortNumber count text.now) (IsPortNumber count text.now) }
{
    match number_between(text, 0, count as u64) {
        Some(number) if number < count as u64 => Some(number as usize),
        _ => None,
    }
}

/// Cuts a value at its first `=`. `None` if what precedes it isn't the number of one of the ports.
pub(crate) fn target_of<'a>(count: usize, value: &'a str) -> Option<Target<'a>>
    ensures { MatchOption result (IsNoTarget count value.now) (IsTargetOf count value.now) }
{
    let Some((port, text)) = value.split_once('=') else {
        return Some(Target {
            port: None,
            text: value,
        });
    };
    match read_port_number(count, port) {
        Some(port) => Some(Target {
            port: Some(port),
            text,
        }),
        None => None,
    }
}

/// The VLAN that a text names: `N`, `N.M`, or `0` for frames without a tag.
fn read_vlan(text: &str) -> Option<Vlan>
    ensures { MatchOption result (IsNoVlan text.now) (IsVlanText text.now) }
{
    let Some((outer, inner)) = text.split_once('.') else {
        return match number_between(text, 0, 4094) {
            Some(number) => Some(Vlan {
                outer: number as u16,
                inner: 0,
            }),
            None => None,
        };
    };
    let Some(outer) = number_between(outer, 1, 4094) else {
        return None;
    };
    match number_between(inner, 1, 4094) {
        Some(inner) => Some(Vlan {
            outer: outer as u16,
            inner: inner as u16,
        }),
        None => None,
    }
}

/// The interface that a text names: by its name, or by its number.
fn read_interface(text: &str) -> Option<InterfaceChoice>
    ensures { MatchOption result (IsNoInterface text.now) (IsInterfaceText text.now) }
{
    if let Some(name) = InterfaceName::of(text.as_bytes()) {
        return Some(InterfaceChoice::Name(name));
    }
    match number_between(text, 0, 4_294_967_295) {
        Some(number) => Some(InterfaceChoice::Number(number as u32)),
        None => None,
    }
}

/// The link of which a text names this part.
fn read_link(part: Part, text: &str) -> Option<LinkWord>
    ensures { MatchOption result (IsNoLink part text.now) (IsLinkText part text.now) }
{
    match part {
        Part::Vlan => match read_vlan(text) {
            Some(vlan) => Some(LinkWord {
                vlan: Some(vlan),
                interface: None,
            }),
            None => None,
        },
        Part::Interface => match read_interface(text) {
            Some(interface) => Some(LinkWord {
                vlan: None,
                interface: Some(interface),
            }),
            None => None,
        },
    }
}

/// Whether the two are the same port, or both stand for all ports.
fn is_same_port(one: Option<usize>, other: Option<usize>) -> bool
    ensures { result ≡ is_same_port one other }
{
    match (one, other) {
        (Some(one), Some(other)) => one == other,
        (None, None) => true,
        _ => false,
    }
}

/// The link that one of these picks has for just this port.
fn pick_for(picks: &[Pick], port: Option<usize>) -> Option<LinkWord>
    ensures { result ≡ pick_for port picks.now }
{
    for pick in picks {
        if is_same_port(pick.port, port) {
            return Some(pick.link);
        }
    }
    None
}

/// The link that these picks choose for the port of this number.
pub(crate) fn chosen_for(picks: &[Pick], number: usize) -> LinkWord
    ensures { result ≡ chosen_for number picks.now }
{
    if let Some(link) = pick_for(picks, Some(number)) {
        return link;
    }
    match pick_for(picks, None) {
        Some(link) => link,
        None => LinkWord {
            vlan: None,
            interface: None,
        },
    }
}

/// The link that a value picks, after these picks. `is_any` says whether any container is read.
/// `None` if the value picks none.
fn read_pick(part: Part, is_any: bool, count: usize, earlier: &[Pick], value: &str) -> Option<Pick>
    ensures { MatchOption result (IsNoPick part is_any count earlier.now value.now)
        (IsPick part is_any count earlier.now value.now) }
{
    if !is_any {
        return None;
    }
    let Some(target) = target_of(count, value) else {
        return None;
    };
    if pick_for(earlier, target.port).is_some() {
        return None;
    }
    match read_link(part, target.text) {
        Some(link) => Some(Pick {
            port: target.port,
            link,
        }),
        None => None,
    }
}

/// The links that the values of an option pick for `count` ports, or the fault of the first value
/// that picks none.
pub(crate) fn read_picks<'a>(
    alloc: Global,
    part: Part,
    is_any: bool,
    count: usize,
    values: &[&'a str],
) -> Result<Vec<Pick>, CommandFault<'a>>
    ensures { MatchResult result
        (λ picks. ArePicks part is_any count (map (λ v. v.now) values.now) picks.items)
        (OrMemory (IsFirstWrongPick part is_any count [] (map (λ v. v.now) values.now))) }
{
    let mut picks = Vec::new(alloc);
    for value in values {
        let Some(pick) = read_pick(part, is_any, count, &picks, value) else {
            return Err(CommandFault::Word(value));
        };
        if picks.push(pick).is_err() {
            return Err(CommandFault::Memory);
        }
    }
    Ok(picks)
}
