//! The links of messages, in the order met.

ghost use Rattle.std.specs.Prelude.{◌≡◌, ◌≤◌, length, if◌then◌else◌};
ghost use Rattle.std.specs.Result.{IfOk, OnErr};
ghost use Rattle.pim_summary.specs.Lists.{Ascends};
ghost use Rattle.pim_summary.specs.Routers.{upstream_address};
ghost use Rattle.pim_summary.specs.Summary.{same_interface, same_link, link_place, keeps_link};
ghost use Rattle.pim_summary.specs.Summary.{with_link, linked, upstreams_linked};

use crate::facts::{LinkFacts, UpstreamFacts};
use crate::listed::find;
use crate::routers::one_more;
use pim_capture::{InterfaceChoice, Link};
use pim_lines::AnyAddress;
use std::alloc::AllocError;

/// The greatest number of links.
const MOST_LINKS: usize = 16;

/// Whether two interfaces are chosen by the same word.
fn same_interface(one: InterfaceChoice, other: InterfaceChoice) -> bool
    ensures { result ≡ same_interface one other }
{
    match (one, other) {
        (InterfaceChoice::Number(one), InterfaceChoice::Number(other)) => one == other,
        (InterfaceChoice::Name(one), InterfaceChoice::Name(other)) => one.is_same(&other),
        _ => false,
    }
}

/// Whether two links are the same.
fn same_link(one: Link, other: Link) -> bool
    ensures { result ≡ same_link one other }
{
    one.vlan.outer == other.vlan.outer
        && one.vlan.inner == other.vlan.inner
        && same_interface(one.interface, other.interface)
}

/// The number of links before this one.
fn link_place(links: &[LinkFacts], link: Link) -> usize
    ensures { result ≡ link_place link links.now }
{
    let mut place = 0;
    for facts in links {
        if same_link(link, facts.link) {
            return place;
        }
        place += 1;
    }
    place
}

/// Counts one message more of a link. Returns whether the link is listed.
pub(crate) fn count_link(links: &mut Vec<LinkFacts>, link: Link) -> Result<bool, AllocError>
    ensures links { IfOk result (λ is_kept. links.new.items
        ≡ (if keeps_link link links.old.items then with_link link links.old.items
        else links.old.items)) }
    ensures kept { IfOk result (λ is_kept. is_kept ≡ keeps_link link links.old.items) }
    ensures unchanged { OnErr result (links.new.items ≡ links.old.items) }
{
    let place = link_place(links, link);
    if MOST_LINKS <= place {
        return Ok(false);
    }
    if place < links.len() {
        links[place].messages = one_more(links[place].messages);
        return Ok(true);
    }
    links.push(LinkFacts { link, messages: 1 })?;
    Ok(true)
}

/// Sets the link of an upstream neighbour, unless it has one.
fn set_link(upstream: &mut UpstreamFacts, link: Link)
    ensures { upstream.new ≡ linked link upstream.old }
{
    upstream.link = Some(upstream.link.unwrap_or(link));
}

/// Sets the link of the upstream neighbour with this address, if it is listed.
pub(crate) fn link_upstream(upstreams: &mut Vec<UpstreamFacts>, to: Option<AnyAddress>, link: Link)
    requires order { Ascends upstream_address upstreams.old.items }
    ensures upstreams { upstreams.new.items ≡ upstreams_linked to link upstreams.old.items }
    ensures order { Ascends upstream_address upstreams.new.items }
{
    let Some(to) = to else {
        return;
    };
    let place = find(upstreams, to);
    if place.is_there {
        set_link(&mut upstreams[place.at], link);
    }
}
