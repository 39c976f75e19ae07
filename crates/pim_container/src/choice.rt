//! Which packets of a capture are taken.

ghost use Rattle.std.specs.Prelude.{◌≡◌, None, true};
ghost use Rattle.pim_addr.specs.Faults.{Answers, judged};
ghost use Rattle.pim_container.specs.Choice.{choice_of, first_of, fits, is_same_vlan, fits_vlan};
ghost use Rattle.pim_container.specs.Choice.{is_chosen, number_of, has_name, mixed_names};
ghost use Rattle.pim_container.specs.Choice.{mixed_indexes, mixed_numbers, mixed_interfaces};
ghost use Rattle.pim_container.specs.Choice.{first_after, judge_origin, judge_second};
ghost use Rattle.pim_container.specs.Choice.{is_of_link, are_named_alike, mixed_unchosen, mixes};

use crate::event::Origin;
use pim_capture::{InterfaceChoice, InterfaceName, Vlan};

/// Which packets are taken: those of one VLAN or interface, or of each.
#[derive(Clone, Copy, Debug, PartialEq, Eq)]
pub struct Choice {
    /// The VLAN. `None` is each, as long as the packets have one.
    pub vlan: Option<Vlan>,
    /// The interface. `None` is each, as long as the packets have one.
    pub interface: Option<InterfaceChoice>,
    /// Packets of more than one link are taken.
    pub mixes_links: bool,
}

/// The packets have more than one link, and none is chosen; or the chosen number of an interface
/// means two names.
#[derive(Clone, Copy, Debug, PartialEq, Eq)]
pub enum Mixed {
    /// A packet is of an interface with another name than that of the first one.
    Names {
        /// The name of the first one's interface.
        first: InterfaceName,
        /// That of the packet's.
        other: InterfaceName,
    },
    /// A packet is of an interface with another number or index than that of the first one.
    Numbers {
        /// The number by which the first one's interface is chosen, or one in which they differ.
        first: u32,
        /// That of the packet's.
        other: u32,
    },
    /// A packet is of another VLAN than the first one.
    Vlans {
        /// The first one's VLAN.
        first: Vlan,
        /// The packet's.
        other: Vlan,
    },
}

/// Takes packets by a choice.
#[derive(Clone, Copy, Debug)]
pub struct Chooser {
    choice: Choice,
    first: Option<Origin>,
}

/// The number by which the interface of a packet is chosen.
fn number_of(origin: Origin) -> u32
    ensures { result ≡ number_of origin }
{
    if origin.index == 0 {
        origin.interface
    } else {
        origin.index
    }
}

/// Whether the name of an interface is this one.
fn has_name(name: InterfaceName, other: Option<InterfaceName>) -> bool
    ensures { result ≡ has_name name other }
{
    match other {
        Some(other) => name.is_same(&other),
        None => false,
    }
}

/// Whether a packet is of the chosen interface.
fn fits(chosen: Option<InterfaceChoice>, origin: Origin) -> bool
    ensures { result ≡ fits chosen origin }
{
    let Some(chosen) = chosen else {
        return true;
    };
    match chosen {
        InterfaceChoice::Number(number) => number == number_of(origin),
        InterfaceChoice::Name(name) => has_name(name, origin.name),
    }
}

/// Whether two VLANs are the same.
fn is_same_vlan(one: Vlan, other: Vlan) -> bool
    ensures { result ≡ is_same_vlan one other }
{
    one.outer == other.outer && one.inner == other.inner
}

/// Whether a VLAN is the chosen one.
fn fits_vlan(chosen: Option<Vlan>, vlan: Vlan) -> bool
    ensures { result ≡ fits_vlan chosen vlan }
{
    match chosen {
        Some(it) => is_same_vlan(it, vlan),
        None => true,
    }
}

/// Whether a frame of this origin is of the chosen link.
fn is_of_link(choice: Choice, origin: Origin) -> bool
    ensures { result ≡ is_of_link choice origin }
{
    fits_vlan(choice.vlan, origin.vlan) && fits(choice.interface, origin)
}

/// Whether a packet of this origin is of the chosen link, and no copy.
fn is_chosen(choice: Choice, origin: Origin) -> bool
    ensures { result ≡ is_chosen choice origin }
{
    !origin.is_copy && is_of_link(choice, origin)
}

/// Judges the names of the interfaces of two packets.
fn judge_names(first: Option<InterfaceName>, other: Option<InterfaceName>) -> Result<bool, Mixed>
    ensures { Answers (λ it. it) result (judged (mixed_names first other) true) }
{
    let Some(first) = first else {
        return Ok(true);
    };
    let Some(other) = other else {
        return Ok(true);
    };
    if !first.is_same(&other) {
        return Err(Mixed::Names { first, other });
    }
    Ok(true)
}

/// Judges the indexes of two packets in cooked headers.
fn judge_indexes(first: Origin, origin: Origin) -> Result<bool, Mixed>
    ensures { Answers (λ it. it) result (judged (mixed_indexes first origin) true) }
{
    if first.index != origin.index {
        return Err(Mixed::Numbers {
            first: first.index,
            other: origin.index,
        });
    }
    Ok(true)
}

/// Judges the numbers and indexes of the interfaces of two packets.
fn judge_numbers(first: Origin, origin: Origin) -> Result<bool, Mixed>
    ensures { Answers (λ it. it) result (judged (mixed_numbers first origin) true) }
{
    let (one, other) = (number_of(first), number_of(origin));
    if one != other {
        return Err(Mixed::Numbers { first: one, other });
    }
    if first.interface != origin.interface {
        return Err(Mixed::Numbers {
            first: first.interface,
            other: origin.interface,
        });
    }
    judge_indexes(first, origin)
}

/// Whether two interfaces have names, and these are the same.
fn are_named_alike(first: Option<InterfaceName>, other: Option<InterfaceName>) -> bool
    ensures { result ≡ are_named_alike first other }
{
    match first {
        Some(first) => has_name(first, other),
        None => false,
    }
}

/// Judges the interfaces of two packets, where none is chosen.
fn judge_unchosen(first: Origin, origin: Origin) -> Result<bool, Mixed>
    ensures { Answers (λ it. it) result (judged (mixed_unchosen first origin) true) }
{
    if are_named_alike(first.name, origin.name) {
        return judge_indexes(first, origin);
    }
    judge_names(first.name, origin.name)?;
    judge_numbers(first, origin)
}

/// Judges the interfaces of two packets, where this one is chosen or none is.
fn judge_interfaces(
    chosen: Option<InterfaceChoice>,
    first: Origin,
    origin: Origin,
) -> Result<bool, Mixed>
    ensures { Answers (λ it. it) result (judged (mixed_interfaces chosen first origin) true) }
{
    match chosen {
        None => judge_unchosen(first, origin),
        Some(InterfaceChoice::Number(_)) => judge_names(first.name, origin.name),
        Some(InterfaceChoice::Name(_)) => judge_indexes(first, origin),
    }
}

/// Judges a chosen packet by the origin of the first one.
fn judge_second(choice: Choice, first: Origin, origin: Origin) -> Result<bool, Mixed>
    ensures { Answers (λ it. it) result (judge_second choice first origin) }
{
    if choice.mixes_links {
        return Ok(true);
    }
    judge_interfaces(choice.interface, first, origin)?;
    if choice.vlan.is_none() && !is_same_vlan(first.vlan, origin.vlan) {
        return Err(Mixed::Vlans {
            first: first.vlan,
            other: origin.vlan,
        });
    }
    Ok(true)
}

impl Chooser {
    /// A chooser that has taken nothing.
    pub fn new(choice: Choice) -> Self
        ensures choice { choice_of result ≡ choice }
        ensures first { first_of result ≡ None }
    {
        Chooser {
            choice,
            first: None,
        }
    }

    /// Whether a frame of this origin is of the chosen link.
    pub fn is_of_link(&self, origin: Origin) -> bool
        ensures { result ≡ is_of_link (choice_of self.now) origin }
    {
        is_of_link(self.choice, origin)
    }

    /// Whether a packet of this origin is taken, and so may be packets of other links.
    pub fn mixes(&self, origin: Origin) -> bool
        ensures { result ≡ mixes (choice_of self.now) origin }
    {
        self.choice.mixes_links && is_chosen(self.choice, origin)
    }

    /// Whether the packet of this origin is taken. Where links are mixed there is no error.
    ///
    /// # Errors
    /// It is chosen, and of another interface or VLAN than the first packet that was taken, where
    /// no interface or VLAN is chosen. Or its interface has another name, where a number is chosen.
    pub fn take(&mut self, origin: Origin) -> Result<bool, Mixed>
        ensures answer { Answers (λ it. it) result
            (judge_origin (choice_of self.old) (first_of self.old) origin) }
        ensures choice { choice_of self.new ≡ choice_of self.old }
        ensures first { first_of self.new
            ≡ first_after (choice_of self.old) (first_of self.old) origin }
    {
        if !is_chosen(self.choice, origin) {
            return Ok(false);
        }
        let first = self.first;
        let Some(first) = first else {
            self.first = Some(origin);
            return Ok(true);
        };
        judge_second(self.choice, first, origin)
    }
}
