//! Laws of the definitions. Nothing in this module is to be called.

ghost use Rattle.pim_container.specs.Agreement.{AgreesOnClassic, AgreesExactly};
ghost use Rattle.pim_container.specs.Choice.{OneLinkIsAFilter, MixedLinksAreAFilter};

/// For a classic file whose header `pim_capture` accepts, this crate returns the same after the
/// beginning of the section, but for frames with further tags, fragments and headers of IPv6 before
/// PIM.
pub fn classic_agrees()
    ensures { AgreesOnClassic }
{}

/// For such a file in which no frame has a further tag, is a fragment or has a header before PIM,
/// both crates return the same.
pub fn classic_agrees_exactly()
    ensures { AgreesExactly }
{}

/// Where a VLAN and the number of an interface are chosen, and that means one name, a choice is a
/// filter, packet by packet.
pub fn one_link_is_a_filter()
    ensures { OneLinkIsAFilter }
{}

/// Where links may be mixed, a choice is a filter, packet by packet.
pub fn mixed_links_are_a_filter()
    ensures { MixedLinksAreAFilter }
{}
