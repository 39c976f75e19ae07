//! Laws on what is requested from one upstream neighbour, and on its messages. Nothing in this
//! module is to be called.

ghost use Rattle.pim_form.specs.TowardLaws.{TestFindsTheNeighbour, OneRowHasOneNeighbour};
ghost use Rattle.pim_form.specs.TowardLaws.{SameMessagesSameDemandToward};
ghost use Rattle.pim_form.specs.Demanded.{DemandedFormIsDemanded};
ghost use Rattle.pim_form.specs.Demanded.{FormOfAllPortsIsTheirForm, MergeIsTheFormOfEither};
ghost use Rattle.pim_form.specs.Demanded.{JoinedStarWantsSomeSource};

use crate::laws::same_messages_same_demand;

/// A normal form passes `is_toward` exactly if the neighbour is the upstream neighbour of
/// everything that the form wants.
pub fn test_finds_the_neighbour()
    ensures { TestFindsTheNeighbour }
{}

/// If one row of the table leads all addresses to one neighbour, and each star has an RP,
/// everything is requested from that neighbour.
pub fn one_row_has_one_neighbour()
    ensures { OneRowHasOneNeighbour }
{
    pim_addr::laws::one_neighbour_for_all();
}

/// By one writer and under one table, the canonical messages of two states to an upstream neighbour
/// are byte-equal exactly if both request the same from it.
pub fn same_messages_same_demand_toward()
    ensures { SameMessagesSameDemandToward }
{
    same_messages_same_demand();
}

/// The merge of what the ports' records give is the normal form of what is requested from a
/// neighbour. `HasDemand` says what it has of each group (RFC 7761, 4.1 and 4.5.4 to 4.5.6). The
/// form has at most 6,400,000 units: as many as there may be records.
pub fn form_of_demand_toward()
    ensures { DemandedFormIsDemanded }
{
    pim_down::laws::keys_are_distinct();
}

/// The merge of what the ports' records give is the normal form of what their machines want
/// (RFC 7761, 4.1).
pub fn form_of_all_ports()
    ensures { FormOfAllPortsIsTheirForm }
{
    pim_down::laws::keys_are_distinct();
}

/// If joins(*,G) isn't empty, some source is wanted on the shared tree of the group.
pub fn joined_star_wants_some_source()
    ensures { JoinedStarWantsSomeSource }
{
    pim_down::laws::keys_are_distinct();
}

/// The merge of the normal forms of two demands is the normal form of what either has.
pub fn merge_is_the_form_of_either()
    ensures { MergeIsTheFormOfEither }
{}
