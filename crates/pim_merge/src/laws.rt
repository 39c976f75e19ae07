//! Laws of the definitions. Nothing in this module is to be called.

ghost use Rattle.pim_merge.specs.CensusLaws.{MissedIsNamedByNone, UnservedIsJoined};
ghost use Rattle.pim_merge.specs.Laws.{MergeHasOneEnd, MergeByHasOneEnd};
ghost use Rattle.pim_merge.specs.OneLink.{OneLinkIsReadAlike, MergesAlike};
ghost use Rattle.pim_merge.specs.OneLink.{RecordsHoldAlike};

/// The turns of a merge and its end are a function of the results of its captures.
pub fn merge_has_one_end()
    ensures { MergeHasOneEnd }
{}

/// The turns of a merge that ends at a time, and its end, are a function of the results of its
/// captures and of that time.
pub fn merge_by_has_one_end()
    ensures { MergeByHasOneEnd }
{}

/// A classic file of one link without further tags, fragments and headers before PIM gives the same
/// records whether `add` or `add_any` appends it, up to a record inside which the file ends.
pub fn one_link_is_read_alike()
    ensures { OneLinkIsReadAlike }
{
    pim_container::laws::classic_agrees_exactly();
}

/// A merge takes the same records of such captures at the same moments, and ends in the same way.
/// None of their files ends inside a record.
pub fn merges_are_alike()
    ensures { MergesAlike }
{}

/// Such a record has the same content for a router, and the same time.
pub fn records_hold_alike()
    ensures { RecordsHoldAlike }
{}

/// A census misses its address exactly where messages count, and none of them names it as its
/// upstream neighbour.
pub fn missed_is_named_by_none()
    ensures { MissedIsNamedByNone }
{}

/// The group that a census names has no RP. A message that counts has a Join(\*,G) of it for the own
/// address.
pub fn unserved_is_joined()
    ensures { UnservedIsJoined }
{
    pim_jp::laws::legal_is_spelled();
    pim_jp::laws::spelled_is_message();
}
