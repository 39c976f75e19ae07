//! Laws of route tables. The functions have no effect.

ghost use Rattle.pim_addr.specs.RouteLaws.{RowIsAddedAtItsPrefix, RouteMapHasOneList};
ghost use Rattle.pim_addr.specs.RouteLaws.{OrderOfAddingIsFree};
ghost use Rattle.pim_addr.specs.RouteLaws.{OneRpForAllGroups, OneNeighbourForAll};

/// A law: adding a row sets its own prefix, changes no other, and keeps the rows in order.
pub fn row_is_added_at_its_prefix()
    ensures { RowIsAddedAtItsPrefix }
{}

/// A law: a map from prefixes to addresses has one list of rows in order.
pub fn route_map_has_one_list()
    ensures { RouteMapHasOneList }
{}

/// A law: the order in which rows are added changes neither the map nor its lookups.
pub fn order_of_adding_is_free()
    ensures { OrderOfAddingIsFree }
{}

/// A law: a table whose only row to an RP has the prefix of all groups leads each group to that RP.
pub fn one_rp_for_all_groups()
    ensures { OneRpForAllGroups }
{}

/// A law: a table whose only row to a neighbour has the empty prefix leads each address to it.
pub fn one_neighbour_for_all()
    ensures { OneNeighbourForAll }
{}
