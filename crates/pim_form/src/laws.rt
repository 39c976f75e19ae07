//! Laws of the definitions. Nothing in this module is to be called.

ghost use Rattle.pim_form.specs.Laws.{SealedMessageIsRead, SomeSourceIsOutside, OneNormalForm};
ghost use Rattle.pim_form.specs.Laws.{OnePacking};
ghost use Rattle.pim_form.specs.Laws.{MessagesCarryTheForm, OneListOfMessages};
ghost use Rattle.pim_form.specs.Laws.{SameMessagesSameDemand, SizeIsLength};
ghost use Rattle.pim_form.specs.Laws.{OneNeighbourGetsAll, FirstRunIsWritten};
ghost use Rattle.pim_form.specs.Laws.{UnitsPackIfEachFits, MessagesAreThereUnlessTooBig};
ghost use Rattle.pim_form.specs.Demanded.{GroupsAreCounted};

pub use crate::toward_laws::{
    form_of_all_ports, form_of_demand_toward, joined_star_wants_some_source,
    merge_is_the_form_of_either, one_row_has_one_neighbour, same_messages_same_demand_toward,
    test_finds_the_neighbour,
};

/// A canonical message that is sealed for ALL-PIM-ROUTERS opens without a fault, and its body is
/// read as that message (RFC 7761, 4.9 and 4.9.5). The law is in this crate because neither
/// pim_frame nor pim_jp depends on the other.
pub fn sealed_message_is_read()
    ensures { SealedMessageIsRead }
{
    pim_frame::sealed_opens();
    pim_jp::laws::canonical_is_read();
}

/// Outside of any 100,000 exceptions there is a valid source, in both families.
pub fn some_source_is_outside()
    ensures { SomeSourceIsOutside }
{}

/// Two normal forms that want the same are equal.
pub fn one_normal_form()
    ensures { OneNormalForm }
{}

/// A list of units has at most one packing within a budget.
pub fn one_packing()
    ensures { OnePacking }
{}

/// A nonempty run at the front of the units that fits, and would not fit with the next unit, is the
/// first run of any packing.
pub fn first_run_is_written()
    ensures { FirstRunIsWritten }
{}

/// The size of a run that fits is the length of its message in bytes.
pub fn size_is_length()
    ensures { SizeIsLength }
{
    pim_jp::laws::canonical_has_its_length();
}

/// Normal forms with the same canonical messages by one writer are equal.
pub fn messages_carry_the_form()
    ensures { MessagesCarryTheForm }
{
    pim_frame::sealed_opens();
    pim_jp::laws::canonical_is_read();
}

/// A form has at most one list of canonical messages by a writer.
pub fn one_list_of_messages()
    ensures { OneListOfMessages }
{
    pim_frame::one_checksum();
}

/// The canonical messages of two demands by one writer are byte-equal exactly if the demands agree
/// on valid sources, groups and both trees.
pub fn same_messages_same_demand()
    ensures { SameMessagesSameDemand }
{
    pim_frame::one_checksum();
    pim_frame::sealed_opens();
    pim_jp::laws::canonical_is_read();
}

/// If one neighbour reaches all addresses, and each group wanted on the shared tree has an RP, the
/// whole demand is requested from that neighbour.
pub fn one_neighbour_gets_all()
    ensures { OneNeighbourGetsAll }
{}

/// A part of a form, ascending and without empty groups, has as many groups as its units belong to.
pub fn groups_are_counted()
    ensures { GroupsAreCounted }
{}

/// A list of units has a packing within a budget exactly if each unit fits a message alone.
pub fn units_pack_if_each_fits()
    ensures { UnitsPackIfEachFits }
{}

/// A normal form has canonical messages by a writer exactly if no star is too big for one message
/// of that writer.
pub fn messages_are_there_unless_too_big()
    ensures { MessagesAreThereUnlessTooBig }
{
    pim_frame::some_message_is_sealed();
}
