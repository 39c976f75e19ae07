//! Laws of the definitions. Nothing in this module is to be called.

ghost use Rattle.pim_change.specs.Laws.{EqualFormsChangeNothing, ChangeIsRead};
ghost use Rattle.pim_change.specs.Laws.{ChangeMessagesAreShort};
ghost use Rattle.pim_change.specs.Laws.{AddressesAreInOrder, ChangeHasMessagesUnlessTooBig};
ghost use Rattle.pim_change.specs.Laws.{NewStarsAloneAreTooBig, OneListOfChange};

/// The change from a form to itself has no units.
pub fn equal_forms_change_nothing()
    ensures { EqualFormsChangeNothing }
{}

/// The first star of a change that is too big for a message alone is the first such star of the new
/// form, of the groups of which the old form has no star.
pub fn new_stars_alone_are_too_big()
    ensures { NewStarsAloneAreTooBig }
{}

/// Between two normal forms whose stars have RPs, the messages of the change open without a fault.
/// They are read as the messages of the change's runs (RFC 7761, 4.9 and 4.9.5).
pub fn change_is_read()
    ensures { ChangeIsRead }
{
    pim_form::laws::sealed_message_is_read();
}

/// The messages of the change between two normal forms, whose stars have RPs, are within their
/// writer's budget.
pub fn change_messages_are_short()
    ensures { ChangeMessagesAreShort }
{
    pim_jp::laws::canonical_has_its_length();
}

/// Addresses in order are strictly ascending, and they are the addresses of the list.
pub fn addresses_are_in_order()
    ensures { AddressesAreInOrder }
{}

/// The change between two forms has messages by a writer exactly if no new star of it is too big
/// for one message of that writer.
pub fn change_has_messages_unless_too_big()
    ensures { ChangeHasMessagesUnlessTooBig }
{
    pim_frame::some_message_is_sealed();
    pim_form::laws::units_pack_if_each_fits();
}

/// The change between two forms has at most one list of messages by a writer.
pub fn one_list_of_change()
    ensures { OneListOfChange }
{
    pim_frame::one_checksum();
    pim_form::laws::one_packing();
}
