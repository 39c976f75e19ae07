//! The laws on what a text states. These functions do nothing.

ghost use Rattle.pim_text.specs.OneReading.{OneName, OneMessage, OneRead, OneWrongLine};
ghost use Rattle.pim_text.specs.OneReading.{NoWrongLineIfStated, OneBody, LongBody};

use pim_addr::text_names_one_address;

/// A law: a text names at most one address, of either family.
pub fn text_names_one_of_either()
    ensures { OneName }
{
    text_names_one_address();
}

/// A law: a text states at most one message.
pub fn text_states_one_message()
    ensures { OneMessage }
{
    text_names_one_of_either();
}

/// A law: what is read of a text is one thing: the kind of its message, and whether all its
/// addresses are of one family.
pub fn text_is_read_in_one_way()
    ensures { OneRead }
{}

/// A law: a text has at most one line that is the first wrong one.
pub fn text_has_one_wrong_line()
    ensures { OneWrongLine }
{}

/// A law: a text that states a message has no wrong line.
pub fn stated_text_has_no_wrong_line()
    ensures { NoWrongLineIfStated }
{}

/// A law: the body of the message that a text states is one, and so is its kind. Where the text is
/// too long, so is that body.
pub fn text_has_one_body()
    ensures body { OneBody }
    ensures long { LongBody }
{
    text_states_one_message();
}
