//! Laws of the messages that `mirror` reads. These functions do nothing.

ghost use Rattle.pim_mirror.specs.MirrorLaws.{CanonicalMessagesAreShort};
ghost use Rattle.pim_mirror.specs.MirrorLaws.{StateHasMessagesUnlessTooBig};

use crate::laws::canonical_messages_carry_parts;

/// Each canonical message of a normal form has at most as many bytes as the writer's budget. So it
/// is below the 2^32 bytes that `mirror` requires.
pub fn canonical_messages_are_short()
    ensures { CanonicalMessagesAreShort }
{
    pim_form::laws::size_is_length();
    canonical_messages_carry_parts();
}

/// A sound state has canonical messages exactly if the normal form of what it asks of the writer's
/// upstream neighbour has no star that is too big for one message.
pub fn state_has_messages_unless_too_big()
    ensures { StateHasMessagesUnlessTooBig }
{
    pim_form::laws::form_of_demand_toward();
    pim_form::laws::one_normal_form();
    pim_form::laws::messages_are_there_unless_too_big();
}
