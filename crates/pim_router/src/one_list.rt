//! The laws on the messages to a neighbour. These functions do nothing.

ghost use Rattle.pim_router.specs.OneList.{OneListIsDemanded, OneIsTooBig};
ghost use Rattle.pim_router.specs.OneList.{OneListIsTheChange, OneChangeIsTooBig};

/// What is asked of a neighbour has at most one list of canonical messages, and one least group
/// whose star is too big, or none.
pub fn one_list_is_demanded()
    ensures list { OneListIsDemanded }
    ensures big { OneIsTooBig }
{
    pim_form::laws::one_normal_form();
    pim_form::laws::one_list_of_messages();
}

/// The change from a form to what is asked now has at most one list of messages, and one least
/// group whose star is too big, or none.
pub fn one_list_is_the_change()
    ensures list { OneListIsTheChange }
    ensures big { OneChangeIsTooBig }
{
    pim_form::laws::one_normal_form();
    pim_change::laws::one_list_of_change();
}
