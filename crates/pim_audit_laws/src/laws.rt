//! The laws of this crate. Nothing in this module is to be called.

ghost use Rattle.pim_audit_laws.specs.Laws.{NothingDueIsOneForm, NothingDueIsOneDemand};
ghost use Rattle.pim_audit_laws.specs.Laws.{NothingDueIsOneList, OneListIsNothingDue};
ghost use Rattle.pim_audit_laws.specs.Laws.{WithoutLocalIsDemanded};

/// Between two normal forms nothing is due exactly if they are one form.
pub fn nothing_due_is_one_form()
    ensures { NothingDueIsOneForm }
{
    pim_form::laws::one_normal_form();
    pim_change::laws::equal_forms_change_nothing();
    pim_change::laws::addresses_are_in_order();
}

/// While the upstream neighbour is known, nothing is due exactly if it was asked for what the
/// router wants of it, for its machines or its local receivers. Then the normal forms of one demand
/// are those of the other.
pub fn nothing_due_is_one_demand()
    ensures { NothingDueIsOneDemand }
{
    nothing_due_is_one_form();
    pim_form::laws::one_normal_form();
}

/// Without local receivers the router wants of a neighbour what it asks of it in its messages, that
/// is, what its machines want.
pub fn without_local_is_demanded()
    ensures { WithoutLocalIsDemanded }
{}

/// If nothing is due while the neighbour is known, the canonical messages of what it was asked for
/// are those of what the router asks of it, and there is one list of them. The router has no local
/// receivers.
pub fn nothing_due_is_one_list()
    ensures { NothingDueIsOneList }
{
    nothing_due_is_one_demand();
    without_local_is_demanded();
    pim_router::laws::one_list_is_demanded();
}

/// If the canonical messages of what the neighbour was asked for are those of what the router asks
/// of it, nothing is due. Each star that the neighbour was asked for has an RP. The router has no
/// local receivers.
pub fn one_list_is_nothing_due()
    ensures { OneListIsNothingDue }
{
    nothing_due_is_one_form();
    pim_form::laws::one_normal_form();
    pim_form::laws::messages_carry_the_form();
    pim_mirror::laws::demanded_stars_have_rps();
    without_local_is_demanded();
}
