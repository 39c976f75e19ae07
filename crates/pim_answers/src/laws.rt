//! The laws on the answers of a router. These functions do nothing.

ghost use Rattle.pim_answers.specs.OneAnswer.{OneRun, OnePacket, OneFrom, OneKeep, OneNext};
ghost use Rattle.pim_answers.specs.OneAnswer.{OneWants, OneMessages, OneChange, OneSame};

/// A law: `run` has one answer.
pub fn run_has_one_answer()
    ensures { OneRun }
{
    pim_router::laws::run_has_one_end();
}

/// A law: a packet has one answer, given by its bytes or by a text, but that memory may be refused.
pub fn packet_has_one_answer()
    ensures packet { OnePacket }
    ensures text { OneFrom }
{
    pim_text::laws::text_has_one_body();
    pim_frame::one_checksum();
}

/// A law: `keep`, `wants` and `next` have one answer each, but that memory may be refused.
pub fn demand_has_one_answer()
    ensures keep { OneKeep }
    ensures wants { OneWants }
    ensures next { OneNext }
{
    pim_form::laws::one_normal_form();
}

/// A law: `messages`, `change` and `same` have one answer each, but that memory may be refused.
pub fn messages_have_one_answer()
    ensures messages { OneMessages }
    ensures change { OneChange }
    ensures same { OneSame }
{
    pim_form::laws::one_list_of_messages();
    pim_router::laws::one_list_is_demanded();
    pim_router::laws::one_list_is_the_change();
}
