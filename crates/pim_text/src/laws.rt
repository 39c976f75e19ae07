//! The laws of texts. These functions do nothing.

ghost use Rattle.pim_text.specs.Laws.{StatedInItsFamily, MessageTextStates, HelloTextStates};
ghost use Rattle.pim_text.specs.Laws.{WholeBodyIsItsMessage};

pub use crate::one_reading::{
    stated_text_has_no_wrong_line, text_has_one_body, text_has_one_wrong_line,
    text_is_read_in_one_way, text_names_one_of_either, text_states_one_message,
};
use pim_addr::written_text_names;
use pim_jp::laws::legal_is_spelled;

/// A law: a text whose addresses are all of one family states a Hello or a Join/Prune message of
/// that family.
#[tactic(auto, using(crate::proofs::InFamily::stated_in))]
pub fn stated_in_its_family()
    ensures { StatedInItsFamily }
{}

/// A law: the text that `message_text` writes states the message that was written.
pub fn message_text_states()
    ensures { MessageTextStates }
{
    written_text_names();
}

/// A law: the text that `hello_text` writes states the Hello that was written.
pub fn hello_text_states()
    ensures { HelloTextStates }
{
    written_text_names();
}

/// A law: the text that `partial_text` writes of a whole body without a fault is the text of the
/// message that is read from it.
pub fn whole_body_is_its_message()
    ensures { WholeBodyIsItsMessage }
{
    legal_is_spelled();
}
