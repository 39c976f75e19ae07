//! The laws on the answers of a session. These functions do nothing.

ghost use Rattle.pim_session.specs.OneDialog.{OneAnswerToItem, OneDialog, DialogWithRoom};

use pim_answers::laws::{
    demand_has_one_answer, messages_have_one_answer, packet_has_one_answer, run_has_one_answer,
};
use pim_request::laws::{
    line_has_one_fault, line_states_one_command, line_states_one_sender, sender_has_one_fault,
};
use pim_text::laws::{
    stated_text_has_no_wrong_line, text_has_one_wrong_line, text_is_read_in_one_way,
};

/// A law: an item has at most one answer other than `memory`.
pub fn item_has_one_answer()
    ensures { OneAnswerToItem }
{
    line_states_one_command();
    line_has_one_fault();
    line_states_one_sender();
    sender_has_one_fault();
    text_is_read_in_one_way();
    text_has_one_wrong_line();
    stated_text_has_no_wrong_line();
    run_has_one_answer();
    packet_has_one_answer();
    demand_has_one_answer();
    messages_have_one_answer();
}

/// A law: two dialogs of the same items, which nowhere answer `memory`, are the same, and lead to
/// the same session.
pub fn session_has_one_dialog()
    ensures one { OneDialog }
    ensures dialog { DialogWithRoom }
{
    item_has_one_answer();
}
