//! The laws on what a line asks for. These functions do nothing.

ghost use Rattle.pim_request.specs.OneRequest.{OneCommand, OneWordsFault, NoFaultIfStated};
ghost use Rattle.pim_request.specs.OneRequest.{OneSender, OneSenderFault, NoSenderFaultIfStated};

/// A law: a line states at most one command.
pub fn line_states_one_command()
    ensures { OneCommand }
{
    pim_text::laws::text_names_one_of_either();
}

/// A law: a line has at most one fault of its words, and none where it states a command.
pub fn line_has_one_fault()
    ensures one { OneWordsFault }
    ensures none { NoFaultIfStated }
{}

/// A law: a line that begins a text states at most one sender.
pub fn line_states_one_sender()
    ensures { OneSender }
{
    pim_text::laws::text_names_one_of_either();
}

/// A law: a line that begins a text has at most one fault of its words, and none where it states a
/// sender.
pub fn sender_has_one_fault()
    ensures one { OneSenderFault }
    ensures none { NoSenderFaultIfStated }
{}
