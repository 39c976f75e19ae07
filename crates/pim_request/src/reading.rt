//! The command that a line states.

ghost use Rattle.std.specs.Prelude.{◌≡◌, ℕ, List, [], IfOk, IfErr, IfSome, IfNone};
ghost use Rattle.pim_request.specs.Forms.{IsFault};
ghost use Rattle.pim_request.specs.Commands.{no_words, States, StatesSender};
ghost use Rattle.pim_request.specs.Commands.{IsWordsFault, IsSenderFault};
ghost use Rattle.pim_request.specs.Steps.{words_left, IsReading, IsNone};
ghost use Rattle.pim_request.specs.Steps.{names_of_setup, names_of_kept, names_of_router};

use crate::command::{Command, Sender, WordsFault};
use crate::commands::{
    read_change, read_keep, read_limit, read_messages, read_origin, read_packet, read_port,
    read_rp, read_run, read_same, read_via,
};
use crate::slots::line_end;
use crate::words::{cut_at, is_word};

/// Returns this command, if no word is left.
fn alone<'a>(left: Option<&'a [u8]>, command: Command<'a>) -> Result<Command<'a>, WordsFault<'a>>
    ensures read { IfOk result (λ read. (read ≡ command.entry) × (words_left left.entry ≡ [])) }
    ensures fault { IfErr result (λ fault. (word : List ℕ)
        → IsFault no_words word (words_left left.entry) fault) }
{
    line_end(left)?;
    Ok(command)
}

/// Reads the words of a command of configuration, if it is one.
fn read_setup<'a>(
    command: &'a [u8],
    left: Option<&'a [u8]>,
) -> Option<Result<Command<'a>, WordsFault<'a>>>
    ensures read { IfSome result (IsReading command.now (words_left left.entry)) }
    ensures none { IfNone result (IsNone command.now names_of_setup) }
{
    if is_word(command, b"port") {
        return Some(read_port(command, left));
    }
    if is_word(command, b"rp") {
        return Some(read_rp(command, left));
    }
    if is_word(command, b"via") {
        return Some(read_via(command, left));
    }
    if is_word(command, b"limit") {
        return Some(read_limit(command, left));
    }
    if is_word(command, b"start") {
        return Some(alone(left, Command::Start));
    }
    if is_word(command, b"reset") {
        return Some(alone(left, Command::Reset));
    }
    None
}

/// Reads the words of a command on messages or on what is kept, if it is one.
fn read_kept<'a>(
    command: &'a [u8],
    left: Option<&'a [u8]>,
) -> Option<Result<Command<'a>, WordsFault<'a>>>
    ensures read { IfSome result (IsReading command.now (words_left left.entry)) }
    ensures none { IfNone result (IsNone command.now names_of_kept) }
{
    if is_word(command, b"messages") {
        return Some(read_messages(command, left));
    }
    if is_word(command, b"keep") {
        return Some(read_keep(command, left));
    }
    if is_word(command, b"change") {
        return Some(read_change(command, left));
    }
    if is_word(command, b"same") {
        return Some(read_same(command, left));
    }
    None
}

/// Reads the words of another command on a router, if it is one.
fn read_router<'a>(
    command: &'a [u8],
    left: Option<&'a [u8]>,
) -> Option<Result<Command<'a>, WordsFault<'a>>>
    ensures read { IfSome result (IsReading command.now (words_left left.entry)) }
    ensures none { IfNone result (IsNone command.now names_of_router) }
{
    if is_word(command, b"packet") {
        return Some(read_packet(command, left));
    }
    if is_word(command, b"run") {
        return Some(read_run(command, left));
    }
    if is_word(command, b"now") {
        return Some(alone(left, Command::Now));
    }
    if is_word(command, b"next") {
        return Some(alone(left, Command::Next));
    }
    if is_word(command, b"state") {
        return Some(alone(left, Command::State));
    }
    if is_word(command, b"wants") {
        return Some(alone(left, Command::Wants));
    }
    if is_word(command, b"neighbours") {
        return Some(alone(left, Command::Neighbours));
    }
    None
}

/// Returns the command that a line states, or what is wrong with its words.
///
/// # Errors
/// See `WordsFault`. The words are judged from the left.
pub fn read_command(line: &[u8]) -> Result<Command<'_>, WordsFault<'_>>
    ensures states { IfOk result (States line.now) }
    ensures fault { IfErr result (IsWordsFault line.now) }
{
    let cut = cut_at(line, b' ');
    if let Some(read) = read_router(cut.word, cut.left) {
        return read;
    }
    if let Some(read) = read_kept(cut.word, cut.left) {
        return read;
    }
    match read_setup(cut.word, cut.left) {
        Some(read) => read,
        None => Err(WordsFault::Word(cut.word)),
    }
}

/// Returns the sender that a line states whose first word is `from`, or what is wrong with its
/// words.
///
/// # Errors
/// See `WordsFault`. The words are judged from the left.
pub fn read_sender(line: &[u8]) -> Result<Sender, WordsFault<'_>>
    ensures states { IfOk result (StatesSender line.now) }
    ensures fault { IfErr result (IsSenderFault line.now) }
{
    let cut = cut_at(line, b' ');
    if !is_word(cut.word, b"from") {
        return Err(WordsFault::Word(cut.word));
    }
    read_origin(cut.word, cut.left)
}
