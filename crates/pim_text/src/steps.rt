//! The steps by which a text is read: a line that is asked for, and what is asked for after it.

ghost use Rattle.std.specs.Prelude.{◌≡◌, ℕ, ◌∷◌, Option, Some, true, codes, IfSome};
ghost use Rattle.pim_text.specs.declared.line.Line.{Line};
ghost use Rattle.pim_text.specs.Lines.{IsLine};
ghost use Rattle.pim_text.specs.Expected.{is_option, option_after, after_option, is_whole, ends};
ghost use Rattle.pim_text.specs.Expected.{IsStep, OnlyStep};

use crate::fields::number_line;
use crate::line::{Expected, ExpectedBody, Line, LineStep};
use crate::reading_lines::{address_line, delays_line, entry_line, head_line, set_line};

/// Returns whether a text is the first line of a Hello.
fn is_hello(text: &[u8]) -> bool
    ensures yes { result ≡ true → text.now ≡ codes "hello\n" }
    ensures no { text.now ≡ codes "hello\n" → result ≡ true }
{
    text == b"hello\n".as_slice()
}

/// Reads the first line of a message.
fn message_step(text: &[u8]) -> Option<LineStep>
    ensures read { IfSome result (IsStep Expected.Message text.now) }
    ensures only { OnlyStep Expected.Message text.now result }
{
    if is_hello(text) {
        return Some(LineStep {
            line: Line::Hello,
            next: Expected::Options(0),
        });
    }
    let head = head_line(text)?;
    Some(LineStep {
        line: Line::Head(head),
        next: Expected::Body(ExpectedBody {
            joined: 0,
            pruned: 0,
            sets: head.sets,
        }),
    })
}

/// Returns the line of an option or of a secondary address.
fn read_option(text: &[u8]) -> Option<Line>
    ensures read { IfSome result (λ line. IsLine line text.now) }
    ensures only { (line : Line) → is_option line ≡ true → IsLine line text.now → result
        ≡ Some line }
{
    if let Some(seconds) = number_line(text, b"holdtime ", 65_535) {
        return Some(Line::Holdtime(seconds as u16));
    }
    if let Some(delays) = delays_line(text) {
        return Some(Line::Delays(delays));
    }
    if let Some(number) = number_line(text, b"dr-priority ", 4_294_967_295) {
        return Some(Line::Priority(number as u32));
    }
    if let Some(number) = number_line(text, b"generation ", 4_294_967_295) {
        return Some(Line::Generation(number as u32));
    }
    match address_line(text, b"address ") {
        Some(address) => Some(Line::Secondary(address)),
        None => None,
    }
}

/// What is asked for after an option of this place.
fn option_after(from: u8, place: u8, next: u8) -> Option<Expected>
    ensures { result ≡ option_after from place next }
{
    if from <= place {
        Some(Expected::Options(next))
    } else {
        None
    }
}

/// What is asked for after a line of a Hello.
fn after_option(from: u8, line: Line) -> Option<Expected>
    ensures { result ≡ after_option from line }
{
    match line {
        Line::Holdtime(_) => option_after(from, 0, 1),
        Line::Delays(_) => option_after(from, 1, 2),
        Line::Priority(_) => option_after(from, 2, 3),
        Line::Generation(_) => option_after(from, 3, 4),
        Line::Secondary(_) => Some(Expected::Options(4)),
        _ => None,
    }
}

/// Reads an option of a Hello, of the place `from` or a later one.
fn option_step(from: u8, text: &[u8]) -> Option<LineStep>
    ensures read { IfSome result (IsStep (Expected.Options from) text.now) }
    ensures only { OnlyStep (Expected.Options from) text.now result }
{
    let line = read_option(text)?;
    let next = after_option(from, line)?;
    Some(LineStep { line, next })
}

/// Reads a line of a Join/Prune message.
fn body_step(body: ExpectedBody, text: &[u8]) -> Option<LineStep>
    ensures read { IfSome result (IsStep (Expected.Body body) text.now) }
    ensures only { OnlyStep (Expected.Body body) text.now result }
{
    if body.joined > 0 {
        let entry = entry_line(text, b"join ")?;
        return Some(LineStep {
            line: Line::Join(entry),
            next: Expected::Body(ExpectedBody {
                joined: body.joined - 1,
                pruned: body.pruned,
                sets: body.sets,
            }),
        });
    }
    if body.pruned > 0 {
        let entry = entry_line(text, b"prune ")?;
        return Some(LineStep {
            line: Line::Prune(entry),
            next: Expected::Body(ExpectedBody {
                joined: 0,
                pruned: body.pruned - 1,
                sets: body.sets,
            }),
        });
    }
    if body.sets == 0 {
        return None;
    }
    let set = set_line(text)?;
    Some(LineStep {
        line: Line::Set(set),
        next: Expected::Body(ExpectedBody {
            joined: set.joined,
            pruned: set.pruned,
            sets: body.sets - 1,
        }),
    })
}

/// Reads a line that is asked for.
pub(crate) fn step(expected: Expected, text: &[u8]) -> Option<LineStep>
    ensures read { IfSome result (IsStep expected text.now) }
    ensures only { OnlyStep expected text.now result }
{
    match expected {
        Expected::Message => message_step(text),
        Expected::Options(from) => option_step(from, text),
        Expected::Body(body) => body_step(body, text),
    }
}

/// Returns whether nothing more is needed.
pub(crate) fn is_whole(expected: Expected) -> bool
    ensures { result ≡ is_whole expected }
{
    match expected {
        Expected::Message => false,
        Expected::Options(_) => true,
        Expected::Body(body) => body.joined == 0 && body.pruned == 0 && body.sets == 0,
    }
}
