//! What an audit says of its turns, one line for each thing.

ghost use Rattle.std.specs.Prelude.{◌≡◌, ◌++◌, ℕ, List, map, OnOk};
ghost use Rattle.std.specs.List.{flat_map};
ghost use Rattle.std.specs.Option.{option_map};
ghost use Rattle.pim_down.specs.Seen.{event_seen};
ghost use Rattle.pim_audit_events.specs.Seen.{origin_seen, line_seen, lines_seen};
ghost use Rattle.pim_audit.specs.Lines.{ended_line, due_line, late_line, effect_lines};
ghost use Rattle.pim_audit.specs.Lines.{restart_lines, message_lines, origin_if_heard};
ghost use Rattle.pim_audit.specs.Seen.{due_seen, dues_seen};
ghost use Rattle.pim_audit.specs.TurnLines.{report_lines, end_lines, turn_lines};

use crate::due::Due;
use crate::look::Report;
use crate::passing::Ended;
use crate::taking::Effect;
use crate::turn::TurnReport;
use pim_addr::Family;
use pim_audit_events::{AuditEvent, AuditLine, Loss, MessageOrigin};
use pim_down::Event;
use pim_events::OwnRestart;
use std::alloc::AllocError;

/// The line of an entry that ended: a message of this origin sent it, or else it is no longer due.
fn ended_line<F: Family>(
    moment: u64,
    origin: Option<MessageOrigin<F::Addr>>,
    held: &Due<F::Addr>,
) -> AuditLine<F::Addr>
    ensures { line_seen F.bytes_of result ≡ ended_line moment
        (option_map (origin_seen F.bytes_of) origin) (due_seen F.bytes_of held.now) }
{
    let entry = held.entry;
    let after = moment.saturating_sub(held.since);
    let said = match origin {
        Some(_) => AuditEvent::Sent { entry, after },
        None => AuditEvent::Dropped { entry, after },
    };
    AuditLine {
        moment,
        origin,
        said,
    }
}

/// Adds the line of each entry that ended.
fn push_ended<F: Family>(
    lines: &mut Vec<AuditLine<F::Addr>>,
    moment: u64,
    origin: Option<MessageOrigin<F::Addr>>,
    ended: &[Due<F::Addr>],
) -> Result<(), AllocError>
    ensures { OnOk result (lines_seen F.bytes_of lines.new.items
        ≡ lines_seen F.bytes_of lines.old.items
        ++ map (ended_line moment (option_map (origin_seen F.bytes_of) origin))
        (dues_seen F.bytes_of ended.now)) }
{
    for held in ended {
        lines.push(ended_line::<F>(moment, origin, held))?;
    }
    Ok(())
}

/// Adds the line of each entry that became due.
fn push_due<F: Family>(
    lines: &mut Vec<AuditLine<F::Addr>>,
    moment: u64,
    entries: &[Event<F::Addr>],
) -> Result<(), AllocError>
    ensures { OnOk result (lines_seen F.bytes_of lines.new.items
        ≡ lines_seen F.bytes_of lines.old.items
        ++ map (due_line moment) (map (event_seen F.bytes_of) entries.now)) }
{
    for &entry in entries {
        lines.push(AuditLine {
            moment,
            origin: None,
            said: AuditEvent::Due(entry),
        })?;
    }
    Ok(())
}

/// Adds the line of each entry that became late.
fn push_late<F: Family>(
    lines: &mut Vec<AuditLine<F::Addr>>,
    moment: u64,
    late: &[Due<F::Addr>],
) -> Result<(), AllocError>
    ensures { OnOk result (lines_seen F.bytes_of lines.new.items
        ≡ lines_seen F.bytes_of lines.old.items
        ++ map (late_line moment) (dues_seen F.bytes_of late.now)) }
{
    for held in late {
        let entry = held.entry;
        let since = held.since;
        lines.push(AuditLine {
            moment,
            origin: None,
            said: AuditEvent::Late { entry, since },
        })?;
    }
    Ok(())
}

/// Adds the lines of a look: what ended, what became due, and what became late.
pub(crate) fn push_look<F: Family>(
    lines: &mut Vec<AuditLine<F::Addr>>,
    moment: u64,
    origin: Option<MessageOrigin<F::Addr>>,
    report: &Report<F::Addr>,
) -> Result<(), AllocError>
    ensures { OnOk result (lines_seen F.bytes_of lines.new.items
        ≡ lines_seen F.bytes_of lines.old.items
        ++ report_lines F.bytes_of moment (option_map (origin_seen F.bytes_of) origin)
        report.now) }
{
    push_ended::<F>(lines, moment, origin, &report.ended)?;
    push_due::<F>(lines, moment, &report.new)?;
    push_late::<F>(lines, moment, &report.late)
}

/// Adds the lines of an end of a time.
fn push_end<F: Family>(
    lines: &mut Vec<AuditLine<F::Addr>>,
    ended: &Ended<F::Addr>,
) -> Result<(), AllocError>
    ensures { OnOk result (lines_seen F.bytes_of lines.new.items
        ≡ lines_seen F.bytes_of lines.old.items ++ end_lines F.bytes_of ended.now) }
{
    if ended.is_gone {
        lines.push(AuditLine {
            moment: ended.moment,
            origin: None,
            said: AuditEvent::Lost(Loss::TimedOut),
        })?;
    }
    push_look::<F>(lines, ended.moment, None, &ended.report)
}

/// Adds the lines of the ends on the way to a moment.
///
/// # Errors
/// Memory was refused: some first lines were added.
pub(crate) fn push_ends<F: Family>(
    lines: &mut Vec<AuditLine<F::Addr>>,
    ends: &[Ended<F::Addr>],
) -> Result<(), AllocError>
    ensures { OnOk result (lines_seen F.bytes_of lines.new.items
        ≡ lines_seen F.bytes_of lines.old.items ++ flat_map (end_lines F.bytes_of) ends.now) }
{
    for ended in ends {
        push_end::<F>(lines, ended)?;
    }
    Ok(())
}

/// Adds the line of what a message did, but for entries that it sent.
fn push_effect<F: Family>(
    lines: &mut Vec<AuditLine<F::Addr>>,
    moment: u64,
    origin: Option<MessageOrigin<F::Addr>>,
    effect: Effect,
) -> Result<(), AllocError>
    ensures { OnOk result (lines_seen F.bytes_of lines.new.items
        ≡ lines_seen F.bytes_of lines.old.items
        ++ effect_lines moment (option_map (origin_seen F.bytes_of) origin) effect) }
{
    let said = match effect {
        Effect::Unchanged | Effect::Heard => return Ok(()),
        Effect::Full { needed } => AuditEvent::Full { needed },
        Effect::Restarted => AuditEvent::Lost(Loss::Restarted),
        Effect::Gone => AuditEvent::Lost(Loss::Gone),
    };
    lines.push(AuditLine {
        moment,
        origin,
        said,
    })?;
    Ok(())
}

/// Adds the line of what a message did, and that of a restart of the router itself.
fn push_message<F: Family>(
    lines: &mut Vec<AuditLine<F::Addr>>,
    moment: u64,
    origin: Option<MessageOrigin<F::Addr>>,
    effect: Effect,
    restart: Option<OwnRestart>,
) -> Result<(), AllocError>
    ensures { OnOk result (lines_seen F.bytes_of lines.new.items
        ≡ lines_seen F.bytes_of lines.old.items
        ++ message_lines moment (option_map (origin_seen F.bytes_of) origin) effect restart) }
{
    push_effect::<F>(lines, moment, origin, effect)?;
    if let Some(restart) = restart {
        lines.push(AuditLine {
            moment,
            origin,
            said: AuditEvent::Restarted(restart),
        })?;
    }
    Ok(())
}

/// The origin of a message, if it was heard.
fn origin_if_heard<A: Copy>(
    origin: Option<MessageOrigin<A>>,
    effect: Effect,
) -> Option<MessageOrigin<A>>
    ensures { (bytes_of : A → List ℕ) → option_map (origin_seen bytes_of) result
        ≡ origin_if_heard (option_map (origin_seen bytes_of) origin) effect }
{
    match effect {
        Effect::Heard => origin,
        _ => None,
    }
}

/// Adds the lines of a turn at this moment, in the order of what happens. `restart` is a restart of
/// the router itself, of which the message says.
///
/// # Errors
/// Memory was refused: some first lines were added.
pub(crate) fn push_turn<F: Family>(
    lines: &mut Vec<AuditLine<F::Addr>>,
    moment: u64,
    origin: Option<MessageOrigin<F::Addr>>,
    restart: Option<OwnRestart>,
    report: &TurnReport<F::Addr>,
) -> Result<(), AllocError>
    ensures { OnOk result (lines_seen F.bytes_of lines.new.items
        ≡ lines_seen F.bytes_of lines.old.items
        ++ turn_lines F.bytes_of moment (option_map (origin_seen F.bytes_of) origin) restart
        report.now) }
{
    push_ends::<F>(lines, &report.ended)?;
    push_look::<F>(lines, moment, None, &report.before)?;
    push_message::<F>(lines, moment, origin, report.effect, restart)?;
    let heard = origin_if_heard(origin, report.effect);
    push_look::<F>(lines, moment, heard, &report.after)
}
