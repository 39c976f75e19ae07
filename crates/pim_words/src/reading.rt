//! The task that a command's options and words give, with addresses of either family.
//!
//! The defaults are set in this module. A required option that is missing counts as the empty text;
//! `clap` refuses words without it.

ghost use Rattle.std.specs.Prelude.{◌≡◌, MatchResult, IfOk, IfErr, true, false, Some};
ghost use Rattle.std.specs.Prelude.{codes, option_map};
ghost use Rattle.clap.specs.Words.{rows_of, found_of};
ghost use Rattle.pim_lines.specs.AnyAddress.{Names};
ghost use Rattle.pim_words.specs.Ends.{are_both_given, time_text, IsTimed, IsEarly, IsUntimed};
ghost use Rattle.pim_words.specs.declared.fault.CommandFault.TheVariants.{TwoEnds};
ghost use Rattle.pim_words.specs.Given.{address_texts, has_writer, required};
ghost use Rattle.pim_words.specs.Reading.{ReadsAddressOption, IsUnreadValue, IsFirstUnread};
ghost use Rattle.pim_words.specs.Reading.{ArePorts, AreWrongPorts, IsRun, AreCaptures};
ghost use Rattle.pim_words.specs.Reading.{IsWriting, IsTask, IsUnreadable, IsWrongRun};
ghost use Rattle.pim_words.specs.Reading.{AreTraced, IsAuditing, IsWrongTrace};
ghost use Rattle.pim_words.specs.Seen.{OrMemory, AreEnds, AreAudited, AreWritten, HasNumbers};
ghost use Rattle.pim_words.specs.Shown.{IsUnreadText};

use crate::fault::CommandFault;
use crate::given::{is_flag, number_of, option_of, option_or, values_of};
use crate::links::{linked, read_chosen_links};
use crate::port_word::{Labelled, read_labelled};
use crate::shown::read_shown;
use crate::task::{Auditing, Captures, CommandKind, More, Port, Task, Tracing, Writing};
use clap::ArgMatches;
use pim_lines::{AnyAddress, read_any_address};
use pim_time::{Time, read_time};
use std::alloc::Global;

/// The address that is the value of an option.
pub(crate) fn read_option<'a>(text: &'a str) -> Result<AnyAddress, CommandFault<'a>>
    ensures { MatchResult result (Names text.now) (IsUnreadText text.now) }
{
    match read_any_address(text) {
        Some(address) => Ok(address),
        None => Err(CommandFault::Address(text)),
    }
}

/// The address that is the value of an option, if it is given.
fn read_given<'a>(text: Option<&'a str>) -> Result<Option<AnyAddress>, CommandFault<'a>>
    ensures { MatchResult result (ReadsAddressOption (option_map (λ s. s.now) text.entry))
        (IsUnreadValue (option_map (λ s. s.now) text.entry)) }
{
    let Some(text) = text else {
        return Ok(None);
    };
    Ok(Some(read_option(text)?))
}

/// The time that is the value of an option, if it is given.
pub(crate) fn read_at<'a>(text: Option<&'a str>) -> Result<Option<Time>, CommandFault<'a>>
    ensures read { MatchResult result (IsTimed (option_map (λ s. s.now) text.entry))
        (IsUntimed (option_map (λ s. s.now) text.entry)) }
    ensures early { IfOk result IsEarly }
{
    let Some(text) = text else {
        return Ok(None);
    };
    match read_time(text) {
        Some(time) => Ok(Some(time)),
        None => Err(CommandFault::Word(text)),
    }
}

/// Whether `--after` and `--at` are both given.
fn are_both_given(options: &ArgMatches<'_>) -> bool
    ensures { result ≡ are_both_given (rows_of (found_of options.now)) }
{
    option_of(options, "after").is_some() && option_of(options, "at").is_some()
}

/// Checks that the run of a command has one end.
fn judge_end(options: &ArgMatches<'_>) -> Result<(), CommandFault<'static>>
    ensures { MatchResult result (λ done. are_both_given (rows_of (found_of options.now)) ≡ false)
        (λ fault. (fault ≡ TwoEnds) × (are_both_given (rows_of (found_of options.now)) ≡ true)) }
{
    if are_both_given(options) {
        return Err(CommandFault::TwoEnds);
    }
    Ok(())
}

/// The ports that the words of a command name, with their names, links and further files.
fn read_linked<'a>(
    alloc: Global,
    kind: CommandKind,
    options: &ArgMatches<'a>,
) -> Result<Labelled<'a>, CommandFault<'a>>
    ensures { MatchResult result
        (λ labelled. ArePorts kind (rows_of (found_of options.now)) labelled.ports.items
        labelled.more.items labelled.names.items)
        (OrMemory (AreWrongPorts kind (rows_of (found_of options.now)))) }
{
    let links = read_chosen_links(alloc, kind, options)?;
    let labelled = read_labelled(alloc, kind, links.is_any, values_of(options, "words"))?;
    let ports = linked(alloc, &links, &labelled.ports)?;
    Ok(Labelled {
        ports,
        names: labelled.names,
        more: labelled.more,
    })
}

/// The captures of these ports and further files with this RP and this time, and the other options
/// of their run.
fn captures_of<'a>(
    rp: Option<AnyAddress>,
    at: Option<Time>,
    ports: Vec<Port<'a, AnyAddress>>,
    more: Vec<More<'a>>,
    options: &ArgMatches<'a>,
) -> Captures<'a, AnyAddress>
    requires numbers { HasNumbers (rows_of (found_of options.now)) }
    requires one_end { are_both_given (rows_of (found_of options.now)) ≡ false }
    requires timed { IsTimed (time_text (rows_of (found_of options.now))) at }
    requires early { IsEarly at }
    ensures rp { result.rp ≡ rp }
    ensures ports { result.ports ≡ ports.entry }
    ensures more { result.more ≡ more.entry }
    ensures run { IsRun (rows_of (found_of options.now)) result }
{
    let limit = number_of(options, "limit", "100000", 1, 100_000);
    let after_ms = number_of(options, "after", "0", 0, 1_000_000_000);
    Captures {
        rp,
        routes: option_of(options, "routes"),
        limit: limit as usize,
        after_ms,
        at,
        ports,
        more,
    }
}

/// The ports and the options of the run of a command with this RP.
fn read_captures<'a>(
    alloc: Global,
    kind: CommandKind,
    rp: Option<AnyAddress>,
    options: &ArgMatches<'a>,
) -> Result<Captures<'a, AnyAddress>, CommandFault<'a>>
    requires numbers { HasNumbers (rows_of (found_of options.now)) }
    requires one_end { are_both_given (rows_of (found_of options.now)) ≡ false }
    ensures rp { IfOk result (λ captures. captures.rp ≡ rp) }
    ensures captures { IfOk result (AreCaptures kind (rows_of (found_of options.now))) }
    ensures reported { IfErr result (OrMemory (IsWrongRun kind (rows_of (found_of options.now)))) }
{
    let at = read_at(option_of(options, "at"))?;
    let labelled = read_linked(alloc, kind, options)?;
    Ok(captures_of(rp, at, labelled.ports, labelled.more, options))
}

/// The addresses of a command on one message.
#[derive(Clone, Copy)]
struct AddressEnds {
    /// The source address.
    src: AnyAddress,
    /// The destination address.
    dst: AnyAddress,
}

/// The addresses of a command on one message, or the fault of the first that can't be read.
fn read_ends<'a>(options: &ArgMatches<'a>) -> Result<AddressEnds, CommandFault<'a>>
    ensures { MatchResult result (AreEnds (rows_of (found_of options.now)))
        (IsFirstUnread (address_texts CommandKind.Check (rows_of (found_of options.now)))) }
{
    let src = read_option(option_or(options, "src", "0.0.0.0"))?;
    let dst = read_option(option_or(options, "dst", "224.0.0.13"))?;
    Ok(AddressEnds { src, dst })
}

/// The task of `check`.
fn read_check<'a>(options: &ArgMatches<'a>) -> Result<Task<'a, AnyAddress>, CommandFault<'a>>
    ensures { MatchResult result (IsTask CommandKind.Check (rows_of (found_of options.now)))
        (IsFirstUnread (address_texts CommandKind.Check (rows_of (found_of options.now)))) }
{
    let AddressEnds { src, dst } = read_ends(options)?;
    if is_flag(options, "partial") {
        return Ok(Task::CheckPartial { src, dst });
    }
    Ok(Task::Check { src, dst })
}

/// The task of `replay`.
fn read_replay<'a>(
    alloc: Global,
    options: &ArgMatches<'a>,
) -> Result<Task<'a, AnyAddress>, CommandFault<'a>>
    requires { HasNumbers (rows_of (found_of options.now)) }
    ensures { MatchResult result (IsTask CommandKind.Replay (rows_of (found_of options.now)))
        (IsUnreadable CommandKind.Replay (rows_of (found_of options.now))) }
{
    judge_end(options)?;
    let rp = read_given(option_of(options, "rp"))?;
    let captures = read_captures(alloc, CommandKind::Replay, rp, options)?;
    Ok(Task::Replay(captures))
}

/// The router of a trace or an audit, and what is shown.
#[derive(Drop)]
struct Traced<'a> {
    /// The router, and how it runs.
    captures: Captures<'a, AnyAddress>,
    /// What is shown.
    tracing: Tracing<'a, AnyAddress>,
}

/// The router of a trace or an audit with this RP, and what is shown.
fn read_traced<'a>(
    alloc: Global,
    command: CommandKind,
    rp: Option<AnyAddress>,
    options: &ArgMatches<'a>,
) -> Result<Traced<'a>, CommandFault<'a>>
    requires numbers { HasNumbers (rows_of (found_of options.now)) }
    requires one_end { are_both_given (rows_of (found_of options.now)) ≡ false }
    ensures rp { IfOk result (λ traced. traced.captures.rp ≡ rp) }
    ensures traced { IfOk result
        (λ traced. AreTraced command (rows_of (found_of options.now))
        traced.captures traced.tracing) }
    ensures reported { IfErr result
        (OrMemory (IsWrongTrace command (rows_of (found_of options.now)))) }
{
    let end = read_at(option_of(options, "at"))?;
    let shown = read_shown(alloc, options)?;
    let labelled = read_linked(alloc, command, options)?;
    let captures = captures_of(rp, end, labelled.ports, labelled.more, options);
    let tracing = Tracing {
        from: shown.from,
        groups: shown.groups,
        sources: shown.sources,
        form: shown.form,
        all: is_flag(options, "all"),
        state: is_flag(options, "state"),
        json: is_flag(options, "json"),
        names: labelled.names,
    };
    Ok(Traced { captures, tracing })
}

/// The task of `trace`.
fn read_trace<'a>(
    alloc: Global,
    options: &ArgMatches<'a>,
) -> Result<Task<'a, AnyAddress>, CommandFault<'a>>
    requires { HasNumbers (rows_of (found_of options.now)) }
    ensures { MatchResult result (IsTask CommandKind.Trace (rows_of (found_of options.now)))
        (IsUnreadable CommandKind.Trace (rows_of (found_of options.now))) }
{
    judge_end(options)?;
    let rp = read_given(option_of(options, "rp"))?;
    let traced = read_traced(alloc, CommandKind::Trace, rp, options)?;
    Ok(Task::Trace(traced.captures, traced.tracing))
}

/// The addresses among the options of an audit.
#[derive(Clone, Copy)]
struct AuditAddresses {
    /// The upstream neighbour.
    upstream: AnyAddress,
    /// The RP, if one is given.
    rp: Option<AnyAddress>,
}

/// The addresses among the options of an audit, or the fault of the first that can't be read.
fn read_audited<'a>(options: &ArgMatches<'a>) -> Result<AuditAddresses, CommandFault<'a>>
    ensures { MatchResult result (AreAudited (rows_of (found_of options.now)))
        (IsFirstUnread (address_texts CommandKind.Audit (rows_of (found_of options.now)))) }
{
    let asked = read_option(option_or(options, "upstream", ""))?;
    let given = read_given(option_of(options, "rp"))?;
    Ok(AuditAddresses {
        upstream: asked,
        rp: given,
    })
}

/// What an audit with this upstream neighbour asks, its file of local joins, and how long an entry
/// may be due.
fn auditing_of<'a>(upstream: AnyAddress, options: &ArgMatches<'a>) -> Auditing<'a, AnyAddress>
    requires upstream { Names (required (codes "upstream") (rows_of (found_of options.now)))
        upstream }
    requires numbers { HasNumbers (rows_of (found_of options.now)) }
    ensures { IsAuditing (rows_of (found_of options.now)) result }
{
    let grace_ms = number_of(options, "grace", "3000", 0, 1_000_000_000);
    Auditing {
        upstream,
        local: option_of(options, "local"),
        grace_ms,
    }
}

/// The task of `audit`.
fn read_audit<'a>(
    alloc: Global,
    options: &ArgMatches<'a>,
) -> Result<Task<'a, AnyAddress>, CommandFault<'a>>
    requires { HasNumbers (rows_of (found_of options.now)) }
    ensures { MatchResult result (IsTask CommandKind.Audit (rows_of (found_of options.now)))
        (IsUnreadable CommandKind.Audit (rows_of (found_of options.now))) }
{
    judge_end(options)?;
    let addresses = read_audited(options)?;
    let traced = read_traced(alloc, CommandKind::Audit, addresses.rp, options)?;
    let auditing = auditing_of(addresses.upstream, options);
    Ok(Task::Audit(traced.captures, auditing, traced.tracing))
}

/// The addresses of a command that writes messages.
#[derive(Clone, Copy)]
struct AddressList {
    /// The RP.
    rp: AnyAddress,
    /// The upstream neighbour.
    upstream: AnyAddress,
    /// The source address of the messages.
    own: AnyAddress,
}

/// The addresses of a command that writes messages, or the fault of the first that can't be read.
fn read_addresses<'a>(options: &ArgMatches<'a>) -> Result<AddressList, CommandFault<'a>>
    ensures { MatchResult result (AreWritten (rows_of (found_of options.now)))
        (IsFirstUnread (address_texts CommandKind.Same (rows_of (found_of options.now)))) }
{
    let rp = read_option(option_or(options, "rp", ""))?;
    let upstream = read_option(option_or(options, "upstream", ""))?;
    let own = read_option(option_or(options, "own", ""))?;
    Ok(AddressList { rp, upstream, own })
}

/// The writer of a command with these addresses.
fn read_writing(addresses: AddressList, options: &ArgMatches<'_>) -> Writing<AnyAddress>
    requires addresses { AreWritten (rows_of (found_of options.now)) addresses }
    requires numbers { HasNumbers (rows_of (found_of options.now)) }
    ensures { IsWriting (rows_of (found_of options.now)) result }
{
    let holdtime = number_of(options, "holdtime", "210", 99, 65_535);
    let budget = number_of(options, "budget", "1460", 70, 65_000);
    Writing {
        upstream: addresses.upstream,
        own: addresses.own,
        holdtime: holdtime as u16,
        budget: budget as usize,
    }
}

/// The task of a command that has a writer.
fn read_written<'a>(
    alloc: Global,
    kind: CommandKind,
    options: &ArgMatches<'a>,
) -> Result<Task<'a, AnyAddress>, CommandFault<'a>>
    requires writer { has_writer kind ≡ true }
    requires numbers { HasNumbers (rows_of (found_of options.now)) }
    ensures { MatchResult result (IsTask kind (rows_of (found_of options.now)))
        (IsUnreadable kind (rows_of (found_of options.now))) }
{
    judge_end(options)?;
    let addresses = read_addresses(options)?;
    let captures = read_captures(alloc, kind, Some(addresses.rp), options)?;
    let writing = read_writing(addresses, options);
    match kind {
        CommandKind::Same => Ok(Task::Same(captures, writing)),
        CommandKind::Mirror => Ok(Task::Mirror(captures, writing)),
        CommandKind::Emit => Ok(Task::Emit(captures, writing)),
        CommandKind::Change => Ok(Task::Change(captures, writing)),
        _ => unreachable!(),
    }
}

/// The task of a command, or the fault of the first text that can't be read.
pub(crate) fn read_task<'a>(
    alloc: Global,
    kind: CommandKind,
    options: &ArgMatches<'a>,
) -> Result<Task<'a, AnyAddress>, CommandFault<'a>>
    requires { HasNumbers (rows_of (found_of options.now)) }
    ensures { MatchResult result (IsTask kind (rows_of (found_of options.now)))
        (IsUnreadable kind (rows_of (found_of options.now))) }
{
    match kind {
        CommandKind::Check => Ok(read_check(options)?),
        CommandKind::Build => {
            let AddressEnds { src, dst } = read_ends(options)?;
            Ok(Task::Build { src, dst })
        }
        CommandKind::Replay => read_replay(alloc, options),
        CommandKind::Trace => read_trace(alloc, options),
        CommandKind::Audit => read_audit(alloc, options),
        CommandKind::Same | CommandKind::Mirror | CommandKind::Emit | CommandKind::Change =>
            read_written(alloc, kind, options),
    }
}
