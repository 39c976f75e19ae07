//! The plan that the words ask for, or the fault.
//!
//! The family is known only after all addresses are read. So a task is read with addresses of
//! either family, and `Address` and `Word` come before `Family`.

ghost use Rattle.std.specs.Prelude.{◌≡◌, MatchOption, MatchResult, IfOk, IfErr, IsSomeAnd, true};
ghost use Rattle.std.specs.Prelude.{false, map, codes};
ghost use Rattle.clap.specs.declared.builder.command.Command.TheViews.{out-Command};
ghost use Rattle.clap.specs.Words.{found_of, rows_of, subcommand_rows_of, subcommand_of, takes};
ghost use Rattle.clap.specs.Words.{fault_of, FailsBy};
ghost use Rattle.clap.specs.Words.{app_of, kind_of};
ghost use Rattle.pim_addr.specs.declared.family.AddressFamily.TheVariants.{Ipv4};
ghost use Rattle.pim_words.specs.CommandLine.{pimtree};
ghost use Rattle.pim_words.specs.Faults.{are_in};
ghost use Rattle.pim_words.specs.Given.{IsNameOfTask, kind_name};
ghost use Rattle.pim_words.specs.Plan.{IsPlanOfTask, IsWrongTask, IsPlanOf, IsWrongOf, Plans};
ghost use Rattle.pim_words.specs.Plan.{IsFaultless, IsFirstFault, HasCause};
ghost use Rattle.pim_words.specs.Plan.{IsPlanInRange};
ghost use Rattle.pim_words.specs.Seen.{HasNumbers, IsGiven, IsOffered};

use crate::commands::command;
use crate::fault::{CommandFault, refusal_fault};
use crate::inputs::{STANDARD_INPUT, names_input_twice};
use crate::judging::judge;
use crate::reading::read_task;
use crate::task::{CommandKind, CommandPlan, Task};
use crate::typed::task_in_family;
use clap::error::ErrorKind;
use clap::{ArgMatches, Command, Error};
use pim_addr::{V4, V6};
use pim_lines::AnyAddress;
use std::alloc::Global;
use std::convert::AsStr;

/// What `clap` finds in the words: a command with its options and words.
fn matches_of<'a, S: AsStr>(whole: Command<'a>, words: &'a [S]) -> Result<ArgMatches<'a>, Error>
    requires offered { IsOffered (app_of whole) }
    requires local { (out-Command whole).has_globals ≡ false }
    ensures met { IfOk result (λ m. subcommand_rows_of m
        ≡ subcommand_of (app_of whole.entry) (map S.text words.entry.now)) }
    ensures given { IfOk result (λ m. IsSomeAnd (subcommand_rows_of m) IsGiven) }
    ensures refused { FailsBy (fault_of (app_of whole.entry) (map S.text words.entry.now)) result }
    ensures taken { IfErr result (λ e. takes (app_of whole.entry) (map S.text words.entry.now)
        ≡ true
        → kind_of e ≡ ErrorKind.OutOfMemory) }
{
    let matches = whole.try_get_matches_from(words)?;
    let Some(_) = matches.subcommand() else {
        unreachable!()
    };
    Ok(matches)
}

/// The command of this name, if it asks for a task.
fn read_kind(name: &str) -> Option<CommandKind>
    ensures { MatchOption result (IsNameOfTask name.now → ⊥) (λ kind. name.now ≡ kind_name kind) }
{
    match name {
        "check" => Some(CommandKind::Check),
        "build" => Some(CommandKind::Build),
        "replay" => Some(CommandKind::Replay),
        "trace" => Some(CommandKind::Trace),
        "audit" => Some(CommandKind::Audit),
        "same" => Some(CommandKind::Same),
        "mirror" => Some(CommandKind::Mirror),
        "emit" => Some(CommandKind::Emit),
        "change" => Some(CommandKind::Change),
        _ => None,
    }
}

/// The plan of a task whose addresses aren't all IPv4, or its first fault.
fn plan_v6<'a>(
    alloc: Global,
    task: &Task<'a, AnyAddress>,
) -> Result<CommandPlan<'a>, CommandFault<'a>>
    requires { are_in Ipv4 task.now ≡ false }
    ensures { MatchResult result (IsFaultless task.now) (IsFirstFault task.now) }
{
    match task_in_family::<V6>(alloc, task) {
        Ok(typed) => match judge(task) {
            Ok(()) => Ok(CommandPlan::V6(typed)),
            Err(fault) => Err(fault),
        },
        Err(fault) => Err(fault),
    }
}

/// The plan of a task, or its first fault.
fn plan_typed<'a>(
    alloc: Global,
    task: &Task<'a, AnyAddress>,
) -> Result<CommandPlan<'a>, CommandFault<'a>>
    ensures { MatchResult result (IsFaultless task.now) (IsFirstFault task.now) }
{
    match task_in_family::<V4>(alloc, task) {
        Ok(typed) => match judge(task) {
            Ok(()) => Ok(CommandPlan::V4(typed)),
            Err(fault) => Err(fault),
        },
        Err(CommandFault::Family) => plan_v6(alloc, task),
        Err(fault) => Err(fault),
    }
}

/// The plan of a task that reads standard input at most once, or its first fault.
fn plan_task<'a>(
    alloc: Global,
    task: &Task<'a, AnyAddress>,
) -> Result<CommandPlan<'a>, CommandFault<'a>>
    ensures { MatchResult result (IsPlanOfTask task.now) (IsWrongTask task.now) }
{
    if names_input_twice(task) {
        return Err(CommandFault::Word(STANDARD_INPUT));
    }
    plan_typed(alloc, task)
}

/// The plan of a command that asks for a task.
fn plan_kind<'a>(
    alloc: Global,
    kind: CommandKind,
    options: &ArgMatches<'a>,
) -> Result<CommandPlan<'a>, CommandFault<'a>>
    requires { HasNumbers (rows_of (found_of options.now)) }
    ensures { MatchResult result (IsPlanOf (kind_name kind, rows_of (found_of options.now)))
        (IsWrongOf (kind_name kind, rows_of (found_of options.now))) }
{
    let task = read_task(alloc, kind, options)?;
    plan_task(alloc, &task)
}

/// The plan of the command that `clap` found.
fn plan_met<'a>(
    alloc: Global,
    matches: &ArgMatches<'a>,
) -> Result<CommandPlan<'a>, CommandFault<'a>>
    requires { IsSomeAnd (subcommand_rows_of matches.now) IsGiven }
    ensures { MatchResult result
        (λ plan. IsSomeAnd (subcommand_rows_of matches.now) (λ met. IsPlanOf met plan))
        (λ fault. IsSomeAnd (subcommand_rows_of matches.now) (λ met. IsWrongOf met fault)) }
{
    let Some((name, options)) = matches.subcommand() else {
        unreachable!()
    };
    if name == "session" {
        return Ok(CommandPlan::Session);
    }
    let Some(kind) = read_kind(name) else {
        unreachable!()
    };
    plan_kind(alloc, kind, options)
}

/// The plan that the words ask for, by this command line.
fn plan_by<'a, S: AsStr>(
    alloc: Global,
    whole: Command<'a>,
    words: &'a [S],
) -> Result<CommandPlan<'a>, CommandFault<'a>>
    requires offered { IsOffered (app_of whole) }
    requires local { (out-Command whole).has_globals ≡ false }
    ensures { MatchResult result (Plans (app_of whole.entry) (map S.text words.entry.now))
        (HasCause (app_of whole.entry) (map S.text words.entry.now)) }
{
    let matches = match matches_of(whole, words) {
        Ok(matches) => matches,
        Err(error) => return Err(refusal_fault(error.kind(), format!(in alloc; "{error}"))),
    };
    plan_met(alloc, &matches)
}

/// The plan that the words ask for. The first word is the program's name. No file is opened.
///
/// # Errors
/// `Memory`, or the first of these causes that the words have:
/// - `Clap`: `clap` refuses the words, or they ask for help or the version.
/// - `TwoEnds`: both `--after` and `--at` are given.
/// - `Address` of an option, in the order of the options in help.
/// - `Word` of the value of `--at`.
/// - Of a trace or an audit: `Word` of the value of `--from`. `Address` and `Word` of the values of
///   `--group`, in their order. The same of those of `--source`. `Word` of the value of `--time`.
/// - `Word` of the value of `--input`, then of the values of `--vlan` and of `--interface`, in
///   their order.
/// - `Word` and `Address` of the words, in their order.
/// - `Word` with the text `-`: where any container is read, a second file has that name.
/// - `Family`.
/// - `NoPort` of router a, then of b, in a command with two routers.
/// - `WriterAddress`.
/// - `Config` of router a, then of b: `Ports`, `Address`, `Rp`.
pub fn plan<'a, S: AsStr>(
    alloc: Global,
    words: &'a [S],
) -> Result<CommandPlan<'a>, CommandFault<'a>>
    ensures plan { MatchResult result (Plans pimtree (map S.text words.entry.now))
        (HasCause pimtree (map S.text words.entry.now)) }
    ensures range { IfOk result IsPlanInRange }
{
    let Ok(whole) = command(alloc) else {
        return Err(CommandFault::Memory);
    };
    plan_by(alloc, whole, words)
}
