//! Standard input among the files of a command. It can be read once.

ghost use Rattle.std.specs.Prelude.{◌≡◌, ◌&&◌, ◌+◌, nat_lt, count_by};
ghost use Rattle.pim_words.specs.Inputs.{is_input, is_given_input, reads_any};
ghost use Rattle.pim_words.specs.Inputs.{reads_input_twice, names_input_twice};

use crate::task::{Captures, Task};
use pim_lines::AnyAddress;

/// The name of standard input among those of files, where any container is read.
pub const STANDARD_INPUT: &str = "-";

/// Whether the name is that of standard input.
fn is_input(name: &str) -> bool
    ensures { result ≡ is_input name.now }
{
    name == STANDARD_INPUT
}

/// Whether the name is given, and is that of standard input.
fn is_given_input(name: Option<&str>) -> bool
    ensures { result ≡ is_given_input name.entry }
{
    match name {
        Some(name) => is_input(name),
        None => false,
    }
}

/// Whether any container is read: the ports have links then. Each `-` names standard input.
pub fn reads_any<A>(captures: &Captures<'_, A>) -> bool
    ensures { result ≡ reads_any captures.now }
{
    captures.ports.iter().any(|port| port.link.is_some())
}

/// How many ports have standard input as their file.
fn count_port_inputs(captures: &Captures<'_, AnyAddress>) -> usize
    ensures { result ≡ count_by (λ port. is_input port.file.now) captures.now.ports.items }
{
    captures
        .ports
        .iter()
        .filter(|port| is_input(port.file))
        .count()
}

/// How many further files are standard input.
fn count_further_inputs(captures: &Captures<'_, AnyAddress>) -> usize
    ensures { result ≡ count_by (λ more. is_input more.file.now) captures.now.more.items }
{
    captures
        .more
        .iter()
        .filter(|more| is_input(more.file))
        .count()
}

/// Whether a second file of these is standard input. An audit may have one of local joins.
fn reads_input_twice(captures: &Captures<'_, AnyAddress>, local: Option<&str>) -> bool
    ensures { result ≡ reads_input_twice captures.now local.entry }
{
    let of_routes = usize::from(is_given_input(captures.routes));
    let of_local = usize::from(is_given_input(local));
    let of_ports = count_port_inputs(captures);
    let further = count_further_inputs(captures);
    let named = of_routes.saturating_add(of_local);
    reads_any(captures) && 1 < named.saturating_add(of_ports).saturating_add(further)
}

/// Whether a second file of the task is standard input.
pub(crate) fn names_input_twice(task: &Task<'_, AnyAddress>) -> bool
    ensures { result ≡ names_input_twice task.now }
{
    match task {
        Task::Check { .. } | Task::CheckPartial { .. } | Task::Build { .. } => false,
        Task::Replay(captures) | Task::Trace(captures, _) => reads_input_twice(captures, None),
        Task::Audit(captures, auditing, _) => reads_input_twice(captures, auditing.local),
        Task::Same(captures, _)
        | Task::Mirror(captures, _)
        | Task::Emit(captures, _)
        | Task::Change(captures, _) => reads_input_twice(captures, None),
    }
}
