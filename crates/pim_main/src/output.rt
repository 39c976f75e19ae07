//! Standard output, in blocks or line by line.

ghost use Rattle.std.specs.Prelude.{◌≡◌, ◌≤◌, ◌+◌, ◌⊎◌, ◌↔◌, IsTrue, IfOk, length, min, None};
ghost use Rattle.pim_device.specs.Device.{top_count};

use pim_addr::{Drain, Failed};
use pim_request::Answers;
use pim_words::{Captures, STANDARD_INPUT, Task, reads_any};
use std::alloc::Global;
use std::fs::metadata;
use std::io::{self, BufWriter, IsTerminal, Write};
use std::os::unix::fs::FileTypeExt;

/// Standard output: the device that takes the bytes of a task or the answers of a session. It keeps
/// them in a block, and writes them out when it is asked to; where it is live, also at each line
/// feed. No contract can name what a terminal or a pipe holds.
#[derive(Drop)]
pub struct Output<W: Write + Drop> {
    blocks: BufWriter<W>,
    is_live: bool,
    failures: u64,
}

impl<W: Write + Drop> Output<W> {
    /// Returns such a device over a writer, or an error where memory is refused.
    pub fn new(alloc: Global, inner: W, is_live: bool) -> io::Result<Self> {
        let blocks = BufWriter::new(alloc, inner)?;
        Ok(Output {
            blocks,
            is_live,
            failures: 0,
        })
    }

    /// Takes some of these bytes. Returns their number.
    fn take(&mut self, bytes: &[u8]) -> io::Result<usize>
        ensures bound { IfOk result (λ n. n ≤ length bytes.now) }
        ensures failures { self.new.failures ≡ self.old.failures }
    {
        let taken = self.blocks.write(bytes)?;
        if self.is_live && bytes.ends_with(b"\n") {
            self.blocks.flush()?;
        }
        Ok(taken)
    }

    fn count_failure(&mut self) -> Failed
        ensures { self.new.failures ≡ min (self.old.failures + 1) top_count }
    {
        self.failures = self.failures.saturating_add(1);
        Failed
    }
}

impl<W: Write + Drop> Drain for Output<W> {
    ghost contents = { λ device. None };

    ghost failures = { λ device. device.failures };

    fn write(&mut self, bytes: &[u8]) -> Result<usize, Failed> {
        match self.take(bytes) {
            Ok(taken) if taken > 0 || bytes.is_empty() => Ok(taken),
            _ => Err(self.count_failure()),
        }
    }
}

impl<W: Write + Drop> Answers for Output<W> {
    ghost passed_on = { λ device. None };

    fn flush(&mut self) -> Result<(), Failed> {
        match self.blocks.flush() {
            Ok(()) => Ok(()),
            Err(_) => Err(self.count_failure()),
        }
    }
}

/// The captures that a task reads.
fn captures_of<'t, 'a, A>(task: &'t Task<'a, A>) -> Option<&'t Captures<'a, A>> {
    match task {
        Task::Check { .. } | Task::CheckPartial { .. } | Task::Build { .. } => None,
        Task::Replay(captures) | Task::Trace(captures, _) | Task::Audit(captures, _, _) => {
            Some(captures)
        }
        Task::Same(captures, _)
        | Task::Mirror(captures, _)
        | Task::Emit(captures, _)
        | Task::Change(captures, _) => Some(captures),
    }
}

/// The name of the file of routes of this task.
pub fn routes_of<'a, A>(task: &Task<'a, A>) -> Option<&'a str> {
    let captures = captures_of(task)?;
    captures.routes
}

/// The name of the file of local joins of this task.
pub fn local_of<'a, A>(task: &Task<'a, A>) -> Option<&'a str> {
    match task {
        Task::Audit(_, auditing, _) => auditing.local,
        _ => None,
    }
}

/// Whether the captures of this task are of any container.
pub fn task_reads_any<A>(task: &Task<'_, A>) -> bool {
    captures_of(task).is_some_and(|it| reads_any(it))
}

/// Whether the file of this name may still grow: it is a pipe, a terminal or another device. Where
/// it may be of any container, `-` is standard input.
fn may_grow(rt: &HostRuntime, is_any: bool, file: &str) -> bool {
    let is_input = is_any && file == STANDARD_INPUT;
    let path = if is_input { "/dev/stdin" } else { file };
    metadata(rt, path).is_ok_and(|it| !it.is_file())
}

/// Whether the first file of some port may still grow.
fn some_first_grows<A>(rt: &HostRuntime, captures: &Captures<'_, A>) -> bool {
    for port in &captures.ports {
        if may_grow(rt, port.link.is_some(), port.file) {
            return true;
        }
    }
    false
}

/// Whether a further file of some port may still grow.
fn some_further_grows<A>(rt: &HostRuntime, captures: &Captures<'_, A>) -> bool {
    for further in &captures.more {
        if may_grow(rt, true, further.file) {
            return true;
        }
    }
    false
}

/// Whether the task reads from a pipe, a terminal or another device.
fn reads_live<A>(rt: &HostRuntime, task: &Task<'_, A>) -> bool {
    captures_of(task).is_some_and(|it| some_first_grows(rt, it) || some_further_grows(rt, it))
}

/// Whether standard output is a FIFO or a pipe. If the system doesn't say, it is none.
fn writes_into_pipe(rt: &HostRuntime) -> bool {
    metadata(rt, "/dev/stdout").is_ok_and(|it| it.file_type().is_fifo())
}

/// Whether each line is written out as soon as it is complete: to a terminal, from what may still
/// grow, or in a trace or an audit into a pipe.
fn goes_out_by_lines(to_terminal: bool, from_growing: bool, traces_into_pipe: bool) -> bool
    ensures { IsTrue result
        ↔ (IsTrue to_terminal ⊎ (IsTrue from_growing ⊎ IsTrue traces_into_pipe)) }
{
    to_terminal || from_growing || traces_into_pipe
}

/// The same of a task that this process does.
pub fn is_live<A>(rt: &HostRuntime, task: &Task<'_, A>) -> bool {
    let traces = matches!(task, Task::Trace(..) | Task::Audit(..));
    let traces_into_pipe = traces && writes_into_pipe(rt);
    goes_out_by_lines(
        rt.stdout().is_terminal(),
        reads_live(rt, task),
        traces_into_pipe,
    )
}
