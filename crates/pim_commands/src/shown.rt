//! The names that lines of a trace and of an audit have: those of ports, and those of the files of
//! a port that has several.

ghost use Rattle.std.specs.Prelude.{◌≡◌, IfOk};
ghost use Rattle.pim_files.specs.Captures.{files_from, with_more};
ghost use Rattle.pim_files.specs.Opening.{port_files};
ghost use Rattle.pim_words.specs.Plan.{AreNames};
ghost use Rattle.pim_commands.specs.Shown.{all_shown, files_shown, names_shown, shown_name};
ghost use Rattle.pim_commands.specs.Tracing.{names_of};

use crate::tracing::names_of;
use pim_event_lines::{FileName, FileNames};
use pim_files::is_further;
use pim_lines::Name;
use pim_words::{Captures, More, Port, Tracing};
use std::alloc::{AllocError, Global};

/// The names of ports and of their files.
#[derive(Drop)]
pub(crate) struct ShownNames {
    /// The names of the ports.
    pub(crate) ports: Vec<Name>,
    /// The names of the files of each port that has several; none for any other.
    pub(crate) files: Vec<FileNames>,
}

/// The name of a file as lines have it: in JSON with the escapes of a string.
fn shown_name(alloc: Global, json: bool, name: &str) -> Result<FileName, AllocError>
    ensures { IfOk result (λ shown. shown ≡ shown_name json name.now) }
{
    if json {
        return FileName::escaped(alloc, name);
    }
    FileName::plain(alloc, name)
}

/// The names of the files of the port of this number: its own, then those of these further files
/// that are its own.
fn all_shown<A>(
    alloc: Global,
    json: bool,
    at: usize,
    port: &Port<'_, A>,
    further: &[More<'_>],
) -> Result<FileNames, AllocError>
    ensures { IfOk result (λ names.
        names ≡ all_shown json (with_more at further.now port.now)) }
{
    let mut names = FileNames::new(alloc);
    names.push(shown_name(alloc, json, port.file)?)?;
    for one in further {
        if is_further(at, port, one) {
            names.push(shown_name(alloc, json, one.file)?)?;
        }
    }
    Ok(names)
}

/// The same if they are several, otherwise none.
fn names_shown<A>(
    alloc: Global,
    json: bool,
    at: usize,
    port: &Port<'_, A>,
    further: &[More<'_>],
) -> Result<FileNames, AllocError>
    ensures { IfOk result (λ names.
        names ≡ names_shown json (with_more at further.now port.now)) }
{
    let names = all_shown(alloc, json, at, port, further)?;
    if names.len() < 2 {
        return Ok(FileNames::new(alloc));
    }
    Ok(names)
}

/// The names of the files of each port.
fn files_shown<A>(
    alloc: Global,
    json: bool,
    ports: &[Port<'_, A>],
    further: &[More<'_>],
) -> Result<Vec<FileNames>, AllocError>
    ensures { IfOk result (λ files.
        files.items ≡ files_shown json (files_from 0 further.now ports.now)) }
{
    let mut files = Vec::new(alloc);
    for (at, port) in ports.iter().enumerate() {
        files.push(names_shown(alloc, json, at, port, further)?)?;
    }
    Ok(files)
}

/// The names that lines have, as the words ask.
///
/// # Errors
/// Memory was refused.
pub(crate) fn shown_names<A>(
    alloc: Global,
    captures: &Captures<'_, A>,
    tracing: &Tracing<'_, A>,
) -> Result<ShownNames, AllocError>
    requires { AreNames captures.now tracing.now }
    ensures ports { IfOk result (λ names.
        names.ports.items ≡ names_of 0 tracing.now.names.items) }
    ensures files { IfOk result (λ names.
        names.files.items ≡ files_shown tracing.now.json (port_files captures.now)) }
{
    let ports = names_of(alloc, &tracing.names)?;
    let files = files_shown(alloc, tracing.json, &captures.ports, &captures.more)?;
    Ok(ShownNames { ports, files })
}
