//! The name that a word of a trace or an audit gives to its port.

ghost use Rattle.std.specs.Prelude.{◌≡◌, true, map};
ghost use Rattle.std.specs.List.{list_any};
ghost use Rattle.pim_words.specs.Labels.{is_name_of, has_name, is_fresh};
ghost use Rattle.pim_words.specs.Labels.{IsNamed, IsLabelOf};

use crate::task::CommandKind;
use pim_lines::is_port_name;

/// A word that is cut into its name and the rest.
#[derive(Clone, Copy)]
pub(crate) struct Label<'a> {
    /// The name, if the word has one.
    pub name: Option<&'a str>,
    /// The rest of the word.
    pub text: &'a str,
}

/// Cuts a word at its first `=`, if that comes before its first `@`.
fn cut_name<'a>(word: &'a str) -> Label<'a>
    ensures { IsNamed word.now result.name result.text.now }
{
    let whole = Label {
        name: None,
        text: word,
    };
    let Some((name, text)) = word.split_once('=') else {
        return whole;
    };
    if name.contains('@') {
        return whole;
    }
    Label {
        name: Some(name),
        text,
    }
}

/// Cuts a word of a trace or an audit into its name, if it has one, and the rest. Other words have
/// no names.
pub(crate) fn label_of<'a>(kind: CommandKind, word: &'a str) -> Label<'a>
    ensures { IsLabelOf kind word.now result.name result.text.now }
{
    match kind {
        CommandKind::Trace | CommandKind::Audit => cut_name(word),
        _ => Label {
            name: None,
            text: word,
        },
    }
}

/// Whether a port has this name.
fn is_name_of(name: &str, port: Option<&str>) -> bool
    ensures { result ≡ is_name_of name.now port.entry }
{
    match port {
        Some(other) => other == name,
        None => false,
    }
}

/// Whether one of these ports has this name.
fn has_name(names: &[Option<&str>], name: &str) -> bool
    ensures { result ≡ has_name names.now name.now }
{
    for &port in names {
        if is_name_of(name, port) {
            return true;
        }
    }
    false
}

/// Whether the next port may have this name, after ports with these.
pub(crate) fn is_fresh(earlier: &[Option<&str>], name: Option<&str>) -> bool
    ensures { result ≡ is_fresh earlier.now name.entry }
{
    match name {
        Some(name) => is_port_name(name.as_bytes()) && !has_name(earlier, name),
        None => true,
    }
}
