//! The names of the files in which records stand. Lines have them where a port has several files.

ghost use Rattle.std.specs.Prelude.{◌≡◌, ◌<◌, ◌++◌, ◌∷◌, [], IfOk, OnOk, codes, length};
ghost use Rattle.pim_lines.specs.Hex.{hex_digit, hex_of};
ghost use Rattle.pim_event_lines.specs.Files.{escape, escaped, files_of, file_of, if_several};

use pim_capture::RecordPlace;
use std::alloc::{AllocError, Global};
use std::marker::Model;

/// The name of a file as it stands in lines. Contracts see its bytes.
#[derive(Drop)]
pub struct FileName {
    text: Vec<u8>,
}

impl Model for FileName {
    ghost use Rattle.std.specs.Prelude.{ℕ, List};

    ghost Value = { List ℕ };

    ghost view = { λ name. name.text.items };
}

/// The hexadecimal digit of a value below 16, in lower case.
fn hex_digit(value: u8) -> u8
    requires { value < 16 }
    ensures { result ≡ hex_digit value }
{
    if value < 10 { value + 48 } else { value + 87 }
}

/// Appends a byte below 32 as it stands in a JSON string.
fn push_control(text: &mut Vec<u8>, byte: u8) -> Result<(), AllocError>
    requires { byte < 32 }
    ensures { OnOk result (text.new.items ≡ text.old.items ++ (codes "\\u00" ++ hex_of byte)) }
{
    let digits = [
        b'\\',
        b'u',
        b'0',
        b'0',
        hex_digit(byte / 16),
        hex_digit(byte % 16),
    ];
    text.extend_from_slice(&digits)
}

/// Appends a byte as it stands in a JSON string (RFC 8259, 7).
fn push_escaped(text: &mut Vec<u8>, byte: u8) -> Result<(), AllocError>
    ensures { OnOk result (text.new.items ≡ text.old.items ++ escape byte) }
{
    if byte == b'"' {
        return text.extend_from_slice(b"\\\"");
    }
    if byte == b'\\' {
        return text.extend_from_slice(b"\\\\");
    }
    if byte < 32 {
        return push_control(text, byte);
    }
    text.push(byte)?;
    Ok(())
}

/// Appends bytes as they stand in a JSON string.
fn push_all_escaped(text: &mut Vec<u8>, bytes: &[u8]) -> Result<(), AllocError>
    ensures { OnOk result (text.new.items ≡ text.old.items ++ escaped bytes.now) }
{
    for &byte in bytes {
        push_escaped(text, byte)?;
    }
    Ok(())
}

impl FileName {
    /// A name as text has it.
    ///
    /// # Errors
    /// Memory was refused.
    pub fn plain(alloc: Global, name: &str) -> Result<FileName, AllocError>
        ensures { IfOk result (λ shown. shown ≡ name.now) }
    {
        let bytes = name.as_bytes();
        let mut text = Vec::with_capacity(alloc, bytes.len())?;
        text.extend_from_slice(bytes)?;
        Ok(FileName { text })
    }

    /// A name as it stands in a JSON string.
    ///
    /// # Errors
    /// Memory was refused.
    pub fn escaped(alloc: Global, name: &str) -> Result<FileName, AllocError>
        ensures { IfOk result (λ shown. shown ≡ escaped name.now) }
    {
        let mut text = Vec::new(alloc);
        push_all_escaped(&mut text, name.as_bytes())?;
        Ok(FileName { text })
    }

    /// The bytes.
    fn text(&self) -> &[u8]
        ensures { result.now ≡ self.now }
    {
        &self.text
    }
}

/// The names of the files of a port that has several, in the order of their numbers; none for a
/// port with one file. Contracts see the list of them.
#[derive(Drop)]
pub struct FileNames {
    names: Vec<FileName>,
}

impl Model for FileNames {
    ghost use Rattle.std.specs.Prelude.{ℕ, List};

    ghost Value = { List (List ℕ) };

    ghost view = { λ files. files.names.items };
}

impl FileNames {
    /// No name.
    pub fn new(alloc: Global) -> FileNames
        ensures { result ≡ [] }
    {
        FileNames {
            names: Vec::new(alloc),
        }
    }

    /// Appends a name.
    ///
    /// # Errors
    /// Memory was refused.
    pub fn push(&mut self, name: FileName) -> Result<(), AllocError>
        ensures { OnOk result (self.new ≡ self.old ++ name ∷ []) }
    {
        self.names.push(name)?;
        Ok(())
    }

    /// How many names there are.
    pub fn len(&self) -> usize
        ensures { result ≡ length self.now }
    {
        self.names.len()
    }

    /// The names.
    fn names(&self) -> &[FileName]
        ensures { result.now ≡ self.now }
    {
        &self.names
    }
}

/// The names of the files of a port, of those of all ports; none where the port has one file, or
/// there is no port.
pub fn files_of(files: &[FileNames], port: Option<usize>) -> &[FileName]
    ensures { result.now ≡ files_of files.now port }
{
    let Some(port) = port else {
        return &[];
    };
    match files.get(port) {
        Some(names) => names.names(),
        None => &[],
    }
}

/// The name of the file of a record, of those of its port; empty where the port has one file.
pub fn file_of(files: &[FileName], place: RecordPlace) -> &[u8]
    ensures { result.now ≡ file_of files.now place }
{
    match files.get(place.file as usize) {
        Some(name) => name.text(),
        None => b"",
    }
}

/// This text where a port has several files, of which these are the names; otherwise nothing.
pub fn if_several<'t>(files: &[FileName], text: &'t [u8]) -> &'t [u8]
    ensures { result.now ≡ if_several files.now text.now }
{
    if files.is_empty() { b"" } else { text }
}
