//! Cases: command lines with their files, and what each must put out.
//!
//! A line is one of these. Empty lines, and those that begin with `#`, are passed over.
//!
//! | Line | Meaning |
//! |---|---|
//! | `file NAME` | the lines below are the content of this file |
//! | `words W W ..` | a case begins, with these words behind `pimtree` |
//! | `word W` | one more word, which may have spaces |
//! | `input` | the lines below are standard input |
//! | `output`, `errors` | the lines below are what is expected there; nothing unless given |
//! | `status N` | the expected status; 0 unless given |
//! | `room N` | standard output fails after this number of bytes |
//! | `error-room N` | the same of standard error |
//! | `= TEXT` | a line of content: the text and a line feed |
//! | `x HEX` | bytes of content; spaces are passed over |
//! | `times N HEX` | these bytes, so often |
//! | `fails` | a read after the content fails |
//!
//! A file before the first `words` is one of all cases, another one of its own case alone.

use crate::memory::Held;
use std::alloc::{AllocError, Global};

/// What lines of content belong to.
#[derive(Clone, Copy)]
enum Part {
    Nothing,
    File,
    Input,
    Output,
    Errors,
}

/// A case, as far as its lines are read.
#[derive(Drop)]
pub struct Case<'a> {
    /// The line of its words, from 1; 0 before the first case.
    pub line: usize,
    /// The words, the program's name first.
    pub words: Vec<&'a str>,
    /// The files, those of all cases first.
    pub files: Vec<Held<'a>>,
    /// The number of files of all cases.
    shared: usize,
    /// Standard input.
    pub input: Held<'a>,
    /// The expected output.
    pub output: Vec<u8>,
    /// The expected errors.
    pub errors: Vec<u8>,
    /// The number of bytes after which standard output fails.
    pub room: usize,
    /// The number of bytes after which standard error fails.
    pub error_room: usize,
    /// The expected status.
    pub status: u8,
    part: Part,
}

/// The value of a hexadecimal digit.
fn digit(byte: u8) -> Option<u8> {
    match byte {
        b'0'..=b'9' => Some(byte - b'0'),
        b'a'..=b'f' => Some(byte - b'a' + 10),
        b'A'..=b'F' => Some(byte - b'A' + 10),
        _ => None,
    }
}

/// Adds the bytes of these digits. Returns whether they are pairs of digits, with spaces.
fn push_hex(bytes: &mut Vec<u8>, hex: &str) -> Result<bool, AllocError> {
    let mut high = None;
    for byte in hex.as_bytes() {
        if *byte == b' ' {
            continue;
        }
        let Some(value) = digit(*byte) else {
            return Ok(false);
        };
        high = match high {
            None => Some(value),
            Some(first) => {
                bytes.push((first << 4) | value)?;
                None
            }
        };
    }
    Ok(high.is_none())
}

/// Adds the bytes of these digits, so often.
fn push_times(bytes: &mut Vec<u8>, rest: &str) -> Result<bool, AllocError> {
    let Some((count, hex)) = rest.split_once(' ') else {
        return Ok(false);
    };
    let Ok(count) = count.parse::<u32>() else {
        return Ok(false);
    };
    let mut piece = Vec::new(*bytes.allocator());
    if !push_hex(&mut piece, hex)? {
        return Ok(false);
    }
    let mut pieces = piece.as_slice().repeat(*bytes.allocator(), count as usize)?;
    bytes.append(&mut pieces)?;
    Ok(true)
}

/// Adds the content of a line. Returns whether it is one of content.
fn push_content(bytes: &mut Vec<u8>, key: &str, rest: &str) -> Result<bool, AllocError> {
    match key {
        "=" => {
            bytes.extend_from_slice(rest.as_bytes())?;
            bytes.push(b'\n')?;
            Ok(true)
        }
        "x" => push_hex(bytes, rest),
        "times" => push_times(bytes, rest),
        _ => Ok(false),
    }
}

/// Sets the room of a device, if the text is a number.
fn set_room(room: &mut usize, text: &str) -> bool {
    match text.parse() {
        Ok(number) => {
            *room = number;
            true
        }
        Err(_) => false,
    }
}

impl<'a> Case<'a> {
    /// Returns a case without words.
    pub fn new(alloc: Global) -> Self {
        Case {
            line: 0,
            words: Vec::new(alloc),
            files: Vec::new(alloc),
            shared: 0,
            input: Held::new(alloc, ""),
            output: Vec::new(alloc),
            errors: Vec::new(alloc),
            room: usize::MAX,
            error_room: usize::MAX,
            status: 0,
            part: Part::Nothing,
        }
    }

    /// Takes the words of a line in place of those of the case before.
    fn take_words(&mut self, line: &'a str) -> Result<(), AllocError> {
        self.words.clear();
        self.words.push("pimtree")?;
        let Some((_, words)) = line.split_once(' ') else {
            return Ok(());
        };
        for word in words.split(' ') {
            self.words.push(word)?;
        }
        Ok(())
    }

    /// Begins the next case. Its words follow `words` in this line, which has this number.
    pub fn begin(&mut self, alloc: Global, line: &'a str, number: usize) -> Result<(), AllocError> {
        if self.line == 0 {
            self.shared = self.files.len();
        }
        self.files.truncate(self.shared);
        self.line = number;
        self.take_words(line)?;
        self.input = Held::new(alloc, "");
        self.output.clear();
        self.errors.clear();
        self.room = usize::MAX;
        self.error_room = usize::MAX;
        self.status = 0;
        self.part = Part::Nothing;
        Ok(())
    }

    /// Adds a line of content. Returns whether it is one, and where it belongs is known.
    fn add_content(&mut self, key: &str, rest: &str) -> Result<bool, AllocError> {
        match self.part {
            Part::Nothing => Ok(false),
            Part::File => match self.files.last_mut() {
                Some(file) => push_content(&mut file.bytes, key, rest),
                None => Ok(false),
            },
            Part::Input => push_content(&mut self.input.bytes, key, rest),
            Part::Output => push_content(&mut self.output, key, rest),
            Part::Errors => push_content(&mut self.errors, key, rest),
        }
    }

    /// Lets a read after the content of the last file, or of standard input, fail.
    fn add_failure(&mut self) -> bool {
        match self.part {
            Part::File => match self.files.last_mut() {
                Some(file) => {
                    file.fails = true;
                    true
                }
                None => false,
            },
            Part::Input => {
                self.input.fails = true;
                true
            }
            _ => false,
        }
    }

    /// Sets the expected status, if this is a number of a byte.
    fn set_status(&mut self, status: &str) -> bool {
        match status.parse() {
            Ok(status) => {
                self.status = status;
                true
            }
            Err(_) => false,
        }
    }

    /// Chooses what the lines of content below belong to.
    fn choose(&mut self, part: Part) -> bool {
        self.part = part;
        self.line > 0
    }

    /// Takes a line other than `words`. Returns whether it can be read.
    pub fn take_line(&mut self, alloc: Global, line: &'a str) -> Result<bool, AllocError> {
        if line.is_empty() || line.starts_with('#') {
            return Ok(true);
        }
        let (key, rest) = line.split_once(' ').unwrap_or((line, ""));
        match key {
            "file" => {
                self.files.push(Held::new(alloc, rest))?;
                self.part = Part::File;
                Ok(true)
            }
            "word" => {
                self.words.push(rest)?;
                Ok(self.line > 0)
            }
            "input" => Ok(self.choose(Part::Input)),
            "output" => Ok(self.choose(Part::Output)),
            "errors" => Ok(self.choose(Part::Errors)),
            "fails" => Ok(self.add_failure()),
            "room" => Ok(set_room(&mut self.room, rest)),
            "error-room" => Ok(set_room(&mut self.error_room, rest)),
            "status" => Ok(self.set_status(rest)),
            _ => self.add_content(key, rest),
        }
    }
}
