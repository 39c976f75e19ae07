//! What captures are read from.

use std::fs::File;
use std::io::{self, Read, Stdin};

/// A file of the system, or standard input.
#[derive(Drop)]
enum InputOrigin {
    File(File),
    Input(Stdin),
}

impl Read for InputOrigin {
    fn read(&mut self, buffer: &mut [u8]) -> io::Result<usize> {
        match self {
            InputOrigin::File(file) => file.read(buffer),
            InputOrigin::Input(input) => input.read(buffer),
        }
    }
}

/// What a capture is read from, with the number of bytes that were read.
#[derive(Drop)]
pub struct CountedInput {
    origin: InputOrigin,
    bytes: u64,
}

impl CountedInput {
    /// Returns a file of the system, of which nothing was read.
    pub fn of_file(file: File) -> Self {
        CountedInput {
            origin: InputOrigin::File(file),
            bytes: 0,
        }
    }

    /// Returns standard input.
    pub fn of_input(input: Stdin) -> Self {
        CountedInput {
            origin: InputOrigin::Input(input),
            bytes: 0,
        }
    }

    /// Returns the length of the file in bytes; 0 for standard input, and if the system doesn't say
    /// it.
    pub fn size(&self) -> u64 {
        let InputOrigin::File(file) = &self.origin else {
            return 0;
        };
        match file.metadata() {
            Ok(metadata) => metadata.len(),
            Err(_) => 0,
        }
    }

    /// Returns the number of bytes that were read, at most 2^64 - 1.
    pub fn bytes(&self) -> u64 {
        self.bytes
    }
}

impl Read for CountedInput {
    fn read(&mut self, buffer: &mut [u8]) -> io::Result<usize> {
        let given = self.origin.read(buffer)?;
        self.bytes = self.bytes.saturating_add(given as u64);
        Ok(given)
    }
}
