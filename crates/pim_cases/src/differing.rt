//! The first difference of what is expected and what is there.

use crate::lines::cut_line;
use std::io;

/// Where an expectation is: a file and a line of it.
#[derive(Clone, Copy)]
pub struct Place<'a> {
    /// The name of the file.
    pub file: &'a str,
    /// The number of the line, from 1.
    pub line: usize,
}

/// Writes that this line was expected, and this one is there.
pub fn write_line(
    rt: &HostRuntime,
    place: Place<'_>,
    part: &str,
    expected: &[u8],
    got: &[u8],
) -> io::Result<()> {
    let Place { file, line } = place;
    println!(rt;
        "{file} line {line}: {part}expected \"{}\", got \"{}\"",
        expected.escape_ascii(),
        got.escape_ascii(),
    )
}

/// Writes the first line in which the two differ. They do differ.
pub fn write_difference(
    rt: &HostRuntime,
    place: Place<'_>,
    part: &str,
    expected: &[u8],
    got: &[u8],
) -> io::Result<()> {
    let (mut left, mut rest) = (expected, got);
    let mut number = 1u64;
    while !left.is_empty() && !rest.is_empty() {
        let (wanted, others) = cut_line(left);
        let (line, later) = cut_line(rest);
        if wanted != line {
            break;
        }
        left = others;
        rest = later;
        number = number.saturating_add(1);
    }
    let (wanted, _) = cut_line(left);
    let (line, _) = cut_line(rest);
    let part = format!(in rt.alloc(); "{part} line {number}: ")?;
    write_line(rt, place, part.as_str(), wanted, line)
}
