//! The lines of bytes.

ghost use Rattle.std.specs.Prelude.{◌<◌, length};

/// Returns the first line with its line feed, if it has one, and the bytes after it.
pub fn cut_line(bytes: &[u8]) -> (&[u8], &[u8])
    ensures { 0 < length bytes.now → length result.1.now < length bytes.now }
{
    match bytes.iter().position(|byte| *byte == b'\n') {
        Some(place) => bytes.split_at(place + 1),
        None => (bytes, &[]),
    }
}

/// The line without its line feed.
pub fn without_feed(line: &[u8]) -> &[u8] {
    match line.split_last() {
        Some((b'\n', front)) => front,
        _ => line,
    }
}
