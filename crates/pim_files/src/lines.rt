//! The lines of a file.

ghost use Rattle.std.specs.Prelude.{◌≡◌, ◌∷◌, ◌==◌};
ghost use Rattle.std.specs.List.{position};
ghost use Rattle.std.specs.Iterator.{YieldsFirstBy, item_count};
ghost use Rattle.pim_files.specs.LineFile.{lines_of, lines_left};

use std::marker::Model;

/// The lines that are left, without their line feeds: the pieces between them. An empty line
/// follows a final line feed.
#[derive(Drop)]
pub(crate) struct Lines<'a> {
    left: Option<&'a [u8]>,
}

impl<'a> Model for Lines<'a> {
    ghost use Rattle.std.specs.Prelude.{List, ℕ};
    ghost use Rattle.pim_files.specs.LineFile.{lines_left};

    ghost Value = { List (List ℕ) };

    ghost view = { λ lines. lines_left lines.left };
}

/// Returns the place of the first line feed, if any.
fn first_line_feed(text: &[u8]) -> Option<usize>
    ensures { result ≡ position (λ byte. byte == 10) text.now }
{
    text.iter().position(|byte| *byte == b'\n')
}

/// Returns the first line, and the text after its line feed, if it has one.
fn cut_line(text: &[u8]) -> (&[u8], Option<&[u8]>)
    ensures { lines_of text.now ≡ result.0.now ∷ lines_left result.1 }
{
    let Some(place) = first_line_feed(text) else {
        return (text, None);
    };
    let (line, behind) = text.split_at(place);
    match behind.split_first() {
        Some((_, left)) => (line, Some(left)),
        None => unreachable!(),
    }
}

impl<'a> Lines<'a> {
    /// Returns a walk over the lines of this text.
    pub(crate) fn new(text: &'a [u8]) -> Self
        ensures { result ≡ lines_of text.now }
    {
        Lines { left: Some(text) }
    }
}

impl<'a> Iterator for Lines<'a> {
    type Item = &'a [u8];

    ghost next_gives = { YieldsFirstBy (λ line. line.now) (λ lines. lines) };

    ghost remaining = { item_count (λ lines. lines) };

    fn next(&mut self) -> Option<&'a [u8]> {
        let text = self.left?;
        let (line, left) = cut_line(text);
        self.left = left;
        Some(line)
    }
}
