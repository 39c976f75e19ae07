//! The lines of a text, each with its line feed.

ghost use Rattle.std.specs.Prelude.{◌≡◌, ◌∷◌, ◌==◌, ◌<◌, length};
ghost use Rattle.std.specs.List.{position};
ghost use Rattle.std.specs.Iterator.{YieldsFirstBy, item_count};
ghost use Rattle.pim_text.specs.Lines.{lines};

use std::marker::Model;

/// The lines that are left. The last one may lack its line feed.
#[derive(Drop)]
pub(crate) struct LineWalk<'a> {
    left: &'a [u8],
}

impl<'a> Model for LineWalk<'a> {
    ghost use Rattle.std.specs.Prelude.{List, ℕ};
    ghost use Rattle.pim_text.specs.Lines.{lines};

    ghost Value = { List (List ℕ) };

    ghost view = { λ walk. lines walk.left.now };
}

/// Returns the place of the first line feed, if any.
fn first_feed(text: &[u8]) -> Option<usize>
    ensures { result ≡ position (λ byte. byte == 10) text.now }
{
    text.iter().position(|byte| *byte == b'\n')
}

/// Returns the first line, and the text after it.
#[tactic(auto, using(crate::proofs::LineCuts::lines_of_none))]
fn cut_line(text: &[u8]) -> (&[u8], &[u8])
    requires { 0 < length text.now }
    ensures { lines text.now ≡ result.0.now ∷ lines result.1.now }
{
    match first_feed(text) {
        Some(place) => text.split_at(place + 1),
        None => (text, &[]),
    }
}

impl<'a> LineWalk<'a> {
    /// Returns a walk over the lines of this text.
    pub(crate) fn new(text: &'a [u8]) -> Self
        ensures { result ≡ lines text.now }
    {
        LineWalk { left: text }
    }
}

impl<'a> Iterator for LineWalk<'a> {
    type Item = &'a [u8];

    ghost next_gives = { YieldsFirstBy (λ line. line.now) (λ lines. lines) };

    ghost remaining = { item_count (λ lines. lines) };

    #[tactic(auto, using(crate::proofs::LineCuts::empty_has_none))]
    fn next(&mut self) -> Option<&'a [u8]> {
        if self.left.is_empty() {
            return None;
        }
        let (line, left) = cut_line(self.left);
        self.left = left;
        Some(line)
    }
}
