//! The parts of the words that name ports.
//!
//! In a command with one router, each port is one of router a. So one type of port serves all
//! commands.

ghost use Rattle.std.specs.Prelude.{◌≡◌, MatchOption, true};
ghost use Rattle.pim_words.specs.Ports.{LacksAtSign, IsUncutWord};
ghost use Rattle.pim_words.specs.Seen.{IsCutFor, IsCutOf};

use crate::fault::RouterSide;

/// A word that is cut into its parts.
#[derive(Clone, Copy)]
pub(crate) struct PortCut<'a> {
    /// The router of the word.
    pub side: RouterSide,
    /// The text of the address.
    pub address: &'a str,
    /// The name of the file.
    pub file: &'a str,
}

/// Cuts `ADDRESS@FILE` at its first `@`. `None` if there is none.
fn cut_text<'a>(side: RouterSide, text: &'a str) -> Option<PortCut<'a>>
    ensures { MatchOption result (LacksAtSign text.now) (IsCutFor side text.now) }
{
    match text.split_once('@') {
        Some((address, file)) => Some(PortCut {
            side,
            address,
            file,
        }),
        None => None,
    }
}

/// Cuts `a=ADDRESS@FILE` or `b=ADDRESS@FILE` at its first `@`. `None` for another form.
fn cut_sided<'a>(word: &'a str) -> Option<PortCut<'a>>
    ensures { MatchOption result (IsUncutWord true word.now) (IsCutOf true word.now) }
{
    if let Some(text) = word.strip_prefix("a=") {
        return cut_text(RouterSide::A, text);
    }
    match word.strip_prefix("b=") {
        Some(text) => cut_text(RouterSide::B, text),
        None => None,
    }
}

/// Cuts a word. `is_sided` says whether the command has two routers.
pub(crate) fn cut_word<'a>(is_sided: bool, word: &'a str) -> Option<PortCut<'a>>
    ensures { MatchOption result (IsUncutWord is_sided word.now) (IsCutOf is_sided word.now) }
{
    if is_sided {
        cut_sided(word)
    } else {
        cut_text(RouterSide::A, word)
    }
}
