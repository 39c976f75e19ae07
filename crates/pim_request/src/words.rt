//! The words of a line: the pieces between its spaces.

ghost use Rattle.std.specs.Prelude.{◌≡◌, ◌∷◌, ◌==◌, [], true, IfSome, IfNone};
ghost use Rattle.std.specs.List.{position};
ghost use Rattle.pim_request.specs.Forms.{pieces_of};
ghost use Rattle.pim_request.specs.Steps.{pieces_left, words_left};

/// A word, and what is left of the line after its space. Nothing is left after the last word.
#[derive(Clone, Copy)]
pub(crate) struct WordCut<'a> {
    pub(crate) word: &'a [u8],
    pub(crate) left: Option<&'a [u8]>,
}

/// Returns the place of the first of these bytes, if any.
fn first_place(text: &[u8], separator: u8) -> Option<usize>
    ensures { result ≡ position (λ byte. byte == separator) text.now }
{
    text.iter().position(|byte| *byte == separator)
}

/// Returns the piece of a text before the first separator, and what is left after it.
pub(crate) fn cut_at(text: &[u8], separator: u8) -> WordCut<'_>
    ensures { pieces_of separator text.now ≡ result.word.now ∷ pieces_left separator result.left }
{
    let Some(place) = first_place(text, separator) else {
        return WordCut {
            word: text,
            left: None,
        };
    };
    let (word, behind) = text.split_at(place);
    match behind.split_first() {
        Some((_, left)) => WordCut {
            word,
            left: Some(left),
        },
        None => unreachable!(),
    }
}

/// Returns the next word, if one is left.
pub(crate) fn next_word(left: Option<&[u8]>) -> Option<WordCut<'_>>
    ensures word { IfSome result (λ cut. words_left left.entry
        ≡ cut.word.now ∷ words_left cut.left) }
    ensures none { IfNone result (words_left left.entry ≡ []) }
{
    match left {
        Some(text) => Some(cut_at(text, b' ')),
        None => None,
    }
}

/// Returns whether a word is this one.
pub(crate) fn is_word(word: &[u8], key: &[u8]) -> bool
    ensures yes { result ≡ true → word.now ≡ key.now }
    ensures no { word.now ≡ key.now → result ≡ true }
{
    word == key
}
