//! Cuts of a text at a byte.

ghost use Rattle.std.specs.Prelude.{◌≡◌, ◌==◌, ℕ, List, ◌∷◌, ◌++◌, IfSome, MatchOption};
ghost use Rattle.std.specs.List.{position};
ghost use Rattle.std.specs.Str.Parse.{AllDigits};
ghost use Rattle.pim_time.specs.Text.{IsMark};
ghost use Rattle.pim_time.specs.Pieces.{IsZoneLong};

/// The two parts of a text.
#[derive(Clone, Copy)]
pub(crate) struct Parts<'a> {
    pub(crate) front: &'a [u8],
    pub(crate) behind: &'a [u8],
}

/// Returns the text after a `T` or a space, if it begins with one.
pub(crate) fn strip_mark(text: &[u8]) -> Option<&[u8]>
    ensures { MatchOption result
        ((mark : ℕ) (rest : List ℕ) → IsMark mark → text.now ≡ mark ∷ rest → ⊥)
        (λ rest. (mark : ℕ) × (IsMark mark × (text.now ≡ mark ∷ rest.now))) }
{
    let (first, rest) = text.split_first()?;
    if *first == b'T' || *first == b' ' {
        Some(rest)
    } else {
        None
    }
}

/// Cuts a text before the zone at its end: one byte if the last one is `Z`, else six.
pub(crate) fn cut_at_zone(text: &[u8]) -> Option<Parts<'_>>
    ensures whole { IfSome result (λ parts. text.now ≡ parts.front.now ++ parts.behind.now) }
    ensures only { (front zone : List ℕ) → IsZoneLong zone → text.now ≡ front ++ zone →
        MatchOption result ⊥ (λ parts. (parts.front.now ≡ front) × (parts.behind.now ≡ zone)) }
{
    let last = text.last()?;
    let long = if *last == b'Z' { 1 } else { 6 };
    let place = text.len().checked_sub(long)?;
    let (front, behind) = text.split_at(place);
    Some(Parts { front, behind })
}

/// Returns the place of the first point.
fn first_point(text: &[u8]) -> Option<usize>
    ensures { result ≡ position (λ byte. byte == 46) text.now }
{
    text.iter().position(|byte| *byte == b'.')
}

/// Cuts a text before its first point.
pub(crate) fn cut_at_point(text: &[u8]) -> Option<Parts<'_>>
    ensures whole { IfSome result (λ parts. text.now ≡ parts.front.now ++ parts.behind.now) }
    ensures only { (front tail : List ℕ) → AllDigits 10 front → text.now ≡ front ++ 46 ∷ tail →
        MatchOption result ⊥ (λ parts. (parts.front.now ≡ front) × (parts.behind.now ≡ 46 ∷ tail)) }
{
    let place = first_point(text)?;
    let (front, behind) = text.split_at(place);
    Some(Parts { front, behind })
}
