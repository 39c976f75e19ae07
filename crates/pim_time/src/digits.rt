//! The numbers in a text, and the text after them.

ghost use Rattle.std.specs.Prelude.{◌≡◌, ℕ, ◌^◌, ◌<◌, ◌≤◌, List, Some, IfSome, MatchOption};
ghost use Rattle.pim_time.specs.Text.{IsNumber, IsPart};
ghost use Rattle.pim_time.specs.Pieces.{IsTwo, IsTwoAfter, IsYear};

/// A number, and the text after it.
#[derive(Clone, Copy)]
pub(crate) struct Cut<'a> {
    pub(crate) number: u64,
    pub(crate) behind: &'a [u8],
}

/// Returns the number that a text of one to `most` digits writes.
pub(crate) fn read_number(text: &[u8], most: usize) -> Option<u64>
    requires { most ≤ 13 }
    ensures read { IfSome result (λ n. IsNumber most text.now n) }
    ensures only { (n : ℕ) → IsNumber most text.now n → result ≡ Some n }
    ensures below { IfSome result (λ n. n < 10 ^ most) }
{
    if text.is_empty() || text.len() > most {
        return None;
    }
    let mut number = 0;
    for byte in text {
        if !byte.is_ascii_digit() {
            return None;
        }
        number = number * 10 + u64::from(*byte - b'0');
    }
    Some(number)
}

/// Returns the milliseconds that a point and one to nine digits write. What is beyond milliseconds
/// is cut.
pub(crate) fn read_part(text: &[u8]) -> Option<u64>
    ensures read { IfSome result (λ millis. IsPart text.now millis) }
    ensures only { (millis : ℕ) → IsPart text.now millis → result ≡ Some millis }
    ensures below { IfSome result (λ millis. millis < 1000) }
{
    let tail = text.strip_prefix(b".")?;
    let number = read_number(tail, 9)?;
    let scale = 10_u64.pow(tail.len() as u32);
    Some(number * 1000 / scale)
}

/// Returns the number that the two digits at the front of a text write.
pub(crate) fn read_two(text: &[u8]) -> Option<Cut<'_>>
    ensures read { IfSome result (λ cut. IsTwo text.now cut.number cut.behind.now) }
    ensures only { (n : ℕ) (behind : List ℕ) → IsTwo text.now n behind →
        MatchOption result ⊥ (λ cut. (cut.number ≡ n) × (cut.behind.now ≡ behind)) }
{
    let [tens, ones, behind @ ..] = text else {
        return None;
    };
    if !tens.is_ascii_digit() || !ones.is_ascii_digit() {
        return None;
    }
    let number = u64::from(*tens - b'0') * 10 + u64::from(*ones - b'0');
    Some(Cut { number, behind })
}

/// Returns the number that two digits write, which follow this byte at the front of a text.
pub(crate) fn read_two_after(mark: u8, text: &[u8]) -> Option<Cut<'_>>
    ensures read { IfSome result (λ cut. IsTwoAfter mark text.now cut.number cut.behind.now) }
    ensures only { (n : ℕ) (behind : List ℕ) → IsTwoAfter mark text.now n behind →
        MatchOption result ⊥ (λ cut. (cut.number ≡ n) × (cut.behind.now ≡ behind)) }
{
    let (first, rest) = text.split_first()?;
    if *first != mark {
        return None;
    }
    read_two(rest)
}

/// Returns the year that the four digits at the front of a text write.
pub(crate) fn read_year(text: &[u8]) -> Option<Cut<'_>>
    ensures read { IfSome result (λ cut. IsYear text.now cut.number cut.behind.now) }
    ensures only { (n : ℕ) (behind : List ℕ) → IsYear text.now n behind →
        MatchOption result ⊥ (λ cut. (cut.number ≡ n) × (cut.behind.now ≡ behind)) }
{
    let century = read_two(text)?;
    let year = read_two(century.behind)?;
    Some(Cut {
        number: century.number * 100 + year.number,
        behind: year.behind,
    })
}
