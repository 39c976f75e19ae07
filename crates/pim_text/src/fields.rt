//! The words, numbers and addresses of a line. Each reader takes what is at the front of a
//! text.

ghost use Rattle.std.specs.Prelude.{◌≡◌, ◌≤◌, ◌∷◌, ◌++◌, ℕ, List, [], Some, None, true, decimal};
ghost use Rattle.std.specs.Prelude.{nat_le};
ghost use Rattle.std.specs.Prelude.{IfSome, MatchOption};
ghost use Rattle.std.specs.List.{position};
ghost use Rattle.pim_text.specs.Fields.{IsField, IsLed};
ghost use Rattle.pim_text.specs.Lines.{IsAddressAfter, number_text, numbers_text};
ghost use Rattle.pim_lines.specs.AnyAddress.{Names};
ghost use Rattle.pim_lines.specs.declared.either.AnyAddress.{AnyAddress};

use itoa::Buffer;
use pim_addr::text_names_one_address;
use pim_lines::{AnyAddress, read_any_address};
use std::str;

/// A field, and the text after it.
#[derive(Clone, Copy)]
pub(crate) struct FieldCut<'a> {
    pub(crate) field: &'a [u8],
    pub(crate) behind: &'a [u8],
}

/// An address, and the text after it.
#[derive(Clone, Copy)]
pub(crate) struct AddressCut<'a> {
    pub(crate) address: AnyAddress,
    pub(crate) behind: &'a [u8],
}

/// Two numbers.
#[derive(Clone, Copy)]
pub(crate) struct Two {
    pub(crate) number: u64,
    pub(crate) another: u64,
}

/// Returns the place of the first space or control character, if any.
fn first_end(text: &[u8]) -> Option<usize>
    ensures { result ≡ position (λ byte. nat_le byte 32) text.now }
{
    text.iter().position(|byte| *byte <= 32)
}

/// Cuts a text before its first space or control character.
fn cut_field(text: &[u8]) -> FieldCut<'_>
    ensures whole { text.now ≡ result.field.now ++ result.behind.now }
    ensures only { (field behind : List ℕ) → IsField field → IsLed behind → text.now ≡ field
        ++ behind →
        (result.field.now ≡ field) × (result.behind.now ≡ behind) }
{
    match first_end(text) {
        Some(place) => {
            let (field, behind) = text.split_at(place);
            FieldCut { field, behind }
        }
        None => FieldCut {
            field: text,
            behind: &[],
        },
    }
}

/// Returns the text after these words, if it begins with them.
pub(crate) fn strip<'a>(text: &'a [u8], words: &[u8]) -> Option<&'a [u8]>
    ensures { MatchOption result ((rest : List ℕ) → text.now ≡ words.now ++ rest → ⊥)
        (λ rest. text.now ≡ words.now ++ rest.now) }
{
    text.strip_prefix(words)
}

/// Returns whether a text is a line feed alone.
pub(crate) fn is_end(text: &[u8]) -> bool
    ensures yes { result ≡ true → text.now ≡ 10 ∷ [] }
    ensures no { text.now ≡ 10 ∷ [] → result ≡ true }
{
    match text {
        [b'\n'] => true,
        _ => false,
    }
}

/// Returns the number of which these digits are the decimal, if it is within the limit. A decimal
/// has no leading zero and no sign.
pub fn read_decimal(digits: &[u8], limit: u64) -> Option<u64>
    ensures read { IfSome result (λ n. (n ≤ limit) × (digits.now ≡ decimal n)) }
    ensures only { (n : ℕ) → n ≤ limit → digits.now ≡ decimal n → result ≡ Some n }
{
    let Ok(text) = str::from_utf8(digits) else {
        return None;
    };
    let Ok(number) = text.parse::<u64>() else {
        return None;
    };
    let mut buffer = Buffer::new();
    let is_so = buffer.format(number).as_bytes() == digits;
    if is_so && number <= limit {
        Some(number)
    } else {
        None
    }
}

/// Returns the address that a text names, of either family, if it names one.
pub fn read_address(text: &[u8]) -> Option<AnyAddress>
    ensures read { IfSome result (λ a. Names text.now a) }
    ensures only { (a : AnyAddress) → Names text.now a → result ≡ Some a }
{
    text_names_one_address();
    let Ok(text) = str::from_utf8(text) else {
        return None;
    };
    read_any_address(text)
}

/// Returns the number of a text that has these words, a number and a line feed.
pub(crate) fn number_line(text: &[u8], words: &[u8], limit: u64) -> Option<u64>
    ensures read { IfSome result (λ n. (n ≤ limit) × (text.now ≡ number_text words.now n)) }
    ensures only { (n : ℕ) → n ≤ limit → text.now ≡ number_text words.now n → result ≡ Some n }
{
    let rest = strip(text, words)?;
    let front = cut_field(rest);
    if !is_end(front.behind) {
        return None;
    }
    read_decimal(front.field, limit)
}

/// Returns the numbers of a text that has words, a number, other words, another number and a line
/// feed.
pub(crate) fn numbers_line(
    text: &[u8],
    words: &[u8],
    limit: u64,
    others: &[u8],
    other_limit: u64,
) -> Option<Two>
    requires led { IsLed others.now }
    ensures read { IfSome result (λ two. (two.number ≤ limit) × (two.another ≤ other_limit)
        × (text.now ≡ numbers_text words.now two.number others.now two.another)) }
    ensures only { (n m : ℕ) → n ≤ limit → m ≤ other_limit → text.now
        ≡ numbers_text words.now n others.now m →
        MatchOption result ⊥ (λ two. (two.number ≡ n) × (two.another ≡ m)) }
{
    let rest = strip(text, words)?;
    let front = cut_field(rest);
    let number = read_decimal(front.field, limit)?;
    let another = number_line(front.behind, others, other_limit)?;
    Some(Two { number, another })
}

/// Returns the address that follows these words, and the text after it.
pub(crate) fn read_address_after<'a>(text: &'a [u8], words: &[u8]) -> Option<AddressCut<'a>>
    ensures read { IfSome result (λ n. IsAddressAfter words.now n.address n.behind.now text.now) }
    ensures only { (a : AnyAddress) (behind : List ℕ) → IsLed behind
        → IsAddressAfter words.now a behind text.now →
        MatchOption result ⊥ (λ n. (n.address ≡ a) × (n.behind.now ≡ behind)) }
{
    let rest = strip(text, words)?;
    let front = cut_field(rest);
    let address = read_address(front.field)?;
    Some(AddressCut {
        address,
        behind: front.behind,
    })
}
