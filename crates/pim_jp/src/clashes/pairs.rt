//! The search for numbers in a sorted list, two at a time. Each step of a search waits for the
//! previous one, and a processor takes a step of the other search meanwhile. A search promises only
//! that its places are in the list. The numbers at these places show that a number is absent; where
//! they don't, the caller searches again one by one.

ghost use Rattle.std.specs.Prelude.{◌≡◌, ℕ, ◌+◌, ◌^◌, ◌≤◌, ◌<◌, true, false, length, min, get_or};
ghost use Rattle.std.specs.List.Sorted.{IsSorted};
ghost use Rattle.pim_jp.specs.Sources.{is_among};

use pim_addr::{Family, count_below};

/// The levels of a search, each of which halves what is left. A block of 4,096 numbers has as many.
const LEVELS: u32 = 12;

/// Whether the number is in the sorted list. No branch depends on what is found.
pub(crate) fn holds<F: Family>(sorted: &[F::Number], number: F::Number) -> bool
    requires { IsSorted F.Number.cmp sorted.now }
    ensures { result ≡ is_among F.value_of sorted.now (F.value_of number) }
{
    if sorted.is_empty() {
        return false;
    }
    let below = count_below(sorted, number);
    let next = below - usize::from(below == sorted.len());
    sorted[next] == number
}

/// The guess, or the place 2^level after it if the number there is less too.
#[inline(always)]
fn next_guess<N: Copy + Ord>(sorted: &[N], guess: usize, level: u32, number: N) -> usize
    requires level { level < 12 }
    requires within { guess + 2 ^ (level + 1) ≤ length sorted.now }
    ensures { result + 2 ^ level ≤ length sorted.now }
{
    let is_less = sorted[guess + (1 << level)].cmp(&number).is_lt();
    guess + (usize::from(is_less) << level)
}

/// Where each of two numbers may be.
#[derive(Clone, Copy)]
struct Guesses {
    one: usize,
    other: usize,
}

/// The next guesses for two numbers at this level. At levels that the list doesn't have, the same
/// guesses.
#[inline(always)]
fn next_guesses<N: Copy + Ord>(
    sorted: &[N],
    guesses: Guesses,
    shift: u32,
    level: u32,
    one: N,
    other: N,
) -> Guesses
    requires level { level < 12 }
    requires one { guesses.one + 2 ^ min shift (level + 1) ≤ length sorted.now }
    requires other { guesses.other + 2 ^ min shift (level + 1) ≤ length sorted.now }
    ensures one { result.one + 2 ^ min shift level ≤ length sorted.now }
    ensures other { result.other + 2 ^ min shift level ≤ length sorted.now }
{
    if level >= shift {
        return guesses;
    }
    Guesses {
        one: next_guess(sorted, guesses.one, level, one),
        other: next_guess(sorted, guesses.other, level, other),
    }
}

/// For each of two numbers, the last place of a lesser number, or 0, in a sorted list that fits
/// into a block. No clause says that it is the right place, since a wrong one would cost time
/// alone. No branch depends on a number, for the reasons given at `count_below`.
fn guess_both<N: Copy + Ord>(sorted: &[N], one: N, other: N) -> Guesses
    requires { 0 < length sorted.now }
    ensures one { result.one < length sorted.now }
    ensures other { result.other < length sorted.now }
{
    let shift = sorted.len().ilog2();
    let over = sorted.len() - (1 << shift);
    let mut guesses = Guesses {
        one: over * usize::from(sorted[over].cmp(&one).is_lt()),
        other: over * usize::from(sorted[over].cmp(&other).is_lt()),
    };
    for done in 0..LEVELS {
        guesses = next_guesses(sorted, guesses, shift, LEVELS - 1 - done, one, other);
    }
    guesses
}

/// Whether the numbers at the guess and after it show that the number isn't in the sorted list.
fn is_between<F: Family>(sorted: &[F::Number], guess: usize, number: F::Number) -> bool
    requires sorted { IsSorted F.Number.cmp sorted.now }
    requires bound { guess < length sorted.now }
    ensures { result ≡ true → is_among F.value_of sorted.now (F.value_of number) ≡ false }
{
    let is_above = sorted[guess].cmp(&number).is_lt();
    let next = guess + usize::from(is_above);
    if next == sorted.len() {
        return true;
    }
    number.cmp(&sorted[next]).is_lt() & (is_above | (guess == 0))
}

/// Whether a search shows that neither of two numbers is in the sorted list. False decides nothing.
fn are_both_missing<F: Family>(sorted: &[F::Number], one: F::Number, other: F::Number) -> bool
    requires { IsSorted F.Number.cmp sorted.now }
    ensures one { result ≡ true → is_among F.value_of sorted.now (F.value_of one) ≡ false }
    ensures other { result ≡ true → is_among F.value_of sorted.now (F.value_of other) ≡ false }
{
    if sorted.is_empty() {
        return true;
    }
    let guesses = guess_both(sorted, one, other);
    is_between::<F>(sorted, guesses.one, one) && is_between::<F>(sorted, guesses.other, other)
}

/// Whether searches show that none of `numbers` is in the sorted list. False decides nothing.
pub(crate) fn are_missing<F: Family>(sorted: &[F::Number], numbers: &[F::Number]) -> bool
    requires { IsSorted F.Number.cmp sorted.now }
    ensures { result ≡ true → (index : ℕ) (other : F.Number) → index < length numbers.now
        → is_among F.value_of sorted.now (F.value_of (get_or numbers.now index other)) ≡ false }
{
    for pair in 0..numbers.len() / 2 {
        let first = 2 * pair;
        let second = first + 1;
        if !are_both_missing::<F>(sorted, numbers[first], numbers[second]) {
            return false;
        }
    }
    if numbers.len() % 2 == 0 {
        return true;
    }
    let last = numbers.len() - 1;
    !holds::<F>(sorted, numbers[last])
}
