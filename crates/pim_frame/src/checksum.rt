//! The checksum of PIM messages (RFC 7761, 4.9), over IPv6 with the pseudo-header of RFC 8200, 8.1.
//!
//! The code sums words of 32 bits into 64 bits and folds the sum once, since 65,536 leaves 1 when
//! it is divided by 65,535.

ghost use Rattle.std.specs.Prelude.{◌≡◌, ◌+◌, ◌*◌, ◌%◌, ◌^◌, ◌<◌, ◌≤◌, length};
ghost use Rattle.pim_frame.specs.Folded.{folded, wide, wide_total};
ghost use Rattle.pim_frame.specs.Sum.{words_sum, pseudo_header, message_sum, sums_rightly};

use pim_addr::{AddressFamily, Family};

/// The IP protocol number of PIM, the Next Header of the pseudo-header.
const PIM: u16 = 103;

/// Adds a word to a folded sum, with a carry out of 16 bits added back in.
#[tactic(auto, using(crate::proofs::Sums::folded_low, crate::proofs::Sums::folded_high))]
fn add_word(sum: u16, word: u16) -> u16
    ensures { result ≡ folded (sum + word) }
{
    let sum = u32::from(sum) + u32::from(word);
    if sum > 0xffff {
        (sum - 0xffff) as u16
    } else {
        sum as u16
    }
}

/// Returns the number that one to four bytes make, with zero bytes after fewer than four. It has
/// the same remainder by 65,535 as the sum of their 16-bit words.
#[tactic(auto, using(crate::proofs::Sums::folded_one, crate::proofs::Sums::folded_two, crate::proofs::Sums::folded_three, crate::proofs::Sums::folded_four,))]
fn wide_word_of(bytes: &[u8]) -> u32
    requires some { 0 < length bytes.now }
    requires few { length bytes.now ≤ 4 }
    ensures { folded result ≡ folded (words_sum bytes.now) }
{
    match bytes {
        [a, b, c, d] => wide_word([*a, *b, *c, *d]),
        [a, b, c] => wide_word([*a, *b, *c, 0]),
        [a, b] => wide_word([*a, *b, 0, 0]),
        [a] => wide_word([*a, 0, 0, 0]),
        _ => unreachable!(),
    }
}

/// Returns the number that four bytes make, big-endian. They are one value, so that a compiler
/// loads them as one word and sums several words at once.
fn wide_word(word: [u8; 4]) -> u32
    ensures { result ≡ wide word }
{
    u32::from_be_bytes(word)
}

/// Returns the sum of the numbers of these groups of four bytes.
fn words_total(words: &[[u8; 4]]) -> u64
    requires { length words.now < 2 ^ 32 }
    ensures total { result ≡ wide_total words.now }
    ensures small { result ≤ 2 ^ 32 * length words.now }
{
    let mut sum = 0;
    for word in words {
        sum += u64::from(wide_word(*word));
    }
    sum
}

/// Returns the sum of the 32-bit words of these bytes, with all carries. It has the same remainder
/// by 65,535 as the sum of their 16-bit words.
fn wide_sum(bytes: &[u8]) -> u64
    requires { length bytes.now < 2 ^ 32 }
    ensures sum { folded result ≡ folded (words_sum bytes.now) }
    ensures small { result ≤ 2 ^ 32 * length bytes.now }
{
    let (words, rest) = bytes.as_chunks::<4>();
    let sum = words_total(words);
    if rest.is_empty() {
        return sum;
    }
    sum + u64::from(wide_word_of(rest))
}

/// Returns a sum with its carries out of 16 bits added back in.
#[tactic(auto, unfolding(crate::specs::Folded::folded))]
fn fold(sum: u64) -> u16
    ensures { result ≡ folded sum }
{
    if sum == 0 {
        0
    } else {
        ((sum - 1) % 0xffff + 1) as u16
    }
}

/// Adds the words of these bytes to a folded sum.
fn add_bytes(start: u16, bytes: &[u8]) -> u16
    requires { length bytes.now < 2 ^ 32 }
    ensures { result ≡ folded (start + words_sum bytes.now) }
{
    fold(u64::from(start) + wide_sum(bytes))
}

/// Adds the words of an address to a folded sum.
fn add_address<F: Family>(start: u16, address: F::Addr) -> u16
    ensures sum { result ≡ folded (start + words_sum (F.bytes_of address)) }
    ensures whole { length (F.bytes_of address) % 2 ≡ 0 }
{
    let mut bytes = [0; 16];
    let (bytes, _) = bytes.split_at_mut(F::LEN);
    F::put(address, bytes);
    add_bytes(start, bytes)
}

/// Returns the folded sum of the pseudo-header for a message of this length: 0 over IPv4, which has
/// none.
fn pseudo_header_sum<F: Family>(src: F::Addr, dst: F::Addr, message_length: u32) -> u16
    ensures sum { result
        ≡ folded
        (words_sum (pseudo_header F.family (F.bytes_of src) (F.bytes_of dst) message_length)) }
    ensures whole { length (pseudo_header F.family (F.bytes_of src) (F.bytes_of dst) message_length)
        % 2 ≡ 0 }
{
    match F::family() {
        AddressFamily::Ipv4 => 0,
        AddressFamily::Ipv6 => {
            let sum = add_address::<F>(0, src);
            let sum = add_address::<F>(sum, dst);
            let sum = add_bytes(sum, &message_length.to_be_bytes());
            add_word(sum, PIM)
        }
    }
}

/// Returns the folded sum of a message from `src` to `dst`, with its Checksum field.
fn folded_sum<F: Family>(src: F::Addr, dst: F::Addr, message: &[u8]) -> u16
    requires { length message.now < 2 ^ 32 }
    ensures sum { result
        ≡ folded (message_sum F.family (F.bytes_of src) (F.bytes_of dst) message.now) }
    ensures whole { length
        (pseudo_header F.family (F.bytes_of src) (F.bytes_of dst) (length message.now)) % 2 ≡ 0 }
{
    let start = pseudo_header_sum::<F>(src, dst, message.len() as u32);
    add_bytes(start, message)
}

/// Returns whether the checksum of a message from `src` to `dst` is correct. Checksum fields of
/// 0x0000 and 0xffff are both correct where one is, unless the plain sum is then 0.
pub(crate) fn sums_rightly<F: Family>(src: F::Addr, dst: F::Addr, message: &[u8]) -> bool
    requires { length message.now < 2 ^ 32 }
    ensures { result ≡ sums_rightly F.family (F.bytes_of src) (F.bytes_of dst) message.now }
{
    folded_sum::<F>(src, dst, message) == 0xffff
}

/// Returns the complement of the sum of a message from `src` to `dst`: the checksum, where the
/// Checksum field is 0.
pub(crate) fn complement<F: Family>(src: F::Addr, dst: F::Addr, message: &[u8]) -> u16
    requires { length message.now < 2 ^ 32 }
    ensures sum { folded (message_sum F.family (F.bytes_of src) (F.bytes_of dst) message.now)
        + result ≡ 65535 }
    ensures whole { length
        (pseudo_header F.family (F.bytes_of src) (F.bytes_of dst) (length message.now)) % 2 ≡ 0 }
{
    !folded_sum::<F>(src, dst, message)
}
