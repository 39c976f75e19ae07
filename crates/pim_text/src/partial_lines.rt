//! The text of the front of a Join/Prune body: of the bytes before a fault.
//!
//! No byte is checked here. A line is written where all that it states is within the front.

ghost use Rattle.std.specs.Prelude.{◌≡◌, ◌*◌, ◌≤◌, ◌++◌, [], length, drop, nat_le};
ghost use Rattle.std.specs.Prelude.{if◌then◌else◌, OnOk, IfOk};
ghost use Rattle.pim_addr.specs.Encoded.{source_length, source_value};
ghost use Rattle.pim_jp.specs.Message.{entry_of, entries_of, set_of, sets_of, after_set};
ghost use Rattle.pim_jp.specs.Seen.{entry_seen};
ghost use Rattle.pim_text.specs.JoinPruneText.{entry_line};
ghost use Rattle.pim_text.specs.PartialText.{placed_entries, placed_set, placed_sets, lines_by};
ghost use Rattle.pim_text.specs.PartialText.{partial_text};

use crate::join_prune_lines::{push_counts_line, push_entry_line, push_head_line};
use byteorder::{BigEndian, ByteOrder};
use pim_addr::{Family, group_length, source_length, unicast_length};
use pim_jp::{Entry, head_length};
use std::alloc::{AllocError, Global};

/// The R bit of an encoded source: the entry is about the RP tree.
const RPT: u8 = 1;

/// The W bit of an encoded source: the entry is about all sources.
const WILDCARD: u8 = 2;

/// The bytes after the first `count`. There are none if there are no more than that.
fn after(count: usize, bytes: &[u8]) -> &[u8]
    ensures { result.now ≡ drop count bytes.now }
{
    let (_, others) = bytes.split_at(count.min(bytes.len()));
    others
}

/// The entry of the encoded source at the front. W without R counts as (S,G).
fn first_entry<F: Family>(bytes: &[u8]) -> Entry<F::Addr>
    requires { source_length F.family ≤ length bytes.now }
    ensures { entry_seen F.bytes_of result ≡ entry_of (source_value F.family bytes.now) }
{
    let flags = bytes[2];
    let (_, behind) = bytes.split_at(4);
    let address = F::take(behind);
    match (flags & RPT == RPT, flags & WILDCARD == WILDCARD) {
        (true, true) => Entry::Star(address),
        (true, false) => Entry::Rpt(address),
        (false, _) => Entry::Source(address),
    }
}

/// Adds the line of the entry at the front, if the bytes have the whole entry.
fn push_first<F: Family>(text: &mut Vec<u8>, list: &[u8], bytes: &[u8]) -> Result<(), AllocError>
    ensures { OnOk result (text.new.items ≡ text.old.items
        ++ (if nat_le (source_length F.family) (length bytes.now)
        then entry_line F.family list.now (entry_of (source_value F.family bytes.now)) else [])) }
{
    if bytes.len() < source_length::<F>() {
        return Ok(());
    }
    push_entry_line::<F>(text, list, first_entry::<F>(bytes))
}

/// Adds the lines of the entries of a list that are whole, and returns the bytes after the list.
fn push_list<'a, F: Family>(
    text: &mut Vec<u8>,
    list: &[u8],
    count: u16,
    bytes: &'a [u8],
) -> Result<&'a [u8], AllocError>
    ensures text { OnOk result (text.new.items ≡ text.old.items ++ lines_by (length bytes.now)
        (placed_entries F.family list.now 0 (entries_of F.family count bytes.now))) }
    ensures after { IfOk result
        (λ after. after.now ≡ drop (count * source_length F.family) bytes.now) }
{
    let mut left = bytes;
    for _ in 0..count {
        push_first::<F>(text, list, left)?;
        left = after(source_length::<F>(), left);
    }
    Ok(left)
}

/// Adds the lines of the group set at the front, as far as it is whole, and returns the bytes after
/// the set.
fn push_set<'a, F: Family>(text: &mut Vec<u8>, bytes: &'a [u8]) -> Result<&'a [u8], AllocError>
    ensures text { OnOk result (text.new.items ≡ text.old.items ++ lines_by (length bytes.now)
        (placed_set F.family 0 (set_of F.family bytes.now))) }
    ensures after { IfOk result (λ after. after.now ≡ after_set F.family bytes.now) }
{
    let size = group_length::<F>();
    if bytes.len() < size + 4 {
        return Ok(after(bytes.len(), bytes));
    }
    let (_, group) = bytes.split_at(4);
    let (_, counts) = bytes.split_at(size);
    let (_, second) = counts.split_at(2);
    let (_, joined) = counts.split_at(4);
    let joined_count = BigEndian::read_u16(counts);
    let pruned_count = BigEndian::read_u16(second);
    push_counts_line::<F>(text, F::take(group), joined_count, pruned_count)?;
    let pruned = push_list::<F>(text, b"join ", joined_count, joined)?;
    let after = push_list::<F>(text, b"prune ", pruned_count, pruned)?;
    Ok(after)
}

/// Adds the lines of the first `count` group sets, as far as they are whole.
fn push_sets<F: Family>(text: &mut Vec<u8>, count: u8, bytes: &[u8]) -> Result<(), AllocError>
    ensures { OnOk result (text.new.items ≡ text.old.items ++ lines_by (length bytes.now)
        (placed_sets F.family 0 (sets_of F.family count bytes.now))) }
{
    let mut left = bytes;
    for _ in 0..count {
        left = push_set::<F>(text, left)?;
    }
    Ok(())
}

/// Adds the line of the message, and those of its group sets, as far as they are whole.
fn push_message<F: Family>(text: &mut Vec<u8>, front: &[u8]) -> Result<(), AllocError>
    ensures { OnOk result
        (text.new.items ≡ text.old.items ++ partial_text F.family front.now) }
{
    if front.len() < head_length::<F>() {
        return Ok(());
    }
    let (_, upstream) = front.split_at(2);
    let (_, head) = front.split_at(unicast_length::<F>());
    let (_, holdtime) = head.split_at(2);
    let (_, sets) = head.split_at(4);
    push_head_line::<F>(
        text,
        F::take(upstream),
        BigEndian::read_u16(holdtime),
        head[1],
    )?;
    push_sets::<F>(text, head[1], sets)?;
    Ok(())
}

/// The text of the front of a Join/Prune body, of the bytes before a fault: those lines of
/// `message_text` whose parts all end within the front. The numbers in the line of a group set are
/// those that its bytes state, also where the front has fewer entries.
///
/// Of a body without a fault it is the whole text.
pub fn partial_text<F: Family>(alloc: Global, front: &[u8]) -> Result<Vec<u8>, AllocError>
    ensures { IfOk result (λ text. text.items ≡ partial_text F.family front.now) }
{
    let mut text = Vec::new(alloc);
    push_message::<F>(&mut text, front)?;
    Ok(text)
}
