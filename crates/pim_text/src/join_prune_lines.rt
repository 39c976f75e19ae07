//! The text of a Join/Prune message.

ghost use Rattle.std.specs.Prelude.{◌≡◌, ◌++◌, codes, decimal, OnOk, IfOk};
ghost use Rattle.std.specs.List.{flat_map};
ghost use Rattle.pim_addr.specs.Text.{address_text};
ghost use Rattle.pim_jp.specs.Seen.{entry_seen};
ghost use Rattle.pim_text.specs.JoinPruneText.{message_line, set_line, entry_words, entry_line};
ghost use Rattle.pim_text.specs.JoinPruneText.{set_text, message_text};
ghost use Rattle.pim_text.specs.Text.{line};

use crate::pieces::{push_address, push_number};
use pim_addr::Family;
use pim_jp::{Entries, Entry, JpView, SetView};
use std::alloc::{AllocError, Global};

/// Adds the line of a message with this upstream neighbour, holdtime and number of sets.
pub(crate) fn push_head_line<F: Family>(
    text: &mut Vec<u8>,
    upstream: F::Addr,
    holdtime: u16,
    sets: u8,
) -> Result<(), AllocError>
    ensures { OnOk result (text.new.items ≡ text.old.items
        ++ line (codes "join/prune upstream " ++ address_text F.family (F.bytes_of upstream)
        ++ codes " holdtime " ++ decimal holdtime ++ codes " sets " ++ decimal sets)) }
{
    push_address::<F>(text, b"join/prune upstream ", upstream)?;
    push_number(text, b" holdtime ", usize::from(holdtime))?;
    push_number(text, b" sets ", usize::from(sets))?;
    text.extend_from_slice(b"\n")?;
    Ok(())
}

/// Adds the first line of a Join/Prune message: upstream neighbour, holdtime and number of sets.
fn push_message_line<F: Family>(
    text: &mut Vec<u8>,
    message: &JpView<'_, F>,
) -> Result<(), AllocError>
    ensures { OnOk result (text.new.items ≡ text.old.items ++ message_line F.family message.now) }
{
    push_head_line::<F>(
        text,
        message.upstream(),
        message.holdtime(),
        message.set_count(),
    )
}

/// Adds the line of a group set with these numbers of joined and pruned entries.
pub(crate) fn push_counts_line<F: Family>(
    text: &mut Vec<u8>,
    group: F::Addr,
    joined: u16,
    pruned: u16,
) -> Result<(), AllocError>
    ensures { OnOk result (text.new.items ≡ text.old.items
        ++ line (codes "set " ++ address_text F.family (F.bytes_of group)
        ++ codes " joined " ++ decimal joined ++ codes " pruned " ++ decimal pruned)) }
{
    push_address::<F>(text, b"set ", group)?;
    push_number(text, b" joined ", usize::from(joined))?;
    push_number(text, b" pruned ", usize::from(pruned))?;
    text.extend_from_slice(b"\n")
}

/// Adds the first line of a group set: its group and the numbers of its entries.
fn push_set_line<F: Family>(text: &mut Vec<u8>, set: &SetView<'_, F>) -> Result<(), AllocError>
    ensures { OnOk result (text.new.items ≡ text.old.items ++ set_line F.family set.now) }
{
    push_counts_line::<F>(text, set.group(), set.joined_count(), set.pruned_count())
}

/// Adds the kind of an entry, and its address.
fn push_entry<F: Family>(text: &mut Vec<u8>, entry: Entry<F::Addr>) -> Result<(), AllocError>
    ensures { OnOk result (text.new.items ≡ text.old.items
        ++ entry_words F.family (entry_seen F.bytes_of entry)) }
{
    match entry {
        Entry::Star(rp) => push_address::<F>(text, b"star ", rp),
        Entry::Source(source) => push_address::<F>(text, b"source ", source),
        Entry::Rpt(source) => push_address::<F>(text, b"rpt ", source),
    }
}

/// Adds the line of an entry. `list` names its list: `join ` or `prune `.
pub(crate) fn push_entry_line<F: Family>(
    text: &mut Vec<u8>,
    list: &[u8],
    entry: Entry<F::Addr>,
) -> Result<(), AllocError>
    ensures { OnOk result (text.new.items
        ≡ text.old.items ++ entry_line F.family list.now (entry_seen F.bytes_of entry)) }
{
    text.extend_from_slice(list)?;
    push_entry::<F>(text, entry)?;
    text.extend_from_slice(b"\n")
}

/// Adds the lines of the entries of one list.
fn push_entries<F: Family>(
    text: &mut Vec<u8>,
    list: &[u8],
    entries: Entries<'_, F>,
) -> Result<(), AllocError>
    ensures { OnOk result (text.new.items ≡ text.old.items
        ++ flat_map (entry_line F.family list.now) entries.entry) }
{
    for entry in entries {
        push_entry_line::<F>(text, list, entry)?;
    }
    Ok(())
}

/// Adds the lines of a group set and of its entries.
fn push_set<F: Family>(text: &mut Vec<u8>, set: &SetView<'_, F>) -> Result<(), AllocError>
    ensures { OnOk result (text.new.items ≡ text.old.items ++ set_text F.family set.now) }
{
    push_set_line(text, set)?;
    push_entries(text, b"join ", set.joined())?;
    push_entries(text, b"prune ", set.pruned())
}

/// The text of a Join/Prune message: its own line, then those of its group sets, in order.
pub fn message_text<F: Family>(
    alloc: Global,
    message: &JpView<'_, F>,
) -> Result<Vec<u8>, AllocError>
    ensures { IfOk result (λ text. text.items ≡ message_text F.family message.now) }
{
    let mut text = Vec::new(alloc);
    push_message_line(&mut text, message)?;
    for set in message.sets() {
        push_set(&mut text, &set)?;
    }
    Ok(text)
}
