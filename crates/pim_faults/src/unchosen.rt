//! The warning on a choice of records that nothing in a capture meets.

ghost use Rattle.std.specs.Prelude.{◌≡◌, ◌++◌, codes, decimal};
ghost use Rattle.pim_device.specs.Device.{AppendsAll, failures_after};
ghost use Rattle.pim_lines.specs.Pieces.{line};
ghost use Rattle.pim_faults.specs.Unchosen.{interface_words, link_words, slot_words};
ghost use Rattle.pim_faults.specs.Unchosen.{other_links, links_text, unchosen_text};
ghost use Rattle.pim_faults.specs.Missing.{more_text};
ghost use Rattle.pim_faults.specs.Words.{vlan_words};

use crate::fault::{put_name, put_number, put_vlan};
use crate::missing::write_more;
use pim_addr::{Drain, Failed, write_all};
use pim_capture::{InterfaceChoice, Link};
use pim_merge::Unchosen;

/// Writes words and an interface, as `--interface` takes it.
fn put_interface<W: Drain>(
    writer: &mut W,
    words: &[u8],
    interface: InterfaceChoice,
) -> Result<(), Failed>
    ensures bytes { AppendsAll (W.contents writer.old) (W.contents writer.new) result
        (words.now ++ interface_words interface) }
    ensures count { W.failures writer.new ≡ failures_after (W.failures writer.old) result }
{
    match interface {
        InterfaceChoice::Number(number) => put_number(writer, words, u64::from(number)),
        InterfaceChoice::Name(name) => put_name(writer, words, &name),
    }
}

/// Writes words and a link.
fn put_link<W: Drain>(writer: &mut W, words: &[u8], more: &[u8], link: Link) -> Result<(), Failed>
    ensures bytes { AppendsAll (W.contents writer.old) (W.contents writer.new) result
        (words.now ++ vlan_words link.vlan ++ more.now ++ interface_words link.interface) }
    ensures count { W.failures writer.new ≡ failures_after (W.failures writer.old) result }
{
    put_vlan(writer, words, link.vlan)?;
    put_interface(writer, more, link.interface)
}

/// Writes words and the link in a slot, if it has one.
fn put_slot<W: Drain>(writer: &mut W, words: &[u8], slot: Option<Link>) -> Result<(), Failed>
    ensures bytes { AppendsAll (W.contents writer.old) (W.contents writer.new) result
        (slot_words words.now slot) }
    ensures count { W.failures writer.new ≡ failures_after (W.failures writer.old) result }
{
    match slot {
        Some(link) => put_link(writer, words, b" interface ", link),
        None => Ok(()),
    }
}

/// Writes the links in these slots, each after a comma.
#[tactic(auto, unfolding(crate::specs::Unchosen::other_links))]
fn put_others<W: Drain>(writer: &mut W, slots: &[Option<Link>]) -> Result<(), Failed>
    ensures bytes { AppendsAll (W.contents writer.old) (W.contents writer.new) result
        (other_links slots.now) }
    ensures count { W.failures writer.new ≡ failures_after (W.failures writer.old) result }
{
    match slots.split_first() {
        Some((slot, others)) => {
            put_slot(writer, b", vlan ", *slot)?;
            put_others(writer, others)
        }
        None => Ok(()),
    }
}

/// Writes the links in these slots, with commas between them.
#[tactic(auto, unfolding(crate::specs::Unchosen::links_text))]
fn put_links<W: Drain>(writer: &mut W, slots: &[Option<Link>]) -> Result<(), Failed>
    ensures bytes { AppendsAll (W.contents writer.old) (W.contents writer.new) result
        (links_text slots.now) }
    ensures count { W.failures writer.new ≡ failures_after (W.failures writer.old) result }
{
    match slots.split_first() {
        Some((slot, others)) => {
            put_slot(writer, b"; PIM is there on vlan ", *slot)?;
            put_others(writer, others)
        }
        None => Ok(()),
    }
}

/// Writes words, the name of a file and more words.
fn put_file<W: Drain>(writer: &mut W, words: &[u8], file: &str, more: &[u8]) -> Result<(), Failed>
    ensures bytes { AppendsAll (W.contents writer.old) (W.contents writer.new) result
        (words.now ++ file.now ++ more.now) }
    ensures count { W.failures writer.new ≡ failures_after (W.failures writer.old) result }
{
    write_all(writer, words)?;
    write_all(writer, file.as_bytes())?;
    write_all(writer, more)
}

/// Writes words, the name of a file, more words and the links.
fn put_unchosen<W: Drain>(
    writer: &mut W,
    words: &[u8],
    file: &str,
    more: &[u8],
    unchosen: &Unchosen,
) -> Result<(), Failed>
    ensures bytes { AppendsAll (W.contents writer.old) (W.contents writer.new) result
        (words.now ++ file.now ++ more.now ++ links_text unchosen.now.links) }
    ensures count { W.failures writer.new ≡ failures_after (W.failures writer.old) result }
{
    put_file(writer, words, file, more)?;
    put_links(writer, &unchosen.links)
}

/// Writes the same and whether there are more links, and ends the line.
fn write_unchosen<W: Drain>(
    writer: &mut W,
    words: &[u8],
    file: &str,
    more: &[u8],
    unchosen: &Unchosen,
) -> Result<(), Failed>
    ensures bytes { AppendsAll (W.contents writer.old) (W.contents writer.new) result
        (line (words.now ++ file.now ++ more.now ++ links_text unchosen.now.links
        ++ more_text unchosen.now.has_more)) }
    ensures count { W.failures writer.new ≡ failures_after (W.failures writer.old) result }
{
    put_unchosen(writer, words, file, more, unchosen)?;
    write_more(writer, unchosen.has_more)
}

/// Writes the line of the warning that no record of the capture in this file is chosen, with the
/// links of its PIM packets.
///
/// # Errors
/// The writer failed: a prefix of the line was written.
pub fn unchosen_line<W: Drain>(
    writer: &mut W,
    file: &str,
    unchosen: &Unchosen,
) -> Result<(), Failed>
    ensures bytes { AppendsAll (W.contents writer.old) (W.contents writer.new) result
        (unchosen_text file.now unchosen.now) }
    ensures count { W.failures writer.new ≡ failures_after (W.failures writer.old) result }
{
    write_unchosen(
        writer,
        b"pimtree: warning: ",
        file,
        b" has no record that --vlan and --interface choose",
        unchosen,
    )
}
