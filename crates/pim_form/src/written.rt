//! One message, written in place: its head, a set for each group, and at last its header
//! (RFC 7761, 4.9.5). The checksum is summed over the finished message.

ghost use Rattle.std.specs.Prelude.{◌≡◌, ◌+◌, ◌*◌, ◌<◌, ◌≤◌, ◌^◌, true, take, drop, ◌++◌, length};
ghost use Rattle.std.specs.Prelude.{ℕ, List, Option, map, OnOk, OnErr};
ghost use Rattle.std.specs.List.{AllByRecursion, flat_map};
ghost use Rattle.pim_addr.specs.Encoded.{source_length};
ghost use Rattle.pim_frame.specs.Frame.{all_routers};
ghost use Rattle.pim_frame.specs.Seal.{IsSealed};
ghost use Rattle.pim_frame.specs.declared.frame.MessageType.TheVariants.{JoinPrune};
ghost use Rattle.pim_addr.specs.Routes.{rp_of};
ghost use Rattle.pim_jp.specs.Canonical.{IsMessageSet, canonical_entry, canonical_set, canonical};
ghost use Rattle.pim_jp.specs.Canonical.{canonical_set_length};
ghost use Rattle.pim_jp.specs.Canonical.{canonical_sets_length, canonical_head};
ghost use Rattle.pim_jp.specs.Canonical.{canonical_head_length};
ghost use Rattle.pim_form.specs.NormalForm.{IsNormal};
ghost use Rattle.pim_form.specs.Units.{group_units, units_of, run_entries, run_groups, run_size};
ghost use Rattle.pim_form.specs.Packing.{fits};
ghost use Rattle.pim_form.specs.Rows.{IsKept, form_seen};
ghost use Rattle.pim_form.specs.Plan.{run_of};
ghost use Rattle.pim_form.specs.Added.{IsAppended};
ghost use Rattle.pim_form.specs.Messages.{IsRpOf, HaveRps, star_entries, written_set};
ghost use Rattle.pim_form.specs.Messages.{written_message};
ghost use Rattle.pim_form.specs.Entries.{canonical_source_entry, canonical_rpt_entry};

use crate::groups::{GroupView, Groups};
use crate::place::GroupPlace;
use crate::sizes::message_size;
use crate::writer::Writer;
use pim_addr::{Family, Routes, group_length, source_length};
use pim_frame::{MessageType, all_routers, seal};
use pim_jp::{
    Entry, head_length, put_entry, put_entry_at, put_group_and_counts, put_head, set_length,
};
use std::alloc::AllocError;

impl<F: Family> Writer<F> {
    /// Writes the fields before the sets of a message, and seals it from the own address to
    /// ALL-PIM-ROUTERS. `sets` is the number of its group sets, which are in `bytes` already.
    pub fn seal_message(&self, sets: u8, bytes: &mut [u8])
        requires room { 4 + canonical_head_length F.family ≤ length bytes.old }
        requires counted { length bytes.old < 2 ^ 32 }
        ensures sealed { IsSealed F.family self.now.own (all_routers F.family) JoinPrune
            (canonical_head F.family self.now.upstream sets self.now.holdtime
            ++ drop (4 + canonical_head_length F.family) bytes.old) bytes.new }
        ensures length { length bytes.new ≡ length bytes.old }
    {
        let (_, body) = bytes.split_at_mut(4);
        let (head, _) = body.split_at_mut(head_length::<F>());
        put_head::<F>(self.upstream(), sets, self.holdtime(), head);
        seal::<F>(
            self.own(),
            all_routers::<F>(),
            MessageType::JoinPrune,
            bytes,
        );
    }
}

/// Writes sources as (S,G) entries, one after another.
fn write_sources<F: Family>(sources: &[F::Addr], bytes: &mut [u8])
    requires { length bytes.old ≡ length sources.now * source_length F.family }
    ensures { bytes.new ≡ flat_map (canonical_source_entry F.family) (map F.bytes_of sources.now) }
{
    for (index, source) in sources.iter().enumerate() {
        put_entry_at::<F>(Entry::Source(*source), index * source_length::<F>(), bytes);
    }
}

/// Writes exceptions as (S,G,rpt) entries, one after another.
fn write_exceptions<F: Family>(exceptions: &[F::Addr], bytes: &mut [u8])
    requires { length bytes.old ≡ length exceptions.now * source_length F.family }
    ensures { bytes.new ≡ flat_map (canonical_rpt_entry F.family) (map F.bytes_of exceptions.now) }
{
    for (index, exception) in exceptions.iter().enumerate() {
        put_entry_at::<F>(Entry::Rpt(*exception), index * source_length::<F>(), bytes);
    }
}

/// Writes the (*,G) entry of a group that has a star; nothing for another group.
fn write_star<F: Family>(routes: &Routes<F>, group: &GroupView<'_, F>, bytes: &mut [u8])
    requires rp { IsRpOf F.family (rp_of F.family routes.now group.now.group) group.now.star }
    requires length { length bytes.old
        ≡ length (star_entries (rp_of F.family routes.now group.now.group) group.now.star)
        * source_length F.family }
    ensures { bytes.new ≡ flat_map (canonical_entry F.family)
        (star_entries (rp_of F.family routes.now group.now.group) group.now.star) }
{
    if !group.star() {
        return;
    }
    if let Some(rp) = routes.rp_of(group.group()) {
        put_entry::<F>(Entry::Star(rp), bytes);
    }
}

/// The number of joined entries of a group: its star and its sources.
fn joined_count<F: Family>(group: &GroupView<'_, F>) -> usize
    requires { length group.now.sources < 2 ^ 16 }
    ensures { (rps : List ℕ → Option (List ℕ))
        → IsRpOf F.family (rps group.now.group) group.now.star
        → result ≡ length (written_set rps group.now).joined }
{
    usize::from(group.star()) + group.sources().len()
}

/// The number of pruned entries of a group: its exceptions.
fn pruned_count<F: Family>(group: &GroupView<'_, F>) -> usize
    ensures { (rps : List ℕ → Option (List ℕ)) → result
        ≡ length (written_set rps group.now).pruned }
{
    group.exceptions().len()
}

/// Writes the set of a group: it joins the star and then the sources, and prunes the exceptions.
fn write_set<F: Family>(routes: &Routes<F>, group: &GroupView<'_, F>, bytes: &mut [u8])
    requires rp { IsRpOf F.family (rp_of F.family routes.now group.now.group) group.now.star }
    requires joined { length (written_set (rp_of F.family routes.now) group.now).joined < 2 ^ 16 }
    requires pruned { length (written_set (rp_of F.family routes.now) group.now).pruned < 2 ^ 16 }
    requires length { length bytes.old ≡ canonical_set_length F.family
        (length (written_set (rp_of F.family routes.now) group.now).joined)
        (length (written_set (rp_of F.family routes.now) group.now).pruned) }
    ensures { bytes.new
        ≡ canonical_set F.family (written_set (rp_of F.family routes.now) group.now) }
{
    let sources = group.sources();
    let exceptions = group.exceptions();
    let stars = usize::from(group.star());
    let joined = stars + sources.len();
    let (front, entries) = bytes.split_at_mut(group_length::<F>() + 4);
    put_group_and_counts::<F>(group.group(), joined as u16, exceptions.len() as u16, front);
    let (star, listed) = entries.split_at_mut(stars * source_length::<F>());
    let (joins, prunes) = listed.split_at_mut(sources.len() * source_length::<F>());
    write_star::<F>(routes, group, star);
    write_sources::<F>(sources, joins);
    write_exceptions::<F>(exceptions, prunes);
}

/// Writes the set of a group at this place, and returns the place after it.
fn write_set_at<F: Family>(
    routes: &Routes<F>,
    group: &GroupView<'_, F>,
    at: usize,
    bytes: &mut [u8],
) -> usize
    requires rp { IsRpOf F.family (rp_of F.family routes.now group.now.group) group.now.star }
    requires set { IsMessageSet F.family (written_set (rp_of F.family routes.now) group.now) }
    requires room { at + canonical_set_length F.family
        (length (written_set (rp_of F.family routes.now) group.now).joined)
        (length (written_set (rp_of F.family routes.now) group.now).pruned) ≤ length bytes.old }
    ensures end { result ≡ at + canonical_set_length F.family
        (length (written_set (rp_of F.family routes.now) group.now).joined)
        (length (written_set (rp_of F.family routes.now) group.now).pruned) }
    ensures front { take result bytes.new
        ≡ take at bytes.old
        ++ canonical_set F.family (written_set (rp_of F.family routes.now) group.now) }
    ensures length { length bytes.new ≡ length bytes.old }
{
    let length = set_length::<F>(joined_count(group) as u16, pruned_count(group) as u16);
    let (_, behind) = bytes.split_at_mut(at);
    let (place, _) = behind.split_at_mut(length);
    write_set::<F>(routes, group, place);
    at + length
}

/// Writes the sets of groups, one after another.
fn write_sets<F: Family>(routes: &Routes<F>, groups: Groups<'_, F>, bytes: &mut [u8])
    requires rps { HaveRps F.family (rp_of F.family routes.now) groups }
    requires sets { AllByRecursion (IsMessageSet F.family)
        (map (written_set (rp_of F.family routes.now)) groups) }
    requires length { length bytes.old
        ≡ canonical_sets_length F.family (map (written_set (rp_of F.family routes.now)) groups) }
    ensures { bytes.new
        ≡ flat_map (canonical_set F.family)
        (map (written_set (rp_of F.family routes.now)) groups.entry) }
{
    let mut at = 0;
    for group in groups {
        at = write_set_at::<F>(routes, &group, at, bytes);
    }
}

/// Writes the message of a part of a form, which fits the writer's budget, into a slice of its
/// length. It is sealed to ALL-PIM-ROUTERS.
pub(crate) fn write_message<F: Family>(
    writer: &Writer<F>,
    routes: &Routes<F>,
    part: Groups<'_, F>,
    bytes: &mut [u8],
)
    requires normal { IsNormal F.family part }
    requires rps { HaveRps F.family (rp_of F.family routes.now) part }
    requires fitting { fits F.family writer.now.budget (units_of part) ≡ true }
    requires length { length bytes.old ≡ run_size F.family (units_of part) }
    ensures { IsSealed F.family writer.now.own (all_routers F.family) JoinPrune
        (canonical F.family (written_message writer.now (rp_of F.family routes.now) part.entry))
        bytes.new }
{
    writer.is_writing();
    let count = part.count_left() as u8;
    let (_, body) = bytes.split_at_mut(4);
    let (_, sets) = body.split_at_mut(head_length::<F>());
    write_sets::<F>(routes, part, sets);
    writer.seal_message(count, bytes);
}

/// The number of entries of a group: its star, its exceptions and its sources.
fn entry_count<F: Family>(group: &GroupView<'_, F>) -> usize
    requires { run_entries (group_units group.now) < 2 ^ 16 }
    ensures { result ≡ run_entries (group_units group.now) }
{
    usize::from(group.star()) + group.exceptions().len() + group.sources().len()
}

/// The number of bytes of the message of a part of a form.
pub(crate) fn message_length<F: Family>(part: Groups<'_, F>) -> usize
    requires normal { IsNormal F.family part }
    requires groups { run_groups (units_of part) ≤ 255 }
    requires size { run_size F.family (units_of part) ≤ 65000 }
    ensures { result ≡ run_size F.family (units_of part.entry) }
{
    let count = part.count_left();
    let mut entries = 0;
    for group in part {
        entries += entry_count::<F>(&group);
    }
    message_size::<F>(count, entries)
}

/// Appends the message of a part of a form, which fits the writer's budget. The only refusal is for
/// lack of memory; then nothing changes.
pub(crate) fn append_message<F: Family>(
    writer: &Writer<F>,
    routes: &Routes<F>,
    row: &[F::Addr],
    pieces: &[GroupPlace<F::Addr>],
    bytes: &mut Vec<u8>,
) -> Result<(), AllocError>
    requires kept { IsKept F.bytes_of F.family row.now pieces.now }
    requires rps { HaveRps F.family (rp_of F.family routes.now)
        (form_seen F.bytes_of row.now pieces.now) }
    requires fitting { fits F.family writer.now.budget (run_of F.bytes_of row.now pieces.now)
        ≡ true }
    ensures ok { OnOk result (IsAppended F.family writer.now (rp_of F.family routes.now)
        (form_seen F.bytes_of row.now pieces.now) bytes.old.items bytes.new.items) }
    ensures err { OnErr result (bytes.new.items ≡ bytes.old.items) }
{
    writer.is_writing();
    let start = bytes.len();
    let length = message_length::<F>(Groups::new(row, pieces));
    bytes.resize(start + length, 0)?;
    let (_, place) = bytes.split_at_mut(start);
    write_message::<F>(writer, routes, Groups::new(row, pieces), place);
    Ok(())
}
