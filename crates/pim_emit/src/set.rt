//! The set of a piece of a group (RFC 7761, 4.9.5), written in place: first the sources as far as
//! there is room, then the exceptions, and at last the group and the counts.

ghost use Rattle.std.specs.Prelude.{◌≡◌, ◌+◌, ◌*◌, ◌≤◌, ◌++◌, true, length, take, is_some};
ghost use Rattle.std.specs.Int.{from_bool};
ghost use Rattle.std.specs.List.{flat_map};
ghost use Rattle.pim_addr.specs.Address.{IsGroupAddress};
ghost use Rattle.pim_addr.specs.Encoded.{group_length, source_length};
ghost use Rattle.pim_form.specs.Messages.{star_entries, written_set};
ghost use Rattle.pim_form.specs.Rows.{exceptions_of};
ghost use Rattle.pim_jp.specs.Canonical.{canonical_entry, canonical_set};
ghost use Rattle.pim_jp.specs.Seen.{entry_seen};
ghost use Rattle.pim_addr.specs.Routes.{rp_of};
ghost use Rattle.pim_emit.specs.Left.{star_of, exceptions_in, piece_seen, piece_form};
ghost use Rattle.pim_emit.specs.Sets.{source_entries, exception_entries, cut_piece, AreWritten};
ghost use Rattle.pim_emit.specs.Sets.{sources_seen};
ghost use Rattle.pim_emit.specs.Sets.{set_entries, entry_count, set_size};

use crate::ahead::Ahead;
use crate::demand::UpstreamDemand;
use crate::hints::PORTS;
use crate::piece::Piece;
use pim_addr::{Family, group_length, source_length};
use pim_jp::{Entry, put_entry_at, put_group_and_counts};
use std::mem::size_of_val;

/// The number of ports for which a small array suffices.
const FEW: usize = 8;

/// The greatest size of what is kept of a port, in bytes. Larger values aren't kept.
const LARGEST: usize = 256;

/// The sources of a set: their number, and the last one that is written.
#[derive(Clone, Copy)]
pub(crate) struct WrittenSources<A> {
    pub(crate) count: usize,
    pub(crate) last: Option<A>,
}

/// Writes an entry at the index `at`.
fn write_entry_at<F: Family>(entry: Entry<F::Addr>, at: usize, bytes: &mut [u8])
    requires { at + source_length F.family ≤ length bytes.old }
    ensures written { take (at + source_length F.family) bytes.new
        ≡ take at bytes.old ++ canonical_entry F.family (entry_seen F.bytes_of entry) }
    ensures length { length bytes.new ≡ length bytes.old }
{
    put_entry_at::<F>(entry, at, bytes);
}

/// Writes the sources of a piece, at most `most`, from the index `at` on. `nexts` keeps what comes
/// next on each port, if it has a place for each.
fn write_sources_ahead<'a, F: Family>(
    demand: &UpstreamDemand<'a, F>,
    piece: &Piece<F::Addr>,
    most: usize,
    at: usize,
    nexts: &mut [Option<Ahead<'a, F>>],
    bytes: &mut [u8],
) -> WrittenSources<F::Addr>
    requires group { IsGroupAddress F.family (F.bytes_of piece.now.group) }
    requires few { length bytes.old ≤ 65000 }
    requires room { at + most * source_length F.family ≤ length bytes.old }
    ensures reported { AreWritten (piece_seen F.bytes_of piece.now) demand.now.form most
        (sources_seen F.bytes_of result) }
    ensures written { take (at + result.count * source_length F.family) bytes.new
        ≡ take at bytes.old
        ++ source_entries F.family
        (cut_piece result.count (piece_seen F.bytes_of piece.now) demand.now.form).sources }
    ensures length { length bytes.new ≡ length bytes.old }
{
    demand.is_normal();
    demand.look_ahead(piece.group, piece.from, nexts);
    let mut count = 0;
    let mut last = piece.from;
    while count < most {
        let Some(source) = demand.next_ahead(piece.group, last, nexts) else {
            break;
        };
        let place = at + count * source_length::<F>();
        write_entry_at::<F>(Entry::Source(source), place, bytes);
        count += 1;
        last = Some(source);
    }
    demand.keep_ahead(nexts);
    WrittenSources { count, last }
}

/// Writes the sources of a piece, at most `most`, from the index `at` on.
fn write_sources<F: Family>(
    demand: &UpstreamDemand<'_, F>,
    piece: &Piece<F::Addr>,
    most: usize,
    at: usize,
    bytes: &mut [u8],
) -> WrittenSources<F::Addr>
    requires group { IsGroupAddress F.family (F.bytes_of piece.now.group) }
    requires few { length bytes.old ≤ 65000 }
    requires room { at + most * source_length F.family ≤ length bytes.old }
    ensures reported { AreWritten (piece_seen F.bytes_of piece.now) demand.now.form most
        (sources_seen F.bytes_of result) }
    ensures written { take (at + result.count * source_length F.family) bytes.new
        ≡ take at bytes.old
        ++ source_entries F.family
        (cut_piece result.count (piece_seen F.bytes_of piece.now) demand.now.form).sources }
    ensures length { length bytes.new ≡ length bytes.old }
{
    let none: Option<Ahead<'_, F>> = None;
    if size_of_val(&none) > LARGEST {
        let mut nowhere: [Option<Ahead<'_, F>>; 0] = [];
        return write_sources_ahead::<F>(demand, piece, most, at, &mut nowhere, bytes);
    }
    if demand.port_count() <= FEW {
        let mut nexts: [Option<Ahead<'_, F>>; FEW] = std::array::from_fn(
            |_| demand.nothing_ahead(),
        );
        return write_sources_ahead::<F>(demand, piece, most, at, &mut nexts, bytes);
    }
    let mut nexts: [Option<Ahead<'_, F>>; PORTS] = std::array::from_fn(|_| demand.nothing_ahead());
    write_sources_ahead::<F>(demand, piece, most, at, &mut nexts, bytes)
}

/// Writes the exceptions of the group's star, which the group has, from the index `at` on.
fn write_exceptions<F: Family>(
    demand: &UpstreamDemand<'_, F>,
    group: F::Addr,
    at: usize,
    bytes: &mut [u8],
)
    requires group { IsGroupAddress F.family (F.bytes_of group) }
    requires star { is_some (star_of (F.bytes_of group) demand.now.form) ≡ true }
    requires few { length bytes.old ≤ 65000 }
    requires room { at
        + length (exceptions_in (F.bytes_of group) demand.now.form) * source_length F.family
        ≤ length bytes.old }
    ensures written { take (at
        + length (exceptions_in (F.bytes_of group) demand.now.form) * source_length F.family)
        bytes.new ≡ take at bytes.old
        ++ exception_entries F.family (exceptions_in (F.bytes_of group) demand.now.form) }
    ensures length { length bytes.new ≡ length bytes.old }
{
    demand.is_normal();
    let stars = demand.stars(group);
    let mut rpts = demand.rpts(group, &stars);
    let mut place = at;
    while let Some(exception) = demand.next_exception(group, &stars, &mut rpts) {
        write_entry_at::<F>(Entry::Rpt(exception), place, bytes);
        place += source_length::<F>();
    }
    demand.keep_rpts(&stars, &rpts);
}

/// Writes the (*,G) entry of a piece that has the star, and returns the number of such entries.
fn write_star<F: Family>(
    demand: &UpstreamDemand<'_, F>,
    piece: &Piece<F::Addr>,
    bytes: &mut [u8],
) -> usize
    requires group { IsGroupAddress F.family (F.bytes_of piece.now.group) }
    requires star { piece.now.starred ≡ true
        → is_some (star_of (F.bytes_of piece.now.group) demand.now.form) ≡ true }
    requires room { from_bool piece.now.starred * source_length F.family ≤ length bytes.old }
    ensures one { result ≡ from_bool piece.now.starred }
    ensures count { result
        ≡ length (star_entries (rp_of F.family demand.now.table (F.bytes_of piece.now.group))
        (piece_form (piece_seen F.bytes_of piece.now) demand.now.form).star) }
    ensures written { take (result * source_length F.family) bytes.new
        ≡ flat_map (canonical_entry F.family)
        (star_entries (rp_of F.family demand.now.table (F.bytes_of piece.now.group))
        (piece_form (piece_seen F.bytes_of piece.now) demand.now.form).star) }
    ensures length { length bytes.new ≡ length bytes.old }
{
    if !piece.starred {
        return 0;
    }
    demand.star_has_rp(piece.group);
    if let Some(rp) = demand.rp_of(piece.group) {
        write_entry_at::<F>(Entry::Star(rp), 0, bytes);
    }
    1
}

/// Writes the entries of a piece: its star, if the piece has it, at most `most` of its sources, and
/// the exceptions of the star.
fn write_entries<F: Family>(
    demand: &UpstreamDemand<'_, F>,
    piece: &Piece<F::Addr>,
    most: usize,
    bytes: &mut [u8],
) -> WrittenSources<F::Addr>
    requires group { IsGroupAddress F.family (F.bytes_of piece.now.group) }
    requires star { piece.now.starred ≡ true
        → is_some (star_of (F.bytes_of piece.now.group) demand.now.form) ≡ true }
    requires few { length bytes.old ≤ 65000 }
    requires room { (from_bool piece.now.starred + most
        + length (exceptions_of
        (piece_form (piece_seen F.bytes_of piece.now) demand.now.form).star))
        * source_length F.family ≤ length bytes.old }
    ensures reported { AreWritten (piece_seen F.bytes_of piece.now) demand.now.form most
        (sources_seen F.bytes_of result) }
    ensures joined { length (written_set (rp_of F.family demand.now.table)
        (cut_piece result.count (piece_seen F.bytes_of piece.now) demand.now.form)).joined
        ≡ from_bool piece.now.starred + result.count }
    ensures written { let this = cut_piece result.count (piece_seen F.bytes_of piece.now)
        demand.now.form in
        take (entry_count F.family (rp_of F.family demand.now.table) this * source_length F.family)
        bytes.new
        ≡ set_entries F.family (rp_of F.family demand.now.table) this }
    ensures length { length bytes.new ≡ length bytes.old }
{
    let stars = write_star::<F>(demand, piece, bytes);
    let at = stars * source_length::<F>();
    let reported = write_sources::<F>(demand, piece, most, at, bytes);
    if piece.starred {
        let behind = at + reported.count * source_length::<F>();
        write_exceptions::<F>(demand, piece.group, behind, bytes);
    }
    reported
}

/// Writes the set of a piece, with at most `most` of its sources. If the piece has the star,
/// `exceptions` is the number of its exceptions.
pub(crate) fn write_set<F: Family>(
    demand: &UpstreamDemand<'_, F>,
    piece: &Piece<F::Addr>,
    exceptions: usize,
    most: usize,
    bytes: &mut [u8],
) -> WrittenSources<F::Addr>
    requires group { IsGroupAddress F.family (F.bytes_of piece.now.group) }
    requires star { piece.now.starred ≡ true
        → is_some (star_of (F.bytes_of piece.now.group) demand.now.form) ≡ true }
    requires exceptions { exceptions
        ≡ length (exceptions_of
        (piece_form (piece_seen F.bytes_of piece.now) demand.now.form).star) }
    requires few { length bytes.old ≤ 65000 }
    requires room { group_length F.family + 4 + (from_bool piece.now.starred + most + exceptions)
        * source_length F.family ≤ length bytes.old }
    ensures reported { AreWritten (piece_seen F.bytes_of piece.now) demand.now.form most
        (sources_seen F.bytes_of result) }
    ensures joined { length (written_set (rp_of F.family demand.now.table)
        (cut_piece result.count (piece_seen F.bytes_of piece.now) demand.now.form)).joined
        ≡ from_bool piece.now.starred + result.count }
    ensures written { let this = cut_piece result.count (piece_seen F.bytes_of piece.now)
        demand.now.form in
        take (set_size F.family (rp_of F.family demand.now.table) this) bytes.new
        ≡ canonical_set F.family (written_set (rp_of F.family demand.now.table) this) }
    ensures length { length bytes.new ≡ length bytes.old }
{
    let (front, entries) = bytes.split_at_mut(group_length::<F>() + 4);
    let reported = write_entries::<F>(demand, piece, most, entries);
    let joined = usize::from(piece.starred) + reported.count;
    put_group_and_counts::<F>(piece.group, joined as u16, exceptions as u16, front);
    reported
}
