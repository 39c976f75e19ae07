//! The check of the entries of one list, one by one, up to the first fault.

ghost use Rattle.std.specs.Prelude.{◌≡◌, ◌*◌, ◌≤◌, ◌&&◌, ◌||◌, true, [], length, map, IfOk, IfErr};
ghost use Rattle.std.specs.List.{list_any};
ghost use Rattle.pim_addr.specs.Address.{is_source};
ghost use Rattle.pim_addr.specs.Encoded.{source_faults, source_length, source_value};
ghost use Rattle.pim_jp.specs.Message.{entry_of, entries_of};
ghost use Rattle.pim_jp.specs.Spelling.{is_star};
ghost use Rattle.pim_jp.specs.Faults.{address_kind};
ghost use Rattle.pim_jp.specs.Reading.{Judges, lone_kinds, AreClean, StopsAt, is_source_entry};
ghost use Rattle.pim_jp.specs.Reading.{is_rpt_entry};

use crate::fault::JpKind;
use bitflags::Flags;
use pim_addr::{Family, SourceBits, source_length};

/// Which types of entries some list has.
#[derive(Clone, Copy)]
pub(crate) struct EntryTypes {
    /// (*,G).
    pub star: bool,
    /// (S,G).
    pub source: bool,
    /// (S,G,rpt).
    pub rpt: bool,
}

impl EntryTypes {
    /// Whether a source may be in both of two lists by entries of one type.
    pub fn may_clash(self, others: EntryTypes) -> bool
        ensures { result ≡ ((self.source && others.source) || (self.rpt && others.rpt)) }
    {
        self.source && others.source || self.rpt && others.rpt
    }
}

/// The index of the first entry with a fault other than BothLists, and the kind of that fault.
#[derive(Clone, Copy)]
pub(crate) struct EntryFault {
    pub place: u16,
    pub kind: JpKind,
}

/// The length in bytes of `count` entries.
pub(crate) fn entries_size<F: Family>(count: u16) -> usize
    ensures { result ≡ count * source_length F.family }
{
    usize::from(count) * source_length::<F>()
}

/// Checks the front of an entry, up to its address, except its flags.
fn check_front<F: Family>(bytes: &[u8]) -> Result<(), JpKind>
    ensures reported { Judges result (map address_kind (source_faults F.family bytes.now)) }
    ensures whole { IfOk result (λ _. source_length F.family ≤ length bytes.now) }
{
    if bytes.len() < source_length::<F>() {
        return Err(JpKind::Short);
    }
    if bytes[0] != F::AFI {
        return Err(JpKind::Family);
    }
    if bytes[1] != 0 {
        return Err(JpKind::Encoding);
    }
    if bytes[3] != F::FULL {
        return Err(JpKind::Mask);
    }
    Ok(())
}

/// Whether the address of a whole entry is a valid source.
fn has_source<F: Family>(bytes: &[u8]) -> bool
    requires { source_length F.family ≤ length bytes.now }
    ensures { result ≡ is_source F.family (source_value F.family bytes.now).address }
{
    let (_, address) = bytes.split_at(4);
    F::is_source(F::take(address))
}

/// Checks the rest of an entry whose W bit is set: it is (*,G), or has no type if the R bit isn't
/// set. Other entries therefore need no test on (*,G).
fn check_star<F: Family>(bytes: &[u8], has_star: bool) -> Result<EntryTypes, JpKind>
    requires front { source_faults F.family bytes.now ≡ [] }
    requires whole { source_length F.family ≤ length bytes.now }
    requires star { (source_value F.family bytes.now).wildcard ≡ true }
    ensures reported { Judges result (lone_kinds F.family has_star bytes.now) }
    ensures star { IfOk result (λ types. types.star
        ≡ is_star (entry_of (source_value F.family bytes.now))) }
    ensures source { IfOk result (λ types. types.source
        ≡ is_source_entry (entry_of (source_value F.family bytes.now))) }
    ensures rpt { IfOk result (λ types. types.rpt
        ≡ is_rpt_entry (entry_of (source_value F.family bytes.now))) }
{
    let bits = SourceBits::from_bits_retain(bytes[2]);
    if !bits.is_rpt() {
        return Err(JpKind::Flags);
    }
    if !has_source::<F>(bytes) {
        return Err(JpKind::NotSource);
    }
    if has_star {
        return Err(JpKind::SecondStar);
    }
    Ok(EntryTypes {
        star: true,
        source: false,
        rpt: false,
    })
}

/// Checks an entry, except for a source in the other list, and returns its type. `has_star` says
/// whether a (*,G) entry precedes it in its group set.
fn check_entry<F: Family>(bytes: &[u8], has_star: bool) -> Result<EntryTypes, JpKind>
    ensures reported { Judges result (lone_kinds F.family has_star bytes.now) }
    ensures star { IfOk result (λ types. types.star
        ≡ is_star (entry_of (source_value F.family bytes.now))) }
    ensures source { IfOk result (λ types. types.source
        ≡ is_source_entry (entry_of (source_value F.family bytes.now))) }
    ensures rpt { IfOk result (λ types. types.rpt
        ≡ is_rpt_entry (entry_of (source_value F.family bytes.now))) }
    ensures whole { IfOk result (λ _. source_length F.family ≤ length bytes.now) }
{
    check_front::<F>(bytes)?;
    let bits = SourceBits::from_bits_retain(bytes[2]);
    if bits.is_wildcard() {
        return check_star::<F>(bytes, has_star);
    }
    if !has_source::<F>(bytes) {
        return Err(JpKind::NotSource);
    }
    Ok(EntryTypes {
        star: false,
        source: !bits.is_rpt(),
        rpt: bits.is_rpt(),
    })
}

/// Checks `count` entries of one list, except for sources in the other list, and returns their
/// types. `has_star` says whether a (*,G) entry precedes the list in its group set, and the result
/// includes that entry.
#[inline(never)]
pub(crate) fn check_entries<F: Family>(
    count: u16,
    bytes: &[u8],
    has_star: bool,
) -> Result<EntryTypes, EntryFault>
    ensures clean { IfOk result (λ _. AreClean F.family has_star count bytes.now) }
    ensures star { IfOk result (λ types. types.star
        ≡ (has_star || list_any is_star (entries_of F.family count bytes.now))) }
    ensures source { IfOk result (λ types. types.source
        ≡ list_any is_source_entry (entries_of F.family count bytes.now)) }
    ensures rpt { IfOk result (λ types. types.rpt
        ≡ list_any is_rpt_entry (entries_of F.family count bytes.now)) }
    ensures whole { IfOk result (λ _. count * source_length F.family ≤ length bytes.now) }
    ensures stop { IfErr result
        (λ stop. StopsAt F.family has_star count bytes.now stop.place stop.kind) }
    ensures before { IfErr result (λ stop. stop.place * source_length F.family ≤ length bytes.now) }
{
    let mut star = has_star;
    let mut source = false;
    let mut rpt = false;
    let mut rest = bytes;
    for place in 0..count {
        let types = match check_entry::<F>(rest, star) {
            Ok(types) => types,
            Err(kind) => return Err(EntryFault { place, kind }),
        };
        star |= types.star;
        source |= types.source;
        rpt |= types.rpt;
        let (_, others) = rest.split_at(source_length::<F>());
        rest = others;
    }
    Ok(EntryTypes { star, source, rpt })
}
