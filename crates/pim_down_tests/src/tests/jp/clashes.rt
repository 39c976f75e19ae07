//! Sources in both lists, of both families and both types. Their numbers fill blocks of each size.

use pim_addr::{Family, V4, V6};
use pim_jp::JpKind::BothLists;
use pim_jp::{JpKind, JpView};
use std::alloc::{AllocError, Global};

/// A body up to the counts of its one set, and an entry up to the last three bytes of its source.
struct Form<'a> {
    front: &'a [u8],
    flags_before: &'a [u8],
    flags_behind: &'a [u8],
}

const FORM_V4: Form<'static> = Form {
    front: b"\x01\0\x0a\0\0\x02\0\x01\0\xd2\x01\0\0\x20\xef\x01\x01\x01",
    flags_before: b"\x01\0",
    flags_behind: b"\x20\x0a",
};

const FORM_V6: Form<'static> = Form {
    front: &[
        2, 0, 0xfe, 0x80, 0, 0, 0, 0, 0, 0, 0, 0, 0, 0, 0, 0, 0, 2, 0, 1, 0, 210, 2, 0, 0, 128,
        0xff, 0x0e, 0, 0, 0, 0, 0, 0, 0, 0, 0, 0, 0, 0, 0, 1,
    ],
    flags_before: b"\x02\0",
    flags_behind: b"\x80\x20\x01\x0d\xb8\0\0\0\0\0\0\0\0\0",
};

/// The number of sources that are joined, and that are pruned. Then the place of the first pruned
/// source that is joined too, and its place among the joined ones. Later pruned sources are joined
/// as well where there is a step: their places among the joined ones are that far apart, in a ring.
type Row = (u16, u16, Option<(u16, u16)>, Option<u16>);

const ROWS: [Row; 32] = [
    (4, 4, Some((3, 3)), None),
    (5, 3, Some((0, 4)), None),
    (16, 4, Some((3, 15)), None),
    (17, 5, Some((4, 16)), None),
    (128, 9, Some((0, 127)), None),
    (129, 9, Some((8, 0)), None),
    (1024, 4, Some((3, 1023)), None),
    (1025, 4, Some((0, 1024)), None),
    (4096, 3, Some((2, 4095)), None),
    (4097, 3, Some((1, 4096)), None),
    (4097, 40, None, None),
    (4, 9, Some((8, 0)), None),
    (5, 8, Some((7, 4)), None),
    (5, 9, Some((8, 4)), None),
    (128, 8, Some((0, 127)), None),
    (128, 9, Some((8, 64)), Some(3)),
    (129, 9, Some((0, 128)), Some(1)),
    (129, 300, Some((299, 0)), None),
    (300, 40, Some((7, 299)), Some(0)),
    (1024, 9, Some((8, 1023)), None),
    (1025, 20, Some((3, 1024)), Some(1)),
    (4096, 9, Some((8, 4095)), None),
    (4097, 30, Some((9, 4096)), Some(1)),
    (4097, 9, Some((8, 4096)), Some(0)),
    (300, 9, None, None),
    (300, 128, Some((127, 0)), None),
    (300, 129, Some((0, 299)), Some(1)),
    (130, 129, Some((128, 129)), None),
    (129, 129, Some((128, 0)), Some(0)),
    (1100, 1025, None, None),
    (4100, 4096, Some((4095, 4099)), None),
    (4110, 4097, Some((4096, 4109)), None),
];

/// The last three bytes of a source: even of the joined ones, odd of the pruned ones, in no order.
fn number(index: u16, is_odd: bool) -> [u8; 3] {
    let even = u32::from(index).wrapping_mul(7919) % 65_521 * 2 + 2;
    let [_, high, middle, low] = (even + u32::from(is_odd)).to_be_bytes();
    [high, middle, low]
}

/// The flags of the joined entries and of the pruned ones. Where they are mixed, every second entry
/// of a list is (S,G,rpt), but a pruned one that is joined has the type by which it is joined.
#[derive(Clone, Copy)]
struct Flags {
    joined: u8,
    pruned: u8,
    mixed: bool,
}

fn flags_at(flags: u8, mixed: bool, index: u16) -> u8 {
    if mixed && index % 2 == 1 { 5 } else { flags }
}

/// The place in the joined list of the pruned source at this place, where it is joined too.
fn twin_at(row: Row, index: u16) -> Option<u16> {
    let (joined, _, twins, step) = row;
    let (place, twin) = twins?;
    if index == place {
        return Some(twin);
    }
    if index < place {
        return None;
    }
    let steps = step?.wrapping_mul(index - place);
    Some(twin.wrapping_add(steps) % joined.max(1))
}

fn push_entry(
    form: &Form<'_>,
    flags: u8,
    number: [u8; 3],
    body: &mut Vec<u8>,
) -> Result<(), AllocError> {
    body.extend_from_slice(form.flags_before)?;
    body.push(flags)?;
    body.extend_from_slice(form.flags_behind)?;
    body.extend_from_slice(&number)
}

/// Adds the counts of a row, and its entries.
fn push_row(form: &Form<'_>, flags: Flags, row: Row, body: &mut Vec<u8>) -> Result<(), AllocError> {
    let (joined, pruned, ..) = row;
    body.extend_from_slice(&joined.to_be_bytes())?;
    body.extend_from_slice(&pruned.to_be_bytes())?;
    for index in 0..joined {
        let bits = flags_at(flags.joined, flags.mixed, index);
        push_entry(form, bits, number(index, false), body)?;
    }
    for index in 0..pruned {
        let twin = twin_at(row, index);
        let bits = flags_at(flags.pruned, flags.mixed, twin.unwrap_or(index));
        let number = match twin {
            Some(twin) => number(twin, false),
            None => number(index, true),
        };
        push_entry(form, bits, number, body)?;
    }
    Ok(())
}

fn fault<F: Family>(body: &[u8]) -> Option<(JpKind, usize)> {
    let fault = JpView::<F>::read(body).err()?;
    Some((fault.kind, fault.at))
}

/// The first pruned twin, where there is one. The counts before it end at byte 22 or 46, and each
/// entry has 8 or 20 bytes.
fn fault_wanted(counts_end: u8, entry: u8, row: Row) -> Option<(JpKind, usize)> {
    let (joined, _, twins, _) = row;
    let (place, _) = twins?;
    let before = usize::from(joined) + usize::from(place);
    let at = usize::from(counts_end) + usize::from(entry) * before;
    Some((BothLists, at))
}

/// Whether the body of a row has this fault.
fn tells<F: Family>(
    alloc: Global,
    form: &Form<'_>,
    flags: Flags,
    row: Row,
    want: Option<(JpKind, usize)>,
) -> bool {
    let Ok(mut body) = Vec::from_slice(alloc, form.front) else {
        return false;
    };
    push_row(form, flags, row, &mut body).is_ok() && fault::<F>(&body) == want
}

/// Whether the first pruned twin is the fault over both families, or there is none if twins don't
/// clash.
fn is_told(alloc: Global, flags: Flags, clashes: bool, row: Row) -> bool {
    let (of_v4, of_v6) = if clashes {
        (fault_wanted(22, 8, row), fault_wanted(46, 20, row))
    } else {
        (None, None)
    };
    tells::<V4>(alloc, &FORM_V4, flags, row, of_v4)
        && tells::<V6>(alloc, &FORM_V6, flags, row, of_v6)
}

/// The first row of which something else is told.
fn wrong(alloc: Global, flags: Flags, clashes: bool, rows: &[Row]) -> Option<usize> {
    for index in 0..rows.len() {
        if !is_told(alloc, flags, clashes, rows[index]) {
            return Some(index);
        }
    }
    None
}

/// Flags, and whether twins clash.
const KINDS: [(Flags, bool); 4] = [
    // all entries are (S,G), or all are (S,G,rpt)
    (
        Flags {
            joined: 4,
            pruned: 4,
            mixed: false,
        },
        true,
    ),
    (
        Flags {
            joined: 5,
            pruned: 5,
            mixed: false,
        },
        true,
    ),
    // both types are in each list
    (
        Flags {
            joined: 4,
            pruned: 4,
            mixed: true,
        },
        true,
    ),
    // a source that is joined as (S,G) and pruned as (S,G,rpt) doesn't clash
    (
        Flags {
            joined: 4,
            pruned: 5,
            mixed: false,
        },
        false,
    ),
];

#[test]
fn finds_a_source_among_many(rt: HostRuntime) {
    for (flags, clashes) in KINDS {
        assert_eq!(rt; wrong(rt.alloc(), flags, clashes, &ROWS), None);
    }
}
