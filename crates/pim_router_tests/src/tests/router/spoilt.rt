//! Messages that are cut anywhere, or in which any byte is changed to any other, with their
//! checksum mended and not: what a router answers to them, beside what a reader of its own, in
//! another language, answers (`tools/changed_bytes.py`).

use super::spoilt_rows::{
    HELLO, LISTS, LISTS_V6, OF_ANOTHER_TYPE, OF_ANOTHER_TYPE_V6, OF_HELLO, OF_HELLO_V6, OF_LISTS,
    OF_LISTS_V6, OF_NEIGHBOUR, OF_NEIGHBOUR_V6, OF_STAR, OTHER, STAR, Told,
};
use pim_addr::{Family, Routes, V4, V6};
use pim_frame::{FrameFault, MessageType, all_routers, seal};
use pim_hello::{Heard, HelloKind};
use pim_jp::JpKind;
use pim_router::{Config, Malformed, PortConfig, Router, Verdict};
use std::alloc::{AllocError, Global};

fn number_of_hello(kind: HelloKind) -> usize {
    match kind {
        HelloKind::Short => 6,
        HelloKind::OptionLength => 7,
        HelloKind::Address => 8,
    }
}

fn number_of_join_prune(kind: JpKind) -> usize {
    match kind {
        JpKind::Short => 9,
        JpKind::Family => 10,
        JpKind::Encoding => 11,
        JpKind::Mask => 12,
        JpKind::NotGroup => 13,
        JpKind::Flags => 14,
        JpKind::NotSource => 15,
        JpKind::SecondStar => 16,
        JpKind::BothLists => 17,
        JpKind::Trailing => 18,
    }
}

/// The number of a fault, and its place or version.
fn of_fault(fault: Malformed) -> (usize, usize) {
    match fault {
        Malformed::Frame(FrameFault::Short) => (1, 0),
        Malformed::Frame(FrameFault::Version(version)) => (2, usize::from(version)),
        Malformed::Frame(FrameFault::Checksum) => (3, 0),
        Malformed::Frame(FrameFault::NotAllRouters) => (4, 0),
        Malformed::Hello(fault) => (number_of_hello(fault.kind), fault.at),
        Malformed::JoinPrune(fault) => (number_of_join_prune(fault.kind), fault.at),
    }
}

fn number_of_heard(heard: Heard) -> usize {
    match heard {
        Heard::New => 0,
        Heard::Same => 1,
        Heard::Restarted => 2,
        Heard::Gone => 3,
    }
}

/// The number of a verdict, and its fault's place or version, its type, or what became of a Hello's
/// sender.
fn of_verdict(verdict: Verdict) -> (usize, usize) {
    match verdict {
        Verdict::HelloTaken(heard) => (0, number_of_heard(heard)),
        Verdict::Malformed(fault) => of_fault(fault),
        Verdict::OtherType(number) => (5, usize::from(number)),
        Verdict::UnknownNeighbour => (19, 0),
        Verdict::NotForUs => (20, 0),
        Verdict::Applied => (21, 0),
        _ => (22, 0),
    }
}

impl Told {
    /// One more message.
    fn count(&mut self, verdict: Verdict) {
        let (number, place) = of_verdict(verdict);
        if number < 23 {
            self.counts[number] = self.counts[number].saturating_add(1);
        }
        let all = place.saturating_mul(32).saturating_add(number);
        let all = u32::try_from(all).unwrap_or(u32::MAX);
        self.digest = self.digest.wrapping_mul(31).wrapping_add(all);
    }
}

/// A Hello with a holdtime for ever, and with no checksum yet.
const GREETING: [u8; 10] = [0x20, 0, 0, 0, 0, 1, 0, 2, 0xff, 0xff];

const NOTHING: Told = Told {
    counts: [0; 23],
    digest: 0,
};

/// The checksum that goes with these first two bytes in place of those of a sealed header.
fn moved(sealed: [u8; 4], first: [u8; 2]) -> [u8; 2] {
    let [high, low, above, below] = sealed;
    let sum = u32::from(u16::from_be_bytes([high, low]))
        .wrapping_add(u32::from(u16::from_be_bytes([above, below])))
        .wrapping_add(131_070)
        .wrapping_sub(u32::from(u16::from_be_bytes(first)));
    u16::try_from(sum % 65_535).unwrap_or(0).to_be_bytes()
}

fn byte_at(bytes: &[u8], at: usize) -> u8 {
    if at < bytes.len() { bytes[at] } else { 0 }
}

fn put(bytes: &mut [u8], at: usize, byte: u8) {
    if at < bytes.len() {
        bytes[at] = byte;
    }
}

/// The first four bytes of a message.
fn header(bytes: &[u8]) -> [u8; 4] {
    [
        byte_at(bytes, 0),
        byte_at(bytes, 1),
        byte_at(bytes, 2),
        byte_at(bytes, 3),
    ]
}

/// Mends the checksum of a message and leaves its other bytes; less than a header is left as it is.
fn mend<F: Family>(from: F::Addr, bytes: &mut [u8]) {
    if bytes.len() < 4 || bytes.len() >= 65_536 {
        return;
    }
    let [first, second, _, _] = header(bytes);
    seal::<F>(from, all_routers::<F>(), MessageType::Hello, bytes);
    let [above, below] = moved(header(bytes), [first, second]);
    put(bytes, 0, first);
    put(bytes, 1, second);
    put(bytes, 2, above);
    put(bytes, 3, below);
}

/// A message that is changed at a place, and whether its checksum is mended then.
#[derive(Clone, Copy)]
struct Change {
    at: usize,
    mends: bool,
}

/// What the port answers to one more message.
fn tell<F: Family>(
    router: &mut Router<'_, F>,
    from: F::Addr,
    reported: &mut Told,
    bytes: &[u8],
) -> Result<(), AllocError> {
    if router.port_count() == 0 || bytes.len() >= 65_536 {
        return Err(AllocError);
    }
    let verdict = router.take_packet(0, from, all_routers::<F>(), bytes)?;
    reported.count(verdict);
    Ok(())
}

/// What is answered to a message with a byte changed to each value.
fn tell_change<F: Family>(
    router: &mut Router<'_, F>,
    from: F::Addr,
    reported: &mut Told,
    bytes: &mut [u8],
    change: Change,
) -> Result<(), AllocError> {
    for byte in 0..=255 {
        put(bytes, change.at, byte);
        if change.mends {
            mend::<F>(from, bytes);
        }
        tell(router, from, reported, bytes)?;
    }
    Ok(())
}

/// What is answered to a message with each byte changed to each value, byte by byte.
fn changed<F: Family>(
    router: &mut Router<'_, F>,
    from: F::Addr,
    bytes: &mut [u8],
    mends: bool,
) -> Result<Told, AllocError> {
    let mut reported = NOTHING;
    mend::<F>(from, bytes);
    for at in 0..bytes.len() {
        let old = byte_at(bytes, at);
        tell_change(router, from, &mut reported, bytes, Change { at, mends })?;
        put(bytes, at, old);
        mend::<F>(from, bytes);
    }
    Ok(reported)
}

/// What is answered to a message's fronts, from the shortest to the whole of it, each with its
/// checksum mended.
fn cut<F: Family>(
    router: &mut Router<'_, F>,
    from: F::Addr,
    bytes: &mut [u8],
) -> Result<Told, AllocError> {
    let mut reported = NOTHING;
    for length in 0..=bytes.len() {
        if length <= bytes.len() {
            let (front, _) = bytes.split_at_mut(length);
            mend::<F>(from, front);
            tell(router, from, &mut reported, front)?;
        }
    }
    Ok(reported)
}

/// What is answered to a message that is cut, changed, and changed and mended.
fn spoilt<F: Family>(
    router: &mut Router<'_, F>,
    from: F::Addr,
    bytes: &mut [u8],
) -> Result<[Told; 3], AllocError> {
    let cut = cut(router, from, bytes)?;
    let changed_alone = changed(router, from, bytes, false)?;
    let mended = changed(router, from, bytes, true)?;
    Ok([cut, changed_alone, mended])
}

/// A Hello of the sender comes, with a holdtime for ever.
fn greet<F: Family>(router: &mut Router<'_, F>, from: F::Addr) -> Result<(), AllocError> {
    let mut hello = GREETING;
    let mut reported = NOTHING;
    mend::<F>(from, &mut hello);
    tell(router, from, &mut reported, &hello)
}

/// The same of a sender that greets before or not, and how many records the first port keeps.
fn spoilt_after<F: Family>(
    router: &mut Router<'_, F>,
    (from, greets): (F::Addr, bool),
    bytes: &mut [u8],
) -> Option<([Told; 3], usize)> {
    if greets {
        greet(router, from).ok()?;
    }
    let reported = spoilt(router, from, bytes).ok()?;
    Some((reported, router.ports().count_on(0)))
}

/// The same on a new router under this table.
fn spoilt_under<F: Family>(
    alloc: Global,
    ports: &[PortConfig<F::Addr>],
    routes: &Routes<F>,
    sender: (F::Addr, bool),
    bytes: &mut [u8],
) -> Option<([Told; 3], usize)> {
    let config = Config {
        ports,
        routes,
        limit: 100_000,
    };
    match Router::new(alloc, &config) {
        Ok(mut router) => spoilt_after(&mut router, sender, bytes),
        Err(_) => None,
    }
}

/// The same on a new router of these ports without routes; `None` where a growth is refused.
fn spoilt_on<F: Family>(
    alloc: Global,
    ports: &[PortConfig<F::Addr>],
    sender: (F::Addr, bool),
    bytes: &mut [u8],
) -> Option<([Told; 3], usize)> {
    let routes = Routes::<F>::new(alloc);
    spoilt_under(alloc, ports, &routes, sender, bytes)
}

/// A port of 10.0.0.2.
const PORT: PortConfig<[u8; 4]> = PortConfig {
    address: [10, 0, 0, 2],
    propagation: 500,
    override_ms: 2500,
};

const SENDER: [u8; 4] = [10, 0, 0, 9];

/// fe80::2
const PORT_V6: PortConfig<[u8; 16]> = PortConfig {
    address: [0xfe, 0x80, 0, 0, 0, 0, 0, 0, 0, 0, 0, 0, 0, 0, 0, 2],
    propagation: 500,
    override_ms: 2500,
};

/// fe80::9
const SENDER_V6: [u8; 16] = [0xfe, 0x80, 0, 0, 0, 0, 0, 0, 0, 0, 0, 0, 0, 0, 0, 9];

/// A message, whether its sender is a neighbour, what is answered when it is spoilt, and how many
/// records the port keeps.
struct Row {
    bytes: &'static [u8],
    greets: bool,
    reported: [Told; 3],
    kept: usize,
}

const ROWS: [Row; 5] = [
    Row {
        bytes: &HELLO,
        greets: false,
        reported: OF_HELLO,
        kept: 0,
    },
    Row {
        bytes: &LISTS,
        greets: false,
        reported: OF_LISTS,
        kept: 0,
    },
    Row {
        bytes: &OTHER,
        greets: false,
        reported: OF_ANOTHER_TYPE,
        kept: 0,
    },
    Row {
        bytes: &STAR,
        greets: true,
        reported: OF_STAR,
        kept: 1,
    },
    Row {
        bytes: &LISTS,
        greets: true,
        reported: OF_NEIGHBOUR,
        kept: 3538,
    },
];

const ROWS_V6: [Row; 4] = [
    Row {
        bytes: &HELLO,
        greets: false,
        reported: OF_HELLO_V6,
        kept: 0,
    },
    Row {
        bytes: &LISTS_V6,
        greets: false,
        reported: OF_LISTS_V6,
        kept: 0,
    },
    Row {
        bytes: &OTHER,
        greets: false,
        reported: OF_ANOTHER_TYPE_V6,
        kept: 0,
    },
    Row {
        bytes: &LISTS_V6,
        greets: true,
        reported: OF_NEIGHBOUR_V6,
        kept: 15809,
    },
];

/// Whether the port answers so to the message of a row.
fn answers<F: Family>(
    alloc: Global,
    ports: &[PortConfig<F::Addr>],
    from: F::Addr,
    row: &Row,
) -> bool {
    match Vec::from_slice(alloc, row.bytes) {
        Ok(mut bytes) => {
            let reported = spoilt_on::<F>(alloc, ports, (from, row.greets), &mut bytes);
            reported == Some((row.reported, row.kept))
        }
        Err(_) => false,
    }
}

/// The first row to whose message the port answers otherwise.
fn wrong<F: Family>(
    alloc: Global,
    ports: &[PortConfig<F::Addr>],
    from: F::Addr,
    rows: &[Row],
) -> Option<usize> {
    for index in 0..rows.len() {
        if !answers::<F>(alloc, ports, from, &rows[index]) {
            return Some(index);
        }
    }
    None
}

#[test]
fn spoilt_messages(rt: HostRuntime) {
    assert_eq!(rt; wrong::<V4>(rt.alloc(), &[PORT], SENDER, &ROWS), None);
}

#[test]
fn spoilt_messages_of_ipv6(rt: HostRuntime) {
    assert_eq!(rt;
        wrong::<V6>(rt.alloc(), &[PORT_V6], SENDER_V6, &ROWS_V6),
        None
    );
}
