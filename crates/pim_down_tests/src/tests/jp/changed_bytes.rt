//! Bodies with any one byte changed to any other, beside what a reader of its own, in another
//! language, tells of them.

ghost use Rattle.std.specs.Prelude.{◌≤◌};

use super::STAR;
use pim_addr::V4;
use pim_jp::{JpFault, JpKind, JpView};

/// A set that joins the RP 10.9.9.9, the source 192.0.2.1 and, on the RP's tree, 192.0.2.2, and
/// prunes 192.0.2.2 and, on the RP's tree, 192.0.2.1.
const LISTS: [u8; 62] = [
    1, 0, 10, 0, 0, 2, 0, 1, 0, 210, 1, 0, 0, 32, 239, 1, 1, 1, 0, 3, 0, 2, 1, 0, 7, 32, 10, 9, 9,
    9, 1, 0, 4, 32, 192, 0, 2, 1, 1, 0, 5, 32, 192, 0, 2, 2, 1, 0, 4, 32, 192, 0, 2, 2, 1, 0, 5,
    32, 192, 0, 2, 1,
];

/// What was told of many bodies.
#[derive(Clone, Copy, Debug, PartialEq, Eq)]
struct Told {
    /// Of how many there was no fault, and of how many one of each kind, in the order in which
    /// kinds are told.
    counts: [u32; 11],
    /// All offsets and kinds, in the order of the bodies: 31 times what came before, and 16 times
    /// the offset and the kind's number more, modulo 2^32.
    digest: u32,
}

/// 0 for no fault, else the place of its kind in the order in which faults of one part are told.
fn number_of(fault: Option<JpFault>) -> usize
    ensures { result ≤ 10 }
{
    let Some(fault) = fault else {
        return 0;
    };
    match fault.kind {
        JpKind::Short => 1,
        JpKind::Family => 2,
        JpKind::Encoding => 3,
        JpKind::Mask => 4,
        JpKind::NotGroup => 5,
        JpKind::Flags => 6,
        JpKind::NotSource => 7,
        JpKind::SecondStar => 8,
        JpKind::BothLists => 9,
        JpKind::Trailing => 10,
    }
}

impl Told {
    /// One more body.
    fn count(&mut self, body: &[u8]) {
        let fault = JpView::<V4>::read(body).err();
        let number = number_of(fault);
        self.counts[number] = self.counts[number].saturating_add(1);
        let at = match fault {
            Some(fault) => fault.at,
            None => 0,
        };
        let place = at.saturating_mul(16).saturating_add(number);
        let place = u32::try_from(place).unwrap_or(u32::MAX);
        self.digest = self.digest.wrapping_mul(31).wrapping_add(place);
    }
}

/// What is told of the body with each byte changed to each value, byte by byte.
fn told_of_changes(body: &mut [u8]) -> Told {
    let mut reported = Told {
        counts: [0; 11],
        digest: 0,
    };
    for at in 0..body.len() {
        let old = body[at];
        for byte in 0..=255 {
            body[at] = byte;
            reported.count(body);
        }
        body[at] = old;
    }
    reported
}

#[test]
fn tells_of_changed_bytes(rt: HostRuntime) {
    let mut star = STAR;
    let want = Told {
        counts: [4029, 1273, 765, 765, 510, 240, 64, 32, 0, 0, 2],
        digest: 3_754_923_866,
    };
    assert_eq!(rt; told_of_changes(&mut star), want);
    let mut lists = LISTS;
    let want = Told {
        counts: [8261, 1269, 1785, 1785, 1530, 240, 320, 160, 256, 260, 6],
        digest: 3_908_895_790,
    };
    assert_eq!(rt; told_of_changes(&mut lists), want);
}

/// The place of an entry that is joined, the place where it is written among the pruned ones, too,
/// and what all changes of the body give.
const IN_BOTH_LISTS: [(usize, usize, [u32; 11], u32); 6] = [
    (
        22,
        46,
        [256, 0, 1530, 1530, 1275, 240, 256, 128, 10653, 0, 4],
        197_196_014,
    ),
    (
        22,
        54,
        [256, 0, 1785, 1785, 1530, 240, 320, 160, 9660, 130, 6],
        2_750_905_835,
    ),
    (
        30,
        46,
        [2040, 507, 1530, 1530, 1275, 240, 256, 128, 192, 8170, 4],
        102_671_295,
    ),
    (
        30,
        54,
        [2103, 506, 1785, 1785, 1530, 240, 320, 160, 256, 7181, 6],
        2_342_861_546,
    ),
    (
        38,
        46,
        [2103, 507, 1530, 1530, 1275, 240, 256, 128, 192, 8106, 5],
        697_445_475,
    ),
    (
        38,
        54,
        [2040, 506, 1785, 1785, 1530, 240, 320, 160, 256, 7244, 6],
        4_117_703_567,
    ),
];

/// Whether all changes of the body give this where a joined entry is written among the pruned ones.
fn is_told_with(joined: usize, pruned: usize, want: Told) -> bool {
    if joined > 54 || pruned > 54 {
        return false;
    }
    let mut body = LISTS;
    body.copy_within(joined..joined + 8, pruned);
    told_of_changes(&mut body) == want
}

#[test]
fn tells_of_changed_bytes_in_both_lists(rt: HostRuntime) {
    for (joined, pruned, counts, digest) in IN_BOTH_LISTS {
        assert!(rt; is_told_with(joined, pruned, Told { counts, digest }));
    }
}
