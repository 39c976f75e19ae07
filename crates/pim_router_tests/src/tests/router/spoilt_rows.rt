//! Messages of each kind, and what is answered to them when they are spoilt (`spoilt.rt`).

/// A Hello with each option, two of which are in it twice, an unknown one, and an address of each
/// family.
pub(super) const HELLO: [u8; 80] = [
    0x20, 0, 0, 0, 0, 1, 0, 2, 0, 105, 0, 2, 0, 4, 0x81, 0xf4, 9, 0xc4, 0, 19, 0, 4, 0, 0, 0, 1, 0,
    20, 0, 4, 1, 2, 3, 4, 0xfd, 0xe8, 0, 2, 7, 7, 0, 24, 0, 24, 1, 0, 192, 0, 2, 1, 2, 0, 0xfe,
    0x80, 0, 0, 0, 0, 0, 0, 0, 0, 0, 0, 0, 0, 0, 7, 0, 20, 0, 4, 0, 0, 0, 2, 0, 24, 0, 0,
];

/// The RP 10.9.9.9 of 239.1.1.1 is joined. Upstream is 10.0.0.2.
pub(super) const STAR: [u8; 34] = [
    0x23, 0, 0, 0, 1, 0, 10, 0, 0, 2, 0, 1, 0, 210, 1, 0, 0, 32, 239, 1, 1, 1, 0, 1, 0, 0, 1, 0, 7,
    32, 10, 9, 9, 9,
];

/// A set of 239.1.1.1 that joins the RP 10.9.9.9, the source 192.0.2.1 and, on the RP's tree,
/// 192.0.2.2, and prunes 192.0.2.2 and, on the RP's tree, 192.0.2.1; and a set of 239.1.1.2 that
/// prunes the RP. Upstream is 10.0.0.2.
pub(super) const LISTS: [u8; 86] = [
    0x23, 0, 0, 0, 1, 0, 10, 0, 0, 2, 0, 2, 0, 210, 1, 0, 0, 32, 239, 1, 1, 1, 0, 3, 0, 2, 1, 0, 7,
    32, 10, 9, 9, 9, 1, 0, 4, 32, 192, 0, 2, 1, 1, 0, 5, 32, 192, 0, 2, 2, 1, 0, 4, 32, 192, 0, 2,
    2, 1, 0, 5, 32, 192, 0, 2, 1, 1, 0, 0, 32, 239, 1, 1, 2, 0, 0, 0, 1, 1, 0, 7, 32, 10, 9, 9, 9,
];

/// The same over IPv6: ff0e::1 and ff0e::2, the RP 2001:db8::9, the sources 2001:db8::1 and
/// 2001:db8::2, and upstream fe80::2.
pub(super) const LISTS_V6: [u8; 194] = [
    0x23, 0, 0, 0, 2, 0, 0xfe, 0x80, 0, 0, 0, 0, 0, 0, 0, 0, 0, 0, 0, 0, 0, 2, 0, 2, 0, 210, 2, 0,
    0, 128, 0xff, 0x0e, 0, 0, 0, 0, 0, 0, 0, 0, 0, 0, 0, 0, 0, 1, 0, 3, 0, 2, 2, 0, 7, 128, 0x20,
    1, 0x0d, 0xb8, 0, 0, 0, 0, 0, 0, 0, 0, 0, 0, 0, 9, 2, 0, 4, 128, 0x20, 1, 0x0d, 0xb8, 0, 0, 0,
    0, 0, 0, 0, 0, 0, 0, 0, 1, 2, 0, 5, 128, 0x20, 1, 0x0d, 0xb8, 0, 0, 0, 0, 0, 0, 0, 0, 0, 0, 0,
    2, 2, 0, 4, 128, 0x20, 1, 0x0d, 0xb8, 0, 0, 0, 0, 0, 0, 0, 0, 0, 0, 0, 2, 2, 0, 5, 128, 0x20,
    1, 0x0d, 0xb8, 0, 0, 0, 0, 0, 0, 0, 0, 0, 0, 0, 1, 2, 0, 0, 128, 0xff, 0x0e, 0, 0, 0, 0, 0, 0,
    0, 0, 0, 0, 0, 0, 0, 2, 0, 0, 0, 1, 2, 0, 7, 128, 0x20, 1, 0x0d, 0xb8, 0, 0, 0, 0, 0, 0, 0, 0,
    0, 0, 0, 9,
];

/// A message of another type.
pub(super) const OTHER: [u8; 10] = [0x25, 0, 0, 0, 1, 0, 10, 9, 9, 9];

/// What is answered to many messages.
#[derive(Clone, Copy, Debug, PartialEq, Eq)]
pub(super) struct Told {
    /// How many answers have each number.
    pub(super) counts: [u32; 23],
    /// All answers, in the order of the messages: 31 times what came before, 32 times the place,
    /// version, type or what became of a Hello's sender, and the number more, modulo 2^32.
    pub(super) digest: u32,
}

/// What the reader in the other language answers to each message that is cut, changed, and changed
/// and mended.
pub(super) const OF_HELLO: [Told; 3] = [
    Told {
        counts: [
            9, 4, 0, 0, 0, 0, 68, 0, 0, 0, 0, 0, 0, 0, 0, 0, 0, 0, 0, 0, 0, 0, 0,
        ],
        digest: 2_422_310_608,
    },
    Told {
        counts: [
            80, 0, 240, 20146, 0, 14, 0, 0, 0, 0, 0, 0, 0, 0, 0, 0, 0, 0, 0, 0, 0, 0, 0,
        ],
        digest: 1_340_932_054,
    },
    Told {
        counts: [
            15108, 0, 240, 0, 0, 14, 3789, 269, 1059, 0, 1, 0, 0, 0, 0, 0, 0, 0, 0, 0, 0, 0, 0,
        ],
        digest: 1_687_713_053,
    },
];

pub(super) const OF_HELLO_V6: [Told; 3] = [
    Told {
        counts: [
            9, 4, 0, 0, 0, 0, 68, 0, 0, 0, 0, 0, 0, 0, 0, 0, 0, 0, 0, 0, 0, 0, 0,
        ],
        digest: 2_422_310_608,
    },
    Told {
        counts: [
            80, 0, 240, 20146, 0, 14, 0, 0, 0, 0, 0, 0, 0, 0, 0, 0, 0, 0, 0, 0, 0, 0, 0,
        ],
        digest: 3_917_396_860,
    },
    Told {
        counts: [
            15108, 0, 240, 0, 0, 14, 3789, 269, 1059, 0, 1, 0, 0, 0, 0, 0, 0, 0, 0, 0, 0, 0, 0,
        ],
        digest: 1_687_713_053,
    },
];

pub(super) const OF_LISTS: [Told; 3] = [
    Told {
        counts: [
            0, 4, 0, 0, 0, 0, 0, 0, 0, 82, 0, 0, 0, 0, 0, 0, 0, 0, 0, 1, 0, 0, 0,
        ],
        digest: 2_866_177_459,
    },
    Told {
        counts: [
            0, 0, 240, 21676, 0, 14, 0, 0, 0, 0, 0, 0, 0, 0, 0, 0, 0, 0, 0, 86, 0, 0, 0,
        ],
        digest: 1_072_467_872,
    },
    Told {
        counts: [
            0, 0, 240, 0, 0, 14, 1, 0, 0, 1272, 2295, 2295, 2040, 485, 384, 1207, 256, 260, 3,
            11264, 0, 0, 0,
        ],
        digest: 3_883_078_897,
    },
];

pub(super) const OF_LISTS_V6: [Told; 3] = [
    Told {
        counts: [
            0, 4, 0, 0, 0, 0, 0, 0, 0, 190, 0, 0, 0, 0, 0, 0, 0, 0, 0, 1, 0, 0, 0,
        ],
        digest: 3_259_214_067,
    },
    Told {
        counts: [
            0, 0, 240, 49216, 0, 14, 0, 0, 0, 0, 0, 0, 0, 0, 0, 0, 0, 0, 0, 194, 0, 0, 0,
        ],
        digest: 34_656_288,
    },
    Told {
        counts: [
            0, 0, 240, 0, 0, 14, 1, 0, 0, 1272, 2295, 2295, 2040, 515, 384, 1021, 256, 260, 3,
            39068, 0, 0, 0,
        ],
        digest: 3_384_625_699,
    },
];

pub(super) const OF_ANOTHER_TYPE: [Told; 3] = [
    Told {
        counts: [
            0, 4, 0, 0, 0, 7, 0, 0, 0, 0, 0, 0, 0, 0, 0, 0, 0, 0, 0, 0, 0, 0, 0,
        ],
        digest: 3_232_380_549,
    },
    Told {
        counts: [
            0, 0, 240, 2, 0, 2318, 0, 0, 0, 0, 0, 0, 0, 0, 0, 0, 0, 0, 0, 0, 0, 0, 0,
        ],
        digest: 3_308_788_448,
    },
    Told {
        counts: [
            0, 0, 240, 0, 0, 2318, 1, 0, 0, 1, 0, 0, 0, 0, 0, 0, 0, 0, 0, 0, 0, 0, 0,
        ],
        digest: 3_920_129_603,
    },
];

pub(super) const OF_ANOTHER_TYPE_V6: [Told; 3] = [
    Told {
        counts: [
            0, 4, 0, 0, 0, 7, 0, 0, 0, 0, 0, 0, 0, 0, 0, 0, 0, 0, 0, 0, 0, 0, 0,
        ],
        digest: 3_232_380_549,
    },
    Told {
        counts: [
            0, 0, 240, 2, 0, 2318, 0, 0, 0, 0, 0, 0, 0, 0, 0, 0, 0, 0, 0, 0, 0, 0, 0,
        ],
        digest: 3_308_788_448,
    },
    Told {
        counts: [
            0, 0, 240, 0, 0, 2318, 1, 0, 0, 1, 0, 0, 0, 0, 0, 0, 0, 0, 0, 0, 0, 0, 0,
        ],
        digest: 2_319_912_323,
    },
];

/// What is answered to the star where its sender is a neighbour.
pub(super) const OF_STAR: [Told; 3] = [
    Told {
        counts: [
            0, 4, 0, 0, 0, 0, 0, 0, 0, 30, 0, 0, 0, 0, 0, 0, 0, 0, 0, 0, 0, 1, 0,
        ],
        digest: 2_915_947_253,
    },
    Told {
        counts: [
            0, 0, 240, 8416, 0, 14, 0, 0, 0, 0, 0, 0, 0, 0, 0, 0, 0, 0, 0, 0, 0, 34, 0,
        ],
        digest: 2_302_917_620,
    },
    Told {
        counts: [
            0, 0, 240, 0, 0, 14, 1, 0, 0, 1273, 765, 765, 510, 240, 64, 32, 0, 0, 2, 0, 1020, 3778,
            0,
        ],
        digest: 3_297_722_334,
    },
];

/// And of the lists.
pub(super) const OF_NEIGHBOUR: [Told; 3] = [
    Told {
        counts: [
            0, 4, 0, 0, 0, 0, 0, 0, 0, 82, 0, 0, 0, 0, 0, 0, 0, 0, 0, 0, 0, 1, 0,
        ],
        digest: 2_866_177_461,
    },
    Told {
        counts: [
            0, 0, 240, 21676, 0, 14, 0, 0, 0, 0, 0, 0, 0, 0, 0, 0, 0, 0, 0, 0, 0, 86, 0,
        ],
        digest: 3_335_666_232,
    },
    Told {
        counts: [
            0, 0, 240, 0, 0, 14, 1, 0, 0, 1272, 2295, 2295, 2040, 485, 384, 1207, 256, 260, 3, 0,
            1020, 10244, 0,
        ],
        digest: 2_422_214_741,
    },
];

pub(super) const OF_NEIGHBOUR_V6: [Told; 3] = [
    Told {
        counts: [
            0, 4, 0, 0, 0, 0, 0, 0, 0, 190, 0, 0, 0, 0, 0, 0, 0, 0, 0, 0, 0, 1, 0,
        ],
        digest: 3_259_214_069,
    },
    Told {
        counts: [
            0, 0, 240, 49216, 0, 14, 0, 0, 0, 0, 0, 0, 0, 0, 0, 0, 0, 0, 0, 0, 0, 194, 0,
        ],
        digest: 3_077_667_528,
    },
    Told {
        counts: [
            0, 0, 240, 0, 0, 14, 1, 0, 0, 1272, 2295, 2295, 2040, 515, 384, 1021, 256, 260, 3, 0,
            4080, 34988, 0,
        ],
        digest: 2_429_267_471,
    },
];
