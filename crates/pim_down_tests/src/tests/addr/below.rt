//! How many are below, in short lists.

use pim_addr::count_below;

#[test]
fn counts_those_below(rt: HostRuntime) {
    let rows: [(&[u32], u32, usize); 11] = [
        (&[], 5, 0),
        (&[5], 4, 0),
        (&[5], 5, 0),
        (&[5], 6, 1),
        (&[3, 5], 4, 1),
        (&[3, 5, 9], 5, 1),
        (&[3, 5, 9], 10, 3),
        (&[2, 2, 2, 7, 7], 2, 0),
        (&[2, 2, 2, 7, 7], 3, 3),
        (&[2, 2, 2, 7, 7], 7, 3),
        (&[1, 4, 4, 6, 8, 0xffff_fffe, 0xffff_ffff], 0xffff_ffff, 6),
    ];
    for (sorted, item, count) in rows {
        assert_eq!(rt; count_below(sorted, item), count, "{item} in {sorted:?}");
    }
}
