//! Hellos that are put together from parts.

mod neighbours;

use pim_addr::V4;
use pim_hello::{Addresses, Hello, reads_back};

#[test]
fn puts_addresses_of_its_own(rt: HostRuntime) {
    let addresses = [[192, 0, 2, 1], [192, 0, 2, 2]];
    let mut row = [0xee; 12];
    assert_eq!(rt; Addresses::<V4>::row_length(2), row.len());
    let hello = Hello::<V4> {
        addresses: Addresses::put(&addresses, &mut row),
        ..Hello::empty()
    };
    let mut body = [0xee; 16];
    assert_eq!(rt; hello.length(), body.len());
    hello.put(&mut body);
    assert_eq!(rt;
        body,
        [0, 24, 0, 12, 1, 0, 192, 0, 2, 1, 1, 0, 192, 0, 2, 2]
    );
    reads_back();
}
