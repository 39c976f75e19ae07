//! Texts of times that no command reads or writes. The others are in `times.case` of
//! `pimtree_cases`.

use pim_time::{read_time, write_seconds};

/// Returns whether the seconds of this time are written so, in front of what the buffer holds.
fn seconds_are(millis: u64, text: &str) -> bool {
    let mut out = [b'.'; 24];
    let length = write_seconds(millis, &mut out);
    let (front, rest) = out.split_at(length);
    front == text.as_bytes() && rest.iter().all(|byte| *byte == b'.')
}

#[test]
fn reads_no_line_feed(rt: HostRuntime) {
    assert!(rt; read_time("1\n").is_none());
}

#[test]
fn writes_in_front_of_what_the_buffer_holds(rt: HostRuntime) {
    assert!(rt; seconds_are(0, "0.000"));
    assert!(rt; seconds_are(u64::MAX, "18446744073709551.615"));
}
