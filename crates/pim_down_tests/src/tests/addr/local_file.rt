//! Files of local receivers: the joins of their lines, and their faults.

use pim_addr::{Family, ScriptedFeed, V4, V6};
use pim_files::{LocalFileFault, read_local};
use pim_local::{LocalJoin, LocalJoins};
use std::alloc::{AllocError, Global};
use std::test::Fail;

const GROUP: [u8; 4] = [239, 1, 1, 1];

const SOURCE: [u8; 4] = [192, 0, 2, 1];

/// The star of a group.
const STAR: LocalJoin<[u8; 4]> = LocalJoin {
    group: GROUP,
    source: None,
};

/// A source of the same group.
const OF_SOURCE: LocalJoin<[u8; 4]> = LocalJoin {
    group: GROUP,
    source: Some(SOURCE),
};

/// The star of a higher group.
const HIGHER: LocalJoin<[u8; 4]> = LocalJoin {
    group: [239, 1, 1, 2],
    source: None,
};

/// A file, its first wrong line if it has one, and the joins that are there then.
struct Row {
    file: &'static [u8],
    wrong: Option<usize>,
    joins: &'static [LocalJoin<[u8; 4]>],
}

const ROWS: [Row; 20] = [
    Row {
        file: b"",
        wrong: None,
        joins: &[],
    },
    Row {
        file: b"\n# star 239.1.1.1\n\n",
        wrong: None,
        joins: &[],
    },
    Row {
        file: b"star 239.1.1.1",
        wrong: None,
        joins: &[STAR],
    },
    Row {
        file: b"source 192.0.2.1 239.1.1.1\n",
        wrong: None,
        joins: &[OF_SOURCE],
    },
    Row {
        file: b"star 239.1.1.2\nsource 192.0.2.1 239.1.1.1\nstar 239.1.1.1\n",
        wrong: None,
        joins: &[STAR, OF_SOURCE, HIGHER],
    },
    Row {
        file: b"star 239.1.1.1\nstar 239.1.1.1\n",
        wrong: None,
        joins: &[STAR],
    },
    Row {
        file: b"star 239.1.1.1\nsource 239.1.1.1 192.0.2.1\n",
        wrong: Some(2),
        joins: &[STAR],
    },
    Row {
        file: b"star 10.0.0.1\n",
        wrong: Some(1),
        joins: &[],
    },
    Row {
        file: b"star ff3e::1\n",
        wrong: Some(1),
        joins: &[],
    },
    Row {
        file: b"source 2001:db8::1 239.1.1.1\n",
        wrong: Some(1),
        joins: &[],
    },
    Row {
        file: b"source 0.0.0.0 239.1.1.1\n",
        wrong: Some(1),
        joins: &[],
    },
    Row {
        file: b"source 224.0.0.1 239.1.1.1\n",
        wrong: Some(1),
        joins: &[],
    },
    Row {
        file: b"star 239.1.1.1 \n",
        wrong: Some(1),
        joins: &[],
    },
    Row {
        file: b" star 239.1.1.1\n",
        wrong: Some(1),
        joins: &[],
    },
    Row {
        file: b"star 239.1.1.1\r\n",
        wrong: Some(1),
        joins: &[],
    },
    Row {
        file: b"Star 239.1.1.1\n",
        wrong: Some(1),
        joins: &[],
    },
    Row {
        file: b"source 192.0.2.1  239.1.1.1\n",
        wrong: Some(1),
        joins: &[],
    },
    Row {
        file: b"source 239.1.1.1\n",
        wrong: Some(1),
        joins: &[],
    },
    Row {
        file: b"star 192.0.2.1 239.1.1.1\n",
        wrong: Some(1),
        joins: &[],
    },
    Row {
        file: b"#\n\nstar\nstar 239.1.1.1\n",
        wrong: Some(3),
        joins: &[],
    },
];

/// Whether reading the file ends so, where its reader fails from this byte on.
fn ends<F: Family>(
    alloc: Global,
    file: &[u8],
    fails_from: usize,
    joins: &mut LocalJoins<F>,
    fault: Option<LocalFileFault>,
) -> bool {
    let mut reader = ScriptedFeed::new(file, 65_536, fails_from);
    read_local(alloc, &mut reader, joins).err() == fault
}

/// Whether a row is read as it says.
fn is_read(alloc: Global, row: &Row) -> bool {
    let fault = row.wrong.map(LocalFileFault::Line);
    let mut joins: LocalJoins<V4> = LocalJoins::new(alloc);
    ends(alloc, row.file, usize::MAX, &mut joins, fault) && joins.joins() == row.joins
}

#[test]
fn lines_of_local_receivers(rt: HostRuntime) {
    for row in &ROWS {
        assert!(rt; is_read(rt.alloc(), row));
    }
}

#[test]
fn lines_of_ipv6(rt: HostRuntime) {
    let mut joins: LocalJoins<V6> = LocalJoins::new(rt.alloc());
    let file = b"star ff3e::1\nsource 2001:db8::1 ff3e::1\nstar 239.1.1.1\n";
    assert!(rt;
        ends(
            rt.alloc(),
            file,
            usize::MAX,
            &mut joins,
            Some(LocalFileFault::Line(3))
        )
    );
    assert_eq!(rt; joins.joins().len(), 2);
}

#[test]
fn a_reader_that_fails(rt: HostRuntime) {
    let mut joins: LocalJoins<V4> = LocalJoins::new(rt.alloc());
    let file = b"star 239.1.1.1\n";
    assert!(rt; ends(rt.alloc(), file, 15, &mut joins, Some(LocalFileFault::Read)));
    assert!(rt; joins.joins().is_empty());
}

#[test]
fn the_longest_file(rt: HostRuntime) -> Result<(), Fail> {
    let mut joins: LocalJoins<V4> = LocalJoins::new(rt.alloc());
    let file = vec![in rt.alloc(); b'\n'; 1_048_577]?;
    let too_long = Some(LocalFileFault::TooLong);
    assert!(rt; ends(rt.alloc(), &file, usize::MAX, &mut joins, too_long));
    assert!(rt; ends(rt.alloc(), &file[1..], usize::MAX, &mut joins, None));
    Ok(())
}

/// A file of the stars of 4,096 groups, one of them once more, and of one group more.
fn stars(alloc: Global) -> Result<Vec<u8>, AllocError> {
    let mut file = Vec::new(alloc);
    for number in 0..4096 {
        let line = format!(in alloc; "star 239.1.{}.{}\n", number / 256, number % 256)?;
        file.extend_from_slice(line.as_bytes())?;
    }
    file.extend_from_slice(b"star 239.1.0.0\nstar 239.2.0.0\n")?;
    Ok(file)
}

#[test]
fn no_more_than_the_limit(rt: HostRuntime) -> Result<(), Fail> {
    let mut joins: LocalJoins<V4> = LocalJoins::new(rt.alloc());
    let file = stars(rt.alloc())?;
    let full = Some(LocalFileFault::Line(4098));
    assert!(rt; ends(rt.alloc(), &file, usize::MAX, &mut joins, full));
    assert_eq!(rt; joins.joins().len(), 4096);
    Ok(())
}

#[test]
fn what_is_joined(rt: HostRuntime) {
    let mut joins: LocalJoins<V4> = LocalJoins::new(rt.alloc());
    let file = b"star 239.1.1.2\nsource 192.0.2.1 239.1.1.1\n";
    assert!(rt; ends(rt.alloc(), file, usize::MAX, &mut joins, None));
    assert!(rt; joins.has_source(SOURCE, GROUP) && !joins.has_star(GROUP));
    assert!(rt; joins.has_star([239, 1, 1, 2]) && !joins.has_source(SOURCE, [239, 1, 1, 2]));
    assert!(rt; joins.joins_of(GROUP) == [OF_SOURCE].as_slice());
    assert!(rt; joins.joins_of([239, 1, 1, 3]).is_empty());
}

/// Whether a fault has these words.
fn is_in_words(alloc: Global, fault: LocalFileFault, words: &str) -> bool {
    match format!(in alloc; "{fault}") {
        Ok(text) => text.as_str() == words,
        Err(_) => false,
    }
}

const WORDS: [(LocalFileFault, &str); 4] = [
    (LocalFileFault::TooLong, "local too-long"),
    (LocalFileFault::Read, "local read"),
    (LocalFileFault::Line(12), "local line 12"),
    (LocalFileFault::Memory, "memory"),
];

#[test]
fn words_of_faults(rt: HostRuntime) {
    for (fault, words) in WORDS {
        assert!(rt; is_in_words(rt.alloc(), fault, words));
    }
}
