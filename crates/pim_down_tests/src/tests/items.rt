//! The lines and texts of a session, from devices that give few bytes, and answers that aren't
//! passed on. Long lines, long texts and failed reads are cases of `pimtree_cases`.

ghost use Rattle.std.specs.Prelude.{◌≡◌, ◌+◌, min, None};
ghost use Rattle.pim_device.specs.Device.{top_count};

use pim_device::{Drain, Failed, ScriptedDrain, ScriptedFeed};
use pim_request::{Answers, InputItems, Item, Stopped, TextItem};
use std::alloc::{AllocError, Global};
use std::test::Fail;

/// Never in reach of a test.
const NEVER: usize = usize::MAX;

/// Inputs, and their items: `L` and a line, or `T`, a `from` line, `|`, its text and `.` if it was
/// sent, `,` if not. Each item ends with `;`.
type Row<'a> = (&'a [u8], &'a [u8]);

const INPUTS: [Row<'static>; 22] = [
    (b"", b""),
    (b"\n\n", b""),
    (b"now", b"Lnow;"),
    (b"now\n", b"Lnow;"),
    (b"now\n\n# a\n#\nnext\n", b"Lnow;Lnext;"),
    (b" now\n", b"L now;"),
    (b"now\r\n", b"Lnow\r;"),
    (b"now\n#", b"Lnow;"),
    (b"send\n", b"Lsend;"),
    (b"fromage\nnow", b"Lfromage;Lnow;"),
    (b"fro", b"Lfro;"),
    (b"From 0\n", b"LFrom 0;"),
    (b"from", b"Tfrom|,;"),
    (b"from\nsend", b"Tfrom|.;"),
    (b"from 0 a\nhello\nsend\nnow\n", b"Tfrom 0 a|hello\n.;Lnow;"),
    (b"from 0 a\nhello\n", b"Tfrom 0 a|hello\n,;"),
    (b"from 0 a\nhello", b"Tfrom 0 a|hello\n,;"),
    (
        b"from x\nnow\nreset\nsend\nnow\n",
        b"Tfrom x|now\nreset\n.;Lnow;",
    ),
    (b"from 0\n# a\n\nhello\nsend\n", b"Tfrom 0|# a\n\nhello\n.;"),
    (b"from 0\nsend \n send\nsend", b"Tfrom 0|send \n send\n.;"),
    (b"from 0\nfrom 1\nsend\nsend", b"Tfrom 0|from 1\n.;Lsend;"),
    (b"from 0\n\nsend\n\nfrom 1", b"Tfrom 0|\n.;Tfrom 1|,;"),
];

/// The pieces of a text as the rows have it: of one that isn't held, only what is known.
fn pieces<'a>(text: TextItem, from: &'a [u8], lines: &'a [u8]) -> [&'a [u8]; 5] {
    let end: &'a [u8] = if text.is_sent { b".;" } else { b",;" };
    if text.has_long_line {
        [b"T?;", b"", b"", b"", b""]
    } else if text.is_too_long {
        [b"T", from, b"!;", b"", b""]
    } else {
        [b"T", from, b"|", lines, end]
    }
}

/// Writes pieces one after the other.
fn show_pieces(out: &mut Vec<u8>, pieces: &[&[u8]]) -> Result<(), AllocError> {
    for piece in pieces {
        out.extend_from_slice(piece)?;
    }
    Ok(())
}

/// Writes an item as the rows have it.
fn show(
    out: &mut Vec<u8>,
    items: &InputItems<ScriptedFeed<'_>>,
    item: Item,
) -> Result<(), AllocError> {
    match item {
        Item::Line => {
            out.push(b'L')?;
            out.extend_from_slice(items.line())?;
            out.push(b';')?;
            Ok(())
        }
        Item::LongLine => out.extend_from_slice(b"!;"),
        Item::Text(text) => show_pieces(out, &pieces(text, items.from_line(), items.text())),
    }
}

/// Writes up to 30 items of a device, and `I` or `O` where it stops.
fn show_all<W: Answers>(
    out: &mut Vec<u8>,
    items: &mut InputItems<ScriptedFeed<'_>>,
    answers: &mut W,
) -> Result<(), AllocError> {
    for _ in 0..30 {
        match items.next(answers) {
            Ok(Some(item)) => show(out, items, item)?,
            Ok(None) => return Ok(()),
            Err(Stopped::Input) => return out.extend_from_slice(b"I"),
            Err(Stopped::Output) => return out.extend_from_slice(b"O"),
        }
    }
    Ok(())
}

/// Whether a device that gives at most so many bytes a read has these items.
fn has(alloc: Global, feed: ScriptedFeed<'_>, wanted: &[u8]) -> bool {
    let Ok(mut items) = InputItems::new(alloc, feed) else {
        return false;
    };
    let mut answers = ScriptedDrain::new(alloc, NEVER, NEVER);
    let mut out = Vec::new(alloc);
    let shown = show_all(&mut out, &mut items, &mut answers).is_ok();
    shown && out.as_slice() == wanted
}

/// The first row with other items, where a read gives at most so many bytes.
fn wrong(alloc: Global, rows: &[Row<'_>], most: usize) -> Option<usize> {
    for index in 0..rows.len() {
        let (input, wanted) = rows[index];
        if !has(alloc, ScriptedFeed::new(input, most, NEVER), wanted) {
            return Some(index);
        }
    }
    None
}

#[test]
fn items_are_read(rt: HostRuntime) {
    for most in [1, 2, 7, NEVER] {
        assert_eq!(rt; wrong(rt.alloc(), &INPUTS, most), None);
    }
}

/// A device for answers that takes none and passes none on.
#[derive(Drop)]
struct Stuck {
    failures: u64,
}

impl Stuck {
    fn fail(&mut self) -> Failed
        ensures { self.new.failures ≡ min (self.old.failures + 1) top_count }
    {
        self.failures = self.failures.saturating_add(1);
        Failed
    }
}

impl Drain for Stuck {
    ghost contents = { λ _. None };

    ghost failures = { λ stuck. stuck.failures };

    fn write(&mut self, _bytes: &[u8]) -> Result<usize, Failed> {
        Err(self.fail())
    }
}

impl Answers for Stuck {
    ghost passed_on = { λ _. None };

    fn flush(&mut self) -> Result<(), Failed> {
        Err(self.fail())
    }
}

#[test]
fn answers_are_passed_on_before_a_read(rt: HostRuntime) -> Result<(), Fail> {
    let alloc = rt.alloc();
    let mut items = InputItems::new(alloc, ScriptedFeed::new(b"now", NEVER, NEVER))?;
    let mut answers = Stuck { failures: 0 };
    assert_eq!(rt; items.next(&mut answers), Err(Stopped::Output));
    assert_eq!(rt; answers.failures, 1);
    Ok(())
}
