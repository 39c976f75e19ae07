//! The line of a PruneEcho.

ghost use Rattle.std.specs.Prelude.{◌≡◌, ◌++◌};
ghost use Rattle.pim_addr.specs.Text.{address_text};
ghost use Rattle.pim_device.specs.Device.{AppendsAll, failures_after};
ghost use Rattle.pim_down.specs.Seen.{what_seen};
ghost use Rattle.pim_report.specs.EchoLine.{what_words, source_words, kind_of, echo_line};

use itoa::Buffer;
use pim_addr::{Drain, Failed, Family};
use pim_down::What;
use pim_lines::{Shown, write_pieces};

/// A machine of a group in words, with its source if it has one. Contracts see everything but the
/// group.
#[derive(Drop)]
pub(crate) struct ShownWhat {
    /// `star`, `source` or `rpt`, and a space.
    kind: &'static [u8],
    /// The source, or nothing.
    source: Shown,
    /// A space if there is a source, otherwise nothing.
    gap: &'static [u8],
}

impl ShownWhat {
    /// `star`, `source` or `rpt`, and a space.
    pub(crate) fn kind(&self) -> &[u8]
        ensures { result.now ≡ self.now.kind.now }
    {
        self.kind
    }

    /// The source, or nothing.
    pub(crate) fn source(&self) -> &[u8]
        ensures { result.now ≡ self.now.source }
    {
        self.source.text()
    }

    /// A space if there is a source, otherwise nothing.
    pub(crate) fn gap(&self) -> &[u8]
        ensures { result.now ≡ self.now.gap.now }
    {
        self.gap
    }
}

/// The words of a machine.
pub(crate) fn show_what<F: Family>(what: What<F::Addr>) -> ShownWhat
    ensures kind { result.kind.now ≡ kind_of (what_seen F.bytes_of what) }
    ensures source { result.source ++ result.gap.now
        ≡ source_words F.family (what_seen F.bytes_of what) }
{
    match what {
        What::Star => ShownWhat {
            kind: b"star ",
            source: Shown::maybe::<F>(None),
            gap: b"",
        },
        What::Source(source) => ShownWhat {
            kind: b"source ",
            source: Shown::address::<F>(source),
            gap: b" ",
        },
        What::Rpt(source) => ShownWhat {
            kind: b"rpt ",
            source: Shown::address::<F>(source),
            gap: b" ",
        },
    }
}

/// Writes the line of an echo of this port's machine at this moment, in milliseconds.
///
/// # Errors
/// The device failed: a prefix of the line was written.
pub fn write_echo_line<F: Family, W: Drain>(
    writer: &mut W,
    moment: u64,
    port: usize,
    group: F::Addr,
    what: What<F::Addr>,
) -> Result<(), Failed>
    ensures bytes { AppendsAll (W.contents writer.old) (W.contents writer.new) result
        (echo_line F.family moment port (F.bytes_of group) (what_seen F.bytes_of what)) }
    ensures count { W.failures writer.new ≡ failures_after (W.failures writer.old) result }
{
    let what = show_what::<F>(what);
    let group = Shown::address::<F>(group);
    let mut at = Buffer::new();
    let mut on = Buffer::new();
    let pieces = [
        at.format(moment).as_bytes(),
        b" port ",
        on.format(port).as_bytes(),
        b" echo ",
        what.kind(),
        what.source(),
        what.gap(),
        group.text(),
        b"\n",
    ];
    write_pieces(writer, &pieces)
}
