//! The words of a message's fault, used in a packet's line and in the line of a fault of the
//! program.

ghost use Rattle.std.specs.Prelude.{◌≡◌};
ghost use Rattle.pim_device.specs.Device.{AppendsAll, failures_after};
ghost use Rattle.pim_report.specs.Malformed.{frame_words, hello_kind_name, hello_words, kind_name};
ghost use Rattle.pim_report.specs.Malformed.{join_prune_words};
ghost use Rattle.pim_report.specs.Malformed.{malformed_words};
ghost use Rattle.pim_report.specs.Said.{said_text};

use crate::said::{Said, write_said};
use pim_addr::{Drain, Failed};
use pim_frame::FrameFault;
use pim_hello::{HelloFault, HelloKind};
use pim_jp::{JpFault, JpKind};
use pim_router::Malformed;

/// The name of a fault in the body of a Join/Prune message.
fn kind_name(kind: JpKind) -> &'static [u8]
    ensures { result.now ≡ kind_name kind }
{
    match kind {
        JpKind::Short => b"short",
        JpKind::Family => b"family",
        JpKind::Encoding => b"encoding",
        JpKind::Mask => b"mask",
        JpKind::NotGroup => b"not-group",
        JpKind::Flags => b"flags",
        JpKind::NotSource => b"not-source",
        JpKind::SecondStar => b"second-star",
        JpKind::BothLists => b"both-lists",
        JpKind::Trailing => b"trailing",
    }
}

/// The name of a fault in the body of a Hello.
fn hello_kind_name(kind: HelloKind) -> &'static [u8]
    ensures { result.now ≡ hello_kind_name kind }
{
    match kind {
        HelloKind::Short => b"short",
        HelloKind::OptionLength => b"option-length",
        HelloKind::Address => b"address",
    }
}

/// The words of a fault in the header, the checksum or the destination.
fn frame_said(fault: FrameFault) -> Said
    ensures { said_text result ≡ frame_words fault }
{
    match fault {
        FrameFault::Short => Said::plain(b"frame short"),
        FrameFault::Version(version) => Said::numbered(b"frame version ", u64::from(version)),
        FrameFault::Checksum => Said::plain(b"frame checksum"),
        FrameFault::NotAllRouters => Said::plain(b"frame not-all-routers"),
    }
}

/// The words of a fault in the body of a Hello.
fn hello_said(fault: HelloFault) -> Said
    ensures { said_text result ≡ hello_words fault }
{
    Said::of_name(
        b"hello ",
        hello_kind_name(fault.kind),
        b" at ",
        fault.at as u64,
    )
}

/// The words of a fault in the body of a Join/Prune message.
fn join_prune_said(fault: JpFault) -> Said
    ensures { said_text result ≡ join_prune_words fault }
{
    Said::of_name(
        b"join/prune ",
        kind_name(fault.kind),
        b" at ",
        fault.at as u64,
    )
}

/// The words of any fault of a message.
pub(crate) fn malformed_said(fault: Malformed) -> Said
    ensures { said_text result ≡ malformed_words fault }
{
    match fault {
        Malformed::Frame(fault) => frame_said(fault),
        Malformed::Hello(fault) => hello_said(fault),
        Malformed::JoinPrune(fault) => join_prune_said(fault),
    }
}

/// Writes the words of a message's fault, without a line feed.
///
/// # Errors
/// The device failed: a prefix of the words was written.
pub fn write_malformed_words<W: Drain>(writer: &mut W, fault: Malformed) -> Result<(), Failed>
    ensures bytes { AppendsAll (W.contents writer.old) (W.contents writer.new) result
        (malformed_words fault) }
    ensures count { W.failures writer.new ≡ failures_after (W.failures writer.old) result }
{
    write_said(writer, &malformed_said(fault))
}
