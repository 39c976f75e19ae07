//! What is written of a fault, and the status, where a device fails.

use clap::error::ErrorKind;
use pim_addr::ScriptedDrain;
use pim_capture::{CaptureFault, Vlan};
use pim_commands::{Fault, report_fault};
use pim_files::FileCause;
use pim_lines::AnyAddress;
use pim_words::{CommandFault as Unplanned, ConfigCause, Refusal, RouterSide};
use std::alloc::{AllocError, Global};
use std::test::Fail;

/// What `clap` has to say, for these tests.
const TEXT: &str = "two lines,\nas they are\n";

/// A refusal of this kind with that text.
fn refusal(alloc: Global, kind: ErrorKind) -> Result<Fault<'static>, AllocError> {
    let text = String::from_str(alloc, TEXT)?;
    Ok(Fault::Words(Unplanned::Clap(Refusal { kind, text })))
}

/// Writes a fault, on a device that has its text and on another one. Returns the status.
fn tell(
    fault: &Fault<'_>,
    is_help: bool,
    device: &mut ScriptedDrain,
    other: &mut ScriptedDrain,
) -> u8 {
    if is_help {
        report_fault(fault, device, other)
    } else {
        report_fault(fault, other, device)
    }
}

/// The line of a write that failed.
const UNWRITTEN: &str = "pimtree: output\n";

/// Whether a fault, written to a device that fails from this byte on, leaves the text up to there
/// and one failure. The other device has the line of the failure where the words asked for the
/// text.
fn leaves(alloc: Global, fault: &Fault<'_>, is_help: bool, text: &str, fails_from: usize) -> bool {
    let mut device = ScriptedDrain::new(alloc, 3, fails_from);
    let mut other = ScriptedDrain::new(alloc, 3, usize::MAX);
    let status = tell(fault, is_help, &mut device, &mut other);
    let fails = fails_from < text.len();
    let reported = if is_help && fails { UNWRITTEN } else { "" };
    status == if is_help && !fails { 0 } else { 2 }
        && Some(device.written()) == text.as_bytes().get(..fails_from.min(text.len()))
        && device.failures() == u64::from(fails)
        && other.written() == reported.as_bytes()
}

/// Whether a device takes the whole text, or a front of it where it fails.
fn is_told(alloc: Global, fault: &Fault<'_>, is_help: bool, text: &str) -> bool {
    leaves(alloc, fault, is_help, text, usize::MAX)
        && (0..text.len()).all(|from| leaves(alloc, fault, is_help, text, from))
}

#[test]
fn lines_of_faults_stop_at_a_failure(rt: HostRuntime) {
    let group = AnyAddress::V4([239, 1, 1, 1]);
    let words = |fault| Fault::Words(fault);
    let rows = [
        (
            words(Unplanned::Address("1.2.3")),
            "pimtree: address 1.2.3\n",
        ),
        (
            words(Unplanned::NoPort(RouterSide::B)),
            "pimtree: no port for b\n",
        ),
        (
            words(Unplanned::Config(ConfigCause::Rp)),
            "pimtree: config rp\n",
        ),
        (words(Unplanned::Memory), "pimtree: memory\n"),
        (Fault::File("10.0.0.2@"), "pimtree: file 10.0.0.2@\n"),
        (Fault::RoutesLine(12), "pimtree: routes line 12\n"),
        (Fault::LocalTooLong, "pimtree: local too-long\n"),
        (Fault::LocalRead, "pimtree: local read\n"),
        (Fault::LocalLine(12), "pimtree: local line 12\n"),
        (Fault::TooBig(group), "pimtree: too big 239.1.1.1\n"),
        (Fault::Full(100_001), "pimtree: full 100001\n"),
        (Fault::InputTooLong, "pimtree: input too-long\n"),
        (Fault::Memory, "pimtree: memory\n"),
    ];
    for (fault, text) in rows {
        assert!(rt; is_told(rt.alloc(), &fault, false, text));
    }
}

/// A fault of this cause at the third record of a file.
fn in_file(cause: CaptureFault) -> Fault<'static> {
    Fault::InFile {
        cause,
        file: "a.pcap",
        record: 3,
    }
}

/// The VLAN of one tag.
fn vlan(outer: u16) -> Vlan {
    Vlan { outer, inner: 0 }
}

/// A file that can't be opened for this cause.
fn unopened(cause: FileCause) -> Fault<'static> {
    Fault::Unopened {
        file: "a.pcap",
        cause,
    }
}

#[test]
fn lines_with_names_of_files_stop_at_a_failure(rt: HostRuntime) {
    let vlans = CaptureFault::Vlans {
        first: vlan(5),
        other: vlan(7),
    };
    let interfaces = CaptureFault::Interfaces { first: 0, other: 1 };
    let rows = [
        (
            unopened(FileCause::Missing),
            "pimtree: file a.pcap: no such file\n",
        ),
        (
            unopened(FileCause::Denied),
            "pimtree: file a.pcap: permission denied\n",
        ),
        (
            unopened(FileCause::Directory),
            "pimtree: file a.pcap: is a directory\n",
        ),
        (unopened(FileCause::Other), "pimtree: file a.pcap\n"),
        (
            in_file(CaptureFault::LinkNumber(147)),
            "pimtree: capture link-type 147 in a.pcap\n",
        ),
        (
            in_file(CaptureFault::TooLong),
            "pimtree: capture too-long in a.pcap at record 3\n",
        ),
        (in_file(vlans), "pimtree: capture vlans 5,7 in a.pcap\n"),
        (
            in_file(interfaces),
            "pimtree: capture interfaces 0,1 in a.pcap\n",
        ),
    ];
    for (fault, text) in rows {
        assert!(rt; is_told(rt.alloc(), &fault, false, text));
    }
}

#[test]
fn help_that_no_device_takes_has_status_2(rt: HostRuntime) -> Result<(), Fail> {
    let alloc = rt.alloc();
    let fault = refusal(alloc, ErrorKind::DisplayHelp)?;
    let mut output = ScriptedDrain::new(alloc, 3, 4);
    let mut errors = ScriptedDrain::new(alloc, 3, 9);
    assert_eq!(rt; report_fault(&fault, &mut output, &mut errors), 2);
    assert!(rt; output.written() == "two ".as_bytes());
    assert!(rt; errors.written() == "pimtree: ".as_bytes());
    assert_eq!(rt; errors.failures(), 1);
    Ok(())
}

#[test]
fn texts_of_clap_stop_at_a_failure(rt: HostRuntime) -> Result<(), Fail> {
    let alloc = rt.alloc();
    for (kind, is_help) in [
        (ErrorKind::DisplayHelp, true),
        (ErrorKind::DisplayVersion, true),
        (ErrorKind::DisplayHelpOnMissingArgumentOrSubcommand, false),
        (ErrorKind::UnknownArgument, false),
        (ErrorKind::MissingSubcommand, false),
    ] {
        let fault = refusal(alloc, kind)?;
        assert!(rt; is_told(alloc, &fault, is_help, TEXT));
    }
    Ok(())
}
