//! The program's fault for a fault of a capture. It names the file of a port with a link.

ghost use Rattle.std.specs.Prelude.{◌≡◌, filter};
ghost use Rattle.pim_files.specs.Captures.{files_from, with_more};
ghost use Rattle.pim_words.specs.Faults.{is_of};
ghost use Rattle.pim_files.specs.Opening.{port_files};
ghost use Rattle.pim_warnings.specs.Naming.{is_memory, name_at, file_of, file_at, in_file};
ghost use Rattle.pim_warnings.specs.Naming.{port_fault, ports_of, is_in, are_in};

use pim_capture::CaptureFault;
use pim_faults::Fault;
use pim_files::is_further;
use pim_merge::MergeFault;
use pim_words::{Captures, More, Port, RouterSide, is_of};

/// Whether the fault of a capture is that memory was refused.
fn is_memory(fault: CaptureFault) -> bool
    ensures { result ≡ is_memory fault }
{
    matches!(fault, CaptureFault::Memory)
}

/// Whether the port is one of the router: of one of two, or of the one of all ports.
pub fn is_in<A: Copy>(side: Option<RouterSide>, port: &Port<'_, A>) -> bool
    ensures { result ≡ is_in side port.now }
{
    match side {
        None => true,
        Some(side) => is_of(side, port),
    }
}

/// The name of the file of this number among the files of the port of number `at`: its own file,
/// then those of these further files that are its own. The own file has the number 0.
pub fn name_at<'a, A: Copy>(
    at: usize,
    port: &Port<'a, A>,
    further: &[More<'a>],
    file: u64,
) -> &'a str
    ensures { result ≡ name_at (with_more at further.now port.now) file }
{
    if file == 0 {
        return port.file;
    }
    let mut left = file - 1;
    for one in further {
        if is_further(at, port, one) {
            if left == 0 {
                return one.file;
            }
            left -= 1;
        }
    }
    port.file
}

/// The name of the file that faults of a port's capture have: that of a port with a link.
fn file_of<'a, A: Copy>(
    at: usize,
    port: &Port<'a, A>,
    further: &[More<'a>],
    file: u64,
) -> Option<&'a str>
    ensures { result ≡ file_of (with_more at further.now port.now) file }
{
    if port.link.is_some() {
        return Some(name_at(at, port, further, file));
    }
    None
}

/// That of the port of this number among those of a router.
fn file_at<'a, A: Copy>(
    ports: &[Port<'a, A>],
    further: &[More<'a>],
    side: Option<RouterSide>,
    number: usize,
    file: u64,
) -> Option<&'a str>
    ensures { result
        ≡ file_at (filter (are_in side) (files_from 0 further.now ports.now)) number file }
{
    let mut left = number;
    let mut at = 0;
    for port in ports {
        if is_in(side, port) {
            if left == 0 {
                return file_of(at, port, further, file);
            }
            left -= 1;
        }
        at += 1;
    }
    None
}

/// The fault at a record of this number in a file, if it is named.
fn in_file<'a>(file: Option<&'a str>, number: u64, cause: CaptureFault) -> Fault<'a>
    ensures { result ≡ in_file file.entry number cause }
{
    match file {
        Some(file) => Fault::InFile {
            cause,
            file,
            record: number,
        },
        None => Fault::Capture(cause),
    }
}

/// The program's fault for a fault of a capture of a router: one of two, or the one of all ports.
pub fn port_fault<'a, A: Copy>(
    captures: &Captures<'a, A>,
    side: Option<RouterSide>,
    reported: MergeFault,
) -> Fault<'a>
    ensures { result ≡ port_fault (ports_of side (port_files captures.now)) reported }
{
    if is_memory(reported.fault) {
        return Fault::Memory;
    }
    in_file(
        file_at(
            &captures.ports,
            &captures.more,
            side,
            reported.capture,
            reported.file,
        ),
        reported.record,
        reported.fault,
    )
}
