//! The words of causes.

ghost use Rattle.std.specs.Prelude.{◌≡◌};
ghost use Rattle.pim_faults.specs.Words.{config_words, file_words, is_of_record, no_port_words};

use pim_capture::CaptureFault;
use pim_files::FileCause;
use pim_words::{ConfigCause, RouterSide};

/// The words of a router of two without a port.
pub fn no_port_words(side: RouterSide) -> &'static [u8]
    ensures { result.now ≡ no_port_words side }
{
    match side {
        RouterSide::A => b"no port for a",
        RouterSide::B => b"no port for b",
    }
}

/// Whether a fault of a capture is one of a single record.
pub fn is_of_record(cause: CaptureFault) -> bool
    ensures { result ≡ is_of_record cause }
{
    matches!(
        cause,
        CaptureFault::TooLong | CaptureFault::Block | CaptureFault::Time
    )
}

/// The words that say why a file can't be opened.
pub fn file_words(cause: FileCause) -> &'static [u8]
    ensures { result.now ≡ file_words cause }
{
    match cause {
        FileCause::Missing => b": no such file",
        FileCause::Denied => b": permission denied",
        FileCause::Directory => b": is a directory",
        FileCause::Other => b"",
    }
}

/// The words of a configuration's fault.
pub fn config_words(cause: ConfigCause) -> &'static [u8]
    ensures { result.now ≡ config_words cause }
{
    match cause {
        ConfigCause::Ports => b"config ports",
        ConfigCause::Address => b"config address",
        ConfigCause::Rp => b"config rp",
    }
}
