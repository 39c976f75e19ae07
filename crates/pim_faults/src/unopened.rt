//! The program's faults for files that aren't open.

ghost use Rattle.std.specs.Prelude.{◌≡◌};
ghost use Rattle.pim_faults.specs.Unopened.{open_fault};

use crate::fault::Fault;
use pim_files::OpenFault;
use pim_words::ConfigCause;

impl<'a> From<OpenFault<'a>> for Fault<'a> {
    ghost from_gives = { λ fault reported. reported ≡ open_fault fault };

    fn from(fault: OpenFault<'a>) -> Fault<'a> {
        match fault {
            OpenFault::Upstream => Fault::Words(pim_words::CommandFault::WriterAddress),
            OpenFault::Rp => Fault::Words(pim_words::CommandFault::Config(ConfigCause::Rp)),
            OpenFault::File(word) => Fault::File(word),
            OpenFault::Port { file, cause } => Fault::Unopened { file, cause },
            OpenFault::Routes(fault) => Fault::from(fault),
            OpenFault::Local(fault) => Fault::from(fault),
            OpenFault::Memory => Fault::Memory,
        }
    }
}
