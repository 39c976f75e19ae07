//! The program's result for a result of an engine.

ghost use Rattle.std.specs.Prelude.{◌≡◌};
ghost use Rattle.pim_files.specs.Opening.{port_files};
ghost use Rattle.pim_commands.specs.Answers.{answer_of, engine_fault};
ghost use Rattle.pim_warnings.specs.Naming.{ports_of};

use pim_addr::Family;
use pim_exchange::ExchangeFault;
use pim_faults::Fault;
use pim_lines::any_address;
use pim_run::RunFault;
use pim_warnings::port_fault;
use pim_words::{Captures, RouterSide};

/// The program's fault for a fault of an engine. Each of the routers is one of two, or the one of
/// all ports.
fn engine_fault<'a, F: Family>(
    captures: &Captures<'a, F::Addr>,
    first: Option<RouterSide>,
    second: Option<RouterSide>,
    fault: ExchangeFault<F::Addr>,
) -> Fault<'a>
    ensures { result ≡ engine_fault (ports_of first (port_files captures.now))
        (ports_of second (port_files captures.now)) F.family F.bytes_of fault }
{
    match fault {
        ExchangeFault::Replay(RunFault::Capture(reported)) => port_fault(captures, first, reported),
        ExchangeFault::Replay(RunFault::Output) => Fault::Output,
        ExchangeFault::Replay(RunFault::Memory) => Fault::Memory,
        ExchangeFault::Second(reported) => port_fault(captures, second, reported),
        ExchangeFault::TooBig(group) => Fault::TooBig(any_address::<F>(group)),
        ExchangeFault::Full { needed } => Fault::Full(needed),
    }
}

/// The program's result for a result of an engine.
pub(crate) fn answer_of<'a, F: Family>(
    captures: &Captures<'a, F::Addr>,
    first: Option<RouterSide>,
    second: Option<RouterSide>,
    reported: Result<u8, ExchangeFault<F::Addr>>,
) -> Result<u8, Fault<'a>>
    ensures { result ≡ answer_of (ports_of first (port_files captures.now))
        (ports_of second (port_files captures.now)) F.family F.bytes_of reported }
{
    match reported {
        Ok(status) => Ok(status),
        Err(fault) => Err(engine_fault::<F>(captures, first, second, fault)),
    }
}
