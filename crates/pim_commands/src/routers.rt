//! The routers and the writer that the words of a command ask for.

ghost use Rattle.std.specs.Prelude.{◌≡◌, [], filter, map, IfOk, MatchResult};
ghost use Rattle.pim_merge.specs.Ends.{IsBoundedEnd};
ghost use Rattle.pim_router.specs.Config.{config_faults};
ghost use Rattle.pim_router.specs.Seen.{setup_seen};
ghost use Rattle.pim_router.specs.State.{new_router};
ghost use Rattle.pim_words.specs.Plan.{IsBounded, IsWritable};
ghost use Rattle.pim_warnings.specs.Naming.{is_in};
ghost use Rattle.pim_commands.specs.Routers.{end_of, config_of, config_fault};
ghost use Rattle.pim_commands.specs.Routers.{config_causes, writing_of, IsFirstCause, IsWriterOf};

use pim_addr::{Family, Routes};
use pim_faults::Fault;
use pim_form::{Writer, WriterFault};
use pim_merge::End;
use pim_router::{Config, ConfigFault, PortConfig, Router};
use pim_warnings::is_in;
use pim_words::{Captures, ConfigCause, Port, RouterSide, Writing};
use std::alloc::{AllocError, Global};

/// The propagation delay of each port, in milliseconds (RFC 7761, 4.11: Propagation_delay_default).
const PROPAGATION: u16 = 500;

/// The override delay of each port, in milliseconds (RFC 7761, 4.11: t_override_default).
const OVERRIDE: u16 = 2_500;

/// The end of the run that the words ask for: at a time if they name one, otherwise so long after
/// the last record.
pub(crate) fn end_of<A>(captures: &Captures<'_, A>) -> End
    requires { IsBounded captures.now }
    ensures end { result ≡ end_of captures.now }
    ensures bounded { IsBoundedEnd result }
{
    let at = captures.at;
    match at {
        Some(time) => End::At(time),
        None => End::After(captures.after_ms),
    }
}

/// The configuration of a port that a word names, with the default delays.
fn config<A: Copy>(port: &Port<'_, A>) -> PortConfig<A>
    ensures { result ≡ config_of port.now }
{
    PortConfig {
        address: port.address,
        propagation: PROPAGATION,
        override_ms: OVERRIDE,
    }
}

/// The configurations of a router's ports: of one of two, or of the one of all ports.
pub(crate) fn configs<A: Copy>(
    alloc: Global,
    ports: &[Port<'_, A>],
    side: Option<RouterSide>,
) -> Result<Vec<PortConfig<A>>, AllocError>
    ensures { IfOk result (λ configs. configs.items
        ≡ map config_of (filter (is_in side) ports.now)) }
{
    let mut configs = Vec::new(alloc);
    for port in ports {
        if is_in(side, port) {
            configs.push(config(port))?;
        }
    }
    Ok(configs)
}

/// The program's fault for a fault of a router's configuration.
fn config_fault(fault: ConfigFault) -> Fault<'static>
    ensures { result ≡ config_fault fault }
{
    let cause = match fault {
        ConfigFault::Address { .. } => ConfigCause::Address,
        ConfigFault::Memory => return Fault::Memory,
        _ => ConfigCause::Ports,
    };
    Fault::Words(pim_words::CommandFault::Config(cause))
}

/// A new router with these ports, this table and this limit on records, or its first fault.
pub(crate) fn router_of<'r, F: Family>(
    alloc: Global,
    ports: &'r [PortConfig<F::Addr>],
    routes: &'r Routes<F>,
    limit: usize,
) -> Result<Router<'r, F>, Fault<'static>>
    ensures { MatchResult result
        (λ router. (config_faults F.family (setup_seen F.bytes_of ports.now routes.now limit) ≡ [])
        × (router ≡ new_router (setup_seen F.bytes_of ports.now routes.now limit)))
        (IsFirstCause (config_causes F.family
        (setup_seen F.bytes_of ports.now routes.now limit))) }
{
    let config = Config {
        ports,
        routes,
        limit,
    };
    match Router::<F>::new(alloc, &config) {
        Ok(router) => Ok(router),
        Err(fault) => Err(config_fault(fault)),
    }
}

/// The writer, or the fault `WriterAddress` if its addresses aren't two different valid sources.
pub(crate) fn writer_of<F: Family>(writing: &Writing<F::Addr>) -> Result<Writer<F>, Fault<'static>>
    requires { IsWritable writing.now }
    ensures { IsWriterOf F.family (writing_of F.bytes_of writing.now) result }
{
    match Writer::<F>::new(
        writing.upstream,
        writing.own,
        writing.holdtime,
        writing.budget,
    ) {
        Ok(writer) => Ok(writer),
        Err(WriterFault::Address) => Err(Fault::Words(pim_words::CommandFault::WriterAddress)),
        Err(WriterFault::Holdtime | WriterFault::Budget) => unreachable!(),
    }
}
