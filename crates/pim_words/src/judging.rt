//! The faults of a task whose texts were all read: of its routers, and of its writer or upstream
//! neighbour. Each function returns the first one.

ghost use Rattle.std.specs.Prelude.{◌≡◌, ◌++◌, ◌&&◌, ◌||◌, not, false};
ghost use Rattle.std.specs.List.{list_any};
ghost use Rattle.std.specs.Option.{option_map_or};
ghost use Rattle.pim_addr.specs.Faults.{judged};
ghost use Rattle.pim_words.specs.Faults.{is_valid, is_same, is_of, port_count, no_port_faults};
ghost use Rattle.pim_words.specs.Faults.{writer_faults, is_of_port, upstream_faults};
ghost use Rattle.pim_words.specs.Faults.{router_faults, faults_of_two, setting_faults};

use crate::fault::{CommandFault, ConfigCause, RouterSide};
use crate::task::{Captures, Port, Task, Writing};
use pim_addr::{Family, V4, V6};
use pim_lines::AnyAddress;

/// The most ports of a router.
const MOST_PORTS: usize = 64;

/// Whether an address is a valid source.
fn is_valid(address: AnyAddress) -> bool
    ensures { result ≡ is_valid address }
{
    match address {
        AnyAddress::V4(address) => V4::is_source(address),
        AnyAddress::V6(address) => V6::is_source(address),
    }
}

/// Whether two addresses are the same.
fn is_same(this: AnyAddress, that: AnyAddress) -> bool
    ensures { result ≡ is_same this that }
{
    match (this, that) {
        (AnyAddress::V4(this), AnyAddress::V4(that)) => this == that,
        (AnyAddress::V6(this), AnyAddress::V6(that)) => this == that,
        _ => false,
    }
}

/// Returns whether the port belongs to this router.
pub fn is_of<A: Copy>(side: RouterSide, port: &Port<'_, A>) -> bool
    ensures { result ≡ is_of side port.now }
{
    match (side, port.side) {
        (RouterSide::A, RouterSide::A) | (RouterSide::B, RouterSide::B) => true,
        _ => false,
    }
}

/// The number of ports of a router.
fn port_count(side: RouterSide, captures: &Captures<'_, AnyAddress>) -> usize
    ensures { result ≡ port_count side captures.now }
{
    captures
        .ports
        .iter()
        .filter(|port| is_of(side, port))
        .count()
}

/// Whether the port belongs to this router and its address isn't a valid source.
fn is_bad_port(side: RouterSide, port: &Port<'_, AnyAddress>) -> bool
    ensures { result ≡ (is_of side port.now && not (is_valid port.now.address)) }
{
    if is_of(side, port) {
        !is_valid(port.address)
    } else {
        false
    }
}

/// Whether this router has a port whose address isn't a valid source.
fn has_bad_port(side: RouterSide, captures: &Captures<'_, AnyAddress>) -> bool
    ensures { result
        ≡ list_any (λ port. is_of side port
        && not (is_valid port.address)) captures.now.ports.items }
{
    captures.ports.iter().any(|port| is_bad_port(side, port))
}

/// Whether the RP is given and isn't a valid source.
fn is_bad_rp(rp: Option<AnyAddress>) -> bool
    ensures { result ≡ option_map_or (λ rp. not (is_valid rp)) rp false }
{
    match rp {
        Some(rp) => !is_valid(rp),
        None => false,
    }
}

/// Whether the writer's addresses aren't two different valid sources.
fn is_bad_writing(writing: Writing<AnyAddress>) -> bool
    ensures { result ≡ (not (is_valid writing.upstream) || not (is_valid writing.own)
        || is_same writing.own writing.upstream) }
{
    !is_valid(writing.upstream) || !is_valid(writing.own) || is_same(writing.own, writing.upstream)
}

/// Whether the port has this address.
fn has_address(address: AnyAddress, port: &Port<'_, AnyAddress>) -> bool
    ensures { result ≡ is_same port.now.address address }
{
    is_same(port.address, address)
}

/// Whether the address is that of a port.
fn is_of_port(address: AnyAddress, captures: &Captures<'_, AnyAddress>) -> bool
    ensures { result ≡ is_of_port address captures.now }
{
    captures.ports.iter().any(|port| has_address(address, port))
}

/// Checks that each of two routers has a port.
fn judge_ports(captures: &Captures<'_, AnyAddress>) -> Result<(), CommandFault<'static>>
    ensures { result ≡ judged (no_port_faults captures.now) tt }
{
    if port_count(RouterSide::A, captures) == 0 {
        return Err(CommandFault::NoPort(RouterSide::A));
    }
    if port_count(RouterSide::B, captures) == 0 {
        return Err(CommandFault::NoPort(RouterSide::B));
    }
    Ok(())
}

/// Checks that the writer's addresses are two different valid sources.
fn judge_writer(writing: Writing<AnyAddress>) -> Result<(), CommandFault<'static>>
    ensures { result ≡ judged (writer_faults writing) tt }
{
    if is_bad_writing(writing) {
        return Err(CommandFault::WriterAddress);
    }
    Ok(())
}

/// Checks that an upstream neighbour is a valid source, and has the address of no port.
fn judge_upstream(
    upstream: AnyAddress,
    captures: &Captures<'_, AnyAddress>,
) -> Result<(), CommandFault<'static>>
    ensures { result ≡ judged (upstream_faults upstream captures.now) tt }
{
    if !is_valid(upstream) || is_of_port(upstream, captures) {
        return Err(CommandFault::WriterAddress);
    }
    Ok(())
}

/// Checks the ports and the RP of a router.
fn judge_router(
    side: RouterSide,
    captures: &Captures<'_, AnyAddress>,
) -> Result<(), CommandFault<'static>>
    ensures { result ≡ judged (router_faults side captures.now) tt }
{
    let count = port_count(side, captures);
    if count == 0 || MOST_PORTS < count {
        return Err(CommandFault::Config(ConfigCause::Ports));
    }
    if has_bad_port(side, captures) {
        return Err(CommandFault::Config(ConfigCause::Address));
    }
    if is_bad_rp(captures.rp) {
        return Err(CommandFault::Config(ConfigCause::Rp));
    }
    Ok(())
}

/// Checks the ports and the RP of both routers.
fn judge_routers(captures: &Captures<'_, AnyAddress>) -> Result<(), CommandFault<'static>>
    ensures { result
        ≡ judged (router_faults RouterSide.A captures.now
        ++ router_faults RouterSide.B captures.now) tt }
{
    judge_router(RouterSide::A, captures)?;
    judge_router(RouterSide::B, captures)
}

/// Checks two routers and the writer.
fn judge_two(
    captures: &Captures<'_, AnyAddress>,
    writing: Writing<AnyAddress>,
) -> Result<(), CommandFault<'static>>
    ensures { result ≡ judged (faults_of_two captures.now writing) tt }
{
    judge_ports(captures)?;
    judge_writer(writing)?;
    judge_routers(captures)
}

/// Checks the writer and one router.
fn judge_one(
    captures: &Captures<'_, AnyAddress>,
    writing: Writing<AnyAddress>,
) -> Result<(), CommandFault<'static>>
    ensures { result
        ≡ judged (writer_faults writing ++ router_faults RouterSide.A captures.now) tt }
{
    judge_writer(writing)?;
    judge_router(RouterSide::A, captures)
}

/// Checks the upstream neighbour of an audit, and the router.
fn judge_audit(
    captures: &Captures<'_, AnyAddress>,
    upstream: AnyAddress,
) -> Result<(), CommandFault<'static>>
    ensures { result
        ≡ judged (upstream_faults upstream captures.now
        ++ router_faults RouterSide.A captures.now) tt }
{
    judge_upstream(upstream, captures)?;
    judge_router(RouterSide::A, captures)
}

/// Checks the routers of a task, and its writer or upstream neighbour.
pub(crate) fn judge(task: &Task<'_, AnyAddress>) -> Result<(), CommandFault<'static>>
    ensures { result ≡ judged (setting_faults task.now) tt }
{
    match task {
        Task::Check { .. } | Task::CheckPartial { .. } | Task::Build { .. } => Ok(()),
        Task::Replay(captures) | Task::Trace(captures, _) => judge_router(RouterSide::A, captures),
        Task::Audit(captures, auditing, _) => judge_audit(captures, auditing.upstream),
        Task::Same(captures, writing) | Task::Change(captures, writing) => {
            judge_two(captures, *writing)
        }
        Task::Mirror(captures, writing) | Task::Emit(captures, writing) => {
            judge_one(captures, *writing)
        }
    }
}
