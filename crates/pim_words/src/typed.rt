//! A task with addresses of either family, turned into one with addresses of one family. Each
//! function returns `Family` if an address is of the other one, or `Memory`.

ghost use Rattle.std.specs.Prelude.{◌≡◌, MatchResult, true, map, option_map};
ghost use Rattle.std.specs.List.{list_all};
ghost use Rattle.std.specs.Option.{option_map_or};
ghost use Rattle.pim_words.specs.declared.fault.CommandFault.TheVariants.{Memory};
ghost use Rattle.pim_words.specs.Faults.{are_captures_in, is_tracing_in, is_writing_in};
ghost use Rattle.pim_lines.specs.AnyAddress.{is_in, address_in};
ghost use Rattle.pim_words.specs.Faults.{are_in};
ghost use Rattle.pim_words.specs.Typed.{port_seen, SameCaptures, SameTracing};
ghost use Rattle.pim_words.specs.Typed.{SameAuditing, SameWriting, SameTask};
ghost use Rattle.pim_words.specs.Seen.{IsForeign};

use crate::fault::CommandFault;
use crate::task::{Auditing, Captures, Port, Task, Tracing, Writing};
use pim_addr::Family;
use pim_lines::{AnyAddress, of_family};
use std::alloc::Global;

/// The address, if it is of this family.
fn in_family<F: Family>(address: AnyAddress) -> Result<F::Addr, CommandFault<'static>>
    ensures { MatchResult result
        (λ a. (is_in F.family address ≡ true) × (address_in F.family (F.bytes_of a) ≡ address))
        (IsForeign (is_in F.family address)) }
{
    match of_family::<F>(address) {
        Some(address) => Ok(address),
        None => Err(CommandFault::Family),
    }
}

/// The RP, if it is of this family or isn't given.
fn rp_in_family<F: Family>(rp: Option<AnyAddress>) -> Result<Option<F::Addr>, CommandFault<'static>>
    ensures { MatchResult result
        (λ r. (option_map_or (is_in F.family) rp true ≡ true)
        × (option_map (λ a. address_in F.family (F.bytes_of a)) r ≡ rp))
        (IsForeign (option_map_or (is_in F.family) rp true)) }
{
    let Some(rp) = rp else {
        return Ok(None);
    };
    Ok(Some(in_family::<F>(rp)?))
}

/// The port, if its address is of this family.
fn port_in_family<'a, F: Family>(
    port: &Port<'a, AnyAddress>,
) -> Result<Port<'a, F::Addr>, CommandFault<'static>>
    ensures { MatchResult result
        (λ p. (is_in F.family port.now.address ≡ true)
        × (port_seen F.family F.bytes_of p ≡ port.now))
        (IsForeign (is_in F.family port.now.address)) }
{
    let port = *port;
    Ok(Port {
        side: port.side,
        address: in_family::<F>(port.address)?,
        file: port.file,
        word: port.word,
        link: port.link,
    })
}

/// The ports, if all their addresses are of this family.
fn ports_in_family<'a, F: Family>(
    alloc: Global,
    ports: &[Port<'a, AnyAddress>],
) -> Result<Vec<Port<'a, F::Addr>>, CommandFault<'static>>
    ensures { MatchResult result
        (λ typed. (list_all (λ port. is_in F.family port.address) ports.now ≡ true)
        × (map (port_seen F.family F.bytes_of) typed.items ≡ ports.now))
        (IsForeign (list_all (λ port. is_in F.family port.address) ports.now)) }
{
    let mut typed = Vec::new(alloc);
    for port in ports {
        let port = port_in_family::<F>(port)?;
        if typed.push(port).is_err() {
            return Err(CommandFault::Memory);
        }
    }
    Ok(typed)
}

/// A copy of these values.
fn copied<T: Copy>(alloc: Global, values: &[T]) -> Result<Vec<T>, CommandFault<'static>>
    ensures { MatchResult result (λ copied. copied.items ≡ values.now) (λ fault. fault ≡ Memory) }
{
    let mut copied = Vec::new(alloc);
    match copied.extend_from_slice(values) {
        Ok(()) => Ok(copied),
        Err(_) => Err(CommandFault::Memory),
    }
}

/// The captures, if all their addresses are of this family.
fn captures_in_family<'a, F: Family>(
    alloc: Global,
    captures: &Captures<'a, AnyAddress>,
) -> Result<Captures<'a, F::Addr>, CommandFault<'static>>
    ensures { MatchResult result
        (λ typed. (are_captures_in F.family captures.now ≡ true)
        × SameCaptures F.family F.bytes_of typed captures.now)
        (IsForeign (are_captures_in F.family captures.now)) }
{
    let rp = rp_in_family::<F>(captures.rp)?;
    let ports = ports_in_family::<F>(alloc, &captures.ports)?;
    let more = copied(alloc, &captures.more)?;
    Ok(Captures {
        rp,
        routes: captures.routes,
        limit: captures.limit,
        after_ms: captures.after_ms,
        at: captures.at,
        ports,
        more,
    })
}

/// The addresses, if all are of this family.
fn all_in_family<F: Family>(
    alloc: Global,
    addresses: &[AnyAddress],
) -> Result<Vec<F::Addr>, CommandFault<'static>>
    ensures { MatchResult result
        (λ typed. (list_all (is_in F.family) addresses.now ≡ true)
        × (map (λ a. address_in F.family (F.bytes_of a)) typed.items ≡ addresses.now))
        (IsForeign (list_all (is_in F.family) addresses.now)) }
{
    let mut typed = Vec::new(alloc);
    for address in addresses {
        let address = in_family::<F>(*address)?;
        if typed.push(address).is_err() {
            return Err(CommandFault::Memory);
        }
    }
    Ok(typed)
}

/// What a trace or an audit shows, if all its groups and sources are of this family.
fn tracing_in_family<'a, F: Family>(
    alloc: Global,
    tracing: &Tracing<'a, AnyAddress>,
) -> Result<Tracing<'a, F::Addr>, CommandFault<'static>>
    ensures { MatchResult result
        (λ typed. (is_tracing_in F.family tracing.now ≡ true)
        × SameTracing F.family F.bytes_of typed tracing.now)
        (IsForeign (is_tracing_in F.family tracing.now)) }
{
    let groups = all_in_family::<F>(alloc, &tracing.groups)?;
    let sources = all_in_family::<F>(alloc, &tracing.sources)?;
    let names = copied(alloc, &tracing.names)?;
    Ok(Tracing {
        from: tracing.from,
        groups,
        sources,
        form: tracing.form,
        all: tracing.all,
        state: tracing.state,
        json: tracing.json,
        names,
    })
}

/// The upstream neighbour of an audit, if it is of this family, its file of local joins, and the
/// grace.
fn auditing_in_family<'a, F: Family>(
    auditing: Auditing<'a, AnyAddress>,
) -> Result<Auditing<'a, F::Addr>, CommandFault<'static>>
    ensures { MatchResult result
        (λ typed. (is_in F.family auditing.entry.upstream ≡ true)
        × SameAuditing F.family F.bytes_of typed auditing.entry)
        (IsForeign (is_in F.family auditing.entry.upstream)) }
{
    let upstream = in_family::<F>(auditing.upstream)?;
    Ok(Auditing {
        upstream,
        local: auditing.local,
        grace_ms: auditing.grace_ms,
    })
}

/// The writer, if both its addresses are of this family.
fn writing_in_family<F: Family>(
    writing: Writing<AnyAddress>,
) -> Result<Writing<F::Addr>, CommandFault<'static>>
    ensures { MatchResult result
        (λ typed. (is_writing_in F.family writing ≡ true)
        × SameWriting F.family F.bytes_of typed writing)
        (IsForeign (is_writing_in F.family writing)) }
{
    let upstream = in_family::<F>(writing.upstream)?;
    let own = in_family::<F>(writing.own)?;
    Ok(Writing {
        upstream,
        own,
        holdtime: writing.holdtime,
        budget: writing.budget,
    })
}

/// The task, if all its addresses are of this family.
pub(crate) fn task_in_family<'a, F: Family>(
    alloc: Global,
    task: &Task<'a, AnyAddress>,
) -> Result<Task<'a, F::Addr>, CommandFault<'static>>
    ensures { MatchResult result
        (λ typed. (are_in F.family task.now ≡ true) × SameTask F.family F.bytes_of typed task.now)
        (IsForeign (are_in F.family task.now)) }
{
    match task {
        Task::Check { src, dst } | Task::CheckPartial { src, dst } | Task::Build { src, dst } => {
            let src = in_family::<F>(*src)?;
            let dst = in_family::<F>(*dst)?;
            match task {
                Task::Check { .. } => Ok(Task::Check { src, dst }),
                Task::CheckPartial { .. } => Ok(Task::CheckPartial { src, dst }),
                _ => Ok(Task::Build { src, dst }),
            }
        }
        Task::Replay(captures) => Ok(Task::Replay(captures_in_family::<F>(alloc, captures)?)),
        Task::Trace(captures, tracing) => {
            let captures = captures_in_family::<F>(alloc, captures)?;
            let tracing = tracing_in_family::<F>(alloc, tracing)?;
            Ok(Task::Trace(captures, tracing))
        }
        Task::Audit(captures, auditing, tracing) => {
            let captures = captures_in_family::<F>(alloc, captures)?;
            let auditing = auditing_in_family::<F>(*auditing)?;
            let tracing = tracing_in_family::<F>(alloc, tracing)?;
            Ok(Task::Audit(captures, auditing, tracing))
        }
        Task::Same(captures, writing)
        | Task::Mirror(captures, writing)
        | Task::Emit(captures, writing)
        | Task::Change(captures, writing) => {
            let captures = captures_in_family::<F>(alloc, captures)?;
            let writing = writing_in_family::<F>(*writing)?;
            match task {
                Task::Same(..) => Ok(Task::Same(captures, writing)),
                Task::Mirror(..) => Ok(Task::Mirror(captures, writing)),
                Task::Emit(..) => Ok(Task::Emit(captures, writing)),
                _ => Ok(Task::Change(captures, writing)),
            }
        }
    }
}
