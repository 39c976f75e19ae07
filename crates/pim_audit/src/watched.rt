//! The machines at which a look has to look.

ghost use Rattle.std.specs.Prelude.{◌≡◌, true, Bool, IfOk, OnOk, option_map, replicate, take};
ghost use Rattle.pim_addr.specs.Address.{address_length};
ghost use Rattle.pim_down.specs.Seen.{what_seen};
ghost use Rattle.pim_audit.specs.Holding.{HoldsBetween, HoldsApart};
ghost use Rattle.pim_audit.specs.Local.{what_of};
ghost use Rattle.pim_audit.specs.Touched.{is_one_of, machines_seen};
ghost use Rattle.pim_audit.specs.Watched.{HasAll, HasDue, HasDueExceptions, HasExceptions};
ghost use Rattle.pim_audit.specs.Watched.{HasExceptionsBelow, HasExceptionsOn, HasHeld, HasLocal};
ghost use Rattle.pim_audit.specs.Watched.{MachinesGrow, Watches};

use crate::dues::Dues;
use crate::machine::GroupMachine;
use crate::sides::Sides;
use crate::touched::Touched;
use pim_addr::Family;
use pim_down::{Near, Ports, What};
use pim_local::LocalJoins;
use std::alloc::{AllocError, Global};
use std::collections::BTreeSet;

/// A set of machines.
pub(crate) type Machines<F> = BTreeSet<GroupMachine<<F as Family>::Addr>>;

/// Adds a machine.
fn add<F: Family>(
    machines: &mut Machines<F>,
    group: F::Addr,
    what: What<F::Addr>,
) -> Result<(), AllocError>
    ensures has { OnOk result (is_one_of (F.bytes_of group) (what_seen F.bytes_of what)
        (machines_seen F.bytes_of machines.new.keys) ≡ true) }
    ensures grows { OnOk result (MachinesGrow (machines_seen F.bytes_of machines.old.keys)
        (machines_seen F.bytes_of machines.new.keys)) }
{
    match machines.insert(GroupMachine { group, what }) {
        Ok(_) => Ok(()),
        Err(_) => Err(AllocError),
    }
}

/// Adds the machines that some port holds.
fn add_held<F: Family>(machines: &mut Machines<F>, ports: &Ports<F>) -> Result<(), AllocError>
    ensures has { OnOk result (HasHeld ports.now (machines_seen F.bytes_of machines.new.keys)) }
    ensures grows { OnOk result (MachinesGrow (machines_seen F.bytes_of machines.old.keys)
        (machines_seen F.bytes_of machines.new.keys)) }
{
    for held in ports.records() {
        add::<F>(machines, held.key.group, held.key.what)?;
    }
    Ok(())
}

/// The machine of a local join: (S,G) of its source, (*,G) without one.
fn machine_of<F: Family>(source: Option<F::Addr>) -> What<F::Addr>
    ensures { what_seen F.bytes_of result ≡ what_of (option_map F.bytes_of source) }
{
    match source {
        None => What::Star,
        Some(source) => What::Source(source),
    }
}

/// Adds the machines that local receivers have joined.
fn add_local<F: Family>(machines: &mut Machines<F>, local: &LocalJoins<F>) -> Result<(), AllocError>
    ensures has { OnOk result (HasLocal local.now (machines_seen F.bytes_of machines.new.keys)) }
    ensures grows { OnOk result (MachinesGrow (machines_seen F.bytes_of machines.old.keys)
        (machines_seen F.bytes_of machines.new.keys)) }
{
    for join in local.joins() {
        add::<F>(machines, join.group, machine_of::<F>(join.source))?;
    }
    Ok(())
}

/// Adds the machines of which something was due.
fn add_due<F: Family>(machines: &mut Machines<F>, dues: &Dues<F>) -> Result<(), AllocError>
    ensures has { OnOk result (HasDue dues.now (machines_seen F.bytes_of machines.new.keys)) }
    ensures grows { OnOk result (MachinesGrow (machines_seen F.bytes_of machines.old.keys)
        (machines_seen F.bytes_of machines.new.keys)) }
{
    for held in dues.iter() {
        add::<F>(machines, held.entry.group, held.entry.what)?;
    }
    Ok(())
}

/// Adds all machines of which something was due or may be due.
fn add_all<F: Family>(
    machines: &mut Machines<F>,
    sides: &Sides<'_, F>,
    dues: &Dues<F>,
) -> Result<(), AllocError>
    ensures { OnOk result (HasAll sides.now dues.now (machines_seen F.bytes_of machines.new.keys)) }
{
    add_held::<F>(machines, sides.asked)?;
    add_held::<F>(machines, sides.wanted)?;
    add_local::<F>(machines, sides.local)?;
    add_due::<F>(machines, dues)?;
    Ok(())
}

/// The least address. It comes before each valid source.
fn least_address<F: Family>() -> F::Addr
    ensures { F.bytes_of result ≡ take (address_length F.family) (replicate 16 0) }
{
    F::take(&[0; 16])
}

/// Adds the (S,G,rpt) machines of a group that a port holds.
fn add_exceptions_on<F: Family>(
    machines: &mut Machines<F>,
    ports: &Ports<F>,
    port: usize,
    group: F::Addr,
) -> Result<(), AllocError>
    ensures has { OnOk result (HasExceptionsOn ports.now (F.bytes_of group) port
        (machines_seen F.bytes_of machines.new.keys)) }
    ensures grows { OnOk result (MachinesGrow (machines_seen F.bytes_of machines.old.keys)
        (machines_seen F.bytes_of machines.new.keys)) }
{
    ports.is_sound();
    let first = What::Rpt(least_address::<F>());
    let mut walk = ports.machines_after_near(port, group, first, Near::UNKNOWN);
    while let Some(record) = walk.next_machine() {
        add::<F>(machines, group, record.key.what)?;
    }
    Ok(())
}

/// Adds the (S,G,rpt) machines of a group that some port holds.
fn add_exceptions<F: Family>(
    machines: &mut Machines<F>,
    ports: &Ports<F>,
    group: F::Addr,
) -> Result<(), AllocError>
    ensures has { OnOk result (HasExceptionsBelow ports.now.ports ports.now (F.bytes_of group)
        (machines_seen F.bytes_of machines.new.keys)) }
    ensures grows { OnOk result (MachinesGrow (machines_seen F.bytes_of machines.old.keys)
        (machines_seen F.bytes_of machines.new.keys)) }
{
    for port in 0..ports.port_count() {
        add_exceptions_on::<F>(machines, ports, port, group)?;
    }
    Ok(())
}

/// Adds the (S,G,rpt) machines of a group of which something was due.
fn add_due_exceptions<F: Family>(
    machines: &mut Machines<F>,
    dues: &Dues<F>,
    group: F::Addr,
) -> Result<(), AllocError>
    ensures has { OnOk result (HasDueExceptions dues.now (F.bytes_of group)
        (machines_seen F.bytes_of machines.new.keys)) }
    ensures grows { OnOk result (MachinesGrow (machines_seen F.bytes_of machines.old.keys)
        (machines_seen F.bytes_of machines.new.keys)) }
{
    for (_, held) in dues.exceptions_of(group) {
        add::<F>(machines, group, held.entry.what)?;
    }
    Ok(())
}

/// Adds the (S,G,rpt) machines of a group of which something was due or may be due.
fn add_all_exceptions<F: Family>(
    machines: &mut Machines<F>,
    sides: &Sides<'_, F>,
    dues: &Dues<F>,
    group: F::Addr,
) -> Result<(), AllocError>
    ensures has { OnOk result (HasExceptions sides.now dues.now (F.bytes_of group)
        (machines_seen F.bytes_of machines.new.keys)) }
    ensures grows { OnOk result (MachinesGrow (machines_seen F.bytes_of machines.old.keys)
        (machines_seen F.bytes_of machines.new.keys)) }
{
    add_exceptions::<F>(machines, sides.asked, group)?;
    add_exceptions::<F>(machines, sides.wanted, group)?;
    add_due_exceptions::<F>(machines, dues, group)?;
    Ok(())
}

/// Adds a touched machine. With (*,G), it adds all (S,G,rpt) of which something was due or may be
/// due.
fn add_touched<F: Family>(
    machines: &mut Machines<F>,
    sides: &Sides<'_, F>,
    dues: &Dues<F>,
    touched: GroupMachine<F::Addr>,
) -> Result<(), AllocError>
    ensures has { OnOk result (Watches sides.now dues.now
        (machines_seen F.bytes_of machines.new.keys)
        (F.bytes_of touched.group) (what_seen F.bytes_of touched.what)) }
    ensures grows { OnOk result (MachinesGrow (machines_seen F.bytes_of machines.old.keys)
        (machines_seen F.bytes_of machines.new.keys)) }
{
    add::<F>(machines, touched.group, touched.what)?;
    match touched.what {
        What::Star => add_all_exceptions::<F>(machines, sides, dues, touched.group)?,
        What::Source(_) | What::Rpt(_) => {}
    }
    Ok(())
}

/// The machines at which a look has to look: of no other one something else is due than at the last
/// look.
///
/// # Errors
/// Memory was refused.
pub(crate) fn watched_machines<F: Family>(
    alloc: Global,
    sides: &Sides<'_, F>,
    dues: &Dues<F>,
    touched: &Touched<F>,
) -> Result<Machines<F>, AllocError>
    ensures { IfOk result (λ machines. (known : Bool)
        → HoldsBetween known F.family touched.now sides.now dues.now
        → HoldsApart known F.family (machines_seen F.bytes_of machines.keys) sides.now dues.now) }
{
    let mut machines = BTreeSet::new(alloc);
    if touched.is_all() {
        add_all::<F>(&mut machines, sides, dues)?;
        return Ok(machines);
    }
    for &machine in touched.machines() {
        add_touched::<F>(&mut machines, sides, dues, machine)?;
    }
    Ok(machines)
}
