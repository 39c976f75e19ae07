//! What a session gathers before its router starts: ports, rows of the route table, and the limit
//! of records.

ghost use Rattle.std.specs.Prelude.{◌≡◌, [], min, Some};
ghost use Rattle.pim_addr.specs.Routes.{no_routes};
ghost use Rattle.pim_answers.specs.Fault.{fault_words, done_text};
ghost use Rattle.pim_session.specs.Gathering.{AddsPort, AddsRp, AddsVia, family_of, route_words};
ghost use Rattle.pim_session.specs.SetupSeen.{rows_seen, any_seen, gathered_seen, first_address};
ghost use Rattle.pim_session.specs.SetupSeen.{Adds, AddsTo, IsAdded};
ghost use Rattle.pim_session.specs.SetupSeen.{AddsFirst};
ghost use Rattle.pim_session.specs.State.{nothing_gathered};

use pim_addr::{Family, RouteFault, Routes, V4, V6};
use pim_answers::AnswerFault;
use pim_lines::{AnyAddress, of_family};
use pim_request::{PortRow, RouteRow};
use pim_router::PortConfig;
use std::alloc::Global;

/// The limit of records for each port where none is given.
const LIMIT: usize = 100_000;

/// The ports and the rows of the route table, in one family.
#[derive(Drop)]
pub(crate) struct Rows<F: Family> {
    /// The ports, in the order in which they were given.
    pub(crate) ports: Vec<PortConfig<F::Addr>>,
    /// The rows of the route table.
    pub(crate) routes: Routes<F>,
}

/// The rows of a family, if it is fixed.
#[derive(Drop)]
pub(crate) enum AnyRows {
    /// No row was accepted.
    Free,
    /// Rows of IPv4.
    Ipv4(Rows<V4>),
    /// Rows of IPv6.
    Ipv6(Rows<V6>),
}

/// What a router is made from.
#[derive(Drop)]
pub(crate) struct Setup {
    /// The ports and the rows of the route table.
    pub(crate) rows: AnyRows,
    /// The most records that each port may hold.
    pub(crate) limit: usize,
}

/// A row that a command adds.
#[derive(Clone, Copy, Debug)]
pub(crate) enum AnyRow {
    /// A port.
    Port(PortRow),
    /// An RP.
    Rp(RouteRow),
    /// An upstream neighbour.
    Via(RouteRow),
}

/// The fault of a row that the route table refuses.
fn route_fault(fault: RouteFault) -> AnswerFault<'static>
    ensures { fault_words result ≡ route_words fault }
{
    match fault {
        RouteFault::Length => AnswerFault::plain(b"routes length"),
        RouteFault::Bits => AnswerFault::plain(b"routes bits"),
        RouteFault::Kind => AnswerFault::plain(b"routes kind"),
        RouteFault::Twice => AnswerFault::plain(b"routes twice"),
        RouteFault::Full => AnswerFault::plain(b"routes full"),
        RouteFault::Memory => AnswerFault::memory(),
    }
}

/// `Ok` where the table took the row, else its fault.
fn added(reported: Result<(), RouteFault>) -> Result<(), AnswerFault<'static>>
    ensures { IsAdded reported result }
{
    match reported {
        Ok(()) => Ok(()),
        Err(fault) => Err(route_fault(fault)),
    }
}

/// A length in bits; 255, which is above the bits of each address, in place of a greater one.
fn capped(length: u64) -> u8
    ensures { result ≡ min length 255 }
{
    match u8::try_from(length) {
        Ok(length) => length,
        Err(_) => u8::MAX,
    }
}

impl<F: Family> Rows<F> {
    /// No rows.
    fn new(alloc: Global) -> Self
        ensures ports { result.ports.items ≡ [] }
        ensures routes { result.routes ≡ no_routes }
    {
        Rows {
            ports: Vec::new(alloc),
            routes: Routes::new(alloc),
        }
    }

    /// Adds a port.
    fn add_port(&mut self, row: &PortRow) -> Result<(), AnswerFault<'static>>
        ensures { AddsTo F.family F.bytes_of (AddsPort row.now) row.now.address self.old result
            self.new }
    {
        let Some(address) = of_family::<F>(row.address) else {
            return Err(AnswerFault::family());
        };
        let port = PortConfig {
            address,
            propagation: row.propagation,
            override_ms: row.override_ms,
        };
        match self.ports.push(port) {
            Ok(()) => Ok(()),
            Err(_) => Err(AnswerFault::memory()),
        }
    }

    /// Adds a row to an RP.
    fn add_rp(&mut self, row: &RouteRow) -> Result<(), AnswerFault<'static>>
        ensures { AddsTo F.family F.bytes_of (AddsRp row.now) row.now.prefix self.old result
            self.new }
    {
        let Some(prefix) = of_family::<F>(row.prefix) else {
            return Err(AnswerFault::family());
        };
        let Some(to) = of_family::<F>(row.to) else {
            return Err(AnswerFault::family());
        };
        added(self.routes.add_rp(prefix, capped(row.length), to))
    }

    /// Adds a row to an upstream neighbour.
    fn add_via(&mut self, row: &RouteRow) -> Result<(), AnswerFault<'static>>
        ensures { AddsTo F.family F.bytes_of (AddsVia row.now) row.now.prefix self.old result
            self.new }
    {
        let Some(prefix) = of_family::<F>(row.prefix) else {
            return Err(AnswerFault::family());
        };
        let Some(to) = of_family::<F>(row.to) else {
            return Err(AnswerFault::family());
        };
        added(self.routes.add_via(prefix, capped(row.length), to))
    }

    /// Adds a row. After a fault the rows are unchanged.
    fn add(&mut self, row: &AnyRow) -> Result<(), AnswerFault<'static>>
        ensures { AddsTo F.family F.bytes_of (Adds row.now) (first_address row.now) self.old result
            self.new }
    {
        match row {
            AnyRow::Port(row) => self.add_port(row),
            AnyRow::Rp(row) => self.add_rp(row),
            AnyRow::Via(row) => self.add_via(row),
        }
    }
}

/// The rows with this row alone, in this family.
fn first_row<F: Family>(alloc: Global, row: &AnyRow) -> Result<Rows<F>, AnswerFault<'static>>
    ensures { family_of (first_address row.now) ≡ F.family →
        AddsFirst (rows_seen F.bytes_of (Some F.family)) row.now result }
{
    let mut rows = Rows::new(alloc);
    rows.add(row)?;
    Ok(rows)
}

/// The first address of a row.
fn first_address(row: &AnyRow) -> AnyAddress
    ensures { result ≡ first_address row.now }
{
    match row {
        AnyRow::Port(row) => row.address,
        AnyRow::Rp(row) | AnyRow::Via(row) => row.prefix,
    }
}

/// The rows with this row alone, in the family of its first address.
fn first_rows(alloc: Global, row: &AnyRow) -> Result<AnyRows, AnswerFault<'static>>
    ensures { AddsFirst any_seen row.now result }
{
    match first_address(row) {
        AnyAddress::V4(_) => Ok(AnyRows::Ipv4(first_row::<V4>(alloc, row)?)),
        AnyAddress::V6(_) => Ok(AnyRows::Ipv6(first_row::<V6>(alloc, row)?)),
    }
}

impl Setup {
    /// Nothing is set up, and no family is fixed.
    pub(crate) fn new() -> Self
        ensures { gathered_seen result ≡ nothing_gathered }
    {
        Setup {
            rows: AnyRows::Free,
            limit: LIMIT,
        }
    }

    /// Forgets all that is set up.
    pub(crate) fn reset(&mut self)
        ensures { gathered_seen self.new ≡ nothing_gathered }
    {
        *self = Setup::new();
    }

    /// Adds a row. The first row that is accepted fixes the family. After a fault nothing has
    /// changed.
    pub(crate) fn add(&mut self, alloc: Global, row: &AnyRow) -> Result<(), AnswerFault<'static>>
        ensures { Adds row.now (gathered_seen self.old) (done_text result)
            (gathered_seen self.new) }
    {
        match &mut self.rows {
            AnyRows::Free => {
                self.rows = first_rows(alloc, row)?;
                Ok(())
            }
            AnyRows::Ipv4(rows) => rows.add(row),
            AnyRows::Ipv6(rows) => rows.add(row),
        }
    }
}
