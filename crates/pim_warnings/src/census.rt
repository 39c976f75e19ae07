//! The census of the captures of ports with links.

ghost use Rattle.std.specs.Prelude.{◌≡◌, length};
ghost use Rattle.pim_files.specs.Opening.{port_files};
ghost use Rattle.pim_files.specs.Captures.{of_router};
ghost use Rattle.pim_merge.specs.Lane.{census_at};
ghost use Rattle.pim_warnings.specs.Census.{begun, begun_at};
ghost use Rattle.pim_warnings.specs.Naming.{ports_of};

use crate::naming::is_in;
use pim_addr::{Family, Feed};
use pim_files::Pair;
use pim_merge::Merge;
use pim_words::{Captures, Port, RouterSide};

/// Begins a census of the capture of this number, for a router with this address.
fn begin_numbered<F: Family, R: Feed + Drop>(number: usize, own: F::Addr, merge: &mut Merge<R>)
    ensures lanes { merge.new.lanes ≡ census_at F.family (F.bytes_of own) number merge.old.lanes }
    ensures clock { merge.new.clock ≡ merge.old.clock }
{
    if number < merge.count() {
        merge.begin_census::<F>(number, own);
    }
}

/// Begins a census of the capture of this number, if its port has a link.
fn begin_port<F: Family, R: Feed + Drop>(
    number: usize,
    port: &Port<'_, F::Addr>,
    merge: &mut Merge<R>,
)
    ensures lanes { merge.new.lanes
        ≡ begun_at F.family F.bytes_of number port.now merge.old.lanes }
    ensures clock { merge.new.clock ≡ merge.old.clock }
{
    if port.link.is_some() {
        begin_numbered::<F, R>(number, port.address, merge);
    }
}

/// Begins the census of a router's captures: of one of two, or of the one of all ports.
pub fn begin_census<F: Family, R: Feed + Drop>(
    captures: &Captures<'_, F::Addr>,
    side: Option<RouterSide>,
    merge: &mut Merge<R>,
)
    ensures census { merge.new
        ≡ begun F.family F.bytes_of (ports_of side (port_files captures.now)) merge.old }
    ensures length { length merge.new.lanes ≡ length merge.old.lanes }
{
    let ports: &[Port<'_, F::Addr>] = &captures.ports;
    let mut number = 0;
    for port in ports {
        if is_in(side, port) {
            begin_port::<F, R>(number, port, merge);
            number += 1;
        }
    }
}

/// Begins the census of the captures of two routers.
pub fn begin_both<F: Family, R: Feed + Drop>(captures: &Captures<'_, F::Addr>, pair: &mut Pair<R>)
    ensures census_of_a { pair.new.a ≡ begun F.family F.bytes_of
        (of_router RouterSide.A (port_files captures.now)) pair.old.a }
    ensures census_of_b { pair.new.b ≡ begun F.family F.bytes_of
        (of_router RouterSide.B (port_files captures.now)) pair.old.b }
    ensures length_of_a { length pair.new.a.lanes ≡ length pair.old.a.lanes }
    ensures length_of_b { length pair.new.b.lanes ≡ length pair.old.b.lanes }
{
    begin_census::<F, R>(captures, Some(RouterSide::A), &mut pair.a);
    begin_census::<F, R>(captures, Some(RouterSide::B), &mut pair.b);
}
