//! The captures of two routers.

ghost use Rattle.std.specs.Prelude.{◌≡◌, ◌+◌, ◌<◌, length, filter, IfOk, IfErr, vec_len};
ghost use Rattle.pim_merge.specs.Next.{IsUntaken};
ghost use Rattle.pim_files.specs.Files.{RequestsAll};
ghost use Rattle.pim_files.specs.Captures.{all_files, files_from, names_of, of_router};
ghost use Rattle.pim_words.specs.Faults.{is_of};
ghost use Rattle.pim_files.specs.Captures.{one_of, results_by};
ghost use Rattle.pim_files.specs.Captures.{HoldFiles, StopsAt, AddsLane, AddsUntaken};

use crate::captures::add_by;
use crate::fault::OpenFault;
use crate::opener::Opener;
use crate::port::open_port;
use pim_addr::Feed;
use pim_merge::Merge;
use pim_words::{LinkWord, More, Port, RouterSide};
use std::alloc::{AllocError, Global};

/// The captures of two routers: of each router one for each of its ports.
#[derive(Drop)]
pub struct Pair<R: Feed + Drop> {
    /// The captures of router a.
    pub a: Merge<R>,
    /// The captures of router b.
    pub b: Merge<R>,
}

/// Adds the capture of these readers, by this link, to those of a router. It is that of the
/// router's next port.
pub(crate) fn add_to<R: Feed + Drop>(
    alloc: Global,
    pair: &mut Pair<R>,
    side: RouterSide,
    readers: Vec<R>,
    link: Option<LinkWord>,
) -> Result<(), AllocError>
    requires { 0 < vec_len readers }
    ensures a { IfOk result (λ done.
        length pair.new.a.lanes ≡ length pair.old.a.lanes + one_of RouterSide.A side) }
    ensures b { IfOk result (λ done.
        length pair.new.b.lanes ≡ length pair.old.b.lanes + one_of RouterSide.B side) }
    ensures lanes_of_a { IfOk result (λ done. AddsLane RouterSide.A side
        (results_by R.remaining link readers.items) pair.old.a.lanes pair.new.a.lanes) }
    ensures lanes_of_b { IfOk result (λ done. AddsLane RouterSide.B side
        (results_by R.remaining link readers.items) pair.old.b.lanes pair.new.b.lanes) }
    ensures tallies_of_a { IfOk result (λ done.
        AddsUntaken RouterSide.A side pair.old.a.lanes pair.new.a.lanes) }
    ensures tallies_of_b { IfOk result (λ done.
        AddsUntaken RouterSide.B side pair.old.b.lanes pair.new.b.lanes) }
    ensures clock_of_a { pair.new.a.clock ≡ pair.old.a.clock }
    ensures clock_of_b { pair.new.b.clock ≡ pair.old.b.clock }
{
    match side {
        RouterSide::A => add_by(&mut pair.a, alloc, readers, link),
        RouterSide::B => add_by(&mut pair.b, alloc, readers, link),
    }
}

/// Opens the capture of each port, in the order of the words, for its router, and by the link of
/// the port. A port's further files come after its own, and are opened later. Nothing is read.
///
/// # Errors
/// That of the first file that isn't open.
pub(crate) fn open_both<'a, A, O: Opener>(
    alloc: Global,
    opener: &mut O,
    ports: &[Port<'a, A>],
    further: &[More<'a>],
) -> Result<Pair<O::Reader>, OpenFault<'a>>
    ensures a { IfOk result (λ pair.
        length pair.a.lanes ≡ length (filter (is_of RouterSide.A) ports.now)) }
    ensures b { IfOk result (λ pair.
        length pair.b.lanes ≡ length (filter (is_of RouterSide.B) ports.now)) }
    ensures untaken_of_a { IfOk result (λ pair. IsUntaken pair.a) }
    ensures untaken_of_b { IfOk result (λ pair. IsUntaken pair.b) }
    ensures opened_of_a { IfOk result (λ pair. HoldFiles (O.known opener.old).files
        (of_router RouterSide.A (files_from 0 further.now ports.now)) pair.a.lanes) }
    ensures opened_of_b { IfOk result (λ pair. HoldFiles (O.known opener.old).files
        (of_router RouterSide.B (files_from 0 further.now ports.now)) pair.b.lanes) }
    ensures fault { IfErr result (StopsAt (O.known opener.old).files
        (all_files (files_from 0 further.now ports.now))) }
    ensures requested { RequestsAll (O.known opener.old) (O.known opener.new)
        (names_of (all_files (files_from 0 further.now ports.now))) result }
{
    let mut pair = Pair {
        a: Merge::new(alloc),
        b: Merge::new(alloc),
    };
    let mut number = 0;
    for port in ports {
        let readers = open_port(alloc, opener, number, port, further)?;
        let Ok(()) = add_to(alloc, &mut pair, port.side, readers, port.link) else {
            return Err(OpenFault::Memory);
        };
        number += 1;
    }
    Ok(pair)
}
