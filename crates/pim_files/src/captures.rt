//! The captures of a router.

ghost use Rattle.std.specs.Prelude.{◌≡◌, ◌<◌, [], ◌∷◌, ◌++◌, length, map, IfOk, IfErr};
ghost use Rattle.std.specs.Prelude.{None, vec_len};
ghost use Rattle.pim_merge.specs.Lane.{coming_on, tallies_of};
ghost use Rattle.pim_merge.specs.Next.{IsUntaken};
ghost use Rattle.pim_merge.specs.Tally.{no_tally};
ghost use Rattle.pim_files.specs.Files.{RequestsAll};
ghost use Rattle.pim_files.specs.Captures.{HoldFiles, StopsAt, choice_of, results_by};
ghost use Rattle.pim_files.specs.Captures.{all_files, files_from, names_of};

use crate::fault::OpenFault;
use crate::opener::Opener;
use crate::port::open_port;
use pim_addr::Feed;
use pim_container::Choice;
use pim_merge::Merge;
use pim_words::{LinkWord, More, Port};
use std::alloc::{AllocError, Global};

/// The packets that are taken of a link.
fn choice_of(link: LinkWord) -> Choice
    ensures { result ≡ choice_of link }
{
    Choice {
        vlan: link.vlan,
        interface: link.interface,
        mixes_links: false,
    }
}

/// Appends the classic capture of the first of these readers.
fn add_classic<R: Feed + Drop>(
    merge: &mut Merge<R>,
    alloc: Global,
    readers: Vec<R>,
) -> Result<(), AllocError>
    requires { 0 < vec_len readers }
    ensures coming { IfOk result (λ _. map coming_on merge.new.lanes ≡
        map coming_on merge.old.lanes ++ results_by R.remaining None readers.items ∷ []) }
    ensures tallies { IfOk result (λ _. tallies_of merge.new.lanes ≡
        tallies_of merge.old.lanes ++ no_tally ∷ []) }
    ensures clock { merge.new.clock ≡ merge.old.clock }
{
    let mut others = readers;
    let reader = others.remove(0);
    merge.add(alloc, reader)
}

/// Appends the capture of these readers, which are those of a port: any container with the packets
/// of this link, one file after the other, or without a link a classic capture.
pub(crate) fn add_by<R: Feed + Drop>(
    merge: &mut Merge<R>,
    alloc: Global,
    readers: Vec<R>,
    link: Option<LinkWord>,
) -> Result<(), AllocError>
    requires { 0 < vec_len readers }
    ensures coming { IfOk result (λ _. map coming_on merge.new.lanes ≡
        map coming_on merge.old.lanes ++ results_by R.remaining link readers.items ∷ []) }
    ensures tallies { IfOk result (λ _. tallies_of merge.new.lanes ≡
        tallies_of merge.old.lanes ++ no_tally ∷ []) }
    ensures clock { merge.new.clock ≡ merge.old.clock }
{
    match link {
        Some(link) => merge.add_files(alloc, readers, choice_of(link)),
        None => add_classic(merge, alloc, readers),
    }
}

/// Opens the capture of each port, in the order of the words, each by the link of its port. A
/// port's further files come after its own, and are opened later. Nothing is read.
///
/// # Errors
/// That of the first file that isn't open.
pub(crate) fn open_all<'a, A, O: Opener>(
    alloc: Global,
    opener: &mut O,
    ports: &[Port<'a, A>],
    further: &[More<'a>],
) -> Result<Merge<O::Reader>, OpenFault<'a>>
    ensures each { IfOk result (λ merge. length merge.lanes ≡ length ports.now) }
    ensures untaken { IfOk result IsUntaken }
    ensures opened { IfOk result (λ merge. HoldFiles (O.known opener.old).files
        (files_from 0 further.now ports.now) merge.lanes) }
    ensures fault { IfErr result (StopsAt (O.known opener.old).files
        (all_files (files_from 0 further.now ports.now))) }
    ensures requested { RequestsAll (O.known opener.old) (O.known opener.new)
        (names_of (all_files (files_from 0 further.now ports.now))) result }
{
    let mut merge = Merge::new(alloc);
    let mut number = 0;
    for port in ports {
        let readers = open_port(alloc, opener, number, port, further)?;
        let Ok(()) = add_by(&mut merge, alloc, readers, port.link) else {
            return Err(OpenFault::Memory);
        };
        number += 1;
    }
    Ok(merge)
}
