//! The files of a port: its own file, and those in which its capture goes on.

ghost use Rattle.std.specs.Prelude.{◌≡◌, ◌<◌, [], ◌∷◌, IfOk, IfErr, MatchResult, vec_len};
ghost use Rattle.pim_files.specs.Files.{RequestsFor, RequestsAll};
ghost use Rattle.pim_files.specs.Captures.{IsReaderOf, IsPortFault, StopsAt, HaveFiles};
ghost use Rattle.pim_files.specs.Captures.{port_fault, first_file, further_file, files_of};
ghost use Rattle.pim_files.specs.Captures.{is_further, with_more, names_of};

use crate::fault::OpenFault;
use crate::opener::{FileCause, Opener, Unopened};
use pim_words::{More, Port};
use std::alloc::Global;

/// The fault of a port whose file can't be opened.
fn port_fault<'a, A>(port: &Port<'a, A>, cause: FileCause) -> OpenFault<'a>
    ensures { result ≡ port_fault port.now cause }
{
    if port.link.is_some() {
        return OpenFault::Port {
            file: port.file,
            cause,
        };
    }
    OpenFault::File(port.word)
}

/// Opens the own file of a port.
fn open_own<'a, A, O: Opener>(
    alloc: Global,
    opener: &mut O,
    port: &Port<'a, A>,
) -> Result<O::Reader, OpenFault<'a>>
    ensures opened { MatchResult result
        (IsReaderOf O.Reader.remaining (O.known opener.old).files (first_file port.now))
        (IsPortFault (O.known opener.old).files (first_file port.now)) }
    ensures requested { RequestsFor (O.known opener.old) (O.known opener.new)
        (port.now.file.now ∷ []) }
{
    match opener.open(alloc, port.file) {
        Ok(reader) => Ok(reader),
        Err(Unopened::File(cause)) => Err(port_fault(port, cause)),
        Err(Unopened::Memory) => Err(OpenFault::Memory),
    }
}

/// Returns a reader of a further file of a port, which is opened when it is read.
fn open_further<'a, O: Opener>(
    alloc: Global,
    opener: &mut O,
    one: &More<'a>,
) -> Result<O::Reader, OpenFault<'a>>
    ensures opened { MatchResult result
        (IsReaderOf O.Reader.remaining (O.known opener.old).files (further_file one.now))
        (IsPortFault (O.known opener.old).files (further_file one.now)) }
    ensures requested { RequestsFor (O.known opener.old) (O.known opener.new)
        (one.now.file.now ∷ []) }
{
    match opener.open_later(alloc, one.file) {
        Ok(reader) => Ok(reader),
        Err(_) => Err(OpenFault::Memory),
    }
}

/// Opens the own file of a port, as the first of the port's readers.
fn open_first<'a, A, O: Opener>(
    alloc: Global,
    opener: &mut O,
    port: &Port<'a, A>,
) -> Result<Vec<O::Reader>, OpenFault<'a>>
    ensures opened { IfOk result (λ readers. HaveFiles O.Reader.remaining
        (O.known opener.old).files (first_file port.now ∷ []) readers.items) }
    ensures some { IfOk result (λ readers. 0 < vec_len readers) }
    ensures fault { IfErr result (IsPortFault (O.known opener.old).files (first_file port.now)) }
    ensures requested { RequestsFor (O.known opener.old) (O.known opener.new)
        (port.now.file.now ∷ []) }
{
    let reader = open_own(alloc, opener, port)?;
    let mut readers = Vec::new(alloc);
    let Ok(()) = readers.push(reader) else {
        return Err(OpenFault::Memory);
    };
    Ok(readers)
}

/// Whether this further file is one of the port of this number. A port without a link has none.
pub fn is_further<A>(number: usize, port: &Port<'_, A>, one: &More<'_>) -> bool
    ensures { result ≡ is_further number port.now one.now }
{
    port.link.is_some() && one.port == number
}

/// Returns readers of the files of the port of this number, in their order: of its own file, which
/// is opened, and of those of these further files that are its own. Nothing is read.
///
/// # Errors
/// If its own file can't be opened: if the port has a link, `Port` with the name of the file,
/// otherwise `File` with the whole word of the port. Or `Memory`.
pub(crate) fn open_port<'a, A, O: Opener>(
    alloc: Global,
    opener: &mut O,
    number: usize,
    port: &Port<'a, A>,
    further: &[More<'a>],
) -> Result<Vec<O::Reader>, OpenFault<'a>>
    ensures opened { IfOk result (λ readers. HaveFiles O.Reader.remaining
        (O.known opener.old).files (files_of (with_more number further.now port.now))
        readers.items) }
    ensures some { IfOk result (λ readers. 0 < vec_len readers) }
    ensures fault { IfErr result (StopsAt (O.known opener.old).files
        (files_of (with_more number further.now port.now))) }
    ensures requested { RequestsAll (O.known opener.old) (O.known opener.new)
        (names_of (files_of (with_more number further.now port.now))) result }
{
    let mut readers = open_first(alloc, opener, port)?;
    for one in further {
        if !is_further(number, port, one) {
            continue;
        }
        let reader = open_further(alloc, opener, one)?;
        let Ok(()) = readers.push(reader) else {
            return Err(OpenFault::Memory);
        };
    }
    Ok(readers)
}
