//! All files of a command: the table of routes, and the captures of one router or two.

ghost use Rattle.std.specs.Prelude.{IfOk, IfErr};
ghost use Rattle.pim_files.specs.Files.{RequestsFront};
ghost use Rattle.pim_files.specs.Opening.{file_names, IsUnopened, AreOpen};
ghost use Rattle.pim_files.specs.Opening.{local_file_names, IsUnopenedWithLocal, IsOpenWithLocal};

use crate::captures::open_all;
use crate::fault::OpenFault;
use crate::opener::Opener;
use crate::pair::{Pair, open_both};
use crate::receivers::local_joins;
use crate::route_table::table;
use pim_addr::{Family, Feed, Routes};
use pim_local::LocalJoins;
use pim_merge::Merge;
use pim_words::Captures;
use std::alloc::Global;

/// A table, what local receivers have joined, and the captures of one router.
#[derive(Drop)]
pub struct OpenWithLocal<F: Family, R: Feed + Drop> {
    /// The route table.
    pub routes: Routes<F>,
    /// The joins of local receivers.
    pub local: LocalJoins<F>,
    /// The captures.
    pub merge: Merge<R>,
}

/// A table, and the captures of two routers.
#[derive(Drop)]
pub struct OpenTwo<F: Family, R: Feed + Drop> {
    /// The route table.
    pub routes: Routes<F>,
    /// The captures of both routers.
    pub pair: Pair<R>,
}

/// Reads the file of routes, then that of local receivers if one is named. Then it opens the
/// captures of one router, each by the link of its port, with a port's further files after its own.
/// A further file is opened when it is read.
///
/// # Errors
/// The fault of the first file that isn't open.
pub fn open_with_local<'a, F: Family, O: Opener>(
    alloc: Global,
    opener: &mut O,
    captures: &Captures<'a, F::Addr>,
    upstream: Option<F::Addr>,
    name: Option<&'a str>,
) -> Result<OpenWithLocal<F, O::Reader>, OpenFault<'a>>
    ensures opened { IfOk result (λ files. IsOpenWithLocal F.family F.bytes_of O.Reader.remaining
        O.Reader.failures (O.known opener.old) (O.known opener.new) captures.now upstream
        name.entry files.routes files.local files.merge) }
    ensures unopened { IfErr result (IsUnopenedWithLocal F.family F.bytes_of O.Reader.remaining
        O.Reader.failures (O.known opener.old).files captures.now upstream name.entry) }
    ensures requested { IfErr result (λ _. RequestsFront (O.known opener.old)
        (O.known opener.new) (local_file_names captures.now name.entry)) }
{
    let routes = table::<F, O>(alloc, opener, captures, upstream)?;
    let local = local_joins::<F, O>(alloc, opener, name)?;
    let merge = open_all(alloc, opener, &captures.ports, &captures.more)?;
    Ok(OpenWithLocal {
        routes,
        local,
        merge,
    })
}

/// Reads the file of routes, then opens the captures of two routers, each by the link of its port.
/// A port's further files come after its own, and are opened when they are read.
///
/// # Errors
/// The fault of the first file that isn't open.
pub fn open_two<'a, F: Family, O: Opener>(
    alloc: Global,
    opener: &mut O,
    captures: &Captures<'a, F::Addr>,
    upstream: Option<F::Addr>,
) -> Result<OpenTwo<F, O::Reader>, OpenFault<'a>>
    ensures opened { IfOk result (λ files. AreOpen F.family F.bytes_of O.Reader.remaining
        O.Reader.failures (O.known opener.old) (O.known opener.new) captures.now upstream
        files.routes files.pair.a files.pair.b) }
    ensures unopened { IfErr result (IsUnopened F.family F.bytes_of O.Reader.remaining
        O.Reader.failures (O.known opener.old).files captures.now upstream) }
    ensures requested { IfErr result (λ _.
        RequestsFront (O.known opener.old) (O.known opener.new) (file_names captures.now)) }
{
    let routes = table::<F, _>(alloc, opener, captures, upstream)?;
    let pair = open_both(alloc, opener, &captures.ports, &captures.more)?;
    Ok(OpenTwo { routes, pair })
}
