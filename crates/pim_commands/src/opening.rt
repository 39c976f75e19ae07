//! The files that words name, opened (`pim_files`), with the program's fault.

ghost use Rattle.std.specs.Prelude.{IfOk, IfErr};
ghost use Rattle.pim_files.specs.Opening.{IsOpenWithLocal, AreOpen};
ghost use Rattle.pim_commands.specs.Opening.{OpensNotOne, OpensNotBoth};

use pim_addr::Family;
use pim_faults::Fault;
use pim_files::{OpenTwo, OpenWithLocal, Opener, open_with_local};
use pim_words::Captures;
use std::alloc::Global;

/// Reads the file of routes, then that of local joins, each if it is named. Then it opens the
/// captures of one router, each by the link of its port.
///
/// # Errors
/// The fault of the first file that isn't open.
pub(crate) fn open_one<'a, F: Family, O: Opener>(
    alloc: Global,
    opener: &mut O,
    captures: &Captures<'a, F::Addr>,
    upstream: Option<F::Addr>,
    local: Option<&'a str>,
) -> Result<OpenWithLocal<F, O::Reader>, Fault<'a>>
    ensures opened { IfOk result (λ files. IsOpenWithLocal F.family F.bytes_of O.Reader.remaining
        O.Reader.failures (O.known opener.old) (O.known opener.new) captures.now upstream
        local.entry files.routes files.local files.merge) }
    ensures unopened { IfErr result (OpensNotOne F.family F.bytes_of O.Reader.remaining
        O.Reader.failures (O.known opener.old) (O.known opener.new) captures.now upstream
        local.entry) }
{
    match open_with_local::<F, O>(alloc, opener, captures, upstream, local) {
        Ok(files) => Ok(files),
        Err(reported) => Err(Fault::from(reported)),
    }
}

/// Reads the file of routes, then opens the captures of two routers, each by the link of its port.
///
/// # Errors
/// The fault of the first file that isn't open.
pub(crate) fn open_two<'a, F: Family, O: Opener>(
    alloc: Global,
    opener: &mut O,
    captures: &Captures<'a, F::Addr>,
    upstream: Option<F::Addr>,
) -> Result<OpenTwo<F, O::Reader>, Fault<'a>>
    ensures opened { IfOk result (λ files. AreOpen F.family F.bytes_of O.Reader.remaining
        O.Reader.failures (O.known opener.old) (O.known opener.new) captures.now upstream
        files.routes files.pair.a files.pair.b) }
    ensures unopened { IfErr result (OpensNotBoth F.family F.bytes_of O.Reader.remaining
        O.Reader.failures (O.known opener.old) (O.known opener.new) captures.now upstream) }
{
    match pim_files::open_two::<F, O>(alloc, opener, captures, upstream) {
        Ok(files) => Ok(files),
        Err(reported) => Err(Fault::from(reported)),
    }
}
