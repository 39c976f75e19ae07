//! The route table of a command.

ghost use Rattle.std.specs.Prelude.{◌≡◌, [], ◌∷◌, option_map, MatchResult};
ghost use Rattle.pim_words.specs.Table.{given_table};
ghost use Rattle.pim_files.specs.Files.{RequestsFor, RequestsAll};
ghost use Rattle.pim_files.specs.Table.{is_bad, table_causes, IsFirstCause};
ghost use Rattle.pim_files.specs.Table.{IsFileTable, IsFileFault};
ghost use Rattle.pim_files.specs.Table.{IsTable, IsTableFault, table_names};

use crate::fault::OpenFault;
use crate::opener::{Opener, Unopened};
use crate::routes::read_routes;
use pim_addr::{Family, Feed, Routes};
use pim_words::{Captures, given_table};
use std::alloc::Global;

/// Whether the address is given and isn't a valid source.
fn is_bad<F: Family>(address: Option<F::Addr>) -> bool
    ensures { result ≡ is_bad F.family (option_map F.bytes_of address) }
{
    match address {
        Some(address) => !F::is_source(address),
        None => false,
    }
}

/// The route table without a file's rows. If an RP is given, one row maps all groups to it. If an
/// upstream neighbour is given, one row leads all addresses to it.
///
/// # Errors
/// The upstream neighbour, or else the RP, isn't a valid source; or `Memory`.
pub fn first_rows<F: Family>(
    alloc: Global,
    rp: Option<F::Addr>,
    upstream: Option<F::Addr>,
) -> Result<Routes<F>, OpenFault<'static>>
    ensures { MatchResult result
        (λ table. (table_causes F.family
        (option_map F.bytes_of rp) (option_map F.bytes_of upstream) ≡ [])
        × (table ≡ given_table F.family
        (option_map F.bytes_of rp) (option_map F.bytes_of upstream)))
        (IsFirstCause (table_causes F.family
        (option_map F.bytes_of rp) (option_map F.bytes_of upstream))) }
{
    if is_bad::<F>(upstream) {
        return Err(OpenFault::Upstream);
    }
    if is_bad::<F>(rp) {
        return Err(OpenFault::Rp);
    }
    match given_table::<F>(alloc, rp, upstream) {
        Ok(routes) => Ok(routes),
        Err(_) => Err(OpenFault::Memory),
    }
}

/// Opens the file of routes and adds its rows to the table.
fn add_file<'a, F: Family, O: Opener>(
    alloc: Global,
    opener: &mut O,
    name: &'a str,
    routes: &mut Routes<F>,
) -> Result<(), OpenFault<'a>>
    ensures rows { MatchResult result
        (λ _. IsFileTable F.family O.Reader.remaining O.Reader.failures
        (O.known opener.old).files name.now routes.old routes.new)
        (IsFileFault F.family O.Reader.remaining O.Reader.failures
        (O.known opener.old).files name.now routes.old) }
    ensures requested { RequestsFor (O.known opener.old) (O.known opener.new) (name.now ∷ []) }
{
    let mut reader = match opener.open(alloc, name) {
        Ok(reader) => reader,
        Err(Unopened::File(_)) => return Err(OpenFault::File(name)),
        Err(Unopened::Memory) => return Err(OpenFault::Memory),
    };
    match read_routes::<F, _>(alloc, &mut reader, routes) {
        Ok(()) => Ok(()),
        Err(fault) => Err(OpenFault::Routes(fault)),
    }
}

/// The route table of captures: the row of the RP, and that of the upstream neighbour. If a file of
/// routes is named, its rows come in place of the latter.
///
/// # Errors
/// The faults of `first_rows`. Then `File` if the file of routes can't be opened, or `Routes` with
/// its fault.
pub fn table<'a, F: Family, O: Opener>(
    alloc: Global,
    opener: &mut O,
    captures: &Captures<'a, F::Addr>,
    upstream: Option<F::Addr>,
) -> Result<Routes<F>, OpenFault<'a>>
    ensures table { MatchResult result
        (IsTable F.family F.bytes_of O.Reader.remaining O.Reader.failures
        (O.known opener.old).files captures.now upstream)
        (IsTableFault F.family F.bytes_of O.Reader.remaining O.Reader.failures
        (O.known opener.old).files captures.now upstream) }
    ensures requested { RequestsAll (O.known opener.old) (O.known opener.new)
        (table_names captures.now) result }
{
    let Some(name) = captures.routes else {
        return first_rows::<F>(alloc, captures.rp, upstream);
    };
    let mut routes = first_rows::<F>(alloc, captures.rp, None)?;
    add_file::<F, O>(alloc, opener, name, &mut routes)?;
    Ok(routes)
}
