//! What local receivers have joined, as a command names it.

ghost use Rattle.std.specs.Prelude.{◌≡◌, [], ◌∷◌, MatchResult};
ghost use Rattle.pim_files.specs.Files.{RequestsFor, RequestsAll};
ghost use Rattle.pim_files.specs.Table.{name_of};
ghost use Rattle.pim_files.specs.Receivers.{AddsFile, IsLocalFault, HasJoins, LacksJoins};

use crate::fault::OpenFault;
use crate::local::read_local;
use crate::opener::{Opener, Unopened};
use pim_addr::Family;
use pim_local::LocalJoins;
use std::alloc::Global;

/// Opens the file of local receivers and adds its joins.
fn add_local<'a, F: Family, O: Opener>(
    alloc: Global,
    opener: &mut O,
    name: &'a str,
    joins: &mut LocalJoins<F>,
) -> Result<(), OpenFault<'a>>
    ensures joins { MatchResult result
        (λ _. AddsFile F.family O.Reader.remaining O.Reader.failures
        (O.known opener.old).files name.now joins.old joins.new)
        (IsLocalFault F.family O.Reader.remaining O.Reader.failures
        (O.known opener.old).files name.now joins.old) }
    ensures requested { RequestsFor (O.known opener.old) (O.known opener.new) (name.now ∷ []) }
{
    let mut reader = match opener.open(alloc, name) {
        Ok(reader) => reader,
        Err(Unopened::File(_)) => return Err(OpenFault::File(name)),
        Err(Unopened::Memory) => return Err(OpenFault::Memory),
    };
    match read_local::<F, _>(alloc, &mut reader, joins) {
        Ok(()) => Ok(()),
        Err(fault) => Err(OpenFault::Local(fault)),
    }
}

/// The joins of local receivers: those of the file of this name, or none if there is no name.
///
/// # Errors
/// `File` if the file can't be opened, or `Local` with its fault; or `Memory`.
pub fn local_joins<'a, F: Family, O: Opener>(
    alloc: Global,
    opener: &mut O,
    name: Option<&'a str>,
) -> Result<LocalJoins<F>, OpenFault<'a>>
    ensures joins { MatchResult result
        (HasJoins F.family O.Reader.remaining O.Reader.failures
        (O.known opener.old).files name.entry)
        (LacksJoins F.family O.Reader.remaining O.Reader.failures
        (O.known opener.old).files name.entry) }
    ensures requested { RequestsAll (O.known opener.old) (O.known opener.new)
        (name_of name.entry) result }
{
    let mut joins = LocalJoins::<F>::new(alloc);
    let Some(name) = name else {
        return Ok(joins);
    };
    add_local::<F, O>(alloc, opener, name, &mut joins)?;
    Ok(joins)
}
