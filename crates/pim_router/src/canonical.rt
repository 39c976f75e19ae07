//! The messages by which a router asks an upstream neighbour, and the comparison of two routers by
//! them. `pim_emit` writes them straight from the records, so no normal form is made. `same_wants`
//! compares the route tables first, and then looks for a star that is too big in both routers,
//! before it makes a message.

ghost use Rattle.std.specs.Prelude.{◌≡◌, ◌≢◌, ◌↔◌, IsTrue, Err, IfOk, option_map};
ghost use Rattle.pim_form.specs.NormalForm.{Agree};
ghost use Rattle.pim_form.specs.Refused.{group_too_big};
ghost use Rattle.pim_router.specs.Canonical.{demanded, IsDemandedBy, IsTooBig, IsFirstTooBig};

use crate::router::Router;
use pim_addr::Family;
use pim_emit::{canonical_messages, star_too_big};
use pim_form::laws::same_messages_same_demand_toward;
use pim_form::{FormFault, Messages, Writer};
use std::alloc::Global;

impl<'a, F: Family> Router<'a, F> {
    /// The canonical messages that ask the writer's upstream neighbour for what the machines of all
    /// ports want of it (RFC 7761, 4.1 and 4.9.5). That is the traffic whose RP or source the route
    /// table leads to this neighbour. There are no messages where nothing is wanted of it.
    ///
    /// Beside the messages it takes memory for one of the writer's budget, and gives that back.
    ///
    /// # Errors
    /// `TooBig` with the least group whose star, with all its exceptions, is too big for a message
    /// of the writer's budget alone, exactly if there is one. Otherwise `Memory` where memory is
    /// refused.
    pub fn canonical(&self, alloc: Global, writer: &Writer<F>) -> Result<Messages, FormFault<F>>
        ensures canonical { IfOk result (IsDemandedBy F.family writer.now self.now) }
        ensures too_big { IsTooBig F.family writer.now self.now
            (option_map F.bytes_of (group_too_big result)) }
        ensures tables { result ≢ Err FormFault.Tables }
    {
        let ports = self.ports();
        let routes = self.routes();
        canonical_messages::<F>(alloc, ports, writer, routes)
    }

    /// The group that `canonical` reports as too big, if it reports one. The call takes no memory.
    fn star_too_big(&self, writer: &Writer<F>) -> Option<F::Addr>
        ensures { IsTooBig F.family writer.now self.now (option_map F.bytes_of result) }
    {
        star_too_big::<F>(self.ports(), writer, self.routes())
    }
}

/// The group of `a` that is too big, or where `a` has none, that of `b`, if there is one.
fn first_too_big<F: Family>(
    a: &Router<'_, F>,
    b: &Router<'_, F>,
    writer: &Writer<F>,
) -> Option<F::Addr>
    ensures { IsFirstTooBig F.family writer.now a.now b.now (option_map F.bytes_of result) }
{
    match a.star_too_big(writer) {
        Some(group) => Some(group),
        None => b.star_too_big(writer),
    }
}

/// Whether two routers want the same of the writer's upstream neighbour, for every valid source,
/// every group and both trees (RFC 7761, 4.1). It compares their canonical messages byte for byte,
/// which takes the time and the memory of `canonical` for both.
///
/// # Errors
/// `Tables` exactly where the route tables differ. Else `TooBig` of `a`, or where `a` has no such
/// group, of `b`, exactly if there is one. Else `Memory` where memory is refused.
pub fn same_wants<F: Family>(
    alloc: Global,
    a: &Router<'_, F>,
    b: &Router<'_, F>,
    writer: &Writer<F>,
) -> Result<bool, FormFault<F>>
    ensures wants { IfOk result (λ same. IsTrue same ↔
        Agree F.family (demanded F.family writer.now.upstream a.now)
        (demanded F.family writer.now.upstream b.now)) }
    ensures tables { (result ≡ Err FormFault.Tables) ↔ (a.now.routes ≢ b.now.routes) }
    ensures too_big { a.now.routes ≡ b.now.routes →
        IsFirstTooBig F.family writer.now a.now b.now
        (option_map F.bytes_of (group_too_big result)) }
{
    if !a.routes().equals(b.routes()) {
        return Err(FormFault::Tables);
    }
    if let Some(group) = first_too_big::<F>(a, b, writer) {
        return Err(FormFault::TooBig(group));
    }
    same_messages_same_demand_toward();
    a.routes().is_sound();
    writer.is_writing();
    let one = a.canonical(alloc, writer)?;
    let other = b.canonical(alloc, writer)?;
    Ok(one.same_bytes(&other))
}
