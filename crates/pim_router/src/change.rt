//! The messages by which a router announces a change of demand to an upstream neighbour.

ghost use Rattle.std.specs.Prelude.{◌≢◌, Err, IfOk, option_map};
ghost use Rattle.pim_form.specs.Refused.{group_too_big};
ghost use Rattle.pim_router.specs.Change.{IsChangeOf, IsChangeTooBig};

use crate::router::Router;
use pim_addr::Family;
use pim_change::laws::new_stars_alone_are_too_big;
use pim_change::triggered;
use pim_emit::new_star_too_big;
use pim_form::{FormFault, Messages, NormalForm, Writer};
use std::alloc::Global;

impl<'a, F: Family> Router<'a, F> {
    /// The messages that announce a change to the writer's upstream neighbour, so that it needn't
    /// wait for the next refresh (RFC 7761, 4.5 and 4.9.5). The change is that from `reported` to
    /// what the machines of all ports want of it. There are no messages where nothing changes.
    ///
    /// `reported` is the form that was last announced to it. `is_toward` tests whether such a form
    /// asks for nothing that the route table leads elsewhere.
    ///
    /// A star that is too big is looked for first, without memory. Then the wanted form is made.
    /// Beside the messages the call takes memory in proportion to the records that want something
    /// and to the change, and gives it back.
    ///
    /// # Errors
    /// `TooBig` with the least group whose star is announced anew and is too big for a message of
    /// the writer's budget alone, with all its exceptions, exactly if there is one. Otherwise
    /// `Memory` where memory is refused.
    pub fn triggered(
        &self,
        alloc: Global,
        reported: &NormalForm<F>,
        writer: &Writer<F>,
    ) -> Result<Messages, FormFault<F>>
        ensures change { IfOk result (IsChangeOf F.family writer.now reported.now self.now) }
        ensures too_big { IsChangeTooBig F.family writer.now reported.now self.now
            (option_map F.bytes_of (group_too_big result)) }
        ensures tables { result ≢ Err FormFault.Tables }
    {
        new_stars_alone_are_too_big();
        reported.is_normal();
        let ports = self.ports();
        let routes = self.routes();
        if let Some(group) = new_star_too_big::<F>(ports, writer, routes, reported) {
            return Err(FormFault::TooBig(group));
        }
        let upstream = writer.upstream();
        let Ok(wanted) = NormalForm::toward(alloc, ports, routes, upstream) else {
            return Err(FormFault::Memory);
        };
        triggered::<F>(alloc, reported, &wanted, writer, routes)
    }
}
