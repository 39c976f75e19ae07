//! Stars that are too big for a message, looked for without memory: among all stars that are asked
//! for, or among those that were not announced before.

ghost use Rattle.std.specs.Prelude.{◌≡◌, ◌≤◌, Some, option_map, not, is_some};
ghost use Rattle.std.specs.List.{filter};
ghost use Rattle.pim_form.specs.NormalForm.{AreAscending, groups_of};
ghost use Rattle.pim_form.specs.TooBig.{too_big};
ghost use Rattle.pim_emit.specs.Left.{HaveSameStars, star_of};
ghost use Rattle.pim_emit.specs.Written.{IsTooBig, IsNewTooBig};

use crate::demand::UpstreamDemand;
use crate::message::{too_big, too_big_above};
use pim_addr::{Family, Routes};
use pim_down::Ports;
use pim_form::{Groups, NormalForm, Writer};
use std::cmp::Ordering;

/// Passes the groups below this one, of those that are left of a form. Returns whether the form has
/// a star of it.
fn has_star_in<F: Family>(left: &mut Groups<'_, F>, group: F::Addr) -> bool
    requires { AreAscending (groups_of left.old) }
    ensures star { result ≡ is_some (star_of (F.bytes_of group) left.old) }
    ensures left { HaveSameStars (Some (F.bytes_of group)) left.new left.old }
    ensures ascending { AreAscending (groups_of left.new) }
{
    while let Some((this, behind)) = left.split_first() {
        match this.group().cmp(&group) {
            Ordering::Less => *left = behind,
            Ordering::Equal => return this.star(),
            Ordering::Greater => return false,
        }
    }
    false
}

/// The least group of which `last` has no star and whose star, with all its exceptions, doesn't fit
/// a message of this budget alone, if there is one.
fn new_too_big<F: Family>(
    demand: &UpstreamDemand<'_, F>,
    budget: usize,
    last: &NormalForm<F>,
) -> Option<F::Addr>
    requires { budget ≤ 65000 }
    ensures { option_map F.bytes_of result ≡ too_big F.family budget
        (filter (λ this. not (is_some (star_of this.group last.now))) demand.now.form) }
{
    demand.is_normal();
    last.is_normal();
    let mut left = last.groups();
    let mut bound = None;
    while let Some(group) = too_big_above::<F>(demand, budget, bound) {
        if !has_star_in::<F>(&mut left, group) {
            return Some(group);
        }
        bound = Some(group);
    }
    None
}

/// The least group whose star, with all its exceptions, is too big for a message of the writer's
/// budget alone, if there is one. The stars are those that the machines of all ports want of the
/// writer's upstream neighbour (RFC 7761, 4.1). `canonical_messages` reports the same group. The
/// call takes no memory.
pub fn star_too_big<F: Family>(
    ports: &Ports<F>,
    writer: &Writer<F>,
    routes: &Routes<F>,
) -> Option<F::Addr>
    ensures { IsTooBig F.family writer.now routes.now ports.now (option_map F.bytes_of result) }
{
    ports.is_sound();
    writer.is_writing();
    pim_form::laws::form_of_demand_toward();
    let demand = UpstreamDemand::new(ports, routes, writer.upstream());
    too_big::<F>(&demand, writer.budget())
}

/// The same, of those groups alone of which the form `last` has no star. If `last` was announced to
/// that neighbour, these are the stars that are announced anew. Beside the time of `star_too_big`,
/// the call passes each group of `last` at most once. It takes no memory.
pub fn new_star_too_big<F: Family>(
    ports: &Ports<F>,
    writer: &Writer<F>,
    routes: &Routes<F>,
    last: &NormalForm<F>,
) -> Option<F::Addr>
    ensures { IsNewTooBig F.family writer.now routes.now ports.now last.now
        (option_map F.bytes_of result) }
{
    ports.is_sound();
    writer.is_writing();
    pim_form::laws::form_of_demand_toward();
    let demand = UpstreamDemand::new(ports, routes, writer.upstream());
    new_too_big::<F>(&demand, writer.budget(), last)
}
