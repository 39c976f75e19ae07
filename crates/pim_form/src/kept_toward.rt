//! What remains of a form when only one upstream neighbour is asked.
//!
//! The form of the whole state is made first, and a second row keeps what is requested from the
//! neighbour. So the route table is asked for each star and source once, not for each record.

ghost use Rattle.std.specs.Prelude.{◌≡◌, ◌∷◌, ◌++◌, [], true, filter, if◌then◌else◌, IfOk, OnOk};
ghost use Rattle.std.specs.Option.{is_some};
ghost use Rattle.pim_addr.specs.Routes.{rp_of};
ghost use Rattle.pim_form.specs.NormalForm.{IsFormOf, form_wants};
ghost use Rattle.pim_form.specs.Toward.{via_of, toward, is_toward};
ghost use Rattle.pim_form.specs.Wants.{wants};
ghost use Rattle.pim_form.specs.KeptToward.{is_reached, star_toward, group_toward, has_some};
ghost use Rattle.pim_form.specs.KeptToward.{IsStarPushed, IsPushed};

use crate::form::NormalForm;
use crate::groups::GroupView;
use crate::place::GroupPlace;
use crate::toward::{is_neighbour, is_rp_reached};
use pim_addr::{Family, Routes};
use pim_down::Ports;
use std::alloc::{AllocError, Global};

/// Appends those of these sources whose RPF'(S,G) is this neighbour.
fn push_reached<F: Family>(
    row: &mut Vec<F::Addr>,
    sources: &[F::Addr],
    routes: &Routes<F>,
    upstream: F::Addr,
) -> Result<(), AllocError>
    ensures { OnOk result (row.new.items ≡ row.old.items
        ++ filter (λ source. is_reached (rp_of F.family routes.now)
        (via_of F.family routes.now) (F.bytes_of upstream) (F.bytes_of source)) sources.now) }
{
    for &source in sources {
        if is_neighbour::<F>(routes.via(source), upstream) {
            row.push(source)?;
        }
    }
    Ok(())
}

/// Whether the group has a star that is requested from this neighbour.
fn keeps_star<F: Family>(this: &GroupView<'_, F>, routes: &Routes<F>, upstream: F::Addr) -> bool
    ensures { result
        ≡ is_some (star_toward (rp_of F.family routes.now) (via_of F.family routes.now)
        (F.bytes_of upstream) this.now.group this.now.star) }
{
    this.star() && is_rp_reached::<F>(routes, this.group(), upstream)
}

/// Appends the exceptions of a star that is requested from this neighbour, and returns whether
/// there is one.
fn push_star<F: Family>(
    row: &mut Vec<F::Addr>,
    this: &GroupView<'_, F>,
    routes: &Routes<F>,
    upstream: F::Addr,
) -> Result<bool, AllocError>
    ensures { IfOk result (IsStarPushed F.bytes_of (star_toward (rp_of F.family routes.now)
        (via_of F.family routes.now) (F.bytes_of upstream) this.now.group this.now.star)
        row.old.items row.new.items) }
{
    if !keeps_star::<F>(this, routes, upstream) {
        return Ok(false);
    }
    row.extend_from_slice(this.exceptions())?;
    Ok(true)
}

/// Appends what remains of a group, and returns its place.
fn push_group<F: Family>(
    row: &mut Vec<F::Addr>,
    this: &GroupView<'_, F>,
    routes: &Routes<F>,
    upstream: F::Addr,
) -> Result<GroupPlace<F::Addr>, AllocError>
    ensures { IfOk result
        (IsPushed F.bytes_of
        (group_toward (rp_of F.family routes.now) (via_of F.family routes.now)
        (F.bytes_of upstream) this.now) row.old.items row.new.items) }
{
    let sources_start = row.len();
    push_reached::<F>(row, this.sources(), routes, upstream)?;
    let sources_end = row.len();
    let starred = push_star::<F>(row, this, routes, upstream)?;
    Ok(GroupPlace {
        group: this.group(),
        starred,
        sources_start,
        sources_end,
        exceptions_start: sources_end,
        exceptions_end: row.len(),
    })
}

/// Whether a place has a star or a source.
fn has_some<A: Copy>(place: &GroupPlace<A>) -> bool
    ensures { result ≡ has_some place.now }
{
    place.starred || place.sources_start < place.sources_end
}

/// Appends the place, if it has a star or a source.
fn push_place<A: Copy>(
    places: &mut Vec<GroupPlace<A>>,
    place: GroupPlace<A>,
) -> Result<(), AllocError>
    ensures { OnOk result (places.new.items
        ≡ (if has_some place then places.old.items ++ place ∷ [] else places.old.items)) }
{
    if has_some(&place) {
        places.push(place)?;
    }
    Ok(())
}

/// The normal form of what a normal form wants from this neighbour. The only refusal is for lack of
/// memory.
fn kept_toward<F: Family>(
    alloc: Global,
    normal: &NormalForm<F>,
    routes: &Routes<F>,
    upstream: F::Addr,
) -> Result<NormalForm<F>, AllocError>
    ensures meaning { IfOk result (λ form. IsFormOf F.family (toward (rp_of F.family routes.now)
        (via_of F.family routes.now) (F.bytes_of upstream) (form_wants normal.now)) form) }
    ensures only { IfOk result
        (λ form. is_toward (rp_of F.family routes.now) (via_of F.family routes.now)
        (F.bytes_of upstream) form ≡ true) }
{
    normal.is_normal();
    let mut row = Vec::new(alloc);
    let mut places = Vec::new(alloc);
    for this in normal.groups() {
        let place = push_group::<F>(&mut row, &this, routes, upstream)?;
        push_place(&mut places, place)?;
    }
    Ok(NormalForm { row, places })
}

impl<F: Family> NormalForm<F> {
    /// Returns the normal form of what the machines of all ports request from this upstream
    /// neighbour. It has the stars for which the neighbour is RPF'(*,G), with all their exceptions,
    /// and the sources for which it is RPF'(S,G) (RFC 7761, 4.1). Traffic without a route isn't
    /// requested. The only refusal is for lack of memory.
    ///
    /// It takes the time of `of`, and at most two look-ups in the table for each star and one for
    /// each source.
    pub fn toward(
        alloc: Global,
        ports: &Ports<F>,
        routes: &Routes<F>,
        upstream: F::Addr,
    ) -> Result<NormalForm<F>, AllocError>
        ensures meaning { IfOk result
            (λ form. IsFormOf F.family (toward (rp_of F.family routes.now)
            (via_of F.family routes.now) (F.bytes_of upstream) (wants ports.now)) form) }
        ensures only { IfOk result
            (λ form. is_toward (rp_of F.family routes.now) (via_of F.family routes.now)
            (F.bytes_of upstream) form ≡ true) }
    {
        let wanted = NormalForm::of(alloc, ports)?;
        kept_toward::<F>(alloc, &wanted, routes, upstream)
    }
}
