//! From which upstream neighbour traffic is requested.

ghost use Rattle.std.specs.Prelude.{◌≡◌, List, ℕ, map, option_map};
ghost use Rattle.std.specs.List.{list_all};
ghost use Rattle.pim_addr.specs.Routes.{rp_of};
ghost use Rattle.pim_form.specs.Toward.{via_of, star_rpf_neighbour, rpf_neighbour, is_neighbour};
ghost use Rattle.pim_form.specs.Toward.{is_group_toward};
ghost use Rattle.pim_form.specs.Toward.{is_toward};

use crate::form::NormalForm;
use crate::groups::GroupView;
use crate::tree::Tree;
use pim_addr::{Family, Routes};

/// Returns the upstream neighbour from which the traffic of this source to this group is requested:
/// RPF'(*,G) on the shared tree, RPF'(S,G) on the source's tree, both without asserts
/// (RFC 7761, 4.1). It is `None` if the group has no RP or there is no route.
pub fn rpf_neighbour<F: Family>(
    routes: &Routes<F>,
    source: F::Addr,
    group: F::Addr,
    tree: Tree,
) -> Option<F::Addr>
    ensures { option_map F.bytes_of result
        ≡ rpf_neighbour (rp_of F.family routes.now) (via_of F.family routes.now)
        (F.bytes_of source) (F.bytes_of group) tree }
{
    match tree {
        Tree::Shared => routes.via(routes.rp_of(group)?),
        Tree::Source => routes.via(source),
    }
}

/// Returns whether there is an upstream neighbour and it is this one.
pub fn is_neighbour<F: Family>(demanded: Option<F::Addr>, upstream: F::Addr) -> bool
    ensures { result ≡ is_neighbour (F.bytes_of upstream) (option_map F.bytes_of demanded) }
{
    match demanded {
        Some(neighbour) => neighbour == upstream,
        None => false,
    }
}

/// Whether this neighbour is RPF'(*,G) of the group.
pub(crate) fn is_rp_reached<F: Family>(
    routes: &Routes<F>,
    group: F::Addr,
    upstream: F::Addr,
) -> bool
    ensures { result ≡ is_neighbour (F.bytes_of upstream)
        (star_rpf_neighbour (via_of F.family routes.now)
        (rp_of F.family routes.now (F.bytes_of group))) }
{
    let demanded = rpf_neighbour::<F>(routes, group, group, Tree::Shared);
    is_neighbour::<F>(demanded, upstream)
}

/// Whether this neighbour is RPF'(S,G) of all these sources.
fn all_reached<F: Family>(sources: &[F::Addr], routes: &Routes<F>, upstream: F::Addr) -> bool
    ensures { result ≡ list_all (λ (source : List ℕ). is_neighbour (F.bytes_of upstream)
        (via_of F.family routes.now source)) (map F.bytes_of sources.now) }
{
    for &source in sources {
        if !is_neighbour::<F>(routes.via(source), upstream) {
            return false;
        }
    }
    true
}

/// Whether this neighbour is the upstream neighbour of the group's star, if it has one, and of all
/// its sources.
fn is_group_toward<F: Family>(
    this: &GroupView<'_, F>,
    routes: &Routes<F>,
    upstream: F::Addr,
) -> bool
    ensures { result ≡ is_group_toward (rp_of F.family routes.now) (via_of F.family routes.now)
        (F.bytes_of upstream) this.now }
{
    if this.star() && !is_rp_reached::<F>(routes, this.group(), upstream) {
        return false;
    }
    all_reached::<F>(this.sources(), routes, upstream)
}

/// Returns whether this neighbour is the upstream neighbour of everything that a form wants: of
/// each star and of each source. It allocates nothing, and takes at most two look-ups for each star
/// and one for each source.
pub fn is_toward<F: Family>(normal: &NormalForm<F>, routes: &Routes<F>, upstream: F::Addr) -> bool
    ensures { result ≡ is_toward (rp_of F.family routes.now) (via_of F.family routes.now)
        (F.bytes_of upstream) normal.now }
{
    for this in normal.groups() {
        if !is_group_toward::<F>(&this, routes, upstream) {
            return false;
        }
    }
    true
}
