//! The route table that the options of a command give, without a file of routes.

ghost use Rattle.std.specs.Prelude.{◌≡◌, IfOk, IfSome, true, [], option_map, replicate};
ghost use Rattle.pim_addr.specs.Address.{address_length, is_source};
ghost use Rattle.pim_addr.specs.RouteLaws.{first_group, all_addresses, all_groups};
ghost use Rattle.pim_addr.specs.Routes.{no_routes, with_rp, with_via};
ghost use Rattle.pim_words.specs.Table.{given_table};

use pim_addr::{AddressFamily, Family, RouteFault, Routes, group_bits};
use std::alloc::{AllocError, Global};

/// The first address of the prefix of all groups: 224.0.0.0 or ff00::.
fn first_group<F: Family>() -> F::Addr
    ensures { F.bytes_of result ≡ first_group F.family }
{
    match F::family() {
        AddressFamily::Ipv4 => F::take(&[224, 0, 0, 0]),
        AddressFamily::Ipv6 => F::take(&[255, 0, 0, 0, 0, 0, 0, 0, 0, 0, 0, 0, 0, 0, 0, 0]),
    }
}

/// The first address of the prefix of all addresses: 0.0.0.0 or ::.
fn first_address<F: Family>() -> F::Addr
    ensures { F.bytes_of result ≡ replicate (address_length F.family) 0 }
{
    F::take(&[0; 16])
}

/// Adds the row that maps all groups to this RP. The table must have no rows.
fn add_rp<F: Family>(routes: &mut Routes<F>, rp: F::Addr) -> Result<(), AllocError>
    requires source { is_source F.family (F.bytes_of rp) ≡ true }
    requires empty { routes.old ≡ no_routes }
    ensures { IfOk result (λ done. routes.new
        ≡ with_rp (all_groups F.family) (F.bytes_of rp) no_routes) }
{
    match routes.add_rp(first_group::<F>(), group_bits::<F>(), rp) {
        Ok(()) => Ok(()),
        Err(RouteFault::Memory) => Err(AllocError),
        Err(_) => unreachable!(),
    }
}

/// Adds the row that leads all addresses to this upstream neighbour. The table must have no row
/// that leads to one.
fn add_via<F: Family>(routes: &mut Routes<F>, neighbour: F::Addr) -> Result<(), AllocError>
    requires source { is_source F.family (F.bytes_of neighbour) ≡ true }
    requires empty { routes.old.vias ≡ [] }
    ensures { IfOk result (λ done. routes.new
        ≡ with_via (all_addresses F.family) (F.bytes_of neighbour) routes.old) }
{
    match routes.add_via(first_address::<F>(), 0, neighbour) {
        Ok(()) => Ok(()),
        Err(RouteFault::Memory) => Err(AllocError),
        Err(_) => unreachable!(),
    }
}

/// The route table that the options of a command give. If an RP is given, one row maps all groups
/// to it. If an upstream neighbour is given, one row leads all addresses to it. Both must be valid
/// sources.
///
/// # Errors
/// An allocation was refused.
pub fn given_table<F: Family>(
    alloc: Global,
    rp: Option<F::Addr>,
    upstream: Option<F::Addr>,
) -> Result<Routes<F>, AllocError>
    requires rp { IfSome rp (λ a. is_source F.family (F.bytes_of a) ≡ true) }
    requires upstream { IfSome upstream (λ a. is_source F.family (F.bytes_of a) ≡ true) }
    ensures { IfOk result (λ table. table
        ≡ given_table F.family (option_map F.bytes_of rp) (option_map F.bytes_of upstream)) }
{
    let mut routes = Routes::new(alloc);
    if let Some(rp) = rp {
        add_rp::<F>(&mut routes, rp)?;
    }
    if let Some(upstream) = upstream {
        add_via::<F>(&mut routes, upstream)?;
    }
    Ok(routes)
}
