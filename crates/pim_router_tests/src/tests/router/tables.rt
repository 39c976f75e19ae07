//! Two routers under different route tables aren't compared, whatever they want. No command has
//! two tables. Under one table the star that is too big is the answer of `too-big.session`.

use super::{ANNE, FOR_EVER, made, receive, table};
use pim_addr::{Routes, V4};
use pim_form::{FormFault, Writer};
use pim_router::{Router, same_wants};
use std::alloc::Global;

/// A star without 192.0.2.1 to 192.0.2.5: 66 bytes of a message hold four of them.
const TOO_BIG: [u8; 74] = [
    0x23, 0, 0xdc, 0x1d, 1, 0, 10, 0, 0, 1, 0, 1, 0, 210, 1, 0, 0, 32, 239, 1, 1, 1, 0, 1, 0, 5, 1,
    0, 7, 32, 10, 9, 9, 9, 1, 0, 5, 32, 192, 0, 2, 1, 1, 0, 5, 32, 192, 0, 2, 2, 1, 0, 5, 32, 192,
    0, 2, 3, 1, 0, 5, 32, 192, 0, 2, 4, 1, 0, 5, 32, 192, 0, 2, 5,
];

/// Whether two routers want the same, or why they aren't compared.
type Answer = Result<bool, FormFault<V4>>;

/// The answer for two routers, of which the first one takes the star, if 10.0.0.2 is asked by
/// messages of 70 bytes. `None` where a growth is refused.
fn answer_of(alloc: Global, one: &mut Router<'_, V4>, other: &Router<'_, V4>) -> Option<Answer> {
    receive(one, 0, ANNE, &FOR_EVER).ok()?;
    receive(one, 0, ANNE, &TOO_BIG).ok()?;
    one.run_to(0);
    let writer = Writer::new([10, 0, 0, 2], [10, 0, 0, 1], 210, 70).ok()?;
    Some(same_wants(alloc, one, other, &writer))
}

/// The same beside a new router under this table.
fn answer_beside(alloc: Global, one: &mut Router<'_, V4>, routes: &Routes<V4>) -> Option<Answer> {
    match made(alloc, routes) {
        Some(other) => answer_of(alloc, one, &other),
        None => None,
    }
}

/// The same of new routers under these tables.
fn answer_under(alloc: Global, of_one: &Routes<V4>, of_other: &Routes<V4>) -> Option<Answer> {
    match made(alloc, of_one) {
        Some(mut one) => answer_beside(alloc, &mut one, of_other),
        None => None,
    }
}

/// The same where the other table leads to 10.0.0.6.
fn answer_against(alloc: Global, of_one: &Routes<V4>) -> Option<Answer> {
    match table(alloc, [10, 0, 0, 6]) {
        Some(of_other) => answer_under(alloc, of_one, &of_other),
        None => None,
    }
}

/// The same where the first table leads to 10.0.0.2.
fn answer(alloc: Global) -> Option<Answer> {
    match table(alloc, [10, 0, 0, 2]) {
        Some(of_one) => answer_against(alloc, &of_one),
        None => None,
    }
}

#[test]
fn tables_come_before_a_star_that_is_too_big(rt: HostRuntime) {
    assert_eq!(rt; answer(rt.alloc()), Some(Err(FormFault::Tables)));
}
