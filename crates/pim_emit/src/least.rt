//! The lesser of two optional addresses.

ghost use Rattle.std.specs.Prelude.{ℕ, Bool, List, ◌||◌, option_map};
ghost use Rattle.pim_emit.specs.Least.{IsLeast};

use pim_addr::Family;
use pim_down::compare_addresses;

/// The lesser of the two if both are there, otherwise the one that is.
pub(crate) fn lesser<F: Family>(one: Option<F::Addr>, other: Option<F::Addr>) -> Option<F::Addr>
    ensures { (test this : List ℕ → Bool) → IsLeast test (option_map F.bytes_of one) →
        IsLeast this (option_map F.bytes_of other) →
        IsLeast (λ address. this address || test address) (option_map F.bytes_of result) }
{
    let (Some(a), Some(b)) = (one, other) else {
        return one.or(other);
    };
    if compare_addresses::<F>(b, a).is_lt() {
        other
    } else {
        one
    }
}
