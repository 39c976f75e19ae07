//! The normal form of what all ports want.
//!
//! Ports are merged by halves. So an address is copied by at most one merge for each binary digit
//! of the number of ports.

ghost use Rattle.std.specs.Prelude.{◌≡◌, ◌+◌, ◌≤◌, IfOk};
ghost use Rattle.pim_form.specs.NormalForm.{IsFormOf};
ghost use Rattle.pim_form.specs.Wants.{wants};
ghost use Rattle.pim_form.specs.Merge.{merged};
ghost use Rattle.pim_form.specs.Collect.{wants_from};

use crate::collect::collect;
use crate::form::NormalForm;
use crate::merge::merge;
use pim_addr::Family;
use pim_down::Ports;
use std::alloc::{AllocError, Global};

/// The merge of two forms. A form without groups returns the other one unchanged.
fn either<F: Family>(
    alloc: Global,
    one: NormalForm<F>,
    other: NormalForm<F>,
) -> Result<NormalForm<F>, AllocError>
    ensures { IfOk result (λ form. form ≡ merged one other) }
{
    if one.groups().count_left() == 0 {
        return Ok(other);
    }
    if other.groups().count_left() == 0 {
        return Ok(one);
    }
    merge::<F>(alloc, &one, &other)
}

/// The form of what `count` ports want, from the port `first` on.
fn form_from<F: Family>(
    alloc: Global,
    ports: &Ports<F>,
    first: usize,
    count: usize,
) -> Result<NormalForm<F>, AllocError>
    requires { first + count ≤ 64 }
    ensures { IfOk result (λ form. IsFormOf F.family (wants_from first count ports.now) form) }
{
    if count == 0 {
        return Ok(NormalForm::empty(alloc));
    }
    if count == 1 {
        return collect::<F>(alloc, ports, first);
    }
    let half = count / 2;
    let one = form_from::<F>(alloc, ports, first, half)?;
    let other = form_from::<F>(alloc, ports, first + half, count - half)?;
    either::<F>(alloc, one, other)
}

impl<F: Family> NormalForm<F> {
    /// Returns the normal form of what the machines of all ports want (RFC 7761, 4.1). A group
    /// has a star if joins(*,G) isn't empty. Its exceptions are the sources that are in
    /// prunes(S,G,rpt) on each port of joins(*,G). Its sources are those whose joins(S,G) isn't
    /// empty.
    ///
    /// The only refusal is for lack of memory. Each port's records are read once.
    pub fn of(alloc: Global, ports: &Ports<F>) -> Result<NormalForm<F>, AllocError>
        ensures { IfOk result (λ form. IsFormOf F.family (wants ports.now) form) }
    {
        ports.is_sound();
        form_from::<F>(alloc, ports, 0, ports.port_count())
    }
}
