//! Whether a port is settled at a form.
//!
//! The check goes both ways. Each record of the port is looked up in the form, and each star,
//! source and exception of the form is looked up among the records.

ghost use Rattle.std.specs.Prelude.{◌≡◌, ◌↔◌, IsTrue, map};
ghost use Rattle.std.specs.List.{filter, list_all};
ghost use Rattle.pim_down.specs.Records.{is_on};
ghost use Rattle.pim_down.specs.Seen.{record_of_seen, what_seen};
ghost use Rattle.pim_form.specs.Settled.{is_in_join, joins_if, rpt_settles};
ghost use Rattle.pim_form.specs.Settled.{machine_settles, record_settles, is_joined_at};
ghost use Rattle.pim_form.specs.Settled.{is_pruned_at, group_settles};
ghost use Rattle.pim_form.specs.Settled.{IsSettledAt};

use crate::form::NormalForm;
use crate::groups::GroupView;
use crate::sorted::is_listed;
use crate::wanting::is_pruned;
use pim_addr::Family;
use pim_down::{Ports, Record, State, What};

/// Whether a machine is in Join.
fn is_in_join(state: Option<State>) -> bool
    ensures { result ≡ is_in_join state }
{
    matches!(state, Some(State::Join))
}

/// Whether a (*,G) or (S,G) machine is in Join if the form requests it, else in NoInfo.
fn joins_if(demanded: bool, state: Option<State>) -> bool
    ensures { result ≡ joins_if demanded state }
{
    if demanded {
        is_in_join(state)
    } else {
        state.is_none()
    }
}

/// Whether an (S,G,rpt) machine is in Prune if its source is an exception of the star, else in
/// NoInfo. Without a star, Prune and NoInfo are both allowed.
fn rpt_settles<F: Family>(this: &GroupView<'_, F>, source: F::Addr, state: Option<State>) -> bool
    ensures { result ≡ rpt_settles this.now.star (F.bytes_of source) state }
{
    if !this.star() {
        return is_pruned(state) || state.is_none();
    }
    this.is_normal();
    if is_listed::<F>(this.exceptions(), source) {
        return is_pruned(state);
    }
    state.is_none()
}

/// Whether the state of a machine is one that the form of its group allows.
fn machine_settles<F: Family>(
    this: &GroupView<'_, F>,
    what: What<F::Addr>,
    state: Option<State>,
) -> bool
    ensures { result ≡ machine_settles this.now (what_seen F.bytes_of what) state }
{
    this.is_normal();
    match what {
        What::Star => joins_if(this.star(), state),
        What::Source(source) => joins_if(is_listed::<F>(this.sources(), source), state),
        What::Rpt(source) => rpt_settles::<F>(this, source, state),
    }
}

/// Whether the state of a record's machine is one that the form allows.
fn record_settles<F: Family>(normal: &NormalForm<F>, held: &Record<F::Addr>) -> bool
    ensures { result ≡ record_settles normal.now (record_of_seen F.bytes_of held.now) }
{
    let state = Some(held.machine.state);
    match normal.group(held.key.group) {
        Some(this) => machine_settles::<F>(&this, held.key.what, state),
        None => matches!(held.key.what, What::Rpt(_)) && is_pruned(state),
    }
}

/// Whether the state of each machine that the port holds is one that the form allows.
fn all_held_settle<F: Family>(ports: &Ports<F>, port: usize, normal: &NormalForm<F>) -> bool
    ensures { result
        ≡ list_all (record_settles normal.now) (filter (is_on port) ports.now.records) }
{
    for held in ports.records_on(port) {
        if !record_settles::<F>(normal, &held) {
            return false;
        }
    }
    true
}

/// Whether the (S,G) machines of these sources are all in Join.
fn all_joined<F: Family>(ports: &Ports<F>, port: usize, group: F::Addr, sources: &[F::Addr]) -> bool
    ensures { result
        ≡ list_all (is_joined_at ports.now.records port (F.bytes_of group))
        (map F.bytes_of sources.now) }
{
    for &source in sources {
        if !is_in_join(ports.state_of(port, group, What::Source(source))) {
            return false;
        }
    }
    true
}

/// Whether the (S,G,rpt) machines of these sources are all in Prune.
fn all_pruned<F: Family>(ports: &Ports<F>, port: usize, group: F::Addr, sources: &[F::Addr]) -> bool
    ensures { result
        ≡ list_all (is_pruned_at ports.now.records port (F.bytes_of group))
        (map F.bytes_of sources.now) }
{
    for &source in sources {
        if !is_pruned(ports.state_of(port, group, What::Rpt(source))) {
            return false;
        }
    }
    true
}

/// Whether the port has the machines that a group requests.
fn group_settles<F: Family>(ports: &Ports<F>, port: usize, this: &GroupView<'_, F>) -> bool
    ensures { result ≡ group_settles ports.now.records port this.now }
{
    let group = this.group();
    joins_if(this.star(), ports.state_of(port, group, What::Star))
        && all_joined::<F>(ports, port, group, this.sources())
        && all_pruned::<F>(ports, port, group, this.exceptions())
}

/// Whether the port has the machines that each group of the form requests.
fn all_groups_settle<F: Family>(ports: &Ports<F>, port: usize, normal: &NormalForm<F>) -> bool
    ensures { result ≡ list_all (group_settles ports.now.records port) normal.now }
{
    for this in normal.groups() {
        if !group_settles::<F>(ports, port, &this) {
            return false;
        }
    }
    true
}

/// Returns whether the port is settled at the form (RFC 7761, 4.5.1 to 4.5.3). Its (*,G) and (S,G)
/// machines are in Join exactly for the form's stars and sources, else in NoInfo. Its (S,G,rpt)
/// machines under a star are in Prune exactly for the exceptions, else in NoInfo. Without a star
/// they are in Prune or in NoInfo. A port that doesn't exist has no machine.
///
/// It uses binary searches and allocates nothing.
pub fn settled<F: Family>(ports: &Ports<F>, port: usize, normal: &NormalForm<F>) -> bool
    ensures { IsTrue result ↔ IsSettledAt port normal.now ports.now.records }
{
    ports.is_sound();
    normal.is_normal();
    pim_down::laws::keys_are_distinct();
    all_held_settle::<F>(ports, port, normal) && all_groups_settle::<F>(ports, port, normal)
}
