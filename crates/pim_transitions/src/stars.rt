//! Notes the held (S,G,rpt) machines that a message reaches by a Join(*,G) (RFC 7761, 4.5.3).

ghost use Rattle.std.specs.Prelude.{◌≡◌, ◌++◌, ℕ, List, true, nat_eq, IfOk, OnOk, map};
ghost use Rattle.std.specs.List.{AllByRecursion, list_any};
ghost use Rattle.std.specs.Cmp.Lexicographic.{pointwise};
ghost use Rattle.pim_down.specs.Hearing.{events_of, set_events};
ghost use Rattle.pim_addr.specs.Routes.{rp_of};
ghost use Rattle.pim_down.specs.Seen.{event_seen, record_of_seen, what_seen};
ghost use Rattle.pim_transitions.specs.Marks.{rpt_mark, rpt_marks, HaveRptsOf};
ghost use Rattle.pim_transitions.specs.Marks.{AddRptsOf, AddStarsOf, AreStarMarks};

use pim_addr::{Family, Routes};
use pim_down::{Event, Near, Ports, Record, What, has_star_join};
use pim_jp::{JpView, SetView};
use std::alloc::{AllocError, Global};

/// Appends the mark of a record, if it is of an (S,G,rpt) machine.
fn push_rpt<F: Family>(
    marks: &mut Vec<Event<F::Addr>>,
    held: Record<F::Addr>,
) -> Result<(), AllocError>
    ensures { OnOk result (map (event_seen F.bytes_of) marks.new.items
        ≡ map (event_seen F.bytes_of) marks.old.items
        ++ rpt_mark (record_of_seen F.bytes_of held)) }
{
    match held.key.what {
        What::Rpt(source) => {
            marks.push(Event {
                joins: false,
                group: held.key.group,
                what: What::Rpt(source),
            })?;
            Ok(())
        }
        What::Star | What::Source(_) => Ok(()),
    }
}

/// Appends the marks of the group's (S,G,rpt) machines on the port that come after this machine.
fn push_rpts<F: Family>(
    marks: &mut Vec<Event<F::Addr>>,
    ports: &Ports<F>,
    port: usize,
    group: F::Addr,
    what: What<F::Addr>,
) -> Result<(), AllocError>
    ensures { OnOk result (map (event_seen F.bytes_of) marks.new.items
        ≡ map (event_seen F.bytes_of) marks.old.items
        ++ rpt_marks port (F.bytes_of group) (what_seen F.bytes_of what) ports.now.records) }
{
    ports.is_sound();
    let mut left = ports.machines_after_near(port, group, what, Near::UNKNOWN);
    while let Some(held) = left.next_machine() {
        push_rpt::<F>(marks, held)?;
    }
    Ok(())
}

/// The address of which all bits are 1. No source has it, and each other address comes before it.
fn greatest<F: Family>() -> F::Addr {
    F::take(&[255; 16])
}

/// Whether both are the same group.
fn is_same<F: Family>(one: F::Addr, other: F::Addr) -> bool
    ensures { result ≡ pointwise nat_eq (F.bytes_of one) (F.bytes_of other) }
{
    one == other
}

/// Whether the group is one of these.
fn is_among<F: Family>(groups: &[F::Addr], group: F::Addr) -> bool
    ensures { result ≡ list_any (λ other. pointwise nat_eq other (F.bytes_of group))
        (map F.bytes_of groups.now) }
{
    for other in groups {
        if is_same::<F>(*other, group) {
            return true;
        }
    }
    false
}

/// Appends the marks of the (S,G,rpt) machines of a group, unless it is one of those whose machines
/// are marked. It is one of them afterwards.
fn push_group<F: Family>(
    marks: &mut Vec<Event<F::Addr>>,
    walked: &mut Vec<F::Addr>,
    ports: &Ports<F>,
    port: usize,
    group: F::Addr,
) -> Result<(), AllocError>
    requires walked { AllByRecursion
        (HaveRptsOf port ports.now.records (map (event_seen F.bytes_of) marks.old.items))
        (map F.bytes_of walked.old.items) }
    ensures rpts { OnOk result (AddRptsOf port ports.now.records (F.bytes_of group)
        (map (event_seen F.bytes_of) marks.old.items)
        (map (event_seen F.bytes_of) marks.new.items)) }
    ensures walked { OnOk result (AllByRecursion
        (HaveRptsOf port ports.now.records (map (event_seen F.bytes_of) marks.new.items))
        (map F.bytes_of walked.new.items)) }
{
    if is_among::<F>(walked, group) {
        return Ok(());
    }
    push_rpts::<F>(marks, ports, port, group, What::Source(greatest::<F>()))?;
    walked.push(group)?;
    Ok(())
}

/// Appends the marks of the (S,G,rpt) machines that a set reaches by a Join(*,G), unless they are
/// there.
fn push_set<F: Family>(
    marks: &mut Vec<Event<F::Addr>>,
    walked: &mut Vec<F::Addr>,
    ports: &Ports<F>,
    port: usize,
    routes: &Routes<F>,
    set: &SetView<'_, F>,
) -> Result<(), AllocError>
    requires walked { AllByRecursion
        (HaveRptsOf port ports.now.records (map (event_seen F.bytes_of) marks.old.items))
        (map F.bytes_of walked.old.items) }
    ensures stars { OnOk result (AddStarsOf port ports.now.records
        (set_events (rp_of F.family routes.now) set.now)
        (map (event_seen F.bytes_of) marks.old.items)
        (map (event_seen F.bytes_of) marks.new.items)) }
    ensures walked { OnOk result (AllByRecursion
        (HaveRptsOf port ports.now.records (map (event_seen F.bytes_of) marks.new.items))
        (map F.bytes_of walked.new.items)) }
{
    let group = set.group();
    if !has_star_join::<F>(routes, group, set.joined()) {
        return Ok(());
    }
    push_group::<F>(marks, walked, ports, port, group)
}

/// The marks of the held (S,G,rpt) machines that a message reaches by a Join(*,G). It walks once
/// through those of each group. An error if memory is refused.
pub(crate) fn star_marks<F: Family>(
    alloc: Global,
    ports: &Ports<F>,
    port: usize,
    message: &JpView<'_, F>,
    routes: &Routes<F>,
) -> Result<Vec<Event<F::Addr>>, AllocError>
    ensures { IfOk result (λ marks. AreStarMarks port
        (events_of (rp_of F.family routes.now) message.now)
        ports.now.records (map (event_seen F.bytes_of) marks.items)) }
{
    let mut marks = Vec::new(alloc);
    let mut walked = Vec::new(alloc);
    for set in message.sets() {
        push_set::<F>(&mut marks, &mut walked, ports, port, routes, &set)?;
    }
    Ok(marks)
}
