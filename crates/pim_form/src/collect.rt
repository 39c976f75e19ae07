//! The form of what one port wants, in one pass over its records.

ghost use Rattle.std.specs.Prelude.{◌≡◌, ◌||◌, ◌++◌, ◌∷◌, [], true, List, length, OnOk, IfOk};
ghost use Rattle.pim_down.specs.Seen.{record_of_seen, what_seen};
ghost use Rattle.pim_form.specs.NormalForm.{GroupForm, IsFormOf};
ghost use Rattle.pim_form.specs.Rows.{exceptions_of, place_seen};
ghost use Rattle.pim_form.specs.Drafts.{IsDraft, IsLast, Becomes};
ghost use Rattle.pim_form.specs.Collect.{fresh, with_exception, added, Takes, closed, wants_at};
ghost use Rattle.pim_form.specs.Collect.{collected, of_port};

use crate::form::NormalForm;
use crate::place::GroupPlace;
use crate::wanting::{is_joined, is_pruned};
use pim_addr::Family;
use pim_down::{Ports, Record, What};
use std::alloc::{AllocError, Global};

/// Appends a source to the last group, which has no exceptions yet.
fn add_source<F: Family>(
    row: &mut Vec<F::Addr>,
    group: &mut GroupPlace<F::Addr>,
    source: F::Addr,
) -> Result<(), AllocError>
    requires last { IsLast (length row.old.items) group.old }
    requires none { exceptions_of (place_seen F.bytes_of row.old.items group.old).star ≡ [] }
    ensures { OnOk result (Becomes F.bytes_of row.old.items row.new.items group.new (record {
      group = (place_seen F.bytes_of row.old.items group.old).group;
      star = (place_seen F.bytes_of row.old.items group.old).star;
      sources = (place_seen F.bytes_of row.old.items group.old).sources ++ F.bytes_of source ∷ [];
    })) }
{
    row.push(source)?;
    group.sources_end = row.len();
    group.exceptions_start = row.len();
    group.exceptions_end = row.len();
    Ok(())
}

/// Appends an exception to the last group, which has a star.
fn add_exception<F: Family>(
    row: &mut Vec<F::Addr>,
    group: &mut GroupPlace<F::Addr>,
    source: F::Addr,
) -> Result<(), AllocError>
    requires last { IsLast (length row.old.items) group.old }
    requires star { group.old.starred ≡ true }
    ensures { OnOk result (Becomes F.bytes_of row.old.items row.new.items group.new (record {
      group = (place_seen F.bytes_of row.old.items group.old).group;
      star = with_exception (F.bytes_of source)
          (place_seen F.bytes_of row.old.items group.old).star;
      sources = (place_seen F.bytes_of row.old.items group.old).sources;
    })) }
{
    row.push(source)?;
    group.exceptions_end = row.len();
    Ok(())
}

/// Adds a record to the last group. In key order (*,G) comes first, then (S,G), then (S,G,rpt).
fn add<F: Family>(
    row: &mut Vec<F::Addr>,
    group: &mut GroupPlace<F::Addr>,
    held: &Record<F::Addr>,
) -> Result<(), AllocError>
    requires last { IsLast (length row.old.items) group.old }
    requires takes { Takes (what_seen F.bytes_of held.now.key.what)
        (place_seen F.bytes_of row.old.items group.old) }
    ensures { OnOk result (Becomes F.bytes_of row.old.items row.new.items group.new
        (added (record_of_seen F.bytes_of held.now)
        (place_seen F.bytes_of row.old.items group.old))) }
{
    let state = Some(held.machine.state);
    match held.key.what {
        What::Star => {
            group.starred |= is_joined(state);
        }
        What::Source(source) => {
            if is_joined(state) {
                return add_source::<F>(row, group, source);
            }
        }
        What::Rpt(source) => {
            if group.starred && is_pruned(state) {
                return add_exception::<F>(row, group, source);
            }
        }
    }
    Ok(())
}

/// Begins a group with its first record.
fn begin<F: Family>(
    row: &mut Vec<F::Addr>,
    held: &Record<F::Addr>,
) -> Result<GroupPlace<F::Addr>, AllocError>
    ensures { IfOk result (λ group. Becomes F.bytes_of row.old.items row.new.items group
        (added (record_of_seen F.bytes_of held.now) (fresh (F.bytes_of held.now.key.group)))) }
{
    let mut group = GroupPlace {
        group: held.key.group,
        starred: false,
        sources_start: row.len(),
        sources_end: row.len(),
        exceptions_start: row.len(),
        exceptions_end: row.len(),
    };
    add::<F>(row, &mut group, held)?;
    Ok(group)
}

/// Ends a group: the form gets it if it has a star or a source.
fn close<F: Family>(
    places: &mut Vec<GroupPlace<F::Addr>>,
    group: &GroupPlace<F::Addr>,
) -> Result<(), AllocError>
    ensures { OnOk result ((row : List F.Addr) (form : List GroupForm)
        → IsLast (length row) group.now →
        IsDraft F.bytes_of row places.old.items form →
        IsDraft F.bytes_of row places.new.items (form
        ++ closed (place_seen F.bytes_of row group.now))) }
{
    if group.starred || group.sources_start < group.sources_end {
        places.push(*group)?;
    }
    Ok(())
}

/// Appends the groups of one port to a form under construction, which has no group yet.
fn push_port<F: Family>(
    row: &mut Vec<F::Addr>,
    places: &mut Vec<GroupPlace<F::Addr>>,
    ports: &Ports<F>,
    port: usize,
) -> Result<(), AllocError>
    requires { places.old.items ≡ [] }
    ensures { OnOk result (IsDraft F.bytes_of row.new.items places.new.items
        (collected (of_port port ports.now))) }
{
    ports.is_sound();
    let mut records = ports.records_on(port);
    let Some(first) = records.next() else {
        return Ok(());
    };
    row.reserve(ports.count_on(port))?;
    let mut group = begin::<F>(row, &first)?;
    for record in records {
        if record.key.group == group.group {
            add::<F>(row, &mut group, &record)?;
        } else {
            close::<F>(places, &group)?;
            group = begin::<F>(row, &record)?;
        }
    }
    close::<F>(places, &group)?;
    Ok(())
}

/// The form of what one port wants. The only refusal is for lack of memory.
pub(crate) fn collect<F: Family>(
    alloc: Global,
    ports: &Ports<F>,
    port: usize,
) -> Result<NormalForm<F>, AllocError>
    ensures { IfOk result (λ form. IsFormOf F.family (wants_at port ports.now) form) }
{
    ports.is_sound();
    pim_down::laws::keys_are_distinct();
    let mut row = Vec::new(alloc);
    let mut places = Vec::new(alloc);
    push_port::<F>(&mut row, &mut places, ports, port)?;
    Ok(NormalForm { row, places })
}
