//! The commands on messages to an upstream neighbour: `messages`, `keep`, `change` and `same`.

ghost use Rattle.std.specs.Prelude.{◌≡◌, ◌≢◌, ◌++◌, true, false, ℕ, List, codes, Option, Some, Err};
ghost use Rattle.std.specs.Prelude.{is_some};
ghost use Rattle.std.specs.Prelude.{IfOk, IfSome, IfNone};
ghost use Rattle.pim_device.specs.Device.{AppendsAll, failures_after};
ghost use Rattle.pim_addr.specs.Routes.{rp_of};
ghost use Rattle.pim_form.specs.Toward.{via_of, is_toward};
ghost use Rattle.pim_report.specs.MessageText.{messages_text};
ghost use Rattle.pim_answers.specs.Answered.{Wrote};
ghost use Rattle.pim_answers.specs.Demanding.{has_other_family, writer_of, AnswersMessages};
ghost use Rattle.pim_report.specs.SameLine.{same_line};
ghost use Rattle.pim_answers.specs.Demanding.{AnswersFound};
ghost use Rattle.pim_answers.specs.Demanding.{SaysChange, SaysSame, IfUsable, AreCompared};
ghost use Rattle.pim_answers.specs.DemandingSeen.{AreEnds, MakesWriter, form_fault_line, made_text};
ghost use Rattle.pim_answers.specs.DemandingSeen.{same_text, SaysBig};
ghost use Rattle.pim_answers.specs.DemandingSeen.{IsDemandNow, IsKeptForm, IsUsed, has_same_tables};
ghost use Rattle.pim_answers.specs.Kept.{Kept as KeptSeen};
ghost use Rattle.pim_answers.specs.Lines.{ok_line, fault_line};
ghost use Rattle.pim_answers.specs.StoreSeen.{form_seen, store_seen, IsFound};

use crate::fault::{AnswerFault, write_fault, write_ok};
use crate::kept::{FoundForm, KeptForm, KeptForms, have_their_rps, stars_of};
use pim_addr::{Drain, Failed, Family, Routes, write_all};
use pim_form::{FormFault, Messages, NormalForm, Writer, is_toward, pack};
use pim_lines::{Shown, of_family};
use pim_report::{same_line, write_messages};
use pim_request::{AnyWriting, Comparison, KeptWhat};
use pim_router::Router;
use std::alloc::{AllocError, Global};

/// The addresses of a writer, in the router's family.
#[derive(Clone, Copy, Debug)]
struct WriterEnds<A> {
    upstream: A,
    own: A,
}

/// The addresses of a writer in the family, if both are of it.
fn both_of<F: Family>(writing: &AnyWriting) -> Option<WriterEnds<F::Addr>>
    ensures ends { IfSome result (AreEnds F.bytes_of writing.now) }
    ensures same { IfSome result (λ _. has_other_family F.family writing.now ≡ false) }
    ensures other { IfNone result (has_other_family F.family writing.now ≡ true) }
{
    Some(WriterEnds {
        upstream: of_family::<F>(writing.upstream)?,
        own: of_family::<F>(writing.own)?,
    })
}

/// The writer with these addresses.
fn writer_of<F: Family>(
    ends: WriterEnds<F::Addr>,
    writing: &AnyWriting,
) -> Result<Writer<F>, AnswerFault<'static>>
    requires { AreEnds F.bytes_of writing.now ends }
    ensures { MakesWriter F.family writing.now result }
{
    match Writer::new(ends.upstream, ends.own, writing.holdtime, writing.budget) {
        Ok(writer) => Ok(writer),
        Err(_) => Err(AnswerFault::plain(b"writer address")),
    }
}

/// Writes why messages aren't made.
fn write_form_fault<F: Family, W: Drain>(answers: &mut W, fault: FormFault<F>) -> Result<(), Failed>
    ensures bytes { AppendsAll (W.contents answers.old) (W.contents answers.new) result
        (form_fault_line F.family F.bytes_of fault) }
    ensures count { W.failures answers.new ≡ failures_after (W.failures answers.old) result }
{
    match fault {
        FormFault::TooBig(group) => {
            let group = Shown::address::<F>(group);
            write_fault(answers, &AnswerFault::with_name(b"too big ", group.text()))
        }
        FormFault::Memory => write_fault(answers, &AnswerFault::memory()),
        FormFault::Tables => write_fault(answers, &AnswerFault::plain(b"tables")),
    }
}

/// Writes the lines of messages and `ok`.
fn write_all_messages<W: Drain>(answers: &mut W, messages: &Messages) -> Result<(), Failed>
    ensures bytes { AppendsAll (W.contents answers.old) (W.contents answers.new) result
        (messages_text messages.now ++ ok_line) }
    ensures count { W.failures answers.new ≡ failures_after (W.failures answers.old) result }
{
    write_messages(answers, messages)?;
    write_ok(answers)
}

/// Writes the lines of messages, or why they aren't made.
fn write_made<F: Family, W: Drain>(
    answers: &mut W,
    made: Result<Messages, FormFault<F>>,
) -> Result<(), Failed>
    ensures bytes { AppendsAll (W.contents answers.old) (W.contents answers.new) result
        (made_text F.family F.bytes_of made) }
    ensures count { W.failures answers.new ≡ failures_after (W.failures answers.old) result }
{
    match made {
        Ok(messages) => write_all_messages(answers, &messages),
        Err(fault) => write_form_fault::<F, W>(answers, fault),
    }
}

/// Answers `messages`: the canonical messages to the upstream neighbour.
///
/// # Errors
/// The device failed: a prefix of the answer was written.
pub fn answer_messages<F: Family, W: Drain>(
    alloc: Global,
    router: &Router<'_, F>,
    writing: &AnyWriting,
    answers: &mut W,
) -> Result<(), Failed>
    ensures reported { Wrote (AnswersMessages F.family writing.now router.now)
        (W.contents answers.old) (W.contents answers.new) result }
    ensures count { W.failures answers.new ≡ failures_after (W.failures answers.old) result }
{
    let Some(ends) = both_of::<F>(writing) else {
        return write_fault(answers, &AnswerFault::family());
    };
    match writer_of::<F>(ends, writing) {
        Ok(writer) => write_made::<F, W>(answers, router.canonical(alloc, &writer)),
        Err(fault) => write_fault(answers, &fault),
    }
}

/// What is asked of a neighbour now, with the RPs of its stars.
fn demand_now<F: Family>(
    alloc: Global,
    router: &Router<'_, F>,
    upstream: F::Addr,
) -> Result<KeptForm<F>, AllocError>
    ensures { IfOk result (IsDemandNow F.family F.bytes_of (F.bytes_of upstream) router.now) }
{
    let form = NormalForm::toward(alloc, router.ports(), router.routes(), upstream)?;
    let stars = stars_of::<F>(alloc, &form, router.routes())?;
    Ok(KeptForm { form, stars })
}

/// The form that `keep` keeps: that of what is asked of a neighbour now, with the RPs of its stars.
///
/// # Errors
/// The first of these faults: the neighbour is of another family, the name lacks a place, or memory
/// is refused.
pub fn form_to_keep<'c, F: Family>(
    alloc: Global,
    router: &Router<'_, F>,
    store: &KeptForms,
    command: &KeptWhat<'c>,
) -> Result<KeptForm<F>, AnswerFault<'c>>
    ensures { IsKeptForm F.family F.bytes_of command.now router.now (store_seen store.now) result }
{
    let Some(upstream) = of_family::<F>(command.upstream) else {
        return Err(AnswerFault::family());
    };
    if store.lacks_place(command.name) {
        return Err(AnswerFault::with_name(b"name ", command.name));
    }
    match demand_now::<F>(alloc, router, upstream) {
        Ok(form) => Ok(form),
        Err(_) => Err(AnswerFault::memory()),
    }
}

/// The kept form, if it is asked of the neighbour alone by this table, and its stars have the same
/// RPs.
fn usable<'s, F: Family>(
    kept: &'s KeptForm<F>,
    routes: &Routes<F>,
    upstream: F::Addr,
) -> Option<&'s NormalForm<F>>
    ensures some { IfSome result
        (λ form. IsUsed F.family F.bytes_of routes.now (F.bytes_of upstream) kept.now form.now) }
    ensures none { IfNone result
        (has_same_tables F.family F.bytes_of routes.now (F.bytes_of upstream) kept.now ≡ false) }
{
    if !is_toward::<F>(&kept.form, routes, upstream) {
        return None;
    }
    if have_their_rps::<F>(&kept.stars, routes) {
        Some(&kept.form)
    } else {
        None
    }
}

/// Writes that what is kept can't be compared.
fn write_tables<W: Drain>(answers: &mut W) -> Result<(), Failed>
    ensures bytes { AppendsAll (W.contents answers.old) (W.contents answers.new) result
        (fault_line (codes "tables")) }
    ensures count { W.failures answers.new ≡ failures_after (W.failures answers.old) result }
{
    write_fault(answers, &AnswerFault::plain(b"tables"))
}

/// Writes the messages of the change from the kept form to what is asked now.
fn write_change<F: Family, W: Drain>(
    alloc: Global,
    router: &Router<'_, F>,
    kept: &KeptForm<F>,
    writer: &Writer<F>,
    answers: &mut W,
) -> Result<(), Failed>
    ensures reported { (name : List ℕ) → Wrote
        (IfUsable F.family router.now writer.now.upstream
        (SaysChange F.family writer.now router.now)
        (form_seen F.family F.bytes_of name kept.now)) (W.contents answers.old)
        (W.contents answers.new) result }
    ensures count { W.failures answers.new ≡ failures_after (W.failures answers.old) result }
{
    let Some(form) = usable::<F>(kept, router.routes(), writer.upstream()) else {
        return write_tables(answers);
    };
    write_made::<F, W>(answers, router.triggered(alloc, form, writer))
}

/// Writes the messages of the change from what was found to what is asked now.
fn change_found<F: Family, W: Drain>(
    alloc: Global,
    router: &Router<'_, F>,
    found: &FoundForm<'_, F>,
    writer: &Writer<F>,
    answers: &mut W,
) -> Result<(), Failed>
    ensures reported { (name : List ℕ) (known : KeptSeen) →
        IsFound F.family F.bytes_of name found.now (Some known) → Wrote
        (IfUsable F.family router.now writer.now.upstream
        (SaysChange F.family writer.now router.now) known)
        (W.contents answers.old) (W.contents answers.new) result }
    ensures count { W.failures answers.new ≡ failures_after (W.failures answers.old) result }
{
    match found {
        FoundForm::Form(kept) => write_change::<F, W>(alloc, router, kept, writer, answers),
        _ => write_tables(answers),
    }
}

/// Whether something is kept under the name.
fn is_known<F: Family>(found: &FoundForm<'_, F>) -> bool
    ensures { (name : List ℕ) (kept : Option KeptSeen)
        → IsFound F.family F.bytes_of name found.now kept →
        result ≡ is_some kept }
{
    match found {
        FoundForm::Unknown => false,
        _ => true,
    }
}

/// Answers `change`, with what was found under the name of the command.
///
/// # Errors
/// The device failed: a prefix of the answer was written.
pub fn answer_change<F: Family, W: Drain>(
    alloc: Global,
    router: &Router<'_, F>,
    found: &FoundForm<'_, F>,
    command: &Comparison<'_>,
    answers: &mut W,
) -> Result<(), Failed>
    ensures reported { (kept : Option KeptSeen) →
        IsFound F.family F.bytes_of command.now.name.now found.now kept → Wrote
        (AnswersFound F.family command.now router.now
        (SaysChange F.family (writer_of command.now.writing) router.now) kept)
        (W.contents answers.old) (W.contents answers.new) result }
    ensures count { W.failures answers.new ≡ failures_after (W.failures answers.old) result }
{
    let Some(ends) = both_of::<F>(&command.writing) else {
        return write_fault(answers, &AnswerFault::family());
    };
    if !is_known::<F>(found) {
        return write_fault(answers, &AnswerFault::with_name(b"name ", command.name));
    }
    match writer_of::<F>(ends, &command.writing) {
        Ok(writer) => change_found::<F, W>(alloc, router, found, &writer, answers),
        Err(fault) => write_fault(answers, &fault),
    }
}

/// Whether the canonical messages of a form and those of what is asked now are the same bytes. A
/// star that is too big is the fault, also where memory is refused.
fn is_same<F: Family>(
    alloc: Global,
    router: &Router<'_, F>,
    form: &NormalForm<F>,
    writer: &Writer<F>,
) -> Result<bool, FormFault<F>>
    requires { is_toward (rp_of F.family router.now.routes) (via_of F.family router.now.routes)
        writer.now.upstream form.now ≡ true }
    ensures same { IfOk result (AreCompared F.family writer.now form.now router.now) }
    ensures big { SaysBig F.family F.bytes_of writer.now form.now router.now result }
    ensures tables { result ≢ Err FormFault.Tables }
{
    let before = pack::<F>(alloc, form, writer, router.routes());
    if let Err(FormFault::TooBig(group)) = &before {
        return Err(FormFault::TooBig(*group));
    }
    let now = router.canonical(alloc, writer)?;
    Ok(before?.same_bytes(&now))
}

/// Writes `same` or `different`, and `ok`.
fn write_comparison<W: Drain>(answers: &mut W, same: bool) -> Result<(), Failed>
    ensures bytes { AppendsAll (W.contents answers.old) (W.contents answers.new) result
        (same_line same ++ ok_line) }
    ensures count { W.failures answers.new ≡ failures_after (W.failures answers.old) result }
{
    write_all(answers, same_line(same))?;
    write_ok(answers)
}

/// Writes `same` or `different`, or why messages aren't made.
fn write_compared<F: Family, W: Drain>(
    answers: &mut W,
    compared: Result<bool, FormFault<F>>,
) -> Result<(), Failed>
    ensures bytes { AppendsAll (W.contents answers.old) (W.contents answers.new) result
        (same_text F.family F.bytes_of compared) }
    ensures count { W.failures answers.new ≡ failures_after (W.failures answers.old) result }
{
    match compared {
        Ok(same) => write_comparison(answers, same),
        Err(fault) => write_form_fault::<F, W>(answers, fault),
    }
}

/// Writes whether what was kept is what is asked now.
fn write_same<F: Family, W: Drain>(
    alloc: Global,
    router: &Router<'_, F>,
    kept: &KeptForm<F>,
    writer: &Writer<F>,
    answers: &mut W,
) -> Result<(), Failed>
    ensures reported { (name : List ℕ) → Wrote
        (IfUsable F.family router.now writer.now.upstream (SaysSame F.family writer.now router.now)
        (form_seen F.family F.bytes_of name kept.now)) (W.contents answers.old)
        (W.contents answers.new) result }
    ensures count { W.failures answers.new ≡ failures_after (W.failures answers.old) result }
{
    let Some(form) = usable::<F>(kept, router.routes(), writer.upstream()) else {
        return write_tables(answers);
    };
    write_compared::<F, W>(answers, is_same::<F>(alloc, router, form, writer))
}

/// Writes whether what was found is what is asked now.
fn same_found<F: Family, W: Drain>(
    alloc: Global,
    router: &Router<'_, F>,
    found: &FoundForm<'_, F>,
    writer: &Writer<F>,
    answers: &mut W,
) -> Result<(), Failed>
    ensures reported { (name : List ℕ) (known : KeptSeen) →
        IsFound F.family F.bytes_of name found.now (Some known) → Wrote
        (IfUsable F.family router.now writer.now.upstream (SaysSame F.family writer.now router.now)
        known)
        (W.contents answers.old) (W.contents answers.new) result }
    ensures count { W.failures answers.new ≡ failures_after (W.failures answers.old) result }
{
    match found {
        FoundForm::Form(kept) => write_same::<F, W>(alloc, router, kept, writer, answers),
        _ => write_tables(answers),
    }
}

/// Answers `same`, with what was found under the name of the command.
///
/// # Errors
/// The device failed: a prefix of the answer was written.
pub fn answer_same<F: Family, W: Drain>(
    alloc: Global,
    router: &Router<'_, F>,
    found: &FoundForm<'_, F>,
    command: &Comparison<'_>,
    answers: &mut W,
) -> Result<(), Failed>
    ensures reported { (kept : Option KeptSeen) →
        IsFound F.family F.bytes_of command.now.name.now found.now kept → Wrote
        (AnswersFound F.family command.now router.now
        (SaysSame F.family (writer_of command.now.writing) router.now) kept)
        (W.contents answers.old) (W.contents answers.new) result }
    ensures count { W.failures answers.new ≡ failures_after (W.failures answers.old) result }
{
    let Some(ends) = both_of::<F>(&command.writing) else {
        return write_fault(answers, &AnswerFault::family());
    };
    if !is_known::<F>(found) {
        return write_fault(answers, &AnswerFault::with_name(b"name ", command.name));
    }
    match writer_of::<F>(ends, &command.writing) {
        Ok(writer) => same_found::<F, W>(alloc, router, found, &writer, answers),
        Err(fault) => write_fault(answers, &fault),
    }
}
