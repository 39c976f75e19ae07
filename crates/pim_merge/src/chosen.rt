//! Reads the records of any container in one or several files, by a choice of records.
//!
//! Each record gives one event (`taker`), and so does one inside which the file ends. Sections,
//! interfaces and blocks of other types give nothing.
//!
//! At the end of a file the next one is read, whose beginning is an event of its own. The devices
//! of all files stay, so that no failure of a read is forgotten.

ghost use Rattle.std.specs.Prelude.{◌≡◌, ◌+◌, ◌≤◌, ◌⊎◌, ⊤, Some, Ok, Err, IfOk, option_map};
ghost use Rattle.std.specs.Prelude.{◌<◌, [], None, length, vec_capacity, vec_len, is_err};
ghost use Rattle.std.specs.Prelude.{true, false, List, ℕ, ◌∷◌, ◌*◌};
ghost use Rattle.std.specs.Option.{IfSome};
ghost use Rattle.pim_addr.specs.Faults.{Answers};
ghost use Rattle.pim_capture.specs.declared.fault.CaptureFault.TheVariants.{Memory};
ghost use Rattle.pim_capture.specs.Capture.{packet, most_captured};
ghost use Rattle.pim_capture.specs.Next.{event_seen, seen, PayloadLiesIn, IsBy, latest_moment};
ghost use Rattle.pim_capture.specs.Next.{IsNext, IsRefusal, CountsReads, OnMemory};
ghost use Rattle.pim_capture.specs.Seen.{ip_seen, LiesIn, IsShort};
ghost use Rattle.pim_container.specs.Choice.{choice_of, first_of, judge_origin, first_after};
ghost use Rattle.pim_container.specs.declared.reader.ReaderState.TheVariants.{Unbegun};
ghost use Rattle.pim_container.specs.Room.{needs_in};
ghost use Rattle.pim_container.specs.EventSeen as any;
ghost use Rattle.pim_merge.specs.Chosen.{fault_of, is_cut};
ghost use Rattle.pim_merge.specs.Chosen.{answers_of_files, all_known, all_failures};
ghost use Rattle.pim_merge.specs.Source.{chosen_coming, chosen_failures, chosen_left};
ghost use Rattle.pim_merge.specs.Source.{Steps, step_count, count_of, read_coming};
ghost use Rattle.pim_merge.specs.Source.{coming_at_end, is_end};
ghost use Rattle.pim_merge.specs.Source.{chosen_is_over, IsRepeatedIf, failed};
ghost use Rattle.pim_merge.specs.Source.{piece_capacity, places, read_needs, chosen_needs};
ghost use Rattle.pim_merge.specs.Source.{PassesNeeds, IsLonger, ReadAllocates, ChosenAllocates};
ghost use Rattle.pim_merge.specs.Source.{GrowsWithin, read_held, StaysHeld};
ghost use Rattle.pim_merge.specs.Source.{chosen_held, first_held};
ghost use Rattle.pim_merge.specs.Taker.{taker_of};

use crate::taker::Taker;
use pim_addr::Feed;
use pim_capture::{CaptureFault, Event, Why};
use pim_container::{Choice, ContainerEvent as Piece, ContainerFault, Reader};
use std::alloc::Global;

/// Any container in one or several files, of which packets are taken by a choice.
#[derive(Drop)]
pub(crate) struct Chosen<R> {
    /// The file that is read.
    reader: Reader<R>,
    /// The devices of the other files: those that were read, and then those after the present one.
    others: Vec<R>,
    /// The number of files that were read.
    files_read: usize,
    taker: Taker,
    /// The piece that was read last.
    piece: Vec<u8>,
    /// A piece of the first file was read.
    is_begun: bool,
    /// The file ended inside a piece.
    is_cut: bool,
    /// A call returned a fault.
    is_over: bool,
}

/// A fault of a container, as one of a capture.
fn fault_of(fault: ContainerFault) -> CaptureFault
    ensures { result ≡ fault_of fault }
{
    match fault {
        ContainerFault::Magic => CaptureFault::Magic,
        ContainerFault::Gzip => CaptureFault::Gzip,
        ContainerFault::LinkType(number) => CaptureFault::LinkNumber(number),
        ContainerFault::Truncated => CaptureFault::Truncated,
        ContainerFault::TooLong => CaptureFault::TooLong,
        ContainerFault::Block => CaptureFault::Block,
        ContainerFault::Time => CaptureFault::Time,
        ContainerFault::Read => CaptureFault::Read,
        ContainerFault::Memory => CaptureFault::Memory,
        ContainerFault::Failed => CaptureFault::Failed,
    }
}

/// Whether a container with this fault ended inside a piece after the first one of the first file.
fn is_cut(is_begun: bool, fault: ContainerFault) -> bool
    ensures { result ≡ is_cut is_begun fault }
{
    match fault {
        ContainerFault::Truncated => is_begun,
        _ => false,
    }
}

/// What a call returns for a fault of the container: a record that is skipped, if the file is cut.
fn failed(is_cut: bool, fault: ContainerFault) -> Result<Option<Event>, CaptureFault>
    ensures { result ≡ failed is_cut fault }
{
    if is_cut {
        Ok(Some(Event::Skipped {
            millis: 0,
            why: Why::CutShort,
        }))
    } else {
        Err(fault_of(fault))
    }
}

/// Whether an event is the end of its file.
fn is_end(event: &Piece) -> bool
    ensures { result ≡ is_end event.now }
{
    match event {
        Piece::End => true,
        _ => false,
    }
}

impl<R: Feed> Chosen<R> {
    /// The container of a device and of those after it, of which nothing was read.
    pub(crate) fn new(alloc: Global, device: R, others: Vec<R>, choice: Choice) -> Self
        ensures coming { chosen_coming R.remaining result ≡ option_map (answers_of_files choice)
            (all_known R.remaining (device ∷ others.items)) }
        ensures failures { chosen_failures R.failures result
            ≡ all_failures R.failures (device ∷ others.items) }
        ensures left { chosen_left result ≡ 12884901889 + vec_len others * 12884901890 }
        ensures over { chosen_is_over result ≡ false }
        ensures piece { piece_capacity result ≡ 0 }
        ensures places { places result ≡ 0 }
        ensures needs { chosen_needs R.remaining result
            ≡ option_map (needs_in Unbegun 0 []) (R.remaining device) }
        ensures held { chosen_held R.remaining result ≡ first_held choice (R.remaining device) }
    {
        Chosen {
            reader: Reader::new(alloc, device),
            others,
            files_read: 0,
            taker: Taker::new(alloc, choice),
            piece: Vec::new(alloc),
            is_begun: false,
            is_cut: false,
            is_over: false,
        }
    }

    /// Goes on with the next file. Without one the event is the end.
    fn go_on(&mut self) -> Event
        requires link { self.old.taker.link_of_packet ≡ None }
        requires reported { self.old.taker.is_reported ≡ true }
        ensures answer { (bytes : List ℕ) → IsNext (coming_at_end R.remaining self.old)
            (Ok (event_seen bytes result)) (read_coming R.remaining self.new) }
        ensures reads { chosen_failures R.failures self.new ≡ chosen_failures R.failures self.old }
        ensures left { chosen_left self.new + step_count (Ok (Some result)) ≤ chosen_left self.old }
        ensures payload { (bytes : List ℕ) → PayloadLiesIn bytes result }
        ensures moment { IsBy latest_moment result }
        ensures piece { piece_capacity self.new ≡ piece_capacity self.old }
    {
        if self.others.len() <= self.files_read {
            return Event::End;
        }
        self.reader.exchange(&mut self.others[self.files_read]);
        self.files_read += 1;
        self.taker.go_on();
        self.is_begun = true;
        self.is_cut = false;
        Event::Skipped {
            millis: 0,
            why: Why::NextFile,
        }
    }

    /// Reads one piece. Returns its event, if it is a record or the end of a file. A file that ends
    /// inside a piece has a last record that is skipped, and then its end. The first piece of the
    /// first file is a fault then.
    fn step(&mut self, buffer: &mut Vec<u8>) -> Result<Option<Event>, CaptureFault>
        requires length { vec_len buffer.old ≤ most_captured }
        ensures answer { Steps (chosen_failures R.failures self.old)
            (chosen_failures R.failures self.new) (read_coming R.remaining self.old)
            (read_coming R.remaining self.new) buffer.new.items result }
        ensures reads { CountsReads ⊤ (chosen_failures R.failures self.old)
            (chosen_failures R.failures self.new) result }
        ensures left { chosen_left self.new + step_count result ≤ chosen_left self.old }
        ensures memory { OnMemory result
            (ReadAllocates R.remaining (vec_capacity buffer.old) self.old) }
        ensures piece { GrowsWithin (piece_capacity self.old) (piece_capacity self.new)
            (read_needs R.remaining self.old) }
        ensures needs { IfOk result (λ it. it ≡ None →
            PassesNeeds (read_needs R.remaining self.old) (read_needs R.remaining self.new)) }
        ensures held { IfOk result (λ it. it ≡ None →
            StaysHeld (read_held R.remaining self.old) (read_held R.remaining self.new)) }
        ensures rooms { IfOk result (λ it. it ≡ None →
            (piece_capacity self.old ≤ piece_capacity self.new)
            × (places self.old ≤ places self.new)
            × (vec_capacity buffer.old ≤ vec_capacity buffer.new)) }
        ensures payload { IfOk result (λ it. IfSome it (PayloadLiesIn buffer.new.items)) }
        ensures moment { IfOk result (λ it. IfSome it (IsBy latest_moment)) }
        ensures length { vec_len buffer.new ≤ most_captured }
    {
        if let Some(report) = self.taker.report() {
            return Ok(Some(report));
        }
        if self.is_cut {
            return Ok(Some(self.go_on()));
        }
        let event = match self.reader.next(&mut self.piece) {
            Ok(event) => event,
            Err(fault) => {
                let cut = is_cut(self.is_begun, fault);
                self.is_cut = cut;
                return failed(cut, fault);
            }
        };
        self.is_begun = true;
        let is_last = is_end(&event);
        let event = self.taker.take(event, self.piece.as_slice(), buffer)?;
        if is_last {
            return Ok(Some(self.go_on()));
        }
        Ok(event)
    }

    /// Reads up to the next record, or the end of a file.
    ///
    /// # Errors
    /// The first fault of the container, or packets of more than one link where none is chosen.
    fn read_on(&mut self, buffer: &mut Vec<u8>) -> Result<Event, CaptureFault>
        requires length { vec_len buffer.old ≤ most_captured }
        ensures answer { IsRefusal (chosen_failures R.failures self.old)
            (chosen_failures R.failures self.new) result
            ⊎ IsNext (read_coming R.remaining self.old) (seen buffer.new.items result)
            (read_coming R.remaining self.new) }
        ensures reads { CountsReads ⊤ (chosen_failures R.failures self.old)
            (chosen_failures R.failures self.new) result }
        ensures left { chosen_left self.new + count_of result ≤ chosen_left self.old }
        ensures memory { OnMemory result
            (ReadAllocates R.remaining (vec_capacity buffer.old) self.old) }
        ensures piece { GrowsWithin (piece_capacity self.old) (piece_capacity self.new)
            (read_needs R.remaining self.old) }
        ensures payload { IfOk result (PayloadLiesIn buffer.new.items) }
        ensures moment { IfOk result (IsBy latest_moment) }
        ensures length { vec_len buffer.new ≤ most_captured }
    {
        loop {
            if let Some(event) = self.step(buffer)? {
                return Ok(event);
            }
        }
    }

    /// Reads up to the next record, or the end of a file. After a fault it reads nothing.
    ///
    /// # Errors
    /// The first fault of the container, or packets of more than one link where none is chosen.
    /// Later calls return `Failed`.
    pub(crate) fn next(&mut self, buffer: &mut Vec<u8>) -> Result<Event, CaptureFault>
        requires length { vec_len buffer.old ≤ most_captured }
        ensures answer { IsRefusal (chosen_failures R.failures self.old)
            (chosen_failures R.failures self.new) result
            ⊎ IsNext (chosen_coming R.remaining self.old) (seen buffer.new.items result)
            (chosen_coming R.remaining self.new) }
        ensures reads { CountsReads ⊤ (chosen_failures R.failures self.old)
            (chosen_failures R.failures self.new) result }
        ensures left { chosen_left self.new + count_of result ≤ chosen_left self.old }
        ensures memory { OnMemory result
            (ChosenAllocates R.remaining (vec_capacity buffer.old) self.old) }
        ensures piece { GrowsWithin (piece_capacity self.old) (piece_capacity self.new)
            (chosen_needs R.remaining self.old) }
        ensures payload { IfOk result (PayloadLiesIn buffer.new.items) }
        ensures moment { IfOk result (IsBy latest_moment) }
        ensures length { vec_len buffer.new ≤ most_captured }
        ensures over { chosen_is_over self.new ≡ is_err result }
        ensures repeated { IsRepeatedIf (chosen_is_over self.old) result }
        ensures unread { chosen_is_over self.old ≡ true → self.new ≡ self.old }
    {
        if self.is_over {
            return Err(CaptureFault::Failed);
        }
        let result = self.read_on(buffer);
        self.is_over = result.is_err();
        result
    }

    /// Calls `pass_record` of the device.
    pub(crate) fn pass_record(&mut self)
        ensures coming { chosen_coming R.remaining self.new
            ≡ chosen_coming R.remaining self.old }
        ensures failures { chosen_failures R.failures self.new
            ≡ chosen_failures R.failures self.old }
        ensures left { chosen_left self.new ≡ chosen_left self.old }
        ensures piece { piece_capacity self.new ≡ piece_capacity self.old }
        ensures places { places self.new ≡ places self.old }
        ensures needs { chosen_needs R.remaining self.new ≡ chosen_needs R.remaining self.old }
        ensures held { chosen_held R.remaining self.new ≡ chosen_held R.remaining self.old }
        ensures over { chosen_is_over self.new ≡ chosen_is_over self.old }
    {
        self.reader.pass_record();
    }
}
