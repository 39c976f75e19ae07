//! What the records of a lane are read from.

ghost use Rattle.std.specs.Prelude.{◌≡◌, ◌+◌, ◌≤◌, ◌⊎◌, IfOk, IfErr, max, vec_len, vec_capacity};
ghost use Rattle.std.specs.Prelude.{true, ℕ};
ghost use Rattle.pim_capture.specs.Capture.{most_captured};
ghost use Rattle.pim_capture.specs.Next.{seen, PayloadLiesIn, IsBy, latest_moment, LacksRoom};
ghost use Rattle.pim_capture.specs.Next.{IsNext, IsRefusal, CountsReads, OnMemory};
ghost use Rattle.pim_merge.specs.Source.{coming, failures_in, left_in, passes_over, HadAllIf};
ghost use Rattle.pim_merge.specs.Source.{AllocatesIf, store_in, GrowsWithin};
ghost use Rattle.pim_merge.specs.Source.{room_in, size_in, count_of, is_over_in, IsRepeatedIf};

use crate::chosen::Chosen;
use pim_addr::Feed;
use pim_capture::{Capture, CaptureFault, Event};

/// A classic capture, or any container of which packets are taken by a choice.
#[derive(Drop)]
pub(crate) enum Source<R> {
    /// A classic capture.
    Classic(Capture<R>),
    /// Any container.
    Any(Chosen<R>),
}

impl<R: Feed> Source<R> {
    /// Reads the next record. The buffer then has its bytes.
    ///
    /// # Errors
    /// The first fault, a failed read, or refused memory. Later calls return `Failed`.
    pub(crate) fn next(&mut self, buffer: &mut Vec<u8>) -> Result<Event, CaptureFault>
        requires length { vec_len buffer.old ≤ most_captured }
        ensures answer { IsRefusal (failures_in R.failures self.old)
            (failures_in R.failures self.new) result
            ⊎ IsNext (coming R.remaining self.old) (seen buffer.new.items result)
            (coming R.remaining self.new) }
        ensures reads { CountsReads (HadAllIf (passes_over self.old) (left_in self.old))
            (failures_in R.failures self.old) (failures_in R.failures self.new) result }
        ensures left { left_in self.new + count_of result ≤ left_in self.old }
        ensures memory { OnMemory result (LacksRoom (room_in self.old (vec_capacity buffer.old))
            (size_in R.remaining self.old)
            × AllocatesIf (passes_over self.old) (coming R.remaining self.old)
            (store_in R.remaining self.old (vec_capacity buffer.old))) }
        ensures piece { GrowsWithin
            (store_in R.remaining self.old (vec_capacity buffer.old)).piece_room
            (store_in R.remaining self.new (vec_capacity buffer.new)).piece_room
            (store_in R.remaining self.old (vec_capacity buffer.old)).needs }
        ensures room { (room_in self.new (vec_capacity buffer.new)
            ≡ room_in self.old (vec_capacity buffer.old))
            ⊎ (room_in self.new (vec_capacity buffer.new)
            ≡ max (room_in self.old (vec_capacity buffer.old)) (vec_len buffer.new)) }
        ensures length { vec_len buffer.new ≤ most_captured }
        ensures payload { IfOk result (PayloadLiesIn buffer.new.items) }
        ensures moment { IfOk result (IsBy latest_moment) }
        ensures passes { passes_over self.new ≡ passes_over self.old }
        ensures over { IfErr result (λ _. is_over_in self.new ≡ true) }
        ensures repeated { IsRepeatedIf (is_over_in self.old) result }
    {
        match self {
            Source::Classic(capture) => capture.next(buffer),
            Source::Any(chosen) => chosen.next(buffer),
        }
    }

    /// Calls `pass_record` of the reader.
    pub(crate) fn pass_record(&mut self)
        ensures coming { coming R.remaining self.new ≡ coming R.remaining self.old }
        ensures failures { failures_in R.failures self.new ≡ failures_in R.failures self.old }
        ensures left { left_in self.new ≡ left_in self.old }
        ensures passes { passes_over self.new ≡ passes_over self.old }
        ensures room { (capacity : ℕ) → room_in self.new capacity ≡ room_in self.old capacity }
        ensures over { is_over_in self.new ≡ is_over_in self.old }
        ensures size { size_in R.remaining self.new ≡ size_in R.remaining self.old }
        ensures store { (capacity : ℕ) → store_in R.remaining self.new capacity
            ≡ store_in R.remaining self.old capacity }
    {
        match self {
            Source::Classic(capture) => capture.pass_record(),
            Source::Any(chosen) => chosen.pass_record(),
        }
    }
}
