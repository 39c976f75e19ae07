//! The turns of a run over a merge, up to its end.

ghost use Rattle.std.specs.Prelude.{◌≡◌, ◌<◌, ◌≤◌, ◌^◌, List, length, IfErr};
ghost use Rattle.pim_capture.specs.Next.{latest_moment};
ghost use Rattle.pim_merge.specs.Ends.{end_moment, IsBoundedEnd};
ghost use Rattle.pim_merge.specs.Merge.{Taken};
ghost use Rattle.pim_merge.specs.Next.{MergeState, IfTaken, HoldsRecord, turns_left};
ghost use Rattle.pim_merge.specs.Next.{CountsFailures, LacksMemory, KeepsTallies, IsNumbered};
ghost use Rattle.pim_merge.specs.Lane.{tallies_of};
ghost use Rattle.pim_merge.specs.Run.{HasTaken, Advances, IsTallied};

use crate::end::End;
use crate::merge::{Merge, MergeFault, Turn};
use pim_addr::Feed;

impl<R: Feed + Drop> Merge<R> {
    /// Takes the next turn of a run; `None` if no further turn comes before its end. A caller who
    /// knows that some first turns were taken then knows it of one more, or that these were all.
    ///
    /// # Errors
    /// As in `next_by`. These were the turns before the fault.
    pub fn advance(&mut self, end: End) -> Result<Option<Turn>, MergeFault>
        ensures run { (start : MergeState) (taken : List Taken) → HasTaken end start taken self.old
            →
            Advances end start taken self.new result }
        ensures reads { CountsFailures self.old.lanes result self.new.lanes }
        ensures memory { IfErr result (LacksMemory self.old.lanes) }
        ensures moment { IfTaken result (λ next. next.moment ≤ latest_moment) }
        ensures bytes { IfTaken result (HoldsRecord self.new) }
        ensures capture { IfTaken result (λ next. next.capture < length self.new.lanes) }
        ensures lanes { length self.new.lanes ≡ length self.old.lanes }
        ensures nearer { IfTaken result (λ _. turns_left self.new < turns_left self.old) }
        ensures tallied { (start : MergeState) (taken : List Taken) →
            HasTaken end start taken self.old → IsTallied end start self.new }
        ensures tallies { KeepsTallies (tallies_of self.old.lanes) result self.new }
        ensures record { IfErr result (IsNumbered (tallies_of self.old.lanes)) }
    {
        self.next_by(end.last())
    }

    /// The moment to which a router runs at the end of its run, if it is at the moment `now` and
    /// all turns before the end were taken.
    pub fn end_moment(&self, end: End, now: u64) -> u64
        requires moment { now ≤ latest_moment }
        requires end { IsBoundedEnd end }
        ensures moment { result ≡ end_moment end self.now.clock now }
        ensures bound { result ≤ 10 ^ 15 }
    {
        match end {
            End::After(after_ms) => now + after_ms,
            End::At(time) => self.moment_at(time),
        }
    }
}
