//! Reads the heads of all captures, and finds the one that is taken next.

ghost use Rattle.std.specs.Prelude.{◌≡◌, ◌<◌, ◌≤◌, ℕ, List, map, length, Some, IfOk, IfErr};
ghost use Rattle.std.specs.Option.{IfSome};
ghost use Rattle.std.specs.List.{AllByRecursion};
ghost use Rattle.pim_capture.specs.Capture.{Answer};
ghost use Rattle.pim_merge.specs.Merge.{turn, fails, sooner, numbered, earliest_from, past_at};
ghost use Rattle.pim_merge.specs.Lane.{IsComing, IsLooked, head_rank, lane_at, records_to_come};
ghost use Rattle.pim_merge.specs.Lane.{KeepRooms, FailsAt};
ghost use Rattle.pim_merge.specs.Lane.{tallies_of};
ghost use Rattle.pim_merge.specs.Next.{with_fault, IsCause, CountsFailures, LacksMemory, IsFailed};
ghost use Rattle.pim_merge.specs.Next.{IsNumbered};

use crate::clock::Clock;
use crate::lane::Lane;
use crate::merge::MergeFault;
use pim_addr::Feed;
use pim_time::Time;

/// Reads the heads that weren't read, in the order of the captures.
///
/// # Errors
/// The first fault that a capture returns in place of its head.
pub(crate) fn look_at_all<R: Feed + Drop>(lanes: &mut [Lane<R>]) -> Result<(), MergeFault>
    ensures coming { IfOk result (λ _. (captures : List (List Answer)) →
        IsComing lanes.old captures → IsComing lanes.new captures) }
    ensures looked { IfOk result (λ _. AllByRecursion IsLooked lanes.new) }
    ensures fault { IfErr result (λ reported. (captures : List (List Answer))
        → IsComing lanes.old captures →
        turn (with_fault reported captures) ≡ fails reported.capture reported.fault) }
    ensures cause { IfErr result (IsCause lanes.old lanes.new) }
    ensures left { records_to_come lanes.new ≤ records_to_come lanes.old }
    ensures reads { CountsFailures lanes.old result lanes.new }
    ensures memory { IfErr result (LacksMemory lanes.old) }
    ensures rooms { KeepRooms lanes.old lanes.new }
    ensures over { IfErr result (λ reported. FailsAt reported.capture lanes.new) }
    ensures repeated { (number : ℕ) → FailsAt number lanes.old → IsFailed number result }
    ensures tallies { tallies_of lanes.new ≡ tallies_of lanes.old }
    ensures record { IfErr result (IsNumbered (tallies_of lanes.old)) }
{
    for (capture, lane) in lanes.iter_mut().enumerate() {
        if let Err(fault) = lane.look() {
            let place = lane.next_place();
            return Err(MergeFault {
                capture,
                file: place.file,
                record: place.record,
                fault,
            });
        }
    }
    Ok(())
}

/// A time with the number of its capture.
fn numbered(number: usize, time: Option<u64>) -> Option<(usize, u64)>
    ensures { result ≡ numbered number time }
{
    match time {
        Some(time) => Some((number, time)),
        None => None,
    }
}

/// The lesser of two numbered times; of equal times the first.
fn sooner(one: Option<(usize, u64)>, other: Option<(usize, u64)>) -> Option<(usize, u64)>
    ensures { result ≡ sooner one other }
{
    let Some((number, time)) = one else {
        return other;
    };
    match other {
        Some((later, least)) if least < time => Some((later, least)),
        _ => Some((number, time)),
    }
}

#[tactic(auto, using(crate::proofs::Sooner::one_head_more, crate::proofs::Sooner::no_head_more))]
/// The number of the first capture whose head has the least rank, with that rank, in a merge with
/// this clock that ends at the time `last`; `None` if no head is taken.
pub(crate) fn earliest<R: Feed + Drop>(
    lanes: &[Lane<R>],
    last: Option<Time>,
    clock: Option<Clock>,
) -> Option<(usize, u64)>
    ensures { result ≡ earliest_from 0 (map (head_rank (past_at last clock)) lanes.now) }
{
    let mut found = None;
    for (number, lane) in lanes.iter().enumerate() {
        found = sooner(found, numbered(number, lane.rank(last, clock)));
    }
    found
}
