//! A walk over the machines that differ after a message.

ghost use Rattle.std.specs.Prelude.{◌≡◌, [], ◌∷◌, map, MatchOption};
ghost use Rattle.std.specs.Iterator.{YieldsFirstBy, item_count};
ghost use Rattle.pim_transitions.specs.Affected.{kind_by, transitions_to};
ghost use Rattle.pim_transitions.specs.Affected.{candidate_seen, transition_seen};

use crate::candidate::Candidate;
use crate::same::{is_joined, same_machine};
use crate::transition::{By, Transition};
use pim_addr::Family;
use pim_down::{Machine, Near, Ports};
use std::fmt;
use std::marker::Model;

/// The kind of event that changed a machine last, by the last entry that names it and its machine
/// after the message.
fn kind_by(joins: bool, after: Option<Machine>) -> By
    ensures { result ≡ kind_by joins after }
{
    if after.is_none() {
        return if joins { By::Join } else { By::End };
    }
    if is_joined(after) {
        By::Join
    } else {
        By::Prune
    }
}

/// A transition that was found, and what is left to look at.
struct FoundChange<'a, F: Family> {
    transition: Transition<F::Addr>,
    left: &'a [Candidate<F::Addr>],
    near: Near,
}

/// The first of these candidates that differs now. The look-ups begin at a hint.
#[tactic(auto, using(crate::proofs::Candidates::changed_first, crate::proofs::Candidates::same_first))]
fn first_change<'a, F: Family>(
    candidates: &'a [Candidate<F::Addr>],
    ports: &Ports<F>,
    near: Near,
) -> Option<FoundChange<'a, F>>
    ensures { MatchOption result
        (transitions_to ports.now.records (map (candidate_seen F.bytes_of) candidates.now) ≡ [])
        (λ found. transitions_to ports.now.records (map (candidate_seen F.bytes_of) candidates.now)
        ≡ transition_seen F.bytes_of found.transition
        ∷ transitions_to ports.now.records (map (candidate_seen F.bytes_of) found.left.now)) }
{
    let mut left = candidates;
    let mut near = near;
    while let Some((candidate, rest)) = left.split_first() {
        left = rest;
        let Candidate { key, before, joins } = *candidate;
        let (after, place) = ports.machine_near(key.port, key.group, key.what, near);
        near = place;
        if !same_machine(before, after) {
            let by = kind_by(joins, after);
            let transition = Transition {
                key,
                before,
                after,
                by,
            };
            return Some(FoundChange {
                transition,
                left,
                near,
            });
        }
    }
    None
}

/// The machines that differ now, in key order. Contracts see those that are left.
#[derive(Drop)]
pub struct Changes<'a, F: Family> {
    left: &'a [Candidate<F::Addr>],
    ports: &'a Ports<F>,
    near: Near,
}

impl<'a, F: Family> Model for Changes<'a, F> {
    ghost use Rattle.std.specs.Prelude.{ℕ, List, map};
    ghost use Rattle.pim_transitions.specs.declared.transition.Transition.{Transition};
    ghost use Rattle.pim_transitions.specs.Affected.{transitions_to, candidate_seen};

    ghost Value = { List (Transition (List ℕ)) };

    ghost view = { λ changes. transitions_to changes.ports.now.records
        (map (candidate_seen F.bytes_of) changes.left.now) };
}

impl<'a, F: Family> Changes<'a, F> {
    /// Those of these candidates that differ now.
    pub(crate) fn new(candidates: &'a [Candidate<F::Addr>], ports: &'a Ports<F>) -> Self
        ensures { result ≡ transitions_to ports.now.records
            (map (candidate_seen F.bytes_of) candidates.now) }
    {
        Changes {
            left: candidates,
            ports,
            near: Near::UNKNOWN,
        }
    }
}

#[tactic(auto, using(crate::proofs::Candidates::none_left))]
impl<'a, F: Family> Iterator for Changes<'a, F> {
    type Item = Transition<F::Addr>;

    ghost next_gives = { YieldsFirstBy (transition_seen F.bytes_of) (λ changes. changes) };

    ghost remaining = { item_count (λ changes. changes) };

    fn next(&mut self) -> Option<Transition<F::Addr>> {
        match first_change::<F>(self.left, self.ports, self.near) {
            None => {
                self.left = &[];
                None
            }
            Some(found) => {
                let FoundChange {
                    transition,
                    left,
                    near,
                } = found;
                self.left = left;
                self.near = near;
                Some(transition)
            }
        }
    }
}

impl<'a, F: Family> fmt::Debug for Changes<'a, F> {
    fn fmt<W: fmt::Write>(&self, f: &mut fmt::Formatter<W>) -> fmt::Result {
        f.debug_struct("Changes")
            .field("left", &self.left.len())
            .finish()
    }
}
