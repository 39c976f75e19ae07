//! The parameters of a writer of messages.

ghost use Rattle.std.specs.Prelude.{◌≡◌, ℕ};
ghost use Rattle.pim_addr.specs.Faults.{judged};
ghost use Rattle.pim_form.specs.Messages.{IsWriting};
ghost use Rattle.pim_form.specs.Writer.{has_bad_address, writer_faults};
ghost use Rattle.pim_form.specs.Seen.{writing_seen};

use pim_addr::Family;
use std::marker::Model;
use thiserror::Error;

/// The least holdtime in seconds. It exceeds the longest J/P_Override_Interval(I), 98,302 ms.
const LEAST_HOLDTIME: u16 = 99;

/// The least budget in bytes: an IPv6 message with one star.
const LEAST_BUDGET: usize = 70;

/// The greatest budget in bytes.
const MOST_BUDGET: usize = 65_000;

/// Why there is no such writer. If there are several causes, the first in this order is returned.
#[derive(Clone, Copy, Debug, PartialEq, Eq, Error)]
pub enum WriterFault {
    /// An address isn't a valid source, or both are the same.
    #[error("address")]
    Address,
    /// The holdtime is below 99 s.
    #[error("holdtime")]
    Holdtime,
    /// The budget isn't 70 to 65,000 bytes.
    #[error("budget")]
    Budget,
}

/// The parameters of messages: the upstream neighbour, the own address, the holdtime and the
/// budget.
#[derive(Drop)]
pub struct Writer<F: Family> {
    upstream: F::Addr,
    own: F::Addr,
    holdtime: u16,
    budget: usize,
}

impl<F: Family> Model for Writer<F> {
    ghost use Rattle.pim_form.specs.Messages.{Writing, IsWriting};

    ghost Value = { Writing };

    ghost use Rattle.pim_form.specs.Seen.{writing_seen};

    ghost view = { λ w. writing_seen F.bytes_of w.upstream w.own w.holdtime w.budget };

    ghost invariant = { λ w. IsWriting F.family
        (writing_seen F.bytes_of w.upstream w.own w.holdtime w.budget) };
}

/// Whether an address isn't a valid source, or both are the same.
fn has_bad_address<F: Family>(upstream: F::Addr, own: F::Addr) -> bool
    ensures { (holdtime budget : ℕ) →
        result ≡ has_bad_address F.family (writing_seen F.bytes_of upstream own holdtime budget) }
{
    !F::is_source(upstream) || !F::is_source(own) || own == upstream
}

impl<F: Family> Writer<F> {
    /// Returns a writer with these values, or their first fault. The addresses are different valid
    /// sources. The holdtime is 99 to 65,535 s, where 65,535 means forever. The budget is 70 to
    /// 65,000 bytes of a PIM message.
    pub fn new(
        upstream: F::Addr,
        own: F::Addr,
        holdtime: u16,
        budget: usize,
    ) -> Result<Self, WriterFault>
        ensures { result ≡ judged
            (writer_faults F.family (writing_seen F.bytes_of upstream own holdtime budget))
            (writing_seen F.bytes_of upstream own holdtime budget) }
    {
        if has_bad_address::<F>(upstream, own) {
            return Err(WriterFault::Address);
        }
        if holdtime < LEAST_HOLDTIME {
            return Err(WriterFault::Holdtime);
        }
        if budget < LEAST_BUDGET || MOST_BUDGET < budget {
            return Err(WriterFault::Budget);
        }
        F::address_has_its_bytes(upstream);
        F::address_has_its_bytes(own);
        Ok(Writer {
            upstream,
            own,
            holdtime,
            budget,
        })
    }

    /// Returns the upstream neighbour that the messages are for.
    pub fn upstream(&self) -> F::Addr
        ensures { F.bytes_of result ≡ self.now.upstream }
    {
        self.upstream
    }

    /// Returns the address that the messages are sent from.
    pub fn own(&self) -> F::Addr
        ensures { F.bytes_of result ≡ self.now.own }
    {
        self.own
    }

    /// Returns the holdtime of the messages in seconds; 65,535 means forever.
    pub fn holdtime(&self) -> u16
        ensures { result ≡ self.now.holdtime }
    {
        self.holdtime
    }

    /// Returns the most bytes of a message, PIM header included.
    pub fn budget(&self) -> usize
        ensures { result ≡ self.now.budget }
    {
        self.budget
    }

    /// A law: the values of a writer are in their ranges. It does nothing.
    pub fn is_writing(&self)
        ensures { IsWriting F.family self.now }
    {
        let _budget = self.budget;
    }
}
