//! A legal Join/Prune message, read in place.

ghost use Rattle.std.specs.Prelude.{◌≡◌, length, IfOk};
ghost use Rattle.pim_addr.specs.Faults.{judged, Answers};
ghost use Rattle.pim_jp.specs.Message.{message_of};
ghost use Rattle.pim_jp.specs.Faults.{faults};
ghost use Rattle.pim_jp.specs.Spelling.{Spells};
ghost use Rattle.pim_jp.specs.Canonical.{IsMessage};

use crate::fault::JpFault;
use crate::reading::check_body;
use crate::sets::Sets;
use byteorder::{BigEndian, ByteOrder};
use pim_addr::{Family, unicast_length};
use std::marker::{Model, PhantomData};

/// A legal Join/Prune message (RFC 7761, 4.9.5). It borrows the body that was read.
#[derive(Drop)]
pub struct JpView<'a, F: Family> {
    body: &'a [u8],
    family: PhantomData<F>,
}

impl<'a, F: Family> Model for JpView<'a, F> {
    ghost use Rattle.pim_jp.specs.Message.{Message, message_of};
    ghost use Rattle.pim_jp.specs.Canonical.{IsMessage};
    ghost use Rattle.pim_jp.specs.Whole.{HoldsMessage};

    ghost Value = { Message };

    ghost view = { λ message. message_of F.family message.body.now };

    ghost invariant = { λ message. HoldsMessage F.family message.body.now
        × IsMessage F.family (message_of F.family message.body.now) };
}

impl<'a, F: Family> JpView<'a, F> {
    /// Reads a body: the bytes of a Join/Prune message after the PIM header. It reads once,
    /// forward.
    ///
    /// If both lists of a group set have (S,G) entries, or both have (S,G,rpt) entries, it also
    /// looks for sources in both lists. With at most 8 pruned or at most 4 joined entries it
    /// compares them pair by pair. Otherwise it sorts the sources of the shorter list on the stack
    /// and looks for the others among them. The sort calls itself at most 8 deep. In all, the stack
    /// takes at most 64 KiB: about 42 for IPv4 and 58 for IPv6.
    ///
    /// In a message of 64 KiB, n entries take about n log n steps at most. They do in a longer one
    /// whose sets each have a list of at most 4,096 entries for IPv4, or 1,640 for IPv6. Beyond
    /// that, each pruned entry is looked for once for each block of that many joined ones.
    ///
    /// # Errors
    /// The fault of least offset; of several kinds at one part, the first in the order of `JpKind`.
    pub fn read(body: &'a [u8]) -> Result<JpView<'a, F>, JpFault>
        ensures answer { Answers (λ message. message) result
            (judged (faults F.family body.now) (message_of F.family body.now)) }

        // The same by the grammar, which knows no order of reading.
        ensures spelled { IfOk result (λ message. Spells F.family message body.now) }
    {
        check_body::<F>(body)?;
        Ok(JpView {
            body,
            family: PhantomData,
        })
    }

    /// A law: the message can be spelled. Its groups are multicast groups, and its sources and RPs
    /// valid sources. Each address has the bytes of its family, and each list and number is in
    /// range. It does nothing.
    pub fn is_legal(&self)
        ensures { IsMessage F.family self.now }
    {
        let _ = &self.body;
    }

    /// The upstream neighbour to which the message is addressed.
    pub fn upstream(&self) -> F::Addr
        ensures { F.bytes_of result ≡ self.now.upstream }
    {
        let (_, address) = self.body.split_at(2);
        F::take(address)
    }

    /// The holdtime in seconds (J/P_HoldTime). 0xffff means until the state is canceled (RFC 7761,
    /// 4.9.5).
    pub fn holdtime(&self) -> u16
        ensures { result ≡ self.now.holdtime }
    {
        let (_, head) = self.body.split_at(unicast_length::<F>());
        let (_, holdtime) = head.split_at(2);
        BigEndian::read_u16(holdtime)
    }

    /// The number of group sets.
    #[tactic(auto, using(crate::proofs::Walks::sets_count))]
    pub fn set_count(&self) -> u8
        ensures { result ≡ length self.now.sets }
    {
        let (_, head) = self.body.split_at(unicast_length::<F>());
        head[1]
    }

    /// The group sets, in their order.
    pub fn sets(&self) -> Sets<'a, F>
        ensures { result ≡ self.now.sets }
    {
        let (_, head) = self.body.split_at(unicast_length::<F>());
        let (_, sets) = head.split_at(4);
        Sets::new(head[1], sets)
    }
}
