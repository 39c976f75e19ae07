//! The list of the machines that a message may change.

ghost use Rattle.std.specs.Prelude.{◌≡◌, IfOk, map};
ghost use Rattle.pim_down.specs.Hearing.{events_of};
ghost use Rattle.pim_addr.specs.Routes.{rp_of};
ghost use Rattle.pim_transitions.specs.Affected.{IsAffected, transitions_to, candidate_seen};

use crate::candidate::Candidate;
use crate::changes::Changes;
use crate::marks::{look_up, push_events};
use crate::order::put_in_key_order;
use crate::stars::star_marks;
use pim_addr::{Family, Routes};
use pim_down::Ports;
use pim_jp::JpView;
use std::alloc::{AllocError, Global};
use std::marker::Model;

/// The machines that a message may change on a port, as they are before it, in key order. Contracts
/// see them as a list.
#[derive(Debug, Drop)]
pub struct Affected<F: Family> {
    candidates: Vec<Candidate<F::Addr>>,
}

impl<F: Family> Model for Affected<F> {
    ghost use Rattle.std.specs.Prelude.{ℕ, List, map};
    ghost use Rattle.pim_transitions.specs.declared.candidate.Candidate.{Candidate};
    ghost use Rattle.pim_transitions.specs.Affected.{candidate_seen};

    ghost Value = { List (Candidate (List ℕ)) };

    ghost view = { λ affected. map (candidate_seen F.bytes_of) affected.candidates.items };
}

impl<F: Family> Affected<F> {
    /// The machines of a port that a message may change: those that its events name, and the held
    /// (S,G,rpt) machines of each group of which it has a Join(*,G) (RFC 7761, 4.5). A Join(*,G)
    /// counts only with the RP to which the table leads G. It also keeps of each machine whether
    /// the last event that names it is a Join.
    ///
    /// It walks once through the (S,G,rpt) machines of each group that has a Join(*,G), sorts the
    /// machines in n log n steps, and looks each up once, in key order.
    ///
    /// # Errors
    /// Memory ran out.
    pub fn of(
        alloc: Global,
        ports: &Ports<F>,
        port: usize,
        message: &JpView<'_, F>,
        routes: &Routes<F>,
    ) -> Result<Affected<F>, AllocError>
        ensures { IfOk result (λ affected.
            IsAffected port (events_of (rp_of F.family routes.now) message.now)
            ports.now.records affected) }
    {
        let mut marks = star_marks::<F>(alloc, ports, port, message, routes)?;
        push_events::<F>(&mut marks, routes, message)?;
        put_in_key_order::<F>(&mut marks)?;
        let candidates = look_up::<F>(alloc, ports, port, &marks)?;
        Ok(Affected { candidates })
    }

    /// The machines of these that differ now, in key order, each with its machine before and after.
    /// The law `candidates_show_transitions` says that after the message these are exactly the
    /// machines that it changed. A walk looks each machine up once, and takes no memory.
    pub fn changes<'a>(&'a self, ports: &'a Ports<F>) -> Changes<'a, F>
        ensures { result ≡ transitions_to ports.now.records self.now }
    {
        Changes::new(&self.candidates, ports)
    }
}
