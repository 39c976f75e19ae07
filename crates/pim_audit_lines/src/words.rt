//! The words of an audit's lines, and their ports.

ghost use Rattle.std.specs.Prelude.{◌≡◌, option_map};
ghost use Rattle.pim_audit_events.specs.Seen.{origin_seen};
ghost use Rattle.pim_audit_lines.specs.AuditText.{asked_word, port_of};

use pim_addr::Family;
use pim_audit_events::MessageOrigin;

/// What an entry asks for.
pub(crate) fn asked_word(joins: &bool) -> &[u8]
    ensures { result.now ≡ asked_word joins.now }
{
    if *joins { b"join" } else { b"prune" }
}

/// The port of a record, if there is one.
pub(crate) fn port_of<F: Family>(origin: Option<MessageOrigin<F::Addr>>) -> Option<usize>
    ensures { result ≡ port_of (option_map (origin_seen F.bytes_of) origin) }
{
    match origin {
        Some(message) => Some(message.port),
        None => None,
    }
}
