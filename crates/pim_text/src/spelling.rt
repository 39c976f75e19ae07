//! The bytes of a message, from its text.

ghost use Rattle.std.specs.Prelude.{◌≡◌, ◌≤◌, ℕ, List, length, IfOk, IfErr};
ghost use Rattle.pim_text.specs.Spelled.{StatesMessage, SpellsMessage, IsMessageFault};

use crate::line::Expected;
use crate::line_walk::LineWalk;
use crate::spelling_lines::push_line;
use crate::steps::step;
use pim_addr::Family;
use std::alloc::Global;
use thiserror::Error;

/// Why the bytes of a message are not written.
#[derive(Clone, Copy, Debug, PartialEq, Eq, Error)]
pub enum SpellFault {
    /// The message would have more than 65,536 bytes with its header of 4.
    #[error("text too-long")]
    TooLong,
    /// Memory ran out.
    #[error("memory")]
    Memory,
}

/// The most bytes of a body.
const LONGEST_BODY: usize = 65_532;

/// Writes the body of the Join/Prune message that a text states, in the canonical spelling, whether
/// the message is legal or not.
///
/// # Errors
/// - `TooLong`: the body has more than 65,532 bytes.
/// - `Memory`: memory ran out.
pub fn spell_join_prune<F: Family>(alloc: Global, text: &[u8]) -> Result<Vec<u8>, SpellFault>
    requires { StatesMessage F.family text.now }
    ensures spelled { IfOk result (λ body. SpellsMessage F.family text.now body.items) }
    ensures short { IfOk result (λ body. length body.items ≤ 65532) }
    ensures fault { IfErr result (IsMessageFault F.family text.now) }
{
    let mut body = Vec::new(alloc);
    let mut expected = Expected::Message;
    for line in LineWalk::new(text) {
        let Some(found) = step(expected, line) else {
            unreachable!();
        };
        let Ok(()) = push_line::<F>(&mut body, found.line) else {
            return Err(SpellFault::Memory);
        };
        if body.len() > LONGEST_BODY {
            return Err(SpellFault::TooLong);
        }
        expected = found.next;
    }
    Ok(body)
}
