//! The links of the PIM packets that a choice leaves out.

ghost use Rattle.std.specs.Prelude.{◌≡◌};
ghost use Rattle.pim_merge.specs.Unchosen.{no_links, with_link, unchosen_after};

use crate::slots::add;
use pim_capture::Link;

/// Records that aren't chosen.
#[derive(Clone, Copy, Debug, PartialEq, Eq)]
pub struct Unchosen {
    /// The first different links of their PIM packets, in the order of the records, and then free
    /// slots.
    pub links: [Option<Link>; 16],
    /// PIM packets have more links than have slots.
    pub has_more: bool,
}

impl Unchosen {
    /// Records without a PIM packet.
    fn new() -> Self
        ensures { result ≡ no_links }
    {
        Unchosen {
            links: [None; 16],
            has_more: false,
        }
    }
}

/// Adds the link of a PIM packet, if there is one.
fn add_link(unchosen: &mut Unchosen, link: Option<Link>)
    ensures { unchosen.new ≡ with_link link unchosen.old }
{
    let Some(link) = link else {
        return;
    };
    let has_slot = add(&mut unchosen.links, link);
    unchosen.has_more |= !has_slot;
}

/// Counts one more record that isn't chosen, with the link of its PIM packet, if it has one.
pub(crate) fn count_unchosen(unchosen: Option<Unchosen>, link: Option<Link>) -> Option<Unchosen>
    ensures { result ≡ unchosen_after unchosen link }
{
    let mut counted = unchosen.unwrap_or(Unchosen::new());
    add_link(&mut counted, link);
    Some(counted)
}
