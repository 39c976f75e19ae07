//! VLAN tags (IEEE 802.1Q and 802.1ad).

ghost use Rattle.std.specs.Prelude.{◌≡◌, ◌+◌, ◌≤◌, length, drop, IfSome};
ghost use Rattle.pim_container.specs.Link.{is_tag, tag_vlan, stacked, after_two, tagged, carried};

use crate::link::BlockEndianness;
use pim_capture::Vlan;

/// What a frame carries after its tags.
#[derive(Clone, Copy, Debug, PartialEq, Eq)]
pub struct Carried {
    /// Its Ethernet type.
    pub type_number: u16,
    /// The index of its first byte in the frame.
    pub at: usize,
    /// The VLAN of the tags before it.
    pub vlan: Vlan,
}

/// Whether an Ethernet type is that of a tag.
fn is_tag(number: u16) -> bool
    ensures { result ≡ is_tag number }
{
    number == 0x8100 || number == 0x88a8 || number == 0x9100
}

/// The VLAN of an inner tag within an outer one, where 0 stands for no tag.
pub fn stacked(outer: u16, inner: u16) -> Vlan
    ensures { result ≡ stacked outer inner }
{
    if outer == 0 {
        Vlan {
            outer: inner,
            inner: 0,
        }
    } else {
        Vlan { outer, inner }
    }
}

/// The VLAN of the tag at the index `at`.
fn tag_vlan(bytes: &[u8], at: usize) -> u16
    requires { at + 2 ≤ length bytes.now }
    ensures { result ≡ tag_vlan (drop at bytes.now) }
{
    BlockEndianness::Big.read_u16_at(bytes, at) % 4096
}

/// What two tags carry, whose bytes begin at the index `at` of a frame.
fn after_two(at: usize, bytes: &[u8]) -> Carried
    requires whole { 8 ≤ length bytes.now }
    requires short { at ≤ 20 }
    ensures { result ≡ after_two at bytes.now }
{
    let outer = tag_vlan(bytes, 0);
    let inner = tag_vlan(bytes, 4);
    Carried {
        type_number: BlockEndianness::Big.read_u16_at(bytes, 6),
        at: at + 8,
        vlan: stacked(outer, inner),
    }
}

/// What one or two tags carry, whose bytes begin at the index `at` of a frame. `None` if the frame
/// ends inside a tag.
fn tagged(at: usize, bytes: &[u8]) -> Option<Carried>
    requires { at ≤ 20 }
    ensures value { result ≡ tagged at bytes.now }
    ensures within { IfSome result (λ carrier. carrier.at ≤ at + length bytes.now) }
{
    if bytes.len() < 4 {
        return None;
    }
    let second_type = BlockEndianness::Big.read_u16_at(bytes, 2);
    if !is_tag(second_type) {
        return Some(Carried {
            type_number: second_type,
            at: at + 4,
            vlan: stacked(0, tag_vlan(bytes, 0)),
        });
    }
    if bytes.len() < 8 {
        return None;
    }
    Some(after_two(at, bytes))
}

/// What follows the first Ethernet type of a frame, of which the bytes at the index `at` follow.
/// `None` if the frame ends inside a tag.
pub fn after_tags(type_number: u16, at: usize, frame: &[u8]) -> Option<Carried>
    requires within { at ≤ length frame.now }
    requires short { at ≤ 20 }
    ensures value { result ≡ carried type_number at frame.now }
    ensures within { IfSome result (λ carrier. carrier.at ≤ length frame.now) }
{
    if is_tag(type_number) {
        let (_, bytes) = frame.split_at(at);
        return tagged(at, bytes);
    }
    let vlan = stacked(0, 0);
    Some(Carried {
        type_number,
        at,
        vlan,
    })
}
