//! VLANs.

/// The VLAN of a frame, by its tags. The number 0 stands for no tag.
#[derive(Clone, Copy, Debug, PartialEq, Eq)]
pub struct Vlan {
    /// The VLAN of the outer tag, or of the only one.
    pub outer: u16,
    /// The VLAN of the inner tag.
    pub inner: u16,
}
