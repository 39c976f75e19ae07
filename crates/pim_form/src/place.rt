//! Where the addresses of a group are in a form.

ghost use Rattle.std.specs.Prelude.{◌≡◌, ◌≤◌, length};
ghost use Rattle.pim_form.specs.Rows.{between};

/// A group of a form, or a piece of one, and where its addresses are in the form's row.
#[derive(Clone, Copy)]
pub(crate) struct GroupPlace<A> {
    /// The group address.
    pub(crate) group: A,
    /// Whether it has a star.
    pub(crate) starred: bool,
    /// The index of its first source.
    pub(crate) sources_start: usize,
    /// The index after its last source.
    pub(crate) sources_end: usize,
    /// The index of its first exception.
    pub(crate) exceptions_start: usize,
    /// The index after its last exception.
    pub(crate) exceptions_end: usize,
}

/// The part of a row from `start` up to `end`.
pub(crate) fn between<T>(row: &[T], start: usize, end: usize) -> &[T]
    requires start { start ≤ end }
    requires end { end ≤ length row.now }
    ensures { result.now ≡ between start end row.now }
{
    let (front, _) = row.split_at(end);
    let (_, part) = front.split_at(start);
    part
}
