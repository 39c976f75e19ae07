//! A position in the units of a form.

ghost use Rattle.std.specs.Prelude.{◌≡◌};

/// How far the units of a form are written. Of each group the star comes first, then its sources in
/// order.
#[derive(Clone, Copy)]
pub(crate) enum Position<A> {
    /// Nothing is written.
    Start,
    /// The groups before this one are written, and of this one the star and the sources up to the
    /// given one, if there is one.
    Within(A, Option<A>),
    /// The groups up to this one are written.
    Behind(A),
}
