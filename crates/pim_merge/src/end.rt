//! The end of a router's run.

ghost use Rattle.std.specs.Prelude.{◌≡◌};
ghost use Rattle.pim_merge.specs.Ends.{last_of};

use pim_time::Time;

/// When the run of a router over its captures ends.
#[derive(Clone, Copy, Debug, PartialEq, Eq)]
pub enum End {
    /// So long after the last record, in milliseconds.
    After(u64),
    /// At this time. The run ends before the first turn whose record has a later moment, nothing
    /// after it is read, and the router runs to this time. Before the first record no record is
    /// taken, and the moment is 0.
    At(Time),
}

impl End {
    /// The time after which no record is taken, if there is one.
    pub fn last(self) -> Option<Time>
        ensures { result ≡ last_of self }
    {
        match self {
            End::After(_) => None,
            End::At(time) => Some(time),
        }
    }
}
