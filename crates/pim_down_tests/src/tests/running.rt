//! A moment that is far away, numbers of records, and prints.

use super::{Example, GROUP, JOIN_STAR, RPT_FIRST, RPT_SECOND, Row, SECOND};
use pim_down::{State, What};

pub(super) const EXAMPLES: [Example; 2] = [
    Example {
        name: "holds for ever",
        ports: 1,
        limit: 2,
        rows: &[
            Row::ShownFrom("Ports { ports: 1, limit: 2, moment: 0, records: []"),
            Row::HearForEver(0, &[(GROUP, &[JOIN_STAR], &[])]),
            Row::Shown("records: [Held { key: Key { port: 0, "),
            Row::RecordsShownFrom("Records { moment: 0"),
            Row::Due(None),
            Row::Reach(1_000_000_000_000_000),
            Row::Lasting(1),
            Row::Reach(7),
            Row::Now(1_000_000_000_000_000),
        ],
    },
    Example {
        name: "counts the records of each port",
        ports: 3,
        limit: 100,
        rows: &[
            Row::Hear(0, &[(GROUP, &[JOIN_STAR], &[RPT_FIRST])]),
            Row::Hear(1, &[(GROUP, &[JOIN_STAR], &[RPT_SECOND, RPT_FIRST])]),
            Row::Hear(2, &[(GROUP, &[], &[RPT_SECOND])]),
            Row::Due(Some(0)),
            Row::State(2, What::Rpt(SECOND), Some(State::PrunePending)),
            Row::Reach(0),
            Row::State(2, What::Rpt(SECOND), Some(State::Prune)),
            Row::State(2, What::Star, None),
            Row::State(3, What::Star, None),
            Row::Counts(0, 2, 1),
            Row::Counts(1, 3, 2),
            Row::Counts(2, 1, 1),
            Row::Counts(3, 0, 0),
            Row::Sizes(3, 100),
        ],
    },
];
