//! Records that are skipped.

ghost use Rattle.std.specs.Prelude.{◌≡◌};
ghost use Rattle.pim_summary.specs.Summary.{skipped_time, skipped_with};

use crate::facts::SkippedFacts;
use crate::routers::one_more;
use pim_capture::Why;

/// The time of a record that is skipped for this reason, if it has one that counts.
pub(crate) fn skipped_time(why: Why, millis: u64) -> Option<u64>
    ensures { result ≡ skipped_time why millis }
{
    match why {
        Why::NoTime | Why::NotChosen(_) | Why::Copy | Why::CutShort => None,
        _ => Some(millis),
    }
}

/// Counts one more record that is skipped for this reason.
pub(crate) fn count_why(skipped: &mut SkippedFacts, why: Why)
    ensures { skipped.new ≡ skipped_with why skipped.old }
{
    match why {
        Why::Cut => skipped.cut = one_more(skipped.cut),
        Why::NotIp => skipped.not_ip = one_more(skipped.not_ip),
        Why::BadHeader => skipped.bad_header = one_more(skipped.bad_header),
        Why::NotPim => skipped.not_pim = one_more(skipped.not_pim),
        Why::Fragment => skipped.fragment = one_more(skipped.fragment),
        Why::NoTime => skipped.no_time = one_more(skipped.no_time),
        Why::LinkType(_) => skipped.link_type = one_more(skipped.link_type),
        Why::NotChosen(_) => skipped.not_chosen = one_more(skipped.not_chosen),
        Why::Copy => skipped.copy = one_more(skipped.copy),
        Why::CutShort => skipped.cut_short = one_more(skipped.cut_short),
        _ => {}
    }
}
