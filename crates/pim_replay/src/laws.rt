//! Laws of the definitions. These functions have no effect; their clauses are the laws.

ghost use Rattle.pim_replay.specs.Laws.{ReportHasOneText, ReportBeginsWithItsLines};

/// The report of a replay, and the router after it, are a function of the answers of the captures.
pub fn report_has_one_text()
    ensures { ReportHasOneText }
{
    pim_merge::laws::merge_by_has_one_end();
    pim_router::laws::run_has_one_end();
    pim_form::laws::one_normal_form();
}

/// A report begins with the lines of any first turns of its merge. It also begins with the lines of
/// all turns and the time after them.
pub fn report_begins_with_its_lines()
    ensures { ReportBeginsWithItsLines }
{
    pim_merge::laws::merge_by_has_one_end();
    pim_router::laws::run_has_one_end();
    pim_form::laws::one_normal_form();
}
