//! The laws of times and their texts.

ghost use Rattle.pim_time.specs.Laws.{OneTime, DateNamesItsTime, SecondsNameTheirTime};
ghost use Rattle.pim_time.specs.Laws.{PlainNamesItsTime};

/// A law: a text names at most one time. It has no effect.
pub fn text_names_one_time()
    ensures { OneTime }
{}

/// A law: the date that `write_date` writes names its time. It has no effect.
pub fn date_names_its_time()
    ensures { DateNamesItsTime }
{}

/// A law: the seconds that `write_seconds` writes name their time, where at most 10 digits stand
/// before the point. It has no effect.
pub fn seconds_name_their_time()
    ensures { SecondsNameTheirTime }
{}

/// A law: a text in one of the plain forms, which were the only ones at first, names the time that
/// it always named. It has no effect.
pub fn plain_names_its_time()
    ensures { PlainNamesItsTime }
{}
