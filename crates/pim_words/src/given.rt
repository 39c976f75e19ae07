//! The values that `clap` finds for the options of a command.
//!
//! `clap` accepts only numbers in the range of their option. So reading a number has no fault.

ghost use Rattle.std.specs.Prelude.{◌≡◌, MatchOption, map, option_map};
ghost use Rattle.clap.specs.Words.{rows_of, found_of, first_of, IsUnsignedIn};
ghost use Rattle.pim_words.specs.Given.{option_or, values_of, is_flag, IsNumber, IsNoNumber};

use clap::ArgMatches;

/// The value of an option, if the words give one.
pub(crate) fn option_of<'a>(options: &ArgMatches<'a>, name: &str) -> Option<&'a str>
    ensures { option_map (λ s. s.now) result ≡ first_of name.now (rows_of (found_of options.now)) }
{
    options.get_str(name)
}

/// The value of an option, or its default if the words give none.
pub(crate) fn option_or<'a>(options: &ArgMatches<'a>, name: &str, default: &'a str) -> &'a str
    ensures { result.now ≡ option_or default.entry.now name.now (rows_of (found_of options.now)) }
{
    option_of(options, name).unwrap_or(default)
}

/// All values of an option, in order, or all words. The slice is empty if there are none.
pub(crate) fn values_of<'o, 'a>(options: &'o ArgMatches<'a>, name: &str) -> &'o [&'a str]
    ensures { map (λ v. v.now) result.now ≡ values_of name.now (rows_of (found_of options.now)) }
{
    options.get_raw(name).unwrap_or_default()
}

/// Whether a flag is given.
pub(crate) fn is_flag(options: &ArgMatches<'_>, name: &str) -> bool
    ensures { result ≡ is_flag name.now (rows_of (found_of options.now)) }
{
    option_or(options, name, "false") == "true"
}

/// The number that a text spells, if it is from `low` to `high`.
pub(crate) fn number_between(text: &str, low: u64, high: u64) -> Option<u64>
    ensures { MatchOption result (IsNoNumber low high text.now) (IsNumber low high text.now) }
{
    match text.parse::<u64>() {
        Ok(number) if low <= number && number <= high => Some(number),
        _ => None,
    }
}

/// The number that an option has as its value, or its default if the words give none. It must be
/// from `low` to `high`, which `clap` checks.
pub(crate) fn number_of<'a>(
    options: &ArgMatches<'a>,
    name: &str,
    default: &'a str,
    low: u64,
    high: u64,
) -> u64
    requires { IsUnsignedIn low high
        (option_or default.now name.now (rows_of (found_of options.now))) }
    ensures { IsNumber low high
        (option_or default.entry.now name.now (rows_of (found_of options.now))) result }
{
    match number_between(option_or(options, name, default), low, high) {
        Some(number) => number,
        None => unreachable!(),
    }
}
