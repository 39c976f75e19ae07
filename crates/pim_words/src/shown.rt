//! What a trace or an audit shows: the options `--from`, `--group`, `--source` and `--time`.

ghost use Rattle.std.specs.Prelude.{◌≡◌, MatchOption, MatchResult, map};
ghost use Rattle.std.specs.List.{AllZip};
ghost use Rattle.clap.specs.Words.{rows_of, found_of};
ghost use Rattle.pim_lines.specs.AnyAddress.{Names};
ghost use Rattle.pim_words.specs.Seen.{OrMemory};
ghost use Rattle.pim_words.specs.Given.{values_of};
ghost use Rattle.pim_words.specs.Shown.{form_name, IsFormless, AreShownAddresses, IsWrongChoice};
ghost use Rattle.pim_words.specs.Shown.{IsShown, IsWrongShown};

use crate::fault::CommandFault;
use crate::given::{option_of, option_or, values_of};
use crate::reading::{read_at, read_option};
use clap::ArgMatches;
use pim_lines::AnyAddress;
use pim_time::{Time, TimeForm};
use std::alloc::Global;

/// The most groups and the most sources that may be shown by name.
const MOST_SHOWN: usize = 64;

/// What a trace or an audit shows.
#[derive(Drop)]
pub(crate) struct ShownEvents {
    /// The time before which nothing is shown, if one is given.
    pub from: Option<Time>,
    /// The groups that are shown.
    pub groups: Vec<AnyAddress>,
    /// The sources that are shown.
    pub sources: Vec<AnyAddress>,
    /// How moments are written as text.
    pub form: TimeForm,
}

/// The form of moments that a text names. `None` for any other text.
fn read_form(text: &str) -> Option<TimeForm>
    ensures { MatchOption result (IsFormless text.now) (λ form. text.now ≡ form_name form) }
{
    match text {
        "ms" => Some(TimeForm::Ms),
        "epoch" => Some(TimeForm::Epoch),
        "utc" => Some(TimeForm::Utc),
        _ => None,
    }
}

/// The addresses that the values of this option are, or the fault of the first wrong value. None if
/// it isn't given.
fn read_choice<'a>(
    alloc: Global,
    options: &ArgMatches<'a>,
    name: &str,
) -> Result<Vec<AnyAddress>, CommandFault<'a>>
    ensures { MatchResult result
        (λ addresses. AreShownAddresses (values_of name.now (rows_of (found_of options.now)))
        addresses.items)
        (OrMemory (IsWrongChoice 64 (values_of name.now (rows_of (found_of options.now))))) }
{
    let mut addresses = Vec::new(alloc);
    let texts = values_of(options, name);
    for text in texts {
        if addresses.len() == MOST_SHOWN {
            return Err(CommandFault::Word(text));
        }
        let address = read_option(text)?;
        if addresses.push(address).is_err() {
            return Err(CommandFault::Memory);
        }
    }
    Ok(addresses)
}

/// What a trace or an audit shows, or the fault of the first value that is wrong.
pub(crate) fn read_shown<'a>(
    alloc: Global,
    options: &ArgMatches<'a>,
) -> Result<ShownEvents, CommandFault<'a>>
    ensures { MatchResult result (IsShown (rows_of (found_of options.now)))
        (OrMemory (IsWrongShown (rows_of (found_of options.now)))) }
{
    let from = read_at(option_of(options, "from"))?;
    let groups = read_choice(alloc, options, "group")?;
    let sources = read_choice(alloc, options, "source")?;
    let text = option_or(options, "time", "ms");
    let Some(form) = read_form(text) else {
        return Err(CommandFault::Word(text));
    };
    Ok(ShownEvents {
        from,
        groups,
        sources,
        form,
    })
}
