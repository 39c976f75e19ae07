//! The words `+FILE`, each of which goes on with the port of the word before it.
//!
//! They are such words only where any container is read. Otherwise each word names a port.

ghost use Rattle.std.specs.Prelude.{◌≡◌, ◌<◌, MatchResult, count_by, not};
ghost use Rattle.pim_words.specs.Ports.{is_more, IsMore, IsWrongMore};

use crate::fault::CommandFault;
use crate::task::More;

/// The most further files of a command.
const MOST_MORE: usize = 4096;

/// Whether the word names a further file, where any container is read or not.
pub(crate) fn is_more(is_any: bool, word: &str) -> bool
    ensures { result ≡ is_more is_any word.now }
{
    is_any && word.starts_with('+')
}

/// The number of the words that name ports, where any container is read or not.
pub(crate) fn count_ports(is_any: bool, words: &[&str]) -> usize
    ensures { result ≡ count_by (λ w. not (is_more is_any w.now)) words.now }
{
    words.iter().filter(|word| !is_more(is_any, word)).count()
}

/// The further file that a word names, after words for this many ports and further files. Or the
/// fault of the word.
pub(crate) fn read_more<'a>(
    ports: usize,
    more: usize,
    word: &'a str,
) -> Result<More<'a>, CommandFault<'a>>
    ensures { MatchResult result (λ m. IsMore ports word.now m × (more < 4096))
        (IsWrongMore ports more word.now) }
{
    let Some(file) = word.strip_prefix("+") else {
        return Err(CommandFault::Word(word));
    };
    if file.is_empty() || ports == 0 || MOST_MORE <= more {
        return Err(CommandFault::Word(word));
    }
    Ok(More {
        port: ports - 1,
        file,
        word,
    })
}
