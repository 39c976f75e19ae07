//! The join that a line states.

ghost use Rattle.std.specs.Prelude.{◌≡◌, IfSome, IfNone};
ghost use Rattle.pim_local.specs.Joins.{Join};
ghost use Rattle.pim_local.specs.Seen.{join_seen};
ghost use Rattle.pim_files.specs.LocalFile.{IsSource, IsJoin};

use pim_addr::{Family, read_text, text_names_one_address};
use pim_local::LocalJoin;
use std::str;

/// Returns the join of `SOURCE GROUP`, if the text states one.
fn read_source<F: Family>(text: &str) -> Option<LocalJoin<F::Addr>>
    ensures read { IfSome result (λ join. IsSource F.family text.now (join_seen F.bytes_of join)) }
    ensures only { IfSome result (λ join. (other : Join) → IsSource F.family text.now other
        → other ≡ join_seen F.bytes_of join) }
    ensures unread { IfNone result ((join : Join) → IsSource F.family text.now join → ⊥) }
{
    text_names_one_address();
    let (source, group) = text.split_once(' ')?;
    Some(LocalJoin {
        source: Some(read_text::<F>(source)?),
        group: read_text::<F>(group)?,
    })
}

/// Returns the join that a line states, if it states one.
pub(crate) fn read_join<F: Family>(line: &[u8]) -> Option<LocalJoin<F::Addr>>
    ensures read { IfSome result (λ join. IsJoin F.family line.now (join_seen F.bytes_of join)) }
    ensures only { IfSome result (λ join. (other : Join) → IsJoin F.family line.now other
        → other ≡ join_seen F.bytes_of join) }
    ensures unread { IfNone result ((join : Join) → IsJoin F.family line.now join → ⊥) }
{
    text_names_one_address();
    let Ok(line) = str::from_utf8(line) else {
        return None;
    };
    if let Some(group) = line.strip_prefix("star ") {
        return Some(LocalJoin {
            group: read_text::<F>(group)?,
            source: None,
        });
    }
    let text = line.strip_prefix("source ")?;
    read_source::<F>(text)
}
