//! What a line is by its front.

ghost use Rattle.std.specs.Prelude.{◌≡◌, ◌≢◌, true, false};
ghost use Rattle.pim_request.specs.Items.{begins_text};
ghost use Rattle.pim_request.specs.Input.{sort_seen};
ghost use Rattle.pim_request.specs.declared.sort.Sort.TheVariants.{Blank, From, Other};

/// What a line is by its front.
#[derive(Clone, Copy, Debug, PartialEq, Eq)]
pub enum Sort {
    /// An empty line, or one that begins with `#`.
    Blank,
    /// A line whose first word is `from`.
    From,
    /// Any other line.
    Other,
}

/// Returns whether the first word of a line is `from`.
fn begins_text(line: &[u8]) -> bool
    ensures { result ≡ begins_text line.now }
{
    line == b"from".as_slice() || line.starts_with(b"from ")
}

/// Returns what a line is. Of a line of more than five bytes the first five are enough.
pub fn sort_of(line: &[u8]) -> Sort
    ensures { result ≡ sort_seen line.now }
{
    if line.is_empty() || line[0] == b'#' {
        return Sort::Blank;
    }
    if begins_text(line) {
        Sort::From
    } else {
        Sort::Other
    }
}

/// Returns whether it is a blank line.
pub fn is_blank(sort: Sort) -> bool
    ensures yes { result ≡ true → sort ≡ Blank }
    ensures no { result ≡ false → sort ≢ Blank }
{
    match sort {
        Sort::Blank => true,
        _ => false,
    }
}

/// Returns whether it is a line whose first word is `from`.
pub fn is_from(sort: Sort) -> bool
    ensures yes { result ≡ true → sort ≡ From }
    ensures no { result ≡ false → sort ≢ Blank → sort ≡ Other }
{
    match sort {
        Sort::From => true,
        _ => false,
    }
}
