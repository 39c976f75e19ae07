//! The line that says whether two demands are the same.

ghost use Rattle.std.specs.Prelude.{◌≡◌};
ghost use Rattle.pim_report.specs.SameLine.{same_line};

/// Returns the line that says whether two demands are the same.
pub fn same_line(same: bool) -> &'static [u8]
    ensures { result.now ≡ same_line same }
{
    if same { b"same\n" } else { b"different\n" }
}
