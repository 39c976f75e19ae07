//! The lines of a router's demand.

ghost use Rattle.std.specs.Prelude.{◌≡◌, ◌++◌, true, map, option_map};
ghost use Rattle.std.specs.List.{flat_map};
ghost use Rattle.pim_device.specs.Device.{AppendsAll, failures_after};
ghost use Rattle.pim_down.specs.Seen.{what_seen};
ghost use Rattle.pim_report.specs.DemandText.{via_words, want_line, exception_line, starred_text};
ghost use Rattle.pim_report.specs.DemandText.{source_line};
ghost use Rattle.pim_report.specs.DemandText.{star_text, group_text, demand_text};

use crate::echo_line::show_what;
use pim_addr::{Drain, Failed, Family, Routes};
use pim_down::What;
use pim_form::{GroupView, NormalForm, Tree, rpf_neighbour};
use pim_lines::{Shown, write_pieces};

/// The end of a line of the demand: the upstream neighbour to which it is sent, or nothing.
#[derive(Drop)]
struct ShownVia {
    /// The word before the neighbour, or nothing.
    mark: &'static [u8],
    /// The neighbour, or nothing.
    neighbour: Shown,
    /// The dash if there is no neighbour, otherwise nothing.
    nobody: &'static [u8],
}

impl ShownVia {
    /// The word before the neighbour, or nothing.
    fn mark(&self) -> &[u8]
        ensures { result.now ≡ self.now.mark.now }
    {
        self.mark
    }

    /// The neighbour, or nothing.
    fn neighbour(&self) -> &[u8]
        ensures { result.now ≡ self.now.neighbour }
    {
        self.neighbour.text()
    }

    /// The dash if there is no neighbour, otherwise nothing.
    fn nobody(&self) -> &[u8]
        ensures { result.now ≡ self.now.nobody.now }
    {
        self.nobody
    }
}

/// The end of a line of the demand with this upstream neighbour; empty if `shows_via` isn't set.
fn show_via<F: Family>(shows_via: bool, demanded: Option<F::Addr>) -> ShownVia
    ensures { result.mark.now ++ (result.neighbour ++ result.nobody.now)
        ≡ via_words F.family shows_via (option_map F.bytes_of demanded) }
{
    if !shows_via {
        return ShownVia {
            mark: b"",
            neighbour: Shown::maybe::<F>(None),
            nobody: b"",
        };
    }
    match demanded {
        Some(neighbour) => ShownVia {
            mark: b" via ",
            neighbour: Shown::address::<F>(neighbour),
            nobody: b"",
        },
        None => ShownVia {
            mark: b" via ",
            neighbour: Shown::maybe::<F>(None),
            nobody: b"-",
        },
    }
}

/// Writes the line of the (*,G) or (S,G) demand of a group.
fn write_want_line<F: Family, W: Drain>(
    writer: &mut W,
    shows_via: bool,
    group: F::Addr,
    what: What<F::Addr>,
    demanded: Option<F::Addr>,
) -> Result<(), Failed>
    ensures bytes { AppendsAll (W.contents writer.old) (W.contents writer.new) result
        (want_line F.family shows_via (F.bytes_of group) (what_seen F.bytes_of what)
        (option_map F.bytes_of demanded)) }
    ensures count { W.failures writer.new ≡ failures_after (W.failures writer.old) result }
{
    let what = show_what::<F>(what);
    let group = Shown::address::<F>(group);
    let via = show_via::<F>(shows_via, demanded);
    let pieces = [
        b"want ",
        what.kind(),
        what.source(),
        what.gap(),
        group.text(),
        via.mark(),
        via.neighbour(),
        via.nobody(),
        b"\n",
    ];
    write_pieces(writer, &pieces)
}

/// Writes the line of an exception of a group's star.
fn write_exception_line<F: Family, W: Drain>(
    writer: &mut W,
    shows_via: bool,
    group: F::Addr,
    demanded: Option<F::Addr>,
    source: F::Addr,
) -> Result<(), Failed>
    ensures bytes { AppendsAll (W.contents writer.old) (W.contents writer.new) result
        (exception_line F.family shows_via (F.bytes_of group) (option_map F.bytes_of demanded)
        (F.bytes_of source)) }
    ensures count { W.failures writer.new ≡ failures_after (W.failures writer.old) result }
{
    let source = Shown::address::<F>(source);
    let group = Shown::address::<F>(group);
    let via = show_via::<F>(shows_via, demanded);
    let pieces = [
        b"except ",
        source.text(),
        b" ",
        group.text(),
        via.mark(),
        via.neighbour(),
        via.nobody(),
        b"\n",
    ];
    write_pieces(writer, &pieces)
}

/// Writes the lines of a star's exceptions.
fn write_exceptions<F: Family, W: Drain>(
    writer: &mut W,
    shows_via: bool,
    group: F::Addr,
    demanded: Option<F::Addr>,
    exceptions: &[F::Addr],
) -> Result<(), Failed>
    ensures bytes { AppendsAll (W.contents writer.old) (W.contents writer.new) result
        (flat_map
        (exception_line F.family shows_via (F.bytes_of group) (option_map F.bytes_of demanded))
        (map F.bytes_of exceptions.now)) }
    ensures count { W.failures writer.new ≡ failures_after (W.failures writer.old) result }
{
    for &source in exceptions {
        write_exception_line::<F, W>(writer, shows_via, group, demanded, source)?;
    }
    Ok(())
}

/// Writes the lines of the sources of a group.
fn write_sources<F: Family, W: Drain>(
    writer: &mut W,
    shows_via: bool,
    routes: &Routes<F>,
    group: F::Addr,
    sources: &[F::Addr],
) -> Result<(), Failed>
    ensures bytes { AppendsAll (W.contents writer.old) (W.contents writer.new) result
        (flat_map (source_line F.family shows_via routes.now (F.bytes_of group))
        (map F.bytes_of sources.now)) }
    ensures count { W.failures writer.new ≡ failures_after (W.failures writer.old) result }
{
    for &source in sources {
        write_source_line::<F, W>(writer, shows_via, routes, group, source)?;
    }
    Ok(())
}

/// Writes the line of a source of a group.
fn write_source_line<F: Family, W: Drain>(
    writer: &mut W,
    shows_via: bool,
    routes: &Routes<F>,
    group: F::Addr,
    source: F::Addr,
) -> Result<(), Failed>
    ensures bytes { AppendsAll (W.contents writer.old) (W.contents writer.new) result
        (source_line F.family shows_via routes.now (F.bytes_of group) (F.bytes_of source)) }
    ensures count { W.failures writer.new ≡ failures_after (W.failures writer.old) result }
{
    let demanded = routes.via(source);
    write_want_line::<F, W>(writer, shows_via, group, What::Source(source), demanded)
}

/// Writes the lines of a star and of its exceptions, which all have the same upstream neighbour.
fn write_starred<F: Family, W: Drain>(
    writer: &mut W,
    shows_via: bool,
    group: F::Addr,
    demanded: Option<F::Addr>,
    exceptions: &[F::Addr],
) -> Result<(), Failed>
    ensures bytes { AppendsAll (W.contents writer.old) (W.contents writer.new) result
        (starred_text F.family shows_via (F.bytes_of group) (option_map F.bytes_of demanded)
        (map F.bytes_of exceptions.now)) }
    ensures count { W.failures writer.new ≡ failures_after (W.failures writer.old) result }
{
    write_want_line::<F, W>(writer, shows_via, group, What::Star, demanded)?;
    write_exceptions::<F, W>(writer, shows_via, group, demanded, exceptions)
}

/// Writes the lines of a group's star and of its exceptions, if the group has a star.
fn write_star<F: Family, W: Drain>(
    writer: &mut W,
    shows_via: bool,
    routes: &Routes<F>,
    this: &GroupView<'_, F>,
) -> Result<(), Failed>
    ensures bytes { AppendsAll (W.contents writer.old) (W.contents writer.new) result
        (star_text F.family shows_via routes.now this.now.group this.now.star) }
    ensures count { W.failures writer.new ≡ failures_after (W.failures writer.old) result }
{
    if !this.star() {
        return Ok(());
    }
    let group = this.group();
    let demanded = rpf_neighbour::<F>(routes, group, group, Tree::Shared);
    write_starred::<F, W>(writer, shows_via, group, demanded, this.exceptions())
}

/// Writes the lines of a group.
fn write_group<F: Family, W: Drain>(
    writer: &mut W,
    shows_via: bool,
    routes: &Routes<F>,
    this: &GroupView<'_, F>,
) -> Result<(), Failed>
    ensures bytes { AppendsAll (W.contents writer.old) (W.contents writer.new) result
        (group_text F.family shows_via routes.now this.now) }
    ensures count { W.failures writer.new ≡ failures_after (W.failures writer.old) result }
{
    write_star::<F, W>(writer, shows_via, routes, this)?;
    write_sources::<F, W>(writer, shows_via, routes, this.group(), this.sources())
}

/// Writes the lines of a demand in its normal form, group by group. If `shows_via` is set, each
/// line names the upstream neighbour under this route table (RFC 7761, 4.1), or `-` if there is
/// none.
///
/// # Errors
/// The device failed: a prefix of the lines was written.
pub fn write_demand<F: Family, W: Drain>(
    writer: &mut W,
    shows_via: bool,
    routes: &Routes<F>,
    form: &NormalForm<F>,
) -> Result<(), Failed>
    ensures bytes { AppendsAll (W.contents writer.old) (W.contents writer.new) result
        (demand_text F.family shows_via routes.now form.now) }
    ensures count { W.failures writer.new ≡ failures_after (W.failures writer.old) result }
{
    for group in form.groups() {
        write_group::<F, W>(writer, shows_via, routes, &group)?;
    }
    Ok(())
}
