// Findings below their headings.
ghost use Rattle.std.specs.Prelude.{◌≡◌, ◌++◌, OnOk, None, map, option_map, string_bytes};
ghost use Rattle.std.specs.List.{prefix_len};
ghost use Rattle.ci_formats.specs.Finding.{finding_parts};
ghost use Rattle.html_pages.specs.Groups.{drawing_text, end_after, goes_on, group_end, group_start};
ghost use Rattle.html_pages.specs.Groups.{groups_from, heading, heading_after, heading_name};
ghost use Rattle.html_pages.specs.Groups.{item_text, link_open, link_start, link_text};
ghost use Rattle.html_pages.specs.Groups.{list_start, location_text, number_text};
ghost use Rattle.html_pages.specs.Groups.{place_text, rank_text, same_group};
ghost use Rattle.html_pages.specs.Spots.{spot_parts};

use crate::escaped::push_text;
use crate::spans::push_drawing;
use crate::spots::{Part, Spot};
use ci_formats::{Finding, Location};
use finding_summaries::file_of;
use itoa::Buffer;
use std::alloc::AllocError;

/// Appends findings below their headings.
pub(crate) fn push_groups(
    out: &mut String,
    part: Part,
    findings: &[Finding],
    drawings: &[String],
    spots: &[Spot<'_>],
) -> Result<(), AllocError>
    ensures { OnOk result (string_bytes out.new ≡ string_bytes out.old ++ groups_from part
        (map finding_parts findings.now) (map string_bytes drawings.now) None
        (map spot_parts spots.now)) }
{
    let mut before = None;
    let mut rest = spots;
    while let [spot, more @ ..] = rest {
        push_heading(out, part, before, *spot, same_in(*spot, rest))?;
        push_item(out, part, findings, drawings, spot.at)?;
        before = Some(*spot);
        rest = more;
    }
    push_end(out, part, before)
}

/// How many spots at the beginning are in the group of this one.
fn same_in(spot: Spot<'_>, rest: &[Spot<'_>]) -> usize
    ensures { result ≡ prefix_len (same_group (spot_parts spot.entry)) (map spot_parts rest.now) }
{
    let mut count = 0;
    for next in rest {
        if !is_same(spot, *next) {
            return count;
        }
        count += 1;
    }
    count
}

/// Whether two spots are below one heading.
fn is_same(spot: Spot<'_>, other: Spot<'_>) -> bool
    ensures { result ≡ same_group (spot_parts spot.entry) (spot_parts other.entry) }
{
    spot.rank == other.rank && spot.name == other.name
}

/// Appends the heading of a group of `count` spots before its first one, after the end of the
/// group before it.
fn push_heading(
    out: &mut String,
    part: Part,
    before: Option<Spot<'_>>,
    spot: Spot<'_>,
    count: usize,
) -> Result<(), AllocError>
    ensures { OnOk result (string_bytes out.new ≡ string_bytes out.old
        ++ heading_after part (option_map spot_parts before.entry)
        (spot_parts spot.entry) count) }
{
    if goes_on(before, spot) {
        return Ok(());
    }
    push_end(out, part, before)?;
    push_start(out, part, spot, count)
}

/// Whether a spot is below the heading of the one before it.
fn goes_on(before: Option<Spot<'_>>, spot: Spot<'_>) -> bool
    ensures { result ≡ goes_on (option_map spot_parts before.entry) (spot_parts spot.entry) }
{
    match before {
        Some(before) => is_same(before, spot),
        None => false,
    }
}

/// Appends the end of a group, if there was one.
fn push_end(out: &mut String, part: Part, before: Option<Spot<'_>>) -> Result<(), AllocError>
    ensures { OnOk result (string_bytes out.new ≡ string_bytes out.old
        ++ end_after part (option_map spot_parts before.entry)) }
{
    match before {
        Some(_) => out.push_str(group_end(part)),
        None => Ok(()),
    }
}

/// The end of a group.
fn group_end(part: Part) -> &'static str
    ensures { result.now ≡ group_end part }
{
    match part {
        Part::Rules => "</ul>\n</details>\n",
        Part::Files => "</details>\n",
    }
}

/// Appends the start of a group: its heading.
#[tactic(auto, unfolding(crate::specs::Groups::heading))]
fn push_start(out: &mut String, part: Part, spot: Spot<'_>, count: usize) -> Result<(), AllocError>
    ensures { OnOk result (string_bytes out.new
        ≡ string_bytes out.old ++ heading part (spot_parts spot.entry) count) }
{
    push_heading_name(out, part, spot)?;
    out.push_str(" (")?;
    out.push_str(Buffer::new().format(count))?;
    out.push_str(list_start(part))
}

/// Appends a heading without its number.
#[tactic(auto, unfolding(crate::specs::Groups::heading_name))]
fn push_heading_name(out: &mut String, part: Part, spot: Spot<'_>) -> Result<(), AllocError>
    ensures { OnOk result (string_bytes out.new
        ≡ string_bytes out.old ++ heading_name part (spot_parts spot.entry)) }
{
    out.push_str(group_start(part))?;
    out.push_str(rank_text(part, spot.rank))?;
    push_text(out, spot.name)
}

/// What is before a heading.
fn group_start(part: Part) -> &'static str
    ensures { result.now ≡ group_start part }
{
    match part {
        Part::Rules => "<details>\n<summary>",
        Part::Files => "<details open>\n<summary>",
    }
}

/// The severity in a heading.
fn rank_text(part: Part, rank: usize) -> &'static str
    ensures { result.now ≡ rank_text part rank }
{
    match (part, rank) {
        (Part::Files, _) => "",
        (Part::Rules, 0) => "<span class=\"error\">error</span> ",
        (Part::Rules, 1) => "<span class=\"warning\">warning</span> ",
        (Part::Rules, _) => "<span class=\"info\">note</span> ",
    }
}

/// What is after a heading.
fn list_start(part: Part) -> &'static str
    ensures { result.now ≡ list_start part }
{
    match part {
        Part::Rules => ")</summary>\n<ul>\n",
        Part::Files => ")</summary>\n",
    }
}

/// Appends the link to a finding, or its drawing.
fn push_item(
    out: &mut String,
    part: Part,
    findings: &[Finding],
    drawings: &[String],
    at: usize,
) -> Result<(), AllocError>
    ensures { OnOk result (string_bytes out.new ≡ string_bytes out.old ++ item_text part
        (map finding_parts findings.now) (map string_bytes drawings.now) at) }
{
    match part {
        Part::Rules => match findings.get(at) {
            Some(finding) => push_link(out, at, finding),
            None => Ok(()),
        },
        Part::Files => match drawings.get(at) {
            Some(drawing) => push_pre(out, at, drawing.as_str()),
            None => Ok(()),
        },
    }
}

/// Appends the drawing of the finding at a place. HTML drops a line end right after the tag.
#[tactic(auto, unfolding(crate::specs::Groups::drawing_text))]
fn push_pre(out: &mut String, at: usize, drawing: &str) -> Result<(), AllocError>
    ensures { OnOk result (string_bytes out.new
        ≡ string_bytes out.old ++ drawing_text at drawing.now) }
{
    out.push_str("<pre id=\"f")?;
    out.push_str(Buffer::new().format(at))?;
    out.push_str("\">\n")?;
    push_drawing(out, drawing)?;
    out.push_str("</pre>\n")
}

/// Appends the link to the drawing of the finding at a place: its location, and its message.
#[tactic(auto, unfolding(crate::specs::Groups::link_text))]
fn push_link(out: &mut String, at: usize, finding: &Finding) -> Result<(), AllocError>
    ensures { OnOk result (string_bytes out.new
        ≡ string_bytes out.old ++ link_text at (finding_parts finding.now)) }
{
    push_link_start(out, at)?;
    push_place(out, finding)?;
    out.push_str("</a> ")?;
    push_text(out, finding.message.as_str())?;
    out.push_str("</li>\n")
}

/// Appends the start of a link.
#[tactic(auto, unfolding(crate::specs::Groups::link_start))]
fn push_link_start(out: &mut String, at: usize) -> Result<(), AllocError>
    ensures { OnOk result (string_bytes out.new ≡ string_bytes out.old ++ link_start at) }
{
    out.push_str(link_open())?;
    out.push_str(Buffer::new().format(at))?;
    out.push_str("\">")
}

/// What is before the number of a link.
#[tactic(auto, unfolding(crate::specs::Groups::link_open))]
fn link_open() -> &'static str
    ensures { result.now ≡ link_open }
{
    "<li><a href=\"#f"
}

/// Appends the file and the location of a finding.
#[tactic(auto, unfolding(crate::specs::Groups::place_text))]
fn push_place(out: &mut String, finding: &Finding) -> Result<(), AllocError>
    ensures { OnOk result (string_bytes out.new
        ≡ string_bytes out.old ++ place_text (finding_parts finding.now)) }
{
    push_text(out, file_of(finding))?;
    push_location(out, finding.start)
}

/// Appends a row and a column; a column only after a row.
fn push_location(out: &mut String, location: Location) -> Result<(), AllocError>
    ensures { OnOk result (string_bytes out.new
        ≡ string_bytes out.old ++ location_text location) }
{
    match (location.row, location.column) {
        (None, _) => Ok(()),
        (Some(row), None) => push_number(out, row),
        (Some(row), Some(column)) => {
            push_number(out, row)?;
            push_number(out, column)
        }
    }
}

/// Appends a colon and a number.
#[tactic(auto, unfolding(crate::specs::Groups::number_text))]
fn push_number(out: &mut String, number: u32) -> Result<(), AllocError>
    ensures { OnOk result (string_bytes out.new ≡ string_bytes out.old ++ number_text number) }
{
    out.push_str(":")?;
    out.push_str(Buffer::new().format(number))
}
