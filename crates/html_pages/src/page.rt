// The page.
ghost use Rattle.std.specs.Prelude.{◌≡◌, ◌++◌, IfOk, OnOk, map, string_bytes};
ghost use Rattle.ci_formats.specs.Finding.{finding_parts};
ghost use Rattle.html_pages.specs.Page.{IsPage, files_title, head_end, headline, page_end};
ghost use Rattle.html_pages.specs.Page.{page_head, page_of, page_start, parts_text};
ghost use Rattle.html_pages.specs.Page.{rules_title, sections_text, title_end};
ghost use Rattle.html_pages.specs.Page.{style_sheet as style_text};
ghost use Rattle.html_pages.specs.Spots.{spot_parts};

use crate::groups::push_groups;
use crate::spots::{Part, Spot, spots_of};
use ci_formats::Finding;
use finding_summaries::push_totals;
use std::alloc::{AllocError, Global};

/// A page of findings with their drawings, which are in the same order. First come the totals,
/// then links to all findings by severity and rule, then the drawings by file. Texts are written
/// as they are read, so a caller sanitizes them before. No part of the page comes from outside,
/// and it has no scripts.
///
/// # Errors
///
/// Out of memory.
pub fn page_text(
    alloc: Global,
    findings: &[Finding],
    drawings: &[String],
) -> Result<String, AllocError>
    ensures { IfOk result (λ page. IsPage (map finding_parts findings.now)
        (map string_bytes drawings.now) (string_bytes page)) }
{
    let rules = spots_of(alloc, Part::Rules, findings)?;
    let files = spots_of(alloc, Part::Files, findings)?;
    written(alloc, findings, drawings, &rules, &files)
}

/// The page of findings in these orders.
#[tactic(auto, unfolding(crate::specs::Page::page_of))]
fn written(
    alloc: Global,
    findings: &[Finding],
    drawings: &[String],
    rules: &[Spot<'_>],
    files: &[Spot<'_>],
) -> Result<String, AllocError>
    ensures { IfOk result (λ page. string_bytes page ≡ page_of (map finding_parts findings.now)
        (map string_bytes drawings.now) (map spot_parts rules.now) (map spot_parts files.now)) }
{
    let mut out = String::new(alloc);
    push_head(alloc, &mut out, findings)?;
    push_headline(alloc, &mut out, findings)?;
    out.push_str("</h1>\n")?;
    push_sections(&mut out, findings, drawings, rules, files)?;
    out.push_str(page_end())?;
    Ok(out)
}

/// Appends what is before the first heading.
#[tactic(auto, unfolding(crate::specs::Page::page_head))]
fn push_head(alloc: Global, out: &mut String, findings: &[Finding]) -> Result<(), AllocError>
    ensures { OnOk result (string_bytes out.new
        ≡ string_bytes out.old ++ page_head (map finding_parts findings.now)) }
{
    out.push_str(page_start())?;
    push_headline(alloc, out, findings)?;
    out.push_str(title_end())?;
    out.push_str(style_sheet())?;
    out.push_str(head_end())
}

/// What is before the title.
#[tactic(auto, unfolding(crate::specs::Page::page_start))]
fn page_start() -> &'static str
    ensures { result.now ≡ page_start }
{
    "<!DOCTYPE html>\n<html lang=\"en\">\n<head>\n<meta charset=\"utf-8\">\n\
    <meta name=\"viewport\" content=\"width=device-width, initial-scale=1\">\n<title>"
}

/// Appends the totals.
fn push_headline(alloc: Global, out: &mut String, findings: &[Finding]) -> Result<(), AllocError>
    ensures { OnOk result (string_bytes out.new
        ≡ string_bytes out.old ++ headline (map finding_parts findings.now)) }
{
    if findings.is_empty() {
        return out.push_str("no findings\n");
    }
    push_totals(alloc, out, findings)
}

/// Appends the findings by severity and rule, and by file, if there are any.
fn push_sections(
    out: &mut String,
    findings: &[Finding],
    drawings: &[String],
    rules: &[Spot<'_>],
    files: &[Spot<'_>],
) -> Result<(), AllocError>
    ensures { OnOk result (string_bytes out.new ≡ string_bytes out.old
        ++ sections_text (map finding_parts findings.now) (map string_bytes drawings.now)
        (map spot_parts rules.now) (map spot_parts files.now)) }
{
    if findings.is_empty() {
        return Ok(());
    }
    push_parts(out, findings, drawings, rules, files)
}

/// Appends the findings by severity and rule, and by file.
#[tactic(auto, unfolding(crate::specs::Page::parts_text))]
fn push_parts(
    out: &mut String,
    findings: &[Finding],
    drawings: &[String],
    rules: &[Spot<'_>],
    files: &[Spot<'_>],
) -> Result<(), AllocError>
    ensures { OnOk result (string_bytes out.new ≡ string_bytes out.old
        ++ parts_text (map finding_parts findings.now) (map string_bytes drawings.now)
        (map spot_parts rules.now) (map spot_parts files.now)) }
{
    out.push_str(rules_title())?;
    push_groups(out, Part::Rules, findings, drawings, rules)?;
    out.push_str(files_title())?;
    push_groups(out, Part::Files, findings, drawings, files)
}

/// What is after the title.
#[tactic(auto, unfolding(crate::specs::Page::title_end))]
fn title_end() -> &'static str
    ensures { result.now ≡ title_end }
{
    "</title>\n<style>\n"
}

/// What is after the style sheet.
#[tactic(auto, unfolding(crate::specs::Page::head_end))]
fn head_end() -> &'static str
    ensures { result.now ≡ head_end }
{
    "</style>\n</head>\n<body>\n<h1>"
}

/// The heading of the findings by severity and rule.
#[tactic(auto, unfolding(crate::specs::Page::rules_title))]
fn rules_title() -> &'static str
    ensures { result.now ≡ rules_title }
{
    "<h2>By severity and rule</h2>\n"
}

/// The heading of the findings by file.
#[tactic(auto, unfolding(crate::specs::Page::files_title))]
fn files_title() -> &'static str
    ensures { result.now ≡ files_title }
{
    "<h2>By file</h2>\n"
}

/// The end of the page.
#[tactic(auto, unfolding(crate::specs::Page::page_end))]
fn page_end() -> &'static str
    ensures { result.now ≡ page_end }
{
    "</body>\n</html>\n"
}

/// The style sheet: a class for each style of a drawing, in light and dark colors.
#[tactic(auto, unfolding(crate::specs::Page::style_sheet))]
fn style_sheet() -> &'static str
    ensures { result.now ≡ style_text }
{
    ":root{color-scheme:light dark;--text:#1f2328;--back:#fff;--box:#f6f8fa;--edge:#d0d7de;\
    --error:#b3261e;--warning:#7d5200;--info:#1b5f86;--link:#0b57d0;--row:#636c76;\
    --first:#a3119f;--second:#00697a;--third:#1f7a1f}\n@media (prefers-color-scheme:dark){\
    :root{--text:#e6edf3;--back:#0d1117;--box:#161b22;--edge:#30363d;--error:#ff7b72;\
    --warning:#f4bf75;--info:#7fb8d0;--link:#79b0ff;--row:#8b949e;--first:#f657f8;\
    --second:#1ec9d4;--third:#91f66f}}\nbody{margin:2rem auto;max-width:72rem;\
    padding:0 1rem;background:var(--back);color:var(--text);\
    font:1rem/1.5 system-ui,sans-serif}\na{color:var(--link)}\nsummary{cursor:pointer;\
    font-weight:600;overflow-wrap:anywhere}\nli{overflow-wrap:anywhere}\npre{\
    margin:.75rem 0;padding:.75rem 1rem;overflow-x:auto;background:var(--box);\
    border:1px solid var(--edge);border-radius:6px;font:.85rem/1.2 ui-monospace,monospace}\n\
    pre:target{border-color:var(--link)}\n.error{color:var(--error);font-weight:700}\n\
    .warning{color:var(--warning);font-weight:700}\n.info{color:var(--info)}\n.link{\
    color:var(--link);font-weight:700}\n.row{color:var(--row)}\n.first{color:var(--first)}\n\
    .second{color:var(--second)}\n.third{color:var(--third)}\n"
}
