// The example of README, as it is drawn.
use diagnostics::{
    GraphicalReportHandler, GraphicalTheme, LabeledSpan, OxcDiagnostic, RenderError, draw_on,
};
use std::alloc::Global;

/// A report of a name that isn't there.
fn undefined(alloc: Global) -> Result<String, RenderError> {
    let text = "let total = 1;\nprint(totl);\n";
    let name = LabeledSpan::new(Some(String::from_str(alloc, "not found")?), 21, 4);
    let report = OxcDiagnostic::error(alloc, "`totl` isn't defined.")?
        .with_error_code(alloc, "eslint", "no-undef")?
        .with_label(alloc, name)?
        .with_help(alloc, "Did you mean `total`?")?;
    let look = GraphicalReportHandler::new_themed(GraphicalTheme::unicode_nocolor());
    draw_on(alloc, &look, "cart.js", text, &report)
}

const ROWS: &str = concat!(
    "\n  × eslint(no-undef): `totl` isn't defined.\n",
    "   ╭─[cart.js:2:7]\n",
    " 1 │ let total = 1;\n",
    " 2 │ print(totl);\n",
    "   ·       ──┬─\n",
    "   ·         ╰── not found\n",
    "   ╰────\n",
    "  help: Did you mean `total`?\n",
);

#[test]
fn a_report_is_drawn(rt: HostRuntime) {
    let is_drawn = match undefined(rt.alloc()) {
        Ok(text) => text.as_str() == ROWS,
        Err(_) => false,
    };
    assert!(rt; is_drawn);
}
