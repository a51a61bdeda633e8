// Filled texts and widths by example. The expected values were worked out by hand from the rule.
ghost use Rattle.std.specs.Prelude.{◌≡◌, ◌-◌, IfOk, codes, string_bytes};
ghost use Rattle.textwrap.specs.Filled.{filled};

use crate::texts::is_text;
use std::alloc::{AllocError, Global};
use textwrap::core_::display_width;
use textwrap::{Options, fill};

// A text, a width, the indents of the first line and of the later ones, and the filled text.
type Case = (
    &'static str,
    usize,
    &'static str,
    &'static str,
    &'static str,
);

/// Whether a text is filled so.
fn is_filled(alloc: Global, case: &Case) -> bool {
    let (text, width, first, later, wanted) = *case;
    let options = Options::new(width)
        .initial_indent(first)
        .subsequent_indent(later);
    is_text(fill(alloc, text, &options), wanted)
}

const CASES: [Case; 40] = [
    // a word split at its hyphen, after indents
    ("a-b  cd", 4, "> ", ". ", "> a-\n. b\n. cd"),
    // empty texts and breaks at either end
    ("", 5, "", "", ""),
    ("", 3, "> ", ". ", "> "),
    ("\n", 3, "> ", ". ", "> \n. "),
    ("\na\n", 0, "", "", "\na\n"),
    ("a\n\nb", 9, "> ", ". ", "> a\n. \n. b"),
    // spaces before, between and after words
    ("ab cd", 5, "", "", "ab cd"),
    ("ab cd", 4, "", "", "ab\ncd"),
    (" ab", 3, "", "", " ab"),
    (" ab", 2, "", "", "\nab"),
    ("ab  ", 2, "", "", "ab"),
    ("ab  ", 9, "", "", "ab"),
    ("a   b", 5, "", "", "a   b"),
    ("a   b", 4, "", "", "a\nb"),
    ("   ", 1, "", "", ""),
    // words wider than the room, which is that of the later lines
    ("ab", 0, "", "", "a\nb"),
    ("abcdef", 4, "", "> ", "abcd\n> ef"),
    (" a", 3, ">>> ", "", ">>> \na"),
    ("a b", 1, ">>", ">>", ">>a\n>>b"),
    // hyphens
    ("a-b", 3, "", "", "a-b"),
    ("a-b", 2, "", "", "a-\nb"),
    ("--a-", 2, "", "", "--\na-"),
    ("1-2-3", 4, "", "", "1-2-\n3"),
    ("x \u{e9}-b", 4, "", "", "x\n\u{e9}-b"),
    ("one two-three four", 10, "", "", "one two-\nthree four"),
    // controls and characters of other widths
    ("a\tb", 2, "", "", "a\tb"),
    ("a\tb", 1, "", "", "a\t\nb"),
    ("a\rb", 2, "", "", "a\rb"),
    ("\u{65e5}\u{672c}", 4, "", "", "\u{65e5}\u{672c}"),
    ("\u{65e5}\u{672c}", 3, "", "", "\u{65e5}\n\u{672c}"),
    ("\u{65e5}\u{672c}", 1, "", "", "\u{65e5}\n\u{672c}"),
    ("e\u{301}x", 1, "", "", "e\u{301}\nx"),
    ("\u{65e5}\u{301}x", 1, "", "", "\u{65e5}\n\u{301}x"),
    // escape sequences
    ("\u{1b}[1mab\u{1b}[0m", 2, "", "", "\u{1b}[1mab\u{1b}[0m"),
    ("\u{1b}[1mab\u{1b}[0m", 1, "", "", "\u{1b}[1ma\nb\u{1b}[0m"),
    ("ab \u{1b}[3 cd", 3, "", "", "ab \u{1b}[3\ncd"),
    ("ab \u{1b}[3 cd", 2, "", "", "ab\n\u{1b}[3\ncd"),
    (
        "\u{1b}]8;;x\u{7}link\u{1b}]8;;\u{7}",
        4,
        "",
        "",
        "\u{1b}]8;;x\u{7}link\u{1b}]8;;\u{7}",
    ),
    (
        "\u{1b}]8;;x\u{7}link\u{1b}]8;;\u{7}",
        2,
        "",
        "",
        "\u{1b}]8;;x\u{7}li\nnk\u{1b}]8;;\u{7}",
    ),
    ("\u{1b}]0;t\u{1b}\\ab", 1, "", "", "\u{1b}]0;t\u{1b}\\a\nb"),
];

#[test]
fn texts_fill_narrow_widths(rt: HostRuntime) {
    for case in &CASES {
        assert!(rt; is_filled(rt.alloc(), case), "{}", case.4);
    }
}

const WIDTHS: [(&str, usize); 13] = [
    ("", 0),
    ("\u{1b}[31m\u{65e5}\u{1b}[0m", 2),
    ("a\tb", 2),
    ("\u{65e5}e\u{301}", 3),
    ("\u{1f468}\u{200d}\u{1f469}\u{200d}\u{1f467}", 6),
    ("\u{1b}", 0),
    ("\u{1b}cx", 1),
    ("\u{1b}[31", 0),
    ("a\u{1b}[3 bc", 2),
    ("\u{1b}]x\u{7}y", 1),
    ("\u{1b}]x\u{1b}\\y", 1),
    ("\u{1b}]x\u{1b}y\u{7}z", 1),
    ("\u{1b}]x", 0),
];

#[test]
fn escape_sequences_take_no_cells(rt: HostRuntime) {
    for row in &WIDTHS {
        assert!(rt; display_width(row.0) == row.1, "{}", row.0);
    }
}

/// A help text after its label, its lines aligned.
fn help(alloc: Global, text: &str, width: usize) -> Result<String, AllocError>
    ensures { IfOk result (λ shown. string_bytes shown ≡ filled (width - 4) (codes "  help: ")
        (codes "        ") text.now) }
{
    let options = Options::new(width.saturating_sub(4))
        .initial_indent("  help: ")
        .subsequent_indent("        ");
    fill(alloc, text, &options)
}

#[test]
fn a_help_text_hangs_behind_its_label(rt: HostRuntime) {
    let shown = help(rt.alloc(), "remove this name", 22);
    assert!(rt; is_text(shown, "  help: remove\n        this name"));
}
