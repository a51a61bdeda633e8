// Which problems are plain, and a caller that is proved from the contracts alone.
ghost use Rattle.std.specs.Prelude.{◌≡◌, true};
ghost use Rattle.oxc_protocol.specs.Info.{info_parts};
ghost use Rattle.finding_laws.specs.Problems.Read.{ReadsBack};

use finding_laws::{is_plain, problem_is_read_back};
use oxc_protocol::{Info, InfoPosition, Severity};
use std::alloc::{AllocError, Global};

/// Whether it is known that a problem's line is read as the problem.
fn is_known(info: &Info) -> bool
    ensures { result ≡ true → ReadsBack (info_parts info.now) }
{
    if is_plain(info) {
        problem_is_read_back(info);
        true
    } else {
        false
    }
}

fn rule_of(alloc: Global, rule: Option<&str>) -> Result<Option<String>, AllocError> {
    match rule {
        Some(rule) => Ok(Some(String::from_str(alloc, rule)?)),
        None => Ok(None),
    }
}

/// A name, a code and a message.
type Texts = (&'static str, Option<&'static str>, &'static str);

/// A problem of these texts.
fn problem(alloc: Global, texts: &Texts) -> Result<Info, AllocError> {
    let filename = String::from_str(alloc, texts.0)?;
    let rule_id = rule_of(alloc, texts.1)?;
    let message = String::from_str(alloc, texts.2)?;
    Ok(Info {
        start: InfoPosition { line: 2, column: 1 },
        end: InfoPosition { line: 2, column: 4 },
        filename,
        message,
        severity: Severity::Advice,
        rule_id,
    })
}

/// Whether it is known, or isn't, as wanted, that the line of such a problem is read back.
fn is_judged(alloc: Global, texts: &Texts, wanted: bool) -> bool {
    match problem(alloc, texts) {
        Ok(info) => is_known(&info) == wanted,
        Err(_) => false,
    }
}

const PLAIN: [Texts; 4] = [
    ("src/a(1).rs", Some("no-var/x"), "Oops (again): 1:2: x"),
    ("a b.js", None, "Oops"),
    ("<stdin>", None, "see [1]: more"),
    ("C-\u{e9}t\u{e9}", Some("E0001"), "(ends in a code) [x]"),
];

#[test]
fn plain_problems_are_known(rt: HostRuntime) {
    for texts in &PLAIN {
        assert!(rt; is_judged(rt.alloc(), texts, true), "{}", texts.0);
    }
}

const OTHERS: [Texts; 8] = [
    // The name is taken for a level.
    ("[error] a.js", None, "Oops"),
    // The message is taken for a code, or ends in one.
    ("a.js", None, "[x] Oops"),
    ("a.js", None, "Oops [x]"),
    ("a.js", None, "Oops (no-var)"),
    // The code ends too early.
    ("a.js", Some("a:b"), "Oops"),
    ("a.js", Some("a[1]"), "Oops"),
    // Escapes aren't turned back.
    ("a\\b.js", None, "Oops"),
    ("a.js", None, "Oops\nagain"),
];

#[test]
fn others_are_not_known(rt: HostRuntime) {
    for texts in &OTHERS {
        assert!(rt; is_judged(rt.alloc(), texts, false), "{}", texts.2);
    }
}
