// Laws: `tool_lines` reads the line of a plain problem, as `problem_lines` writes it, as that
// problem. `is_plain` tests whether a problem is plain, and `specs/Problems/Read.antt` defines what
// is read.
ghost use Rattle.std.specs.Prelude.{◌≡◌, true, map};
ghost use Rattle.std.specs.List.{list_all};
ghost use Rattle.oxc_span.specs.Views.{text_bytes};
ghost use Rattle.oxc_protocol.specs.Info.{info_parts};
ghost use Rattle.line_shapes.specs.Bytes.{is_in as belongs};
ghost use Rattle.line_shapes.specs.declared.bytes.Kind.TheVariants.{InRule};
ghost use Rattle.finding_laws.specs.Problems.Plain.{begins_bracket as bracket_first};
ghost use Rattle.finding_laws.specs.Problems.Plain.{has_no_colon as colon_nowhere};
ghost use Rattle.finding_laws.specs.Problems.Plain.{is_own as own_byte, is_plain as plain};
ghost use Rattle.finding_laws.specs.Problems.Plain.{is_plain_code as plain_code};
ghost use Rattle.finding_laws.specs.Problems.Plain.{is_plain_message as plain_message};
ghost use Rattle.finding_laws.specs.Problems.Plain.{is_plain_name as plain_name};
ghost use Rattle.finding_laws.specs.Problems.Plain.{is_small_place as small_place};
ghost use Rattle.finding_laws.specs.Problems.Read.{AreReadBack, ReadsBack};

use line_shapes::bytes::{Kind, byte_at, end_run, is_in};
use line_shapes::name::{NameKind, is_name};
use line_shapes::said::code_behind;
use oxc_protocol::{Info, InfoPosition};

/// The line of a plain problem is read as the problem, whatever line follows, unless that line may
/// have the position of what is before it.
pub fn problem_is_read_back(_info: &Info)
    requires { plain (info_parts _info.now) ≡ true }
    ensures { ReadsBack (info_parts _info.now) }
{}

/// The lines of plain problems, joined, are read as these problems, in order, each as a block of
/// one line. The empty line after the last LF is kept.
pub fn problems_are_read_back(_infos: &[Info])
    requires { list_all plain (map info_parts _infos.now) ≡ true }
    ensures { AreReadBack (map info_parts _infos.now) }
{}

/// Whether a problem is plain: nothing in it is escaped in its line, nothing in it reads as
/// something else, and its numbers have 32 bits.
pub fn is_plain(info: &Info) -> bool
    ensures { result ≡ plain (info_parts info.now) }
{
    is_plain_name(info.filename.as_str().as_bytes())
        && is_small_place(&info.start)
        && is_small_place(&info.end)
        && is_plain_message(info.message.as_str().as_bytes())
        && is_plain_code(&info.rule_id, info.message.as_str().as_bytes())
}

fn is_plain_name(name: &[u8]) -> bool
    ensures { result ≡ plain_name name.now }
{
    is_name(name, name.len(), NameKind::Any)
        && are_own(name)
        && has_no_colon(name)
        && !begins_bracket(name)
}

fn is_small_place(place: &InfoPosition) -> bool
    ensures { result ≡ small_place place.now }
{
    place.line < 0x1_0000_0000 && place.column < 0x1_0000_0000
}

fn is_plain_message(message: &[u8]) -> bool
    ensures { result ≡ plain_message message.now }
{
    0 < message.len()
        && are_own(message)
        && !is_in(Kind::Blank, byte_at(message, 0))
        && end_run(Kind::Blank, message) == 0
        && !begins_bracket(message)
}

fn is_plain_code(code: &Option<String>, message: &[u8]) -> bool
    ensures { result ≡ plain_code (text_bytes code.now) message.now }
{
    match code {
        Some(code) => {
            let code = code.as_str().as_bytes();
            0 < code.len() && are_own(code) && are_in_rule(code)
        }
        None => code_behind(message, false).is_none(),
    }
}

/// Whether a text has no backslash, LF or CR, which are escaped in all texts of a problem.
fn are_own(text: &[u8]) -> bool
    ensures { result ≡ list_all own_byte text.now }
{
    text.iter()
        .all(|byte| !matches!(*byte, b'\\' | b'\n' | b'\r'))
}

fn has_no_colon(text: &[u8]) -> bool
    ensures { result ≡ colon_nowhere text.now }
{
    text.iter().all(|byte| *byte != b':')
}

fn begins_bracket(text: &[u8]) -> bool
    ensures { result ≡ bracket_first text.now }
{
    byte_at(text, 0) == b'['
}

fn are_in_rule(code: &[u8]) -> bool
    ensures { result ≡ list_all (belongs InRule) code.now }
{
    code.iter().all(|byte| is_in(Kind::InRule, *byte))
}
