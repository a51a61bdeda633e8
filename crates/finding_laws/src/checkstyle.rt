// Laws: what `ci_formats` writes as Checkstyle's XML, `xml_values` and `json_forms` read as these
// findings.
ghost use Rattle.std.specs.Prelude.{◌≡◌, [], map, true, Some};
ghost use Rattle.std.specs.List.{list_all};
ghost use Rattle.std.specs.Str.{chars};
ghost use Rattle.ci_formats.specs.Finding.{finding_parts};
ghost use Rattle.ci_formats.specs.Checkstyle.{checkstyle_of};
ghost use Rattle.ci_formats.specs.Xml.{escape, held, is_held, shown};
ghost use Rattle.xml_values.specs.Document.{value_of};
ghost use Rattle.xml_values.specs.Text.{text_after};
ghost use Rattle.finding_laws.specs.Checkstyle.Read.{ReachesEach, ReadsConditions, ReadsMessage};
ghost use Rattle.finding_laws.specs.Checkstyle.Read.{ReadsOutcome, ReadsParts};
ghost use Rattle.finding_laws.specs.Checkstyle.Told.{IsToldAlone};
ghost use Rattle.finding_laws.specs.Checkstyle.Value.{checkstyle_value};

use ci_formats::Finding;
use json_forms::Forms;

/// An escaped text, in quotes, is read as the text. So a text that is written is read as it is,
/// but with U+FFFD for each character that XML can't hold.
pub fn text_is_read(_text: &str)
    ensures escaped { text_after true [] (escape _text.now) ≡ Some _text.now }
    ensures shown { text_after true [] (shown _text.now) ≡ Some (held _text.now) }
{}

/// A text of characters that XML can hold is written as it is.
pub fn held_text_is_kept(_text: &str)
    ensures { list_all is_held (chars _text.now) ≡ true → held _text.now ≡ _text.now }
{}

/// The XML of findings is read without a refusal, as this value: an element for each file, with
/// its name, and in it one for each of its findings, with exactly its line, column, severity,
/// message and code.
pub fn checkstyle_is_read(_findings: &[Finding])
    ensures { value_of (checkstyle_of (map finding_parts _findings.now))
        ≡ Some (checkstyle_value (map finding_parts _findings.now)) }
{}

/// Where the user gives no form and names none, that value has the one known form whose mark asks
/// for it, if each other one asks for something elsewhere, or is asked last.
pub fn checkstyle_is_told(_forms: &Forms<'_>, _findings: &[Finding])
    ensures { IsToldAlone _forms.now (checkstyle_value (map finding_parts _findings.now)) }
{}

/// A list of that form leads to an element for each finding, by files, in order. Of it the list
/// reads the same file, row, column, severity, code and message, as `specs/Checkstyle/Read.antt`
/// says.
pub fn findings_are_read(_findings: &[Finding])
    ensures elements { ReachesEach (map finding_parts _findings.now) }
    ensures parts { ReadsParts (map finding_parts _findings.now) }
    ensures message { ReadsMessage (map finding_parts _findings.now) }
    ensures conditions { ReadsConditions (map finding_parts _findings.now) }
    ensures outcome { ReadsOutcome (map finding_parts _findings.now) }
{}
