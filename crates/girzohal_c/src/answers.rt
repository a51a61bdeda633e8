// What a call writes to the answer and to the buffer.
ghost use Rattle.std.specs.Prelude.{◌≡◌, ◌⊎◌, length, take};
ghost use Rattle.std.specs.Str.{IsUtf8};
ghost use Rattle.girzohal_c.specs.Answers.{needs, no_answer};
ghost use Rattle.girzohal_c.specs.Answers.{refused_answer as refused_of, wrong_answer as wrong_of};
ghost use Rattle.girzohal_c.specs.Replies.{Gives, Tells, reply};

use crate::drawing::{Argument, Fault};
use crate::shapes::Answer;
use render_files::ReportError;
use report_arrays::Wrong;

/// An answer that says nothing but the status.
const NO_ANSWER: Answer = Answer {
    needed: 0,
    array: 0,
    index: 0,
    report: 0,
    label: 0,
    cause: 0,
    first: 0,
    second: 0,
};

/// Replies with a text, or with the reason that there is none, and returns the status.
#[tactic(auto, using(crate::proofs::Written::written_is_utf8))]
pub(crate) fn reply_with(made: Result<String, Fault>, out: &mut [u8], answer: &mut Answer) -> u32
    ensures told { Tells made (reply result answer.new out.old out.new) }
    ensures kept { (result ≡ 0) ⊎ (out.new ≡ out.old) }
    ensures utf8 { result ≡ 0 → IsUtf8 (take answer.new.needed out.new) }
{
    match made {
        Ok(text) => give_bytes(text.as_str().as_bytes(), out, answer),
        Err(Fault::IsWrong(argument)) => {
            *answer = wrong_answer(argument);
            2
        }
        Err(Fault::IsNoDocument) => {
            *answer = NO_ANSWER;
            3
        }
        Err(Fault::IsRefused(why)) => {
            *answer = refused_answer(why);
            1
        }
        Err(Fault::WantsMemory) => {
            *answer = NO_ANSWER;
            6
        }
    }
}

/// Writes a text to the beginning of a buffer if it fits, and its length to the answer.
fn give_bytes(text: &[u8], out: &mut [u8], answer: &mut Answer) -> u32
    ensures given { Gives text.now (reply result answer.new out.old out.new) }
    ensures kept { (result ≡ 0) ⊎ (out.new ≡ out.old) }
{
    *answer = Answer {
        needed: text.len(),
        ..NO_ANSWER
    };
    if text.len() > out.len() {
        return 10;
    }
    let part = &mut out[..text.len()];
    part.copy_from_slice(text);
    0
}

/// Which argument is wrong.
fn wrong_answer(argument: Argument) -> Answer
    ensures { result ≡ wrong_of argument }
{
    let (array, index) = match argument {
        Argument::InArrays(Wrong::InTexts) => (0, 0),
        Argument::InArrays(Wrong::InFile(index)) => (1, index),
        Argument::InArrays(Wrong::InReport(index)) => (2, index),
        Argument::InArrays(Wrong::InLabel(index)) => (3, index),
        Argument::InLook(field) => (4, field),
        Argument::InAbi => (5, 0),
    };
    Answer {
        array,
        index,
        ..NO_ANSWER
    }
}

/// The error of a report.
fn refused_answer(why: ReportError) -> Answer
    ensures { result ≡ refused_of why }
{
    match why {
        ReportError::UnknownFile { report } => Answer {
            cause: 1,
            report,
            ..NO_ANSWER
        },
        ReportError::PositionOutside {
            report,
            label,
            at_end,
        } => Answer {
            cause: if at_end { 3 } else { 2 },
            report,
            label,
            ..NO_ANSWER
        },
        ReportError::LabelReversed {
            report,
            label,
            start,
            end,
        } => Answer {
            cause: 4,
            report,
            label,
            first: start as u64,
            second: end as u64,
            ..NO_ANSWER
        },
        ReportError::SinkFault | ReportError::OutOfMemory => NO_ANSWER,
    }
}
