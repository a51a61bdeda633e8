//! Drawings of diagnostics for callers in C.
//!
//! Every argument is checked here, so the calls have no condition but C's own on slices. No
//! pointer is kept, and there is nothing to free. The first argument of a call is the number of the
//! ABI that its caller was compiled for; with another number than `ABI` nothing else is read.
//!
//! Modules, in the order in which data uses them:
//!
//! - `shapes`: the look and the answer, as C lays them out;
//! - `abi`: the number of the ABI;
//! - `style`: the style of a look, or which of its numbers is wrong;
//! - `drawing`: the text of what the arguments mean, or the reason that there is none;
//! - `answers`: the status, the answer and the buffer.
#![tactic(auto)]

ghost use Rattle.std.specs.Prelude.{◌≡◌, ◌⊎◌, take};
ghost use Rattle.std.specs.Str.{IsUtf8};
ghost use Rattle.girzohal_c.specs.Meaning.{arrays, document_meaning, meaning};
ghost use Rattle.girzohal_c.specs.Replies.{RepliesTo, reply};

mod abi;
mod answers;
mod drawing;
mod shapes;
mod style;

use crate::answers::reply_with;
use crate::drawing::{draw_arrays, draw_document};
pub use crate::shapes::{Answer, Look};
use report_arrays::{File, Label, Report};
use std::alloc::Global;

/// Writes the reports in plain arrays into the caller's buffer, and returns the status.
///
/// 0: the text was written; 1: a report has an error; 2: an argument is wrong; 6: out of memory;
/// 10: the buffer is too small. With every status but 0 the buffer is unchanged, and after the
/// text it always is.
#[unsafe(no_mangle)]
#[tactic(auto, using(crate::proofs::Replying::tells_replies))]
pub extern "C" fn girzohal_draw(
    alloc: Global,
    abi: u32,
    texts: &[u8],
    files: &[File],
    reports: &[Report],
    labels: &[Label],
    look: &Look,
    out: &mut [u8],
    answer: &mut Answer,
) -> u32
    ensures replies { let it = arrays texts.now files.now reports.now labels.now in
        RepliesTo look.now (meaning abi it look.now) (reply result answer.new out.old out.new) }
    ensures kept { (result ≡ 0) ⊎ (out.new ≡ out.old) }
    ensures utf8 { result ≡ 0 → IsUtf8 (take answer.new.needed out.new) }
{
    reply_with(
        draw_arrays(alloc, abi, texts, files, reports, labels, look),
        out,
        answer,
    )
}

/// Writes the reports of a document into the caller's buffer, and returns the status.
///
/// The document is JSON as `docs/DOCUMENT.md` states. The statuses are those of [`girzohal_draw`],
/// and 3: the bytes aren't a document. Only the number of the ABI and the look can be wrong
/// arguments here.
#[unsafe(no_mangle)]
#[tactic(auto, using(crate::proofs::Replying::tells_replies))]
pub extern "C" fn girzohal_document(
    alloc: Global,
    abi: u32,
    document: &[u8],
    look: &Look,
    out: &mut [u8],
    answer: &mut Answer,
) -> u32
    ensures replies { RepliesTo look.now (document_meaning abi document.now look.now)
        (reply result answer.new out.old out.new) }
    ensures kept { (result ≡ 0) ⊎ (out.new ≡ out.old) }
    ensures utf8 { result ≡ 0 → IsUtf8 (take answer.new.needed out.new) }
{
    reply_with(draw_document(alloc, abi, document, look), out, answer)
}

/// The version of the library: major, minor and patch, a byte each, as in 0x000100 for 0.1.0.
#[unsafe(no_mangle)]
pub extern "C" fn girzohal_version() -> u32
    ensures { result ≡ 256 }
{
    0x000100
}
