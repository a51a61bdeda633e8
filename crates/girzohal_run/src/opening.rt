// How an input is read: whole, or as it comes.
ghost use Rattle.std.specs.Prelude.{◌≡◌, true};
ghost use Rattle.girzohal_run.specs.Opens.{HasOpeningCause, Opens};
ghost use Rattle.girzohal_run.specs.Opens.{may_begin};

use crate::lines::may_come;
use documents::Source;
use girzohal_options::{Asked, InputForm};
use input_forms::{FirstBytes, first_bytes};
use oxc_protocol::Failed;
use std::alloc::Global;

/// The limit in bytes, 64 MiB: of an input that is read whole, and of lines after the last known
/// block.
pub const LIMIT: usize = 67_108_864;

/// How many bytes one read may give.
pub(crate) const CHUNK: usize = 65_536;

/// What the first bytes of an input decided.
#[derive(Drop)]
pub(crate) enum Opening {
    /// It is lines that are written as they come; these bytes were read.
    Lines(Vec<u8>),
    /// It is read whole; these bytes were read.
    Whole(Vec<u8>),
    /// It goes on past the limit, and its form is still open.
    TooLong,
    /// It failed.
    Fault,
    /// There was no memory left.
    OutOfMemory,
}

/// Reads an input until it is known how it is read.
pub(crate) fn open<I: Source>(alloc: Global, asked: &Asked, input: &mut I) -> Opening
    ensures opens { Opens asked.now (I.left input.old) (I.left input.new) result }
    ensures cause { HasOpeningCause (I.faults input.old) (I.faults input.new) result }
{
    if !may_come(asked) {
        return Opening::Whole(Vec::new(alloc));
    }
    match asked.from {
        InputForm::Auto => begin(alloc, asked, input),
        InputForm::Lines => Opening::Lines(Vec::new(alloc)),
        InputForm::Document | InputForm::Sarif | InputForm::Json => {
            Opening::Whole(Vec::new(alloc))
        }
    }
}

/// The same for an input whose first bytes decide its form.
fn begin<I: Source>(alloc: Global, asked: &Asked, input: &mut I) -> Opening
    requires { may_begin asked.now ≡ true }
    ensures opens { Opens asked.now (I.left input.old) (I.left input.new) result }
    ensures cause { HasOpeningCause (I.faults input.old) (I.faults input.new) result }
{
    let mut bytes: Vec<u8> = Vec::new(alloc);
    let mut chunk = [0u8; CHUNK];
    loop {
        match first_bytes(&bytes) {
            FirstBytes::SurelyLines => return Opening::Lines(bytes),
            FirstBytes::Other => return Opening::Whole(bytes),
            FirstBytes::Open => {}
        }
        let room = (LIMIT - bytes.len()).min(CHUNK - 1) + 1;
        let piece = &mut chunk[..room];
        match input.read(piece) {
            Err(Failed) => return Opening::Fault,
            Ok(0) => return Opening::Whole(bytes),
            Ok(count) => {
                if count > LIMIT - bytes.len() {
                    return Opening::TooLong;
                }
                if bytes.extend_from_slice(&piece[..count]).is_err() {
                    return Opening::OutOfMemory;
                }
            }
        }
    }
}
