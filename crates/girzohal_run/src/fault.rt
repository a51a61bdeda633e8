// Why nothing is made of an input.
ghost use Rattle.std.specs.Prelude.{◌≡◌, ◌++◌, codes};
ghost use Rattle.girzohal_run.specs.Made.{Says};

use json_inputs::InputError;
use shown_reports::ShowError;
use std::alloc::{AllocError, Global};

/// Why nothing is made of an input.
#[derive(Drop)]
pub enum Fault {
    /// The input isn't of its form: the text for the error output, which ends in the line that
    /// says why.
    NoForm(Vec<u8>),
    /// There was no memory left.
    OutOfMemory,
}

impl From<AllocError> for Fault {
    ghost use Rattle.std.specs.Prelude.{◌≡◌};
    ghost use Rattle.girzohal_run.specs.declared.fault.Fault.TheVariants.{OutOfMemory};

    ghost from_gives = { λ _ fault. fault ≡ OutOfMemory };

    fn from(_error: AllocError) -> Fault {
        Fault::OutOfMemory
    }
}

impl From<ShowError> for Fault {
    ghost use Rattle.std.specs.Prelude.{◌≡◌};
    ghost use Rattle.girzohal_run.specs.declared.fault.Fault.TheVariants.{OutOfMemory};

    ghost from_gives = { λ _ fault. fault ≡ OutOfMemory };

    fn from(error: ShowError) -> Fault {
        match error {
            // So many files would take more memory than there is, so the status stays that of
            // memory.
            ShowError::TooManyFiles | ShowError::OutOfMemory => Fault::OutOfMemory,
        }
    }
}

impl From<InputError> for Fault {
    ghost use Rattle.girzohal_run.specs.Made.{SaysWhy};

    ghost from_gives = { λ why fault. SaysWhy why fault };

    fn from(error: InputError) -> Fault {
        match error {
            InputError::Refused(line) => Fault::NoForm(line.into_bytes()),
            InputError::OutOfMemory => Fault::OutOfMemory,
        }
    }
}

/// The fault of an input that isn't of its form, with this reason.
pub(crate) fn no_form(alloc: Global, text: &str) -> Fault
    ensures { Says (λ line. line ≡ codes "girzohal: " ++ text.now ++ codes "\n") result }
{
    match format!(in alloc; "girzohal: {text}\n") {
        Ok(line) => Fault::NoForm(line.into_bytes()),
        Err(_) => Fault::OutOfMemory,
    }
}
