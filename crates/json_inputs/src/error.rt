//! Why an input isn't read.
use std::alloc::AllocError;

/// Why an input isn't read.
#[derive(Drop)]
pub enum InputError {
    /// The line that says why, with its LF.
    Refused(String),
    OutOfMemory,
}

impl From<AllocError> for InputError {
    ghost use Rattle.json_inputs.specs.declared.error.InputError.TheVariants.{OutOfMemory};
    ghost use Rattle.std.specs.Prelude.{◌≡◌};

    ghost from_gives = { λ _ e. e ≡ OutOfMemory };

    fn from(_refused: AllocError) -> Self {
        InputError::OutOfMemory
    }
}
