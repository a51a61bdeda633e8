// The number of the ABI.

/// The number of the ABI: of how the arguments of the calls are laid out and what their numbers
/// mean. It changes with every change that a compiled caller would have to know.
pub(crate) const ABI: u32 = 1;
