//! The version of pkder.

/// The version, and the logic that its proofs are for, by the name that `rt version` has for it.
pub const VERSION: &str = "1.1.0, for logic dac8208d650f15bf";
