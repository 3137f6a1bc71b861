//! What has lines of its own.
ghost use Rattle.std.specs.Prelude.{List, ℕ, ◌≡◌, ◌++◌, OnOk, string_bytes};

use std::alloc::{AllocError, Global};

/// What is shown by lines of its own.
pub(crate) trait Shown {
    /// The lines.
    ghost lines: { Self → List ℕ };

    /// Puts its lines.
    fn push_lines(&self, alloc: Global, text: &mut String) -> Result<(), AllocError>
        ensures { OnOk result (string_bytes text.new ≡ string_bytes text.old ++ lines self.now) };
}
