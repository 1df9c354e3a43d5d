// Where lines for the user go.
ghost use Rattle.std.specs.Prelude.{◌≡◌, ℕ, List, Option, ◌++◌, ◌∷◌, []};
ghost use Rattle.outside.specs.Causes.{HasCause};
ghost use Rattle.outside.specs.Sink.{Changes};

use crate::Failed;

/// A place for the lines that a user reads. It may tell them. Its count of faults never falls.
pub trait Notes {
    /// The lines so far, where they are told.
    ghost lines: { Self → Option (List (List ℕ)) };

    /// How often a line has failed.
    ghost faults: { Self → ℕ };

    /// Adds a line: these bytes, with the line feed that they end with. A failed line adds nothing.
    fn line(&mut self, text: &[u8]) -> Result<(), Failed>
        ensures lines { Changes (λ ls. ls ++ text.now ∷ []) result (lines self.old) (lines self.new) }
        ensures cause { HasCause (faults self.old) (faults self.new) result };
}
