// How a statement ends.
ghost use Rattle.std.specs.Prelude.{◌≡◌};
ghost use Rattle.sl_evaluation.specs.Signals.{is_break, signal_of};

/// A statement ends, or leaves the innermost loop, or goes on with its next turn.
#[derive(Clone, Copy, Debug, PartialEq, Eq)]
pub enum Signal {
    Next,
    Break,
    Continue,
}

impl Signal {
    // Whether it leaves the loop.
    pub(crate) fn is_break(self) -> bool
        ensures { result ≡ is_break (signal_of self) }
    {
        matches!(self, Signal::Break)
    }
}
