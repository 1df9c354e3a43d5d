// Why there is no answer.
ghost use Rattle.std.specs.Prelude.{◌≡◌};
ghost use Rattle.why_run.specs.declared.stop.Stop.TheVariants.{NoMemory as OutOfMemory, Refused};

use fixed_math::NoMemory;
use render::Refusal;

/// Why a question isn't answered.
#[derive(Drop)]
pub(crate) enum Stop {
    /// The words are no question, the scene has no such frame, or its picture no such pixel.
    Usage,
    /// The library lacks the scene.
    NoScene,
    Refused(Refusal),
    WriteFault,
    NoMemory,
}

impl From<NoMemory> for Stop {
    ghost from_gives = { λ _ s. s ≡ OutOfMemory };

    fn from(_: NoMemory) -> Stop {
        Stop::NoMemory
    }
}

impl From<Refusal> for Stop {
    ghost from_gives = { λ refusal s. s ≡ Refused refusal };

    fn from(refusal: Refusal) -> Stop {
        Stop::Refused(refusal)
    }
}
