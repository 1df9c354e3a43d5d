//! Laws of the definitions, proved by these functions: they do nothing when they run.
ghost use Rattle.mask_codegen.specs.CoreClasses.{ClassesAgree};

/// The core tree of a well typed expression is uniform exactly where the expression is.
#[tactic(auto, using(crate::proofs::LoweredClasses::classes_agree))]
pub fn classes_agree()
    ensures { ClassesAgree }
{}
