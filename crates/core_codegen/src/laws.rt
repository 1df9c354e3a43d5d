// Laws of the definitions, each as the contract of a call.
ghost use Rattle.core_codegen.specs.UniformRegisters.{UniformRegisterLaw};

/// The law of uniform registers: behind the code of settled statements each uniform register holds the value that each place which has set its
/// variable has for it, also where the place has left a loop and others go on.
#[tactic(auto, using(crate::proofs::SharedHeld::uniform_registers))]
pub fn uniform_register_law()
    ensures { UniformRegisterLaw }
{}
