// Laws of the definitions, each as the contract of a call.
ghost use Rattle.displace_shade.specs.Constant.{ConstantLaw};

/// The law of the stock shader `constant`: under it each point of a leaf without a volume has the opacity times the colour that its primitive
/// gives there, and that opacity put into 0 to 1, whatever displaces it and whatever lights there are.
#[tactic(auto, using(crate::proofs::Flat::constant_law))]
pub fn constant_law()
    ensures { ConstantLaw }
{}
