// Parts of a tree, put into memory. What is left where there is a fault, or where memory runs out, is dropped here, so that a caller
// has only the fault to hand on.
ghost use Rattle.std.specs.Prelude.{List, ◌≡◌, ◌++◌, [], ◌∷◌, Err, IfErr, IfOk};
ghost use Rattle.sl_expressions.specs.Found.{Found};
ghost use Rattle.sl_expressions.specs.Typed as T;
ghost use Rattle.sl_expressions.specs.Views.{Gives, GivesAll, one_more};
ghost use Rattle.sl_expressions.specs.declared.faults.TypeFault.TheVariants.{NoMemory};

use crate::faults::TypeFault;
use std::alloc::Global;

/// The fault at which something is left.
pub fn left<A: Drop, B, E>(part: A, fault: E) -> Result<B, E>
    ensures { result ≡ Err fault }
{
    drop(part);
    Err(fault)
}

/// A part in a box.
pub fn boxed<A: Drop>(alloc: Global, part: A) -> Result<Box<A>, TypeFault>
    ensures value { IfOk result (λ b. b.value ≡ part) }
    ensures err { IfErr result (λ e. e ≡ NoMemory) }
{
    Ok(Box::new(alloc, part)?)
}

/// A list of one part.
pub fn one<A: Drop>(alloc: Global, part: A) -> Result<Vec<A>, TypeFault>
    ensures items { IfOk result (λ v. v.items ≡ part ∷ []) }
    ensures err { IfErr result (λ e. e ≡ NoMemory) }
{
    let mut parts = Vec::new(alloc);
    push(&mut parts, part)?;
    Ok(parts)
}

/// One part more.
pub fn push<A: Drop>(parts: &mut Vec<A>, part: A) -> Result<(), TypeFault>
    ensures items { IfOk result (λ _. parts.new.items ≡ parts.old.items ++ part ∷ []) }
    ensures err { IfErr result (λ e. e ≡ NoMemory) }
{
    parts.push(part)?;
    Ok(())
}

/// What is found of parts, and of one more after them: the first fault, or all of them.
pub fn added<A: Drop>(
    parts: Result<Vec<A>, TypeFault>,
    part: Result<A, TypeFault>,
) -> Result<Vec<A>, TypeFault>
    ensures { (view : A → T.Expr) (before : Found (List T.Expr)) (found : Found T.Expr) → GivesAll view parts before → Gives view part found → GivesAll view result (one_more before found) }
{
    match parts {
        Err(fault) => left(part, fault),
        Ok(mut parts) => match part {
            Err(fault) => left(parts, fault),
            Ok(part) => {
                push(&mut parts, part)?;
                Ok(parts)
            }
        },
    }
}
