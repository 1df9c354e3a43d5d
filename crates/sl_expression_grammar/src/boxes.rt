// What is made of tokens, put into memory. Where memory runs out the item is dropped here, so that a caller has only the
// stop to hand on.
ghost use Rattle.std.specs.Prelude.{◌≡◌, ◌++◌, [], ◌∷◌, Ok, IfOk, length};
ghost use Rattle.sl_expression_grammar.specs.Parsing.{Gives};

use crate::reading::Stop;
use sl_lexer::Token;
use std::alloc::{AllocError, Global};

/// An item in a box, and the tokens after it.
pub fn boxed<T: Drop>(
    alloc: Global,
    item: T,
    rest: &[Token],
) -> Result<(Box<T>, &[Token]), Stop<'_>>
    ensures gives { Gives (λ b. b.value) result (Ok (item, rest.now)) }
    ensures within { IfOk result (λ b. length b.1.now ≡ length rest.now) }
{
    Ok((Box::new(alloc, item)?, rest))
}

/// One item more.
pub fn push<T: Drop>(items: &mut Vec<T>, item: T) -> Result<(), AllocError>
    ensures { IfOk result (λ _. items.new.items ≡ items.old.items ++ item ∷ []) }
{
    items.push(item)?;
    Ok(())
}

/// One item more, out of its box.
pub fn push_boxed<T: Drop>(items: &mut Vec<T>, item: Box<T>) -> Result<(), AllocError>
    ensures { IfOk result (λ _. items.new.items ≡ items.old.items ++ item.value ∷ []) }
{
    push(items, Box::into_inner(item))
}
