//! Laws of the token list, proved by these functions: they do nothing when they run.
ghost use Rattle.rib_lex.specs.Joined.{TextsJoin};
ghost use Rattle.rib_lex.specs.Spelling.{TokensSpell};

/// Two texts with a line feed between them have the tokens of the first and then those of the second, so many lines
/// further down, where the first has no fault.
#[tactic(auto, using(crate::proofs::Joins::texts_join))]
pub fn texts_join()
    ensures { TextsJoin }
{}

/// A text is read without a fault as these tokens exactly where it is the words of these tokens in order, with nothing but
/// white space and comments between them.
#[tactic(auto, using(crate::proofs::Readings::tokens_spell))]
pub fn tokens_spell()
    ensures { TokensSpell }
{}
