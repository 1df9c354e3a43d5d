// The laws of tokens and of the grammar.
ghost use Rattle.sl_grammar.specs.Laws.{BadTokens, DeepTokens, FaultStays, ExprAccepted, ExprSpelledOnce, ShaderAccepted, ShaderGrammatical, ShaderSpelledOnce, FaultFirst, TextUnspelled, FaultUnspelled, TokensInTurn};

/// Does nothing: its contract is a law of tokens. Those of a text are what stands at its front, and then the tokens of the
/// text after it, with its lines counted on.
pub fn tokens_in_turn()
    ensures { TokensInTurn }
{}

/// Does nothing: its contract is a law of the grammar. A fault stands whatever follows the faulty token, so that a text
/// whose tokens begin like those of a refused one, up to and with the faulty one, is refused there too.
pub fn fault_stays()
    ensures { FaultStays }
{}

/// Does nothing: its contract is two laws of the grammar. A fault is P1 exactly where no token begins at its place. P3 stands
/// at a token at which a level opens: one that begins a statement or an expression, a prefix operator or a type among them.
pub fn faults_placed()
    ensures bad { BadTokens }
    ensures deep { DeepTokens }
{}

/// Does nothing: its contract is two laws of the grammar. The tokens of each expression of the grammar are read, and the
/// tree that is read is that expression. So no two expressions of the grammar are spelled alike, but for their lines.
pub fn expressions_spelled_once()
    ensures accepted { ExprAccepted }
    ensures once { ExprSpelledOnce }
{}

/// Does nothing: its contract is the laws by which the grammar decides a text. It is accepted where its tokens spell a tree
/// of the grammar that opens at most 64 levels, and the tree that is read is that one but for its lines. What is read is
/// such a tree. No two trees of the grammar are spelled alike, but for their lines. The tokens before a fault begin a tree
/// of the grammar. Those up to and with the faulty one, or all tokens of a refused text, begin or spell one only where the
/// fault is P3, and that tree opens more than 64 levels.
pub fn shaders_spelled_once()
    ensures accepted { ShaderAccepted }
    ensures grammatical { ShaderGrammatical }
    ensures once { ShaderSpelledOnce }
    ensures first { FaultFirst }
    ensures refused { TextUnspelled }
    ensures unspelled { FaultUnspelled }
{}
