// What a default works on.
use sl_ast::Value;

// The formals and locals in scope by their levels, and the turns left for loops.
#[derive(Drop)]
pub struct Scope {
    pub values: Vec<Value>,
    pub turns: u32,
}
