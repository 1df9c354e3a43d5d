// What the statements of a default do to its variables and its budget.
ghost use Rattle.std.specs.Prelude.{◌≡◌, ◌<◌, ◌∷◌, [], ◌++◌, ℕ, nat_lt, cond, true, length, take, get_or, IfOk, OnOk};
ghost use Rattle.sl_ast.specs.declared.typed.Variable.TheVariants.{Level};
ghost use Rattle.sl_meaning.specs.Environment as spec;
ghost use Rattle.sl_meaning.specs.Environment.{bare};
ghost use Rattle.sl_meaning.specs.Defaults.{full};
ghost use Rattle.sl_evaluation.specs.ScopeView.{env_of};

use crate::scope::Scope;
use builtins::copied;
use fixed_math::{NoMemory, Num};
use sl_ast::Value;
use std::alloc::Global;
use std::mem;

// The turns that a budget has at first.
const TURNS: u32 = 65536;

impl Scope {
    // No variables, and a full budget.
    pub fn new(alloc: Global) -> Scope
        ensures { env_of result ≡ bare full full }
    {
        Scope {
            values: Vec::new(alloc),
            turns: TURNS,
        }
    }

    // The value of a variable, and 0 of one that isn't in scope. Want of memory where it is a text.
    pub fn read(&self, alloc: Global, level: u32) -> Result<Value, NoMemory>
        ensures { IfOk result (λ v. v ≡ spec.read_of (Level level) (env_of self.now)) }
    {
        match self.values.get(level as usize) {
            Some(value) => copied(alloc, value),
            None => Ok(Value::Number(Num::sat(0))),
        }
    }

    // Sets a variable that is in scope.
    pub fn set(&mut self, level: u32, value: Value)
        ensures { env_of self.new ≡ spec.with_variable (Level level) value (env_of self.old) }
    {
        if let Some(place) = self.values.get_mut(level as usize) {
            *place = value;
        }
    }

    // One variable more in scope.
    pub fn declare(&mut self, value: Value) -> Result<(), NoMemory>
        ensures { OnOk result (env_of self.new ≡ spec.declared value (env_of self.old)) }
    {
        self.values.push(value)?;
        Ok(())
    }

    // Other variables in scope, and gives the old ones.
    pub fn exchange(&mut self, values: Vec<Value>) -> Vec<Value>
        ensures now { env_of self.new ≡ record (env_of self.old) { values = values.items } }
        ensures old { result.items ≡ (env_of self.old).values }
    {
        mem::replace(&mut self.values, values)
    }

    // How many variables are in scope.
    pub fn depth(&self) -> usize
        ensures { result ≡ length (env_of self.now).values }
    {
        self.values.len()
    }

    // The first `depth` variables alone.
    pub fn cut(&mut self, depth: usize)
        ensures { env_of self.new ≡ record (env_of self.old) { values = take depth (env_of self.old).values } }
    {
        self.values.truncate(depth);
    }

    // Takes a turn from the budget, if one is left.
    pub fn spend(&mut self) -> bool
        ensures left { result ≡ nat_lt 0 (spec.budget true (env_of self.old)) }
        ensures spent { env_of self.new ≡ cond result (spec.spend true (env_of self.old)) (env_of self.old) }
    {
        if self.turns == 0 {
            return false;
        }
        self.turns -= 1;
        true
    }
}
