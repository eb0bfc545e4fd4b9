//! The results of a function's instructions.

ghost use Rattle.std.specs.Prelude.{◌≡◌, ◌<◌, ◌≤◌, ◌+◌, length, replicate, IfOk};
ghost use Rattle.ax_source_run.specs.SourceAccess.{put_at};
ghost use Rattle.ax_cells.specs.Values.{value_of};
ghost use Rattle.ax_cells.specs.Shapes.{numbers_put, values_of};

use crate::value::Value;
use std::alloc::{AllocError, Global};
use std::marker::Model;

/// The results of a function's instructions, by their numbers. Where there is none, 0 stands.
///
/// Contracts see it as a list of values.
#[derive(Drop)]
pub struct Results {
    values: Vec<Value>,
}

impl Model for Results {
    ghost use Rattle.std.specs.Prelude.{List};
    ghost use Rattle.ax_cells.specs.declared.value.Value.{Value as Held};

    ghost Value = { List Held };

    ghost view = { λ r. r.values.items };
}

impl Results {
    /// The results of `count` instructions, each 0. It fails only where there is no memory.
    pub fn zeros(alloc: Global, count: usize) -> Result<Results, AllocError>
        ensures { IfOk result (λ r. r ≡ replicate count (Value.Number 0)) }
    {
        let values = vec![in alloc; Value::Number(0); count]?;
        Ok(Results { values })
    }

    /// The result of instruction `k`, and 0 where there is none.
    pub fn value(&self, k: usize) -> Value
        ensures { value_of result ≡ values_of self.now k }
    {
        self.values.get(k).copied().unwrap_or(Value::Number(0))
    }

    /// Sets the result of instruction `k`, which there is. All others stay.
    #[tactic(auto, using(crate::proofs::Writes::kept))]
    pub fn set(&mut self, k: usize, value: Value)
        requires { k < length self.old }
        ensures values { values_of self.new ≡ put_at (values_of self.old) k (value_of value) }
        ensures count { length self.new ≡ length self.old }
    {
        self.values[k] = value;
    }

    /// Sets the results from instruction `k` on, one for each number, in order. The caller sees to it
    /// that there are so many.
    #[tactic(auto, using(crate::proofs::Writes::puts))]
    pub fn set_all(&mut self, k: usize, numbers: &[u128])
        requires within { k + length numbers.now ≤ length self.old }
        requires small { k + length numbers.now ≤ 2048 }
        ensures values { values_of self.new ≡ numbers_put k numbers.now (values_of self.old) }
        ensures count { length self.new ≡ length self.old }
    {
        for (j, number) in numbers.iter().enumerate() {
            self.set(k + j, Value::Number(*number));
        }
    }
}
