//! Prints.

ghost use Rattle.std.specs.Prelude.{◌≡◌, IfOk, OnErr, []};
ghost use Rattle.evaluation.specs.Execute.{print_value, printed, prints};
ghost use Rattle.interpreter.specs.Moves.{Goes, Leaves, FailsIn};

use crate::frame::Focus;
use crate::running::Running;
use core_tree::OutOfMemory;
use evaluation::Outcome;
use heap_arena::{Cell, Store};
use std::alloc::Global;
use value_operators::print_bytes;

impl<'p, S: Store + Drop> Running<'p, S> {
    /// A print of nothing, with a line feed where a line ends.
    pub fn print_nothing(&mut self, line: bool) -> Result<Focus<'p>, OutOfMemory>
        ensures ok { IfOk result (Goes S.state (λ p part. prints (printed line [])) self.old self.new) }
        ensures light { IfOk result (Leaves S.state 0 self.old self.new) }
        ensures err { OnErr result (FailsIn S.state self.old self.new) }
    {
        Ok(Focus::Print(line_end(self.alloc, line)?))
    }

    /// A print of a value, with a line feed after it where a line ends.
    pub fn print(&mut self, line: bool, v: Cell<u32>) -> Result<Focus<'p>, OutOfMemory>
        ensures ok { IfOk result (Goes S.state (λ p part. print_value line v) self.old self.new) }
        ensures light { IfOk result (Leaves S.state 0 self.old self.new) }
        ensures err { OnErr result (FailsIn S.state self.old self.new) }
    {
        match print_bytes(self.alloc, line, &v)? {
            Some(bytes) => Ok(Focus::Print(bytes)),
            None => self.end(Outcome::Stuck),
        }
    }
}

// The bytes after what is printed.
fn line_end(alloc: Global, line: bool) -> Result<Vec<u8>, OutOfMemory>
    ensures { IfOk result (λ bytes. bytes.items ≡ printed line []) }
{
    let mut bytes = Vec::new(alloc);
    if line {
        bytes.push(b'\n')?;
    }
    Ok(bytes)
}
