// The first 80 operations, in their order. The room for them is there from the start, so that writing one down cannot fail.

ghost use Rattle.std.specs.Prelude.{◌≡◌, ◌≤◌, [], IfOk, vec_len, vec_capacity};
ghost use Rattle.trace.specs.Recorded.{noted};

use crate::operation::Operation;
use std::alloc::{AllocError, Global};

// How many operations are written down.
const MOST_OPERATIONS: usize = 80;

#[derive(Drop)]
pub struct Log {
    pub(crate) operations: Vec<Operation>,
    ghost few: { vec_len operations ≤ 80 },
    ghost room: { 80 ≤ vec_capacity operations },
}

impl Log {
    pub(crate) fn new(heap: Global) -> Result<Log, AllocError>
        ensures { IfOk result (λ log. log.operations.items ≡ []) }
    {
        let operations = Vec::with_capacity(heap, MOST_OPERATIONS)?;
        Ok(Log { operations })
    }

    // Writes an operation down, unless there are 80 already.
    pub(crate) fn note(&mut self, operation: Operation)
        ensures { self.new.operations.items ≡ noted self.old.operations.items operation }
    {
        if self.operations.len() < MOST_OPERATIONS {
            self.operations.push_reserved(operation);
        }
    }
}
