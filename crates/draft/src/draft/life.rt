// Making a draft, emptying it and letting it go.

ghost use Rattle.std.specs.Prelude.{◌≡◌, [], IfOk};
ghost use Rattle.theory.specs.Edits.{edited};
ghost use Rattle.draft.specs.Drafts.{model};

use super::Draft;
use crate::apart::Apart;
use crate::parts::Parts;
use std::alloc::{AllocError, Global};
use theory::limits::MOST_SETS;

impl Draft {
    // A draft without part, pair or set; only here can memory be wanting.
    pub fn new(heap: Global) -> Result<Draft, AllocError>
        ensures { IfOk result (λ draft. model draft ≡ edited []) }
    {
        let sets = Vec::with_capacity(heap, MOST_SETS)?;
        let parts = Parts::new(heap)?;
        Ok(Draft {
            parts,
            apart: Apart::new(),
            sets,
        })
    }

    // The draft is as a new one, pairs and all, and keeps its memory.
    pub fn clear(&mut self)
        ensures { model self.new ≡ edited [] }
    {
        self.parts.clear();
        self.sets.clear();
        self.apart = Apart::new();
    }

    // The memory is given back.
    pub fn close(self) {
        let Draft {
            parts,
            apart: _,
            sets,
        } = self;
        drop(parts);
        drop(sets);
    }
}
