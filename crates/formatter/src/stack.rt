// The broken-group stack: `break_stack`, a Vec in format.rs. It has a fixed size here.
ghost use Rattle.std.specs.Prelude.{cond, [], ◌∷◌, ◌≡◌, ltb, leb, eqb, length, drop};
ghost use mathlib.Core.List.{head?};
ghost use Rattle.definition.specs.Emit.{is_at};
ghost use Rattle.formatter.specs.Stack.{stack_size};

use std::marker::Model;

// How many numbers the broken-group stack holds.
pub const STACK_SIZE: usize = 64;

// Up to 64 depths, of which the first `count` are there; the other entries are 0. A contract sees them as a
// list, the last one first.
#[derive(Clone, Copy)]
pub struct Stack {
    entries: [u32; STACK_SIZE],
    count: usize,
}

impl Model for Stack {
    ghost use Rattle.std.specs.Prelude.{List, ℕ, length};
    ghost use Rattle.formatter.specs.Stack.{top_first, OnStack, entries_of};
    ghost use Rattle.formatter.specs.StackArray.{array_of};

    ghost Value = { List ℕ };

    ghost view = { λ s. top_first s.count s.entries };

    ghost invariant = { λ s. OnStack s.count s.entries };

    ghost inverse = { λ xs. record { entries = entries_of xs; count = length xs } };

    ghost inverse_ok = { λ s h. array_of s.count s.entries h (λ n k. record { entries = k; count = n }) };
}

impl Stack {
    // The empty stack.
    #[tactic(auto, unfolding(crate::specs::Stack::top_first))]
    pub fn new() -> Self
        ensures { result ≡ [] }
    {
        Stack {
            entries: [0; STACK_SIZE],
            count: 0,
        }
    }

    // Whether no depth is there.
    #[tactic(auto, using(crate::specs::StackArray::top_length))]
    pub fn is_empty(&self) -> bool
        ensures { result ≡ eqb (length self.now) 0 }
    {
        self.count == 0
    }

    // Whether there is no room for one more.
    #[tactic(auto, using(crate::specs::StackArray::top_length))]
    pub fn is_full(&self) -> bool
        ensures { result ≡ leb stack_size (length self.now) }
    {
        STACK_SIZE <= self.count
    }

    // Whether the last depth is this one.
    #[tactic(auto, using(crate::proofs::Entries::top_is, crate::proofs::Entries::top_isnt))]
    pub fn has_last(&self, depth: usize) -> bool
        ensures { result ≡ is_at (head? self.now) depth }
    {
        0 < self.count && self.entries[self.count - 1] as usize == depth
    }

    // Puts a depth on the stack. A full one stays as it is.
    #[tactic(auto, using(crate::proofs::Entries::pushing))]
    pub fn push(&mut self, depth: u32)
        ensures { self.new ≡ cond (ltb (length self.old) stack_size) (depth ∷ self.old) self.old }
    {
        if self.count < STACK_SIZE {
            self.entries[self.count] = depth;
            self.count += 1;
        }
    }

    // Takes the last depth away, if there is one.
    #[tactic(auto, using(crate::proofs::Entries::top_cleared, crate::specs::StackArray::popped_on))]
    pub fn pop(&mut self)
        ensures { self.new ≡ drop 1 self.old }
    {
        self.count = self.count.saturating_sub(1);
        self.entries[self.count] = 0;
    }
}
