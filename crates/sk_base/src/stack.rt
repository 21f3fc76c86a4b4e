//! A list that grows and shrinks at its front.

ghost use Rattle.std.specs.Prelude.{◌≡◌, [], ◌∷◌, Some, OnOk, OnErr, MatchOption, length, slice_get};

use crate::NoMemory;
use std::alloc::Global;
use std::marker::Model;

/// A stack. Contracts see it as a list from its top on.
#[derive(Drop)]
pub struct Stack<E> {
    entries: Vec<E>,
}

impl<E> Model for Stack<E> {
    ghost use Rattle.std.specs.Prelude.{List, reverse};

    ghost Value = { List E };

    ghost view = { λ stack. reverse stack.entries.items };
}

impl<E: Drop> Stack<E> {
    /// The empty stack.
    pub fn new(alloc: Global) -> Self
        ensures { result ≡ [] }
    {
        Stack {
            entries: Vec::new(alloc),
        }
    }

    /// Puts an entry on top. Where memory is refused it is dropped, and the stack is as before.
    pub fn push(&mut self, entry: E) -> Result<(), NoMemory>
        ensures ok { OnOk result (self.new ≡ entry ∷ self.old) }
        ensures err { OnErr result (self.new ≡ self.old) }
    {
        self.entries.push(entry)?;
        Ok(())
    }

    /// Takes the top away, none where the stack is empty.
    pub fn pop(&mut self) -> Option<E>
        ensures { MatchOption result ((self.old ≡ []) × (self.new ≡ [])) (λ entry. self.old ≡ entry ∷ self.new) }
    {
        self.entries.pop()
    }

    /// The top.
    pub fn top(&self) -> Option<&E>
        ensures { MatchOption result (self.now ≡ []) (λ entry. slice_get self.now 0 ≡ Some entry.now) }
    {
        self.entries.last()
    }

    /// How many entries there are.
    pub fn len(&self) -> usize
        ensures { result ≡ length self.now }
    {
        self.entries.len()
    }
}
