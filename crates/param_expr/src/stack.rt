ghost use Rattle.std.specs.Prelude.{◌≡◌, [], ◌∷◌, OnOk, MatchOption};

use std::alloc::{AllocFailed, Global};
use std::marker::Model;

/// A stack that contracts see as a list, the top first.
#[derive(Drop)]
pub(crate) struct Stack<T> {
    elements: Vec<T>,
}

impl<T> Model for Stack<T> {
    ghost use Rattle.std.specs.Prelude.{List, reverse};

    ghost Value = { List T };

    ghost view = { λ s. reverse s.elements.items };
}

impl<T> Stack<T> {
    pub fn new(alloc: Global) -> Self
        ensures { result ≡ [] }
    {
        Stack {
            elements: Vec::new(alloc),
        }
    }

    pub fn push(&mut self, value: T) -> Result<(), AllocFailed<T>>
        ensures { OnOk result (self.new ≡ value ∷ self.old) }
    {
        self.elements.push(value)
    }

    pub fn pop(&mut self) -> Option<T>
        ensures { MatchOption result ((self.old ≡ []) × (self.new ≡ [])) (λ top. self.old ≡ top ∷ self.new) }
    {
        self.elements.pop()
    }
}
