// A list whose last item is taken first.
ghost use Rattle.std.specs.Prelude.{◌≡◌, ◌∷◌, [], OnOk, OnErr, List};
ghost use Rattle.vcl_operands.specs.Stacks.{IsPopped};

use std::alloc::{AllocError, Global};
use std::marker::Model;

/// A list whose last item is taken first. Clauses see its items from the top on.
#[derive(Drop)]
pub struct Stack<T> {
    items: Vec<T>,
}

impl<T> Model for Stack<T> {
    ghost use Rattle.std.specs.Prelude.{List, reverse};

    ghost Value = { List T };

    ghost view = { λ s. reverse s.items.items };
}

impl<T: Drop> Stack<T> {
    /// Nothing yet. It takes no memory.
    pub fn new(alloc: Global) -> Stack<T>
        ensures { result ≡ [] }
    {
        Stack {
            items: Vec::new(alloc),
        }
    }

    /// Puts an item on top.
    pub fn push(&mut self, item: T) -> Result<(), AllocError>
        ensures { OnOk result (self.new ≡ item ∷ self.old) }
    {
        self.items.push(item)?;
        Ok(())
    }

    /// Takes the top item away.
    pub fn pop(&mut self) -> Option<T>
        ensures { IsPopped result self.old self.new }
    {
        self.items.pop()
    }
}
