//! A stack.
ghost use Rattle.std.specs.Prelude.{◌≡◌, ◌++◌, ◌∷◌, [], OnOk, IsNone, option_to_list};

use s2_value::Memory;
use std::alloc::Global;
use std::marker::Model;

/// Items, of which the last one pushed leaves first. In contracts it is their list, the last one pushed at the front.
#[derive(Debug, Drop)]
pub(crate) struct Stack<T> {
    items: Vec<T>,
}

impl<T> Model for Stack<T> {
    ghost use Rattle.std.specs.Prelude.{List, reverse};
    ghost use Rattle.std.specs.Coded.{coded_list};

    ghost Value = { List T };

    ghost coded = { coded_list T.code };

    ghost view = { λ s. reverse s.items.items };
}

impl<T> Stack<T> {
    /// The empty stack.
    pub fn new(alloc: Global) -> Stack<T>
        ensures { result ≡ [] }
    {
        Stack {
            items: Vec::new(alloc),
        }
    }

    /// Puts an item on top.
    pub fn push(&mut self, item: T) -> Result<(), Memory>
    where
        T: Drop,
        ensures { OnOk result (self.new ≡ item ∷ self.old) }
    {
        self.items.push(item)?;
        Ok(())
    }

    /// Takes the top item away.
    pub fn pop(&mut self) -> Option<T>
        ensures items { self.old ≡ option_to_list result ++ self.new }
        ensures none { IsNone result → self.old ≡ [] }
    {
        self.items.pop()
    }
}
