ghost use Rattle.std.specs.Prelude.{◌≡◌};

use std::marker::Model;

/// A list that contracts see as a list, wherever its elements lie in memory.
#[derive(Debug, Drop)]
pub struct List<T> {
    elements: Vec<T>,
}

impl<T> Model for List<T> {
    ghost use Rattle.std.specs.Prelude.{List as Seq};

    ghost Value = { Seq T };

    ghost view = { λ l. l.elements.items };
}

impl<T> List<T> {
    /// The elements of a `Vec`, in their order. It takes no memory.
    pub fn new(items: Vec<T>) -> List<T>
        ensures { result ≡ items.items }
    {
        List { elements: items }
    }

    /// The elements, in their order.
    pub fn items(&self) -> &[T]
        ensures { result.now ≡ self.now }
    {
        self.elements.as_slice()
    }

    /// The elements as a `Vec`, in their order. It takes no memory.
    pub fn into_items(self) -> Vec<T>
        ensures { result.items ≡ self }
    {
        let List { elements } = self;
        elements
    }
}
