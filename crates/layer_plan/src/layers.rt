//! The layers of all items.
ghost use Rattle.std.specs.Prelude.{◌≡◌, ◌<◌, length, slice_index};

use std::marker::Model;

/// The layer of each item, and seen as that list.
#[derive(Drop, Debug)]
pub struct Layers {
    layers: Vec<u32>,
}

impl Model for Layers {
    ghost use Rattle.std.specs.Prelude.{List, ℕ};

    ghost Value = { List ℕ };

    ghost view = { λ l. l.layers.items };
}

impl Layers {
    /// The layers of items 0, 1 and so on.
    pub(crate) fn new(layers: Vec<u32>) -> Layers
        ensures { result ≡ layers.items }
    {
        Layers { layers }
    }

    /// How many items there are.
    pub fn len(&self) -> usize
        ensures { result ≡ length self.now }
    {
        self.layers.len()
    }

    /// An item's layer: the length of its longest path. The item, from 0, must be below the number of items.
    pub fn layer(&self, item: u32) -> u32
        requires { item < length self.now }
        ensures { result ≡ slice_index self.now item }
    {
        self.layers[item as usize]
    }
}
