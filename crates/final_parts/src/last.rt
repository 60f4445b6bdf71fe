//! A finished machine.

ghost use Rattle.std.specs.Prelude.{◌≡◌, length};
ghost use Rattle.word_map.specs.Places.{size_of};

use machine_image::{Image, image_of};
use std::marker::Model;
use word_map::Closed;

/// What a machine has left: its words by their places, and where each core ended. Contracts see them with the layout.
#[derive(Drop)]
pub struct Last {
    closed: Closed,
}

impl Model for Last {
    ghost use Rattle.std.specs.Prelude.{◌≡◌, length};
    ghost use Rattle.word_map.specs.Places.{size_of};
    ghost use Rattle.machine_image.specs.Views.{ImageOf};

    ghost Value = { ImageOf };

    ghost view = { λ m. record { shape = m.closed.layout; words = m.closed.words.items; ends = m.closed.ends.items } };

    ghost invariant = { λ m. (length m.closed.words.items ≡ size_of m.closed.layout)
        × (length m.closed.ends.items ≡ m.closed.layout.cores) };
}

impl Last {
    /// What was closed: a word for each place, and an end for each core.
    pub fn new(closed: Closed) -> Last
        requires words { length closed.words.items ≡ size_of closed.layout }
        requires ends { length closed.ends.items ≡ closed.layout.cores }
        ensures { result ≡ record { shape = closed.layout; words = closed.words.items; ends = closed.ends.items } }
    {
        Last { closed }
    }

    /// Its image.
    pub fn image(&self) -> Image<'_>
        ensures { result ≡ self.now }
    {
        image_of(&self.closed)
    }
}
