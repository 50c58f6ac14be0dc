// One layer as a report shows it.
ghost use Rattle.std.specs.Prelude.{Some};
ghost use Rattle.layering.specs.Layers.{layer_line};

use std::fmt;

// First and last reading, counted from 1, the level and the whole fee.
#[derive(Clone, Copy, PartialEq, Eq, Debug)]
pub struct Layer {
    pub first: usize,
    pub last: usize,
    pub level: i64,
    pub fee: u64,
}

impl fmt::Display for Layer {
    ghost output = { λ l. Some (layer_line l) };

    fn fmt<W: fmt::Write>(&self, f: &mut fmt::Formatter<W>) -> fmt::Result {
        let Layer {
            first,
            last,
            level,
            fee,
        } = self;
        write!(f, "{first} {last} {level} {fee}")
    }
}
