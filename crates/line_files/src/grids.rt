//! What the whole numbers in a text mean.

ghost use Rattle.std.specs.Prelude.{◌≡◌};
ghost use Rattle.line_files.specs.Grids.{step as step_of};
ghost use Rattle.line_files.specs.own.BehindGrid.{is_named as is_named_of, IsBehindGrid};

use crate::text_lines::split_line;

/// What a coordinate in a text is in: whole millimetres, unless the text's first line is `grid cm`.
#[derive(Clone, Copy, Debug, PartialEq, Eq)]
pub enum Grid {
    /// Whole millimetres.
    Millimetres,
    /// Whole centimetres, which a first line `grid cm` names.
    Centimetres,
}

impl Grid {
    /// How many millimetres one is.
    pub(crate) fn step(self) -> u64
        ensures { result ≡ step_of self }
    {
        match self {
            Grid::Millimetres => 1,
            Grid::Centimetres => 10,
        }
    }

    /// Whether it is named by the first line of its text.
    pub(crate) fn is_named(self) -> bool
        ensures { result ≡ is_named_of self }
    {
        match self {
            Grid::Millimetres => false,
            Grid::Centimetres => true,
        }
    }
}

/// The grid of a text, and what stands behind the line that names it.
pub fn split_grid(text: &[u8]) -> (Grid, &[u8])
    ensures { IsBehindGrid text.now result.0 result.1.now }
{
    if text.is_empty() {
        return (Grid::Millimetres, text);
    }
    let (line, behind) = split_line(text);
    if line == b"grid cm".as_slice() {
        (Grid::Centimetres, behind)
    } else {
        (Grid::Millimetres, text)
    }
}
