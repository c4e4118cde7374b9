// What walks along outlets read of a tree.

use tb_outlets::{Mark, Side};

/// The distances and the outlets of a grid's cells, in the order of the numbers of cells.
#[derive(Clone, Copy, Debug)]
pub struct Ways<'a> {
    pub marks: &'a [Mark],
    pub sides: &'a [Side],
}
