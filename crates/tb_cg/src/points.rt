// Where the cells and the nodes of a grid have their places in the vectors of the solver.
use tb_gradients::{Layout, Neighbour};
use tb_grid::{AxisName, CellCounts, Place};

/// The neighbours along an axis: how far they are in a list, and which ones they are of a matrix.
#[derive(Clone, Copy, Debug)]
pub struct Stride {
    pub places: usize,
    pub neighbour: Neighbour,
}

/// The nodes of a grid in a list. A cell has the place of its lowest node, so that one layout serves both. The axis with
/// the most nodes goes from layer to layer, so that layers are small, and the one with the next most along rows, so that
/// cells follow one another.
///
/// Along an axis with one cell no heat flows, since the hull is adiabatic: the two nodes at its ends share a place, and
/// are at a distance of 0.
#[derive(Clone, Copy, Debug)]
pub struct Points {
    pub layout: Layout,
    x: Stride,
    y: Stride,
    z: Stride,
}

impl Points {
    /// The nodes of a grid with so many cells, unless they are too many.
    pub fn new(counts: CellCounts) -> Option<Points> {
        let x = nodes_along(counts.x);
        let y = nodes_along(counts.y);
        let z = nodes_along(counts.z);
        if z >= x && z >= y {
            if x >= y {
                let (layout, x, y, z) = lay(x, y, z)?;
                Some(Points { layout, x, y, z })
            } else {
                let (layout, y, x, z) = lay(y, x, z)?;
                Some(Points { layout, x, y, z })
            }
        } else if y >= x {
            if x >= z {
                let (layout, x, z, y) = lay(x, z, y)?;
                Some(Points { layout, x, y, z })
            } else {
                let (layout, z, x, y) = lay(z, x, y)?;
                Some(Points { layout, x, y, z })
            }
        } else if y >= z {
            let (layout, y, z, x) = lay(y, z, x)?;
            Some(Points { layout, x, y, z })
        } else {
            let (layout, z, y, x) = lay(z, y, x)?;
            Some(Points { layout, x, y, z })
        }
    }

    /// The stride along an axis.
    pub fn stride(self, axis: AxisName) -> Stride {
        match axis {
            AxisName::X => self.x,
            AxisName::Y => self.y,
            AxisName::Z => self.z,
        }
    }

    /// The place of a node, or of a cell, in a list.
    pub fn at(self, place: Place) -> usize {
        let along_x = (place.i as usize).saturating_mul(self.x.places);
        let along_y = (place.j as usize).saturating_mul(self.y.places);
        let along_z = (place.k as usize).saturating_mul(self.z.places);
        self.layout
            .first()
            .saturating_add(along_x)
            .saturating_add(along_y)
            .saturating_add(along_z)
    }
}

// How many nodes have places of their own along an axis with so many cells.
fn nodes_along(cells: u32) -> usize {
    if cells == 1 {
        1
    } else {
        (cells as usize).saturating_add(1)
    }
}

// The distance of neighbours of which there are so many along an axis.
fn distance(nodes: usize, places: usize) -> usize {
    if nodes == 1 { 0 } else { places }
}

// The layout of so many nodes in a row, rows in a layer and layers, and the strides along the three.
fn lay(row: usize, rows: usize, layers: usize) -> Option<(Layout, Stride, Stride, Stride)> {
    let layout = Layout::new(row, rows, layers)?;
    let in_row = Stride {
        places: distance(row, 1),
        neighbour: Neighbour::BeforeOnX,
    };
    let to_next_row = Stride {
        places: distance(rows, layout.row()),
        neighbour: Neighbour::BeforeOnY,
    };
    let to_next_layer = Stride {
        places: distance(layers, layout.layer()),
        neighbour: Neighbour::BeforeOnZ,
    };
    Some((layout, in_row, to_next_row, to_next_layer))
}
