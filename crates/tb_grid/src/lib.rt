//! Grids: the lines of three axes, and the cells, nodes, faces and edges between and on them.
//!
//! Lines stand at coordinates in 0.1 mm. Cells, nodes, faces and edges are numbered from 0 in the index
//! orders of `tb_places`. [`Direction`] sees a cell along one axis, so that what is written and proved
//! above holds for x, y and z at once.
#![tactic(auto)]

mod axis;
mod counts;
pub mod cuts;
mod direction;
mod grid;
mod ids;
pub mod laws;
mod level;
#[cfg(test)]
mod level_tests;
mod levels;
mod sides;
#[cfg(test)]
mod tests;

pub use axis::{Axis, LinesFault, MOST_LINES, lines_through};
pub use counts::CellCounts;
pub use direction::{Direction, X, Y, Z};
pub use grid::{Grid, MOST_CELLS, TooManyCells};
pub use ids::{CellId, EdgeId, FaceId, NodeId};
pub use level::{GridFault, axes_have_one_level_grid, graded};
pub use levels::{Grading, GridTooLarge, LevelFault, level_grid};
pub use tb_places::{AxisName, FacePlace, Place, other_axes};
