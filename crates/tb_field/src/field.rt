// A temperature field.
ghost use Rattle.std.specs.Prelude.{◌≡◌, ◌↔◌, ◌<◌, [], ◌∷◌, All, IfOk, IsTrue, length, map, pos, replicate, slice_index_or, slice_set, ◌-ℤ◌};
ghost use Rattle.tb_places.specs.Inverse.{cell_place};
ghost use Rattle.tb_places.specs.Places.{cell_count, node_count};
ghost use Rattle.tb_grid.specs.Grid.{counts_of};
ghost use Rattle.tb_terms.specs.Limits.{IsDifference};
ghost use Rattle.tb_field.specs.Fields.{AreTemperatures, FitsNodes, IsTemperature, difference_at};

use crate::memory::NoMemory;
use std::alloc::Global;
use std::marker::Model;
use tb_grid::{CellId, Direction, Grid, NodeId};

/// The greatest node value: the whole temperature difference, in 10⁻⁸ of it. The least is 0.
pub const MOST_NODE_VALUE: i64 = 100_000_000;

/// A temperature field: one value for each node of a grid, in the index order of nodes, in 10⁻⁸ of the temperature
/// difference. Contracts see the list of its values.
#[derive(Debug, Drop)]
pub struct Field {
    values: Vec<i64>,
}

impl Model for Field {
    ghost use Rattle.std.specs.Prelude.{List, ℤ};

    ghost Value = { List ℤ };

    ghost view = { λ field. field.values.items };
}

impl PartialEq for Field {
    ghost use Rattle.std.specs.Cmp.{partial_equiv_from_equiv};
    ghost use Rattle.std.specs.Cmp.Lexicographic.{lists_per, pointwise};
    ghost use Rattle.std.specs.Ordering.{int_eq};
    ghost use Rattle.std.proofs.lemmas.Cmp.{int_eq_equiv};

    ghost eq = { λ a b. pointwise int_eq a b };

    ghost laws = { lists_per (partial_equiv_from_equiv int_eq_equiv) };

    fn eq(&self, other: &Field) -> bool {
        self.values == other.values
    }
}

impl Field {
    ghost use Rattle.std.specs.Borrow.{sem};
    ghost use Rattle.tb_field.specs.Lending.{LendsTemperatures};

    /// The field that is 0 at each node of a grid.
    ///
    /// # Errors
    /// Memory ran out.
    pub fn zero(alloc: Global, grid: &Grid) -> Result<Field, NoMemory>
        ensures { IfOk result (λ field. field ≡ replicate (node_count (counts_of grid.now)) (pos 0)) }
    {
        let values = vec![in alloc; 0; grid.nodes() as usize]?;
        Ok(Field { values })
    }

    /// The field with these values, in the index order of nodes. It takes no memory.
    pub fn from_values(values: Vec<i64>) -> Field
        ensures { result ≡ values.items }
    {
        Field { values }
    }

    /// The values, in the index order of nodes.
    pub fn values(&self) -> &[i64]
        ensures { result.now ≡ self.now }
    {
        self.values.as_slice()
    }

    /// The values, in the index order of nodes, to be changed.
    pub fn values_mut(&mut self) -> &mut [i64]
        ensures* lends { sem 𝓛 (LendsTemperatures self.entry result) }
        ensures value { result.now ≡ self.old }
    {
        self.values.as_mut_slice()
    }

    /// The value at a node.
    pub fn get(&self, node: NodeId) -> i64
        requires { node.0 < length self.now }
        ensures { result ≡ slice_index_or self.now node.0 (pos 0) }
    {
        self.values()[node.0 as usize]
    }

    /// Changes the value at a node, and no other.
    pub fn set(&mut self, node: NodeId, value: i64)
        requires { node.0 < length self.old }
        ensures { self.new ≡ slice_set self.old node.0 value }
    {
        let values = self.values.as_mut_slice();
        values[node.0 as usize] = value;
    }

    /// Whether there is one value for each node of a grid.
    pub fn fits(&self, grid: &Grid) -> bool
        ensures { IsTrue result ↔ FitsNodes (counts_of grid.now) self.now }
    {
        self.values().len() == grid.nodes() as usize
    }

    /// Whether each value is from 0 to [`MOST_NODE_VALUE`].
    pub fn is_within_limits(&self) -> bool
        ensures { IsTrue result ↔ AreTemperatures self.now }
    {
        are_temperatures(self.values())
    }

    /// The value at the higher node less that at the lower one, of the cell's four edges along a direction: at the
    /// corners (0,0), (1,0), (0,1), (1,1) of the cross-section, the earlier axis first.
    pub fn differences<D: Direction>(&self, grid: &Grid, cell: CellId) -> [i64; 4]
        requires fits { FitsNodes (counts_of grid.now) self.now }
        requires limits { AreTemperatures self.now }
        requires cell { cell.0 < cell_count (counts_of grid.now) }
        ensures values { result ≡ map (difference_at (counts_of grid.now) D.AXIS self.now cell.0) (0 ∷ 1 ∷ 2 ∷ 3 ∷ []) }
        ensures size { All IsDifference result }
    {
        let values = self.values();
        [
            difference::<D>(values, grid, cell, 0),
            difference::<D>(values, grid, cell, 1),
            difference::<D>(values, grid, cell, 2),
            difference::<D>(values, grid, cell, 3),
        ]
    }
}

// Whether each of some values is one of a node.
fn are_temperatures(values: &[i64]) -> bool
    ensures { IsTrue result ↔ AreTemperatures values.now }
{
    values.iter().all(|v| 0 <= *v && *v <= MOST_NODE_VALUE)
}

// The difference of the values at the two nodes of a cell's edge, that at a corner.
fn difference<D: Direction>(values: &[i64], grid: &Grid, cell: CellId, corner: u8) -> i64
    requires fits { FitsNodes (counts_of grid.now) values.now }
    requires limits { AreTemperatures values.now }
    requires cell { cell.0 < cell_count (counts_of grid.now) }
    requires corner { corner < 4 }
    ensures value { result ≡ difference_at (counts_of grid.now) D.AXIS values.now cell.0 corner }
    ensures size { IsDifference result }
{
    let (low, high) = D::ends(grid, cell, corner);
    rise(values[low.0 as usize], values[high.0 as usize])
}

// The rise from one temperature to another.
fn rise(low: i64, high: i64) -> i64
    requires low { IsTemperature low }
    requires high { IsTemperature high }
    ensures value { result ≡ high -ℤ low }
    ensures size { IsDifference result }
{
    high - low
}
