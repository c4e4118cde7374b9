// How the points of a box lie in a list.
ghost use Rattle.std.specs.Prelude.{◌≡◌, ◌^◌, ◌*◌, ◌≤◌, ◌<◌, ◌+◌, IfSome};

/// The most places that a list may have: 3 · 2¹⁹.
pub const MOST_PLACES: usize = 1_572_864;

/// How the points of a box lie in a list: `row` points in a row, `layer` in a layer, `points` in all. Before the first
/// point and after the last there is a layer of places without a point, whose values are 0: so each neighbour of a point
/// has a place, one place, one row or one layer away.
#[derive(Clone, Copy, Debug, PartialEq, Eq)]
pub struct Layout {
    pub row: usize,
    pub layer: usize,
    pub points: usize,
    pub ghost row_has_points: { 1 ≤ row },
    pub ghost layer_has_rows: { row ≤ layer },
    pub ghost few: { points + layer + layer ≤ 3 * 2 ^ 19 },
}

impl Layout {
    ghost use Rattle.tb_gradients.specs.Layouts.{places_of};

    /// The layout of a box of so many layers, rows in a layer and points in a row. None where a row or a layer is empty,
    /// or a list would have more than [`MOST_PLACES`] places.
    pub fn new(row: usize, rows: usize, layers: usize) -> Option<Layout>
        ensures row { IfSome result (λ l. l.row ≡ row) }
        ensures layer { IfSome result (λ l. l.layer ≡ row * rows) }
        ensures points { IfSome result (λ l. l.points ≡ row * rows * layers) }
    {
        let layer = row.checked_mul(rows)?;
        let points = layer.checked_mul(layers)?;
        let around = layer.checked_add(layer)?;
        if row < 1 || row > layer || points.checked_add(around)? > MOST_PLACES {
            return None;
        }
        Some(Layout { row, layer, points })
    }

    /// The length of a list.
    pub fn places(self) -> usize
        ensures value { result ≡ places_of self }
        ensures few { result ≤ 3 * 2 ^ 19 }
    {
        self.points + self.layer + self.layer
    }

    /// The place of the first point.
    #[inline(always)]
    pub fn first(self) -> usize
        ensures { result ≡ self.layer }
    {
        self.layer
    }

    /// The place after the last point.
    #[inline(always)]
    pub fn last(self) -> usize
        ensures { result ≡ self.layer + self.points }
    {
        self.layer + self.points
    }

    /// How far it is to the next row.
    #[inline(always)]
    pub fn row(self) -> usize
        ensures value { result ≡ self.row }
        ensures one { 1 ≤ result }
        ensures most { result ≤ self.layer }
    {
        self.row
    }

    /// How far it is to the next layer.
    #[inline(always)]
    pub fn layer(self) -> usize
        ensures value { result ≡ self.layer }
        ensures few { places_of self ≤ 3 * 2 ^ 19 }
    {
        self.layer
    }
}
