// The cells of a grid, and what two neighbours conduct.
use crate::ratio::Ratio;
use tb_grid::{AxisName, CellCounts, Place};

/// What fills a cell: a solid with its thermal conductivity in 10⁻⁴ W/(m·K), or air with the resistance of its surfaces in
/// 10⁻⁴ m²K/W, of an environment that is at 1 (warm) or at 0.
#[derive(Clone, Copy, Debug, PartialEq, Eq)]
pub enum Filling {
    Solid { lambda: u32 },
    Air { rs: u32, is_warm: bool },
}

/// The cells of a grid along an axis: their widths in 0.1 mm, and in which interval of a coarser grid each lies.
#[derive(Clone, Copy)]
pub struct CellAxis<'a> {
    pub widths: &'a [u32],
    pub bases: &'a [u32],
}

/// The cells of a grid, with what fills the cells of a coarser grid, in whose index order: of each cell that lies in them.
/// A cell without a filling isn't coupled with others.
#[derive(Clone, Copy)]
pub struct Cells<'a> {
    pub counts: CellCounts,
    pub x: CellAxis<'a>,
    pub y: CellAxis<'a>,
    pub z: CellAxis<'a>,
    pub base: CellCounts,
    pub fillings: &'a [Filling],
}

/// What lies between a cell and the next one along an axis: the solids of both conduct, or one of them and its surface.
#[derive(Clone, Copy)]
pub enum Link {
    Inner {
        conductance: Ratio,
    },
    Surface {
        conductance: Ratio,
        // Of the surface alone.
        film: Ratio,
        is_warm: bool,
        low_is_air: bool,
    },
}

/// The three axes.
pub const AXES: [AxisName; 3] = [AxisName::X, AxisName::Y, AxisName::Z];

impl Cells<'_> {
    /// The width of a cell along an axis.
    pub fn width(self, axis: AxisName, place: Place) -> u64 {
        let (line, at) = match axis {
            AxisName::X => (self.x, place.i),
            AxisName::Y => (self.y, place.j),
            AxisName::Z => (self.z, place.k),
        };
        match line.widths.get(at as usize) {
            Some(width) => u64::from(*width),
            None => 1,
        }
    }

    /// The area of a cell's cross-section, in 10⁻⁸ m².
    pub fn area(self, axis: AxisName, place: Place) -> u128 {
        let (second, third) = match axis {
            AxisName::X => (AxisName::Y, AxisName::Z),
            AxisName::Y => (AxisName::X, AxisName::Z),
            AxisName::Z => (AxisName::X, AxisName::Y),
        };
        u128::from(self.width(second, place)) * u128::from(self.width(third, place))
    }

    /// What fills the cell at a place, where there is one.
    #[inline(always)]
    pub fn filling(self, place: Place) -> Option<Filling> {
        self.filling_of(
            self.x.bases.get(place.i as usize).copied(),
            self.y.bases.get(place.j as usize).copied(),
            self.z.bases.get(place.k as usize).copied(),
        )
    }

    // What fills the cells in these intervals of the coarser grid, where there are all three.
    #[inline(always)]
    pub(crate) fn filling_of(
        self,
        i: Option<u32>,
        j: Option<u32>,
        k: Option<u32>,
    ) -> Option<Filling> {
        let (i, j, k) = (i?, j?, k?);
        let row = u64::from(j).saturating_add(u64::from(self.base.y).saturating_mul(u64::from(k)));
        let number = u64::from(i).saturating_add(u64::from(self.base.x).saturating_mul(row));
        self.fillings.get(number as usize).copied()
    }

    /// The conductivity of the solid at a place.
    pub fn conductivity(self, place: Place) -> Option<u32> {
        match self.filling(place)? {
            Filling::Solid { lambda } => Some(lambda),
            Filling::Air { .. } => None,
        }
    }

    /// The resistance of the surface between the cell at a place and the next one along an axis, and whether its environment is
    /// at 1: where one of them is a solid and the other is air.
    pub fn surface(self, axis: AxisName, place: Place) -> Option<(u32, bool)> {
        match (self.filling(place)?, self.filling(next(axis, place))?) {
            (Filling::Solid { .. }, Filling::Air { rs, is_warm }) => Some((rs, is_warm)),
            (Filling::Air { rs, is_warm }, Filling::Solid { .. }) => Some((rs, is_warm)),
            _ => None,
        }
    }

    /// What lies between the cell at a place and the next one along an axis.
    pub fn link(self, axis: AxisName, place: Place) -> Option<Link> {
        let above = next(axis, place);
        self.link_between(axis, place, self.filling(place)?, self.filling(above)?)
    }

    // What lies between the cell at a place and the next one along an axis, which are filled so.
    pub(crate) fn link_between(
        self,
        axis: AxisName,
        place: Place,
        low: Filling,
        high: Filling,
    ) -> Option<Link> {
        let area = self.area(axis, place);
        match (low, high) {
            (Filling::Solid { lambda: first }, Filling::Solid { lambda: second }) => Some(
                Link::Inner {
                    conductance: Ratio::between(
                        area,
                        self.width(axis, place),
                        first,
                        self.width(axis, next(axis, place)),
                        second,
                    ),
                },
            ),
            (Filling::Solid { lambda }, Filling::Air { rs, is_warm }) => Some(Link::Surface {
                conductance: Ratio::through_surface(area, self.width(axis, place), lambda, rs),
                film: Ratio::film(area, rs),
                is_warm,
                low_is_air: false,
            }),
            (Filling::Air { rs, is_warm }, Filling::Solid { lambda }) => Some(Link::Surface {
                conductance: Ratio::through_surface(
                    area,
                    self.width(axis, next(axis, place)),
                    lambda,
                    rs,
                ),
                film: Ratio::film(area, rs),
                is_warm,
                low_is_air: true,
            }),
            (Filling::Air { .. }, Filling::Air { .. }) => None,
        }
    }

    // The conductance of the surface between the cell at a place and the next one along an axis, and whether its environment
    // is at 1, where there is one.
    pub(crate) fn film(self, axis: AxisName, place: Place) -> Option<(Ratio, bool)> {
        let (rs, is_warm) = self.surface(axis, place)?;
        Some((Ratio::film(self.area(axis, place), rs), is_warm))
    }
}

/// The next place along an axis.
pub fn next(axis: AxisName, place: Place) -> Place {
    match axis {
        AxisName::X => Place {
            i: place.i.saturating_add(1),
            ..place
        },
        AxisName::Y => Place {
            j: place.j.saturating_add(1),
            ..place
        },
        AxisName::Z => Place {
            k: place.k.saturating_add(1),
            ..place
        },
    }
}
