// Modified incomplete Cholesky factors without fill (Gustafsson 1978).
ghost use Rattle.std.specs.Prelude.{◌≡◌, ◌<◌, ◌≤◌, ◌+◌, length};
ghost use Rattle.tb_gradients.specs.Layouts.{places_of};

use crate::entry::Coupling;
use crate::layout::Layout;
use crate::root::{LEAST_PIVOT, Root};

// What the elimination of a point takes off the diagonal of a neighbour, of the couplings `after` that it has with later
// points: what fill would be dropped there goes with it, in so many 1,024ths.
fn taken_by(coupling: Coupling, after: i64, root: Root, share: u16) -> i64 {
    let coupling = coupling.value();
    let dropped = (i128::from(after) - i128::from(coupling)) * i128::from(share) >> 10;
    let dropped = i64::try_from(dropped).unwrap_or(i64::MAX);
    let first = root.beside(coupling);
    let second = root.beside(coupling.saturating_add(dropped));
    i64::try_from((i128::from(first) * i128::from(second)) >> 36).unwrap_or(i64::MAX)
}

/// The couplings of a matrix, the sums of each point's, and the share of the dropped fill that the diagonal takes, in
/// 1,024ths.
#[derive(Clone, Copy)]
pub struct Couplings<'a> {
    pub layout: Layout,
    pub x: &'a [Coupling],
    pub y: &'a [Coupling],
    pub z: &'a [Coupling],
    pub sums: &'a [Coupling],
    pub share: u16,
    pub ghost whole_x: { length x.now ≡ places_of layout },
    pub ghost whole_y: { length y.now ≡ places_of layout },
    pub ghost whole_z: { length z.now ≡ places_of layout },
    pub ghost whole_sums: { length sums.now ≡ places_of layout },
}

// Adds to what is taken from a point's diagonal.
fn take(taken: &mut [i64], slot: usize, amount: i64)
    requires { slot < length taken.old }
{
    taken[slot] = taken[slot].saturating_add(amount);
}

// A place of a ring, from one less than once round it farther.
fn round(ring: usize, slot: usize) -> usize
    requires { slot < ring + ring }
    ensures { result < ring }
{
    if slot >= ring { slot - ring } else { slot }
}

// Eliminates a point, and gives the root of its pivot, which is at least a 65,536th of its couplings. What is taken from
// the diagonals of the points up to the next layer stands in `taken`, each at its place's remainder.
fn eliminate(couplings: Couplings, at: usize, taken: &mut [i64]) -> Root
    requires after { couplings.layout.layer ≤ at }
    requires before { at < couplings.layout.layer + couplings.layout.points }
    requires taken { length taken.old ≡ couplings.layout.layer + 1 }
{
    let Couplings {
        layout,
        x,
        y,
        z,
        sums,
        share,
    } = couplings;
    let row = layout.row();
    let layer = layout.layer();
    let ring = layer + 1;
    let slot = at % ring;
    let sum = sums[at].value();
    let pivot = sum
        .saturating_sub(taken[slot])
        .max(sum >> 16)
        .max(LEAST_PIVOT);
    taken[slot] = 0;
    if sum == 0 {
        return Root::ZERO;
    }
    let root = Root::new(pivot);
    let after = x[at + 1].value() + y[at + row].value() + z[at + layer].value();
    take(
        taken,
        round(ring, slot + 1),
        taken_by(x[at + 1], after, root, share),
    );
    take(
        taken,
        round(ring, slot + row),
        taken_by(y[at + row], after, root, share),
    );
    take(
        taken,
        round(ring, slot + layer),
        taken_by(z[at + layer], after, root, share),
    );
    root
}

/// The roots of a matrix's pivots. `taken` has a place for each point of a layer and one more, and is used up.
pub fn factorize(couplings: Couplings, taken: &mut [i64], roots: &mut [Root])
    requires taken { length taken.old ≡ couplings.layout.layer + 1 }
    requires roots { length roots.old ≡ places_of couplings.layout }
{
    taken.fill(0);
    for at in couplings.layout.first()..couplings.layout.last() {
        roots[at] = eliminate(couplings, at, taken);
    }
}

/// Multiplies each point's coupling with the one so many places before by both of their roots.
pub fn scale(layout: Layout, couplings: &mut [Coupling], roots: &[Root], before: usize)
    requires couplings { length couplings.old ≡ places_of layout }
    requires roots { length roots.now ≡ places_of layout }
    requires before { before ≤ layout.layer }
{
    for at in layout.first()..layout.last() {
        couplings[at] = roots[at].scaled(couplings[at], roots[at - before]);
    }
}
