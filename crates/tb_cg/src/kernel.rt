// What a cell and a surface add to the product of the exact trilinear form with a vector.
ghost use Rattle.std.specs.Prelude.{◌≡◌, ◌^◌, ◌<◌, ◌≤◌, ◌+◌, length, unsigned_abs, IfSome};

use crate::modes::{CellForces, CellModes, EdgeForces, LayerForces, LayerModes};
use tb_gradients::{Coupling, Entry};

/// How far it is from a node to the next along each axis.
#[derive(Clone, Copy, Debug)]
pub struct Reach {
    pub x: usize,
    pub y: usize,
    pub z: usize,
    pub ghost x_small: { x ≤ 2 ^ 21 },
    pub ghost y_small: { y ≤ 2 ^ 21 },
    pub ghost z_small: { z ≤ 2 ^ 21 },
}

/// The weights of a cell along the axes, and the place of its lowest node.
#[derive(Clone, Copy, Debug)]
pub struct CellForm {
    pub place: u32,
    pub x: Coupling,
    pub y: Coupling,
    pub z: Coupling,
}

// A difference of two values.
#[inline(always)]
fn difference(high: Entry, low: Entry) -> i64
    ensures { unsigned_abs result ≤ 2 ^ 54 }
{
    high.value() - low.value()
}

// Twice a difference and one beside it.
#[inline(always)]
fn on_edge(a: i64, b: i64) -> i64
    requires a { unsigned_abs a ≤ 2 ^ 54 }
    requires b { unsigned_abs b ≤ 2 ^ 54 }
    ensures { unsigned_abs result ≤ 2 ^ 56 }
{
    a + a + b
}

#[inline(always)]
fn on_face(a: i64, b: i64) -> i64
    requires a { unsigned_abs a ≤ 2 ^ 56 }
    requires b { unsigned_abs b ≤ 2 ^ 56 }
    ensures { unsigned_abs result ≤ 2 ^ 58 }
{
    a + a + b
}

// The derivative of the bilinear form of four differences, by the first: the second and the third stand beside it, the
// fourth across.
#[inline(always)]
fn bilinear(d: i64, beside: i64, other: i64, across: i64) -> i64
    requires d { unsigned_abs d ≤ 2 ^ 54 }
    requires beside { unsigned_abs beside ≤ 2 ^ 54 }
    requires other { unsigned_abs other ≤ 2 ^ 54 }
    requires across { unsigned_abs across ≤ 2 ^ 54 }
    ensures { unsigned_abs result ≤ 2 ^ 58 }
{
    on_face(on_edge(d, beside), on_edge(other, across))
}

// The product of a weight and a derivative.
#[derive(Clone, Copy)]
struct Product {
    value: i128,
    ghost small: { unsigned_abs value ≤ 2 ^ 115 },
}

impl Product {
    #[inline(always)]
    fn new(weight: Coupling, derivative: i64) -> Product
        requires { unsigned_abs derivative ≤ 2 ^ 58 }
    {
        Product {
            value: i128::from(weight.value()) * i128::from(derivative),
        }
    }

    #[inline(always)]
    fn value(self) -> i128
        ensures { unsigned_abs result ≤ 2 ^ 115 }
    {
        self.value
    }
}

/// Four products, one for each corner of a face.
#[derive(Clone, Copy)]
struct Four {
    a: Product,
    b: Product,
    c: Product,
    d: Product,
}

// The products of a weight with the derivatives of the bilinear form of four differences.
#[inline(always)]
fn spread(weight: Coupling, a: i64, b: i64, c: i64, d: i64) -> Four
    requires a { unsigned_abs a ≤ 2 ^ 54 }
    requires b { unsigned_abs b ≤ 2 ^ 54 }
    requires c { unsigned_abs c ≤ 2 ^ 54 }
    requires d { unsigned_abs d ≤ 2 ^ 54 }
{
    Four {
        a: Product::new(weight, bilinear(a, b, c, d)),
        b: Product::new(weight, bilinear(b, a, d, c)),
        c: Product::new(weight, bilinear(c, d, a, b)),
        d: Product::new(weight, bilinear(d, c, b, a)),
    }
}

// A number over a power of two.
#[inline(always)]
fn over(sum: i128, shift: u8) -> i128
    requires { unsigned_abs sum ≤ 2 ^ 118 }
    ensures { unsigned_abs result ≤ 2 ^ 118 }
{
    sum >> (shift & 127)
}

// Adds to an entry. None where the sum doesn't fit.
#[inline(always)]
fn add(q: &mut [Entry], at: usize, sum: i128, shift: u8) -> Option<()>
    requires at { at < length q.old }
    requires sum { unsigned_abs sum ≤ 2 ^ 118 }
{
    q[at] = Entry::new(i128::from(q[at].value()) + over(sum, shift))?;
    Some(())
}

// A force has at most 58 bits.
const MOST_FORCE: i128 = 1 << 58;

// A mode times its weight, over `2^shift`. None where it doesn't fit.
#[inline(always)]
fn force(weight: i64, mode: i64, shift: u8) -> Option<i64>
    requires weight { unsigned_abs weight ≤ 2 ^ 61 }
    requires mode { unsigned_abs mode ≤ 2 ^ 56 }
    ensures { IfSome result (λ f. unsigned_abs f ≤ 2 ^ 58) }
{
    let product = (i128::from(weight) * i128::from(mode)) >> (shift & 127);
    if product < -MOST_FORCE || product > MOST_FORCE {
        return None;
    }
    Some(product as i64)
}

// The weight of a mode that is a difference along one axis.
#[inline(always)]
fn along_one(weight: Coupling) -> i64
    ensures { unsigned_abs result ≤ 2 ^ 61 }
{
    9 * weight.value()
}

// The weight of a mode that is a difference along two axes.
#[inline(always)]
fn along_two(first: Coupling, second: Coupling) -> i64
    ensures { unsigned_abs result ≤ 2 ^ 61 }
{
    3 * (first.value() + second.value())
}

// The weight of the mode that is a difference along all three axes.
#[inline(always)]
fn along_three(cell: CellForm) -> i64
    ensures { unsigned_abs result ≤ 2 ^ 61 }
{
    cell.x.value() + cell.y.value() + cell.z.value()
}

// The modes of a cell times four times their weights, over `2^shift`. Along an axis of the derivative a mode that is a difference
// counts once, along another one half, and one that is a sum thrice that. None where one doesn't fit.
#[inline(always)]
fn forces(cell: CellForm, modes: CellModes, shift: u8) -> Option<CellForces> {
    let x = force(along_one(cell.x), modes.x, shift)?;
    let y = force(along_one(cell.y), modes.y, shift)?;
    let z = force(along_one(cell.z), modes.z, shift)?;
    let xy = force(along_two(cell.x, cell.y), modes.xy, shift)?;
    let xz = force(along_two(cell.x, cell.z), modes.xz, shift)?;
    let yz = force(along_two(cell.y, cell.z), modes.yz, shift)?;
    let xyz = force(along_three(cell), modes.xyz, shift)?;
    Some(CellForces {
        x,
        y,
        z,
        xy,
        xz,
        yz,
        xyz,
    })
}

// Adds a word to an entry. None where the sum doesn't fit.
#[inline(always)]
fn add_word(q: &mut [Entry], at: usize, word: i64) -> Option<()>
    requires at { at < length q.old }
    requires word { unsigned_abs word ≤ 2 ^ 61 }
{
    q[at] = Entry::in_word(q[at].value() + word)?;
    Some(())
}

// Adds the forces of two nodes, which are so many places apart.
#[inline(always)]
fn add_edge(q: &mut [Entry], at: usize, x: usize, forces: EdgeForces) -> Option<()>
    requires { at + x < length q.old }
    ensures { length q.new ≡ length q.old }
{
    add_word(q, at, forces.low())?;
    add_word(q, at + x, forces.high())
}

// Adds the forces of a layer of four nodes.
#[inline(always)]
fn add_layer(q: &mut [Entry], at: usize, x: usize, y: usize, forces: LayerForces) -> Option<()>
    requires { at + x + y < length q.old }
    ensures { length q.new ≡ length q.old }
{
    add_edge(q, at, x, forces.low())?;
    add_edge(q, at + y, x, forces.high())
}

// The modes of a layer of four nodes.
#[inline(always)]
fn layer_modes(p: &[Entry], at: usize, x: usize, y: usize) -> LayerModes
    requires { at + x + y < length p.now }
{
    LayerModes::new(p[at], p[at + x], p[at + y], p[at + x + y])
}

/// Adds what a cell gives to the product, over `2^(shift - 2)`. None where an entry doesn't fit.
#[inline(always)]
pub fn add_cell(cell: CellForm, reach: Reach, p: &[Entry], shift: u8, q: &mut [Entry]) -> Option<()>
    requires p { cell.place + reach.x + reach.y + reach.z < length p.now }
    requires q { length q.old ≡ length p.now }
    ensures { length q.new ≡ length q.old }
{
    let Reach { x, y, z } = reach;
    let at = cell.place as usize;
    let modes = CellModes::new(layer_modes(p, at, x, y), layer_modes(p, at + z, x, y));
    let forces = forces(cell, modes, shift)?;
    add_layer(q, at, x, y, forces.low())?;
    add_layer(q, at + z, x, y, forces.high())
}

/// The weight of a surface, the place of its lowest node, and how far the next nodes are along its two axes.
#[derive(Clone, Copy, Debug)]
pub struct FaceForm {
    pub place: u32,
    pub second: u32,
    pub third: u32,
    pub is_warm: bool,
    pub weight: Coupling,
}

/// Adds what a surface gives to the product, over `2^shift`, where its environment has a level. None where an entry
/// doesn't fit.
#[inline(always)]
pub fn add_face(face: FaceForm, level: Entry, p: &[Entry], shift: u8, q: &mut [Entry]) -> Option<()>
    requires p { face.place + face.second + face.third < length p.now }
    requires q { length q.old ≡ length p.now }
    requires few { length p.now ≤ 2 ^ 21 }
{
    let at = face.place as usize;
    let second = face.second as usize;
    let third = face.third as usize;
    let sums = spread(
        face.weight,
        difference(p[at], level),
        difference(p[at + second], level),
        difference(p[at + third], level),
        difference(p[at + second + third], level),
    );
    add(q, at, sums.a.value(), shift)?;
    add(q, at + second, sums.b.value(), shift)?;
    add(q, at + third, sums.c.value(), shift)?;
    add(q, at + second + third, sums.d.value(), shift)
}
