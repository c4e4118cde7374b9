// Two details, and the bodies of details.
ghost use Rattle.std.specs.Prelude.{◌≤◌, length};
ghost use Rattle.tb_detail.specs.Limits.{InLimits};

use std::alloc::Global;
use tb_detail::Detail;
use tb_geometry::Body;
use tb_text::read_detail;

/// A wall of 1 m² of 200 mm.
pub const WALL: &[u8] =
    b"detail,1,3\nenv,inside\nenv,outside\nmat,wall,1\nsolid,wall,0.1,200.1,0,1000,0,1000\n\
air,inside,0.13,0,0.1,0,1000,0,1000\nair,outside,0.04,200.1,200.2,0,1000,0,1000\n";

/// Two arms of two materials round an inner corner, with two outer surfaces that differ.
pub const CORNER: &[u8] =
    b"detail,1,2\nenv,inside\nenv,outside\nmat,stone,2\nmat,wool,0.04\nsolid,stone,1,11,1,4\n\
solid,wool,1,5,4,14\nair,inside,0.13,5,11,4,14\nair,outside,0.04,0,1,0,14\nair,outside,0.07,1,11,0,1\n";

/// The body of a detail that is given as a text.
pub fn body(alloc: Global, text: &[u8]) -> Result<Body, &'static str>
    requires { length text.now ≤ 1000 }
{
    match read_detail(alloc, text) {
        Ok(detail) => body_of(alloc, &detail),
        Err(_) => Err("no detail"),
    }
}

pub(crate) fn body_of(alloc: Global, detail: &Detail) -> Result<Body, &'static str>
    requires { InLimits detail.now }
{
    match Body::new(alloc, detail) {
        Ok(body) => Ok(body),
        Err(_) => Err("no body"),
    }
}
