// What `check` tells of larger bundles: a strip whose loss grows with its rows up to the limit of a sum, and a wall between
// three environments. The numbers were worked out by hand and by an independent program.
ghost use Rattle.std.specs.Prelude.{◌<◌};

use crate::commands::told;
use crate::reports::BUNDLE;
use std::alloc::{AllocError, Global};
use std::test::Fail;

// A strip of 0.1 mm depth, and its rows 0.1 mm wide each: how many there are stands in the place of Y.
const STRIP: &str = "bundle,1\ndetail,1,3\nenv,inside\nenv,outside\nmat,foam,0.0001\n\
solid,foam,0.1,49999.9,0,Y,0,0.1\n\
air,inside,0.13,0,0.1,0,Y,0,0.1\nair,outside,0.04,49999.9,50000,0,Y,0,0.1\n\
case,inside\nx,0,0.1,49999.9,50000\n";

const STRIP_END: &str =
    "interval,-1299995241999999948000000000000000000,2000000002\nverdict,sweeps,0\nend\n";

// What `check` tells of these bytes: the exit code, a space and the text.
fn checked(alloc: Global, bytes: Vec<u8>) -> Result<Vec<u8>, AllocError> {
    told(alloc, "check", bytes, 1000)
}

// A number of tenths of a millimetre below 10 mm.
fn push_tenths(text: &mut Vec<u8>, tenths: u8) -> Result<(), AllocError> {
    text.push(b'0' + tenths / 10 % 10)?;
    text.push(b'.')?;
    text.push(b'0' + tenths % 10)?;
    Ok(())
}

fn push_rows(text: &mut Vec<u8>, count: u8, row: &[u8]) -> Result<(), AllocError> {
    for _ in 0..count {
        text.extend_from_slice(row)?;
    }
    Ok(())
}

// The bundle of a strip of so many rows.
fn strip(alloc: Global, rows: u8) -> Result<Vec<u8>, AllocError>
    requires { rows < 100 }
{
    let mut text = Vec::new(alloc);
    for byte in STRIP.bytes() {
        if byte == b'Y' {
            push_tenths(&mut text, rows)?;
        } else {
            text.push(byte)?;
        }
    }
    text.push(b'y')?;
    for line in 0..rows + 1 {
        text.push(b',')?;
        push_tenths(&mut text, line)?;
    }
    text.extend_from_slice(b"\nz,0,0.1\n")?;
    push_rows(&mut text, 2 * (rows + 1), b"t,0,0,0,0\n")?;
    push_rows(&mut text, rows, b"fz,0,0,0\n")?;
    push_rows(&mut text, rows, b"fx,0,1000000000000,1000000000000,0\n")?;
    push_rows(&mut text, rows + 1, b"fy,0,0,0\n")?;
    push_rows(&mut text, rows, b"fz,0,0,0\n")?;
    text.extend_from_slice(STRIP_END.as_bytes())?;
    Ok(text)
}

#[test]
fn a_loss_has_a_limit(rt: HostRuntime) -> Result<(), Fail> {
    let alloc = rt.alloc();
    let most = checked(alloc, strip(alloc, 26)?)?;
    assert!(rt;
        most.as_slice()
            == b"0 accepted,inside,-1299995241999999948000000000000000000,2000000002\nend\n".as_slice()
    );
    let more = checked(alloc, strip(alloc, 27)?)?;
    assert!(rt; more.as_slice() == b"7 refused,SumPastLimit,case 1\n".as_slice());
    Ok(())
}

#[test]
fn three_environments_have_three_cases(rt: HostRuntime) -> Result<(), Fail> {
    let alloc = rt.alloc();
    let found = checked(alloc, Vec::from_slice(alloc, BUNDLE.as_bytes())?)?;
    assert!(rt;
        found.as_slice()
            == b"0 accepted,room,2702702702702700,2702702702702704\naccepted,stair,0,0\n\
accepted,outside,2702702702702700,2702702702702704\nend\n"
                .as_slice()
    );
    Ok(())
}
