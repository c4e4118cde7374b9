// The report of a bundle of three environments, by a run and by the call that writes it.
use crate::commands::told;
use std::alloc::Global;
use std::test::Fail;
use tb_checker::check;
use tb_geometry::Body;
use tb_outside::MemorySink;
use tb_planar::first_ratio_above;
use tb_report::write_report;

// A wall of 1 m by 1 m by 200 mm between a room and the outside, and a stair behind the air of the outside.
pub(crate) const BUNDLE: &str = "\
bundle,1\n\
detail,1,3\n\
env,room\n\
env,stair\n\
env,outside\n\
mat,wall,1\n\
solid,wall,0.1,200.1,0,1000,0,1000\n\
air,room,0.13,0,0.1,0,1000,0,1000\n\
air,outside,0.04,200.1,200.2,0,1000,0,1000\n\
air,stair,0.13,200.2,200.3,0,1000,0,1000\n\
case,room\n\
x,0,0.1,200.1,200.2,200.3\n\
y,0,1000\n\
z,0,1000\n\
t,0,64864865,10810811,0,0\n\
t,0,64864865,10810811,0,0\n\
t,0,64864865,10810811,0,0\n\
t,0,64864865,10810811,0,0\n\
fz,0,0,0,0\n\
fx,0,2702702702,2702702702,0,0\n\
fy,0,0,0,0\n\
fy,0,0,0,0\n\
fz,0,0,0,0\n\
interval,2702702702702700,2702702702702704\n\
verdict,grid,0\n\
case,stair\n\
x,0,0.1,200.1,200.2,200.3\n\
y,0,1000\n\
z,0,1000\n\
t,0,0,0,0,0\n\
t,0,0,0,0,0\n\
t,0,0,0,0,0\n\
t,0,0,0,0,0\n\
fz,0,0,0,0\n\
fx,0,0,0,0,0\n\
fy,0,0,0,0\n\
fy,0,0,0,0\n\
fz,0,0,0,0\n\
interval,0,0\n\
verdict,done,0\n\
case,outside\n\
x,0,0.1,200.1,200.2,200.3\n\
y,0,1000\n\
z,0,1000\n\
t,0,35135135,89189189,0,0\n\
t,0,35135135,89189189,0,0\n\
t,0,35135135,89189189,0,0\n\
t,0,35135135,89189189,0,0\n\
fz,0,0,0,0\n\
fx,0,-2702702702,-2702702702,0,0\n\
fy,0,0,0,0\n\
fy,0,0,0,0\n\
fz,0,0,0,0\n\
interval,2702702702702700,2702702702702704\n\
verdict,grid,0\n\
end\n\
";

// Half of K(room) + K(stair) - K(outside) lies between -2 and 2 fW/K.
const REPORT: &str = "\
report,1\n\
case,room,2.702702,2.702703,grid\n\
case,stair,0.000000,0.000000,done\n\
case,outside,2.702702,2.702703,grid\n\
L3D,room,stair,-0.000001,0.000001\n\
L3D,room,outside,2.702702,2.702703\n\
L3D,stair,outside,-0.000001,0.000001\n\
factor,room,room,0.64864865,0.64864865,grid value no bound\n\
factor,room,stair,none,none,grid value no bound\n\
factor,room,outside,0.10810811,0.10810811,grid value no bound\n\
factor,stair,room,0.00000000,0.00000000,grid value no bound\n\
factor,stair,stair,none,none,grid value no bound\n\
factor,stair,outside,0.00000000,0.00000000,grid value no bound\n\
factor,outside,room,0.35135135,0.35135135,grid value no bound\n\
factor,outside,stair,none,none,grid value no bound\n\
factor,outside,outside,0.89189189,0.89189189,grid value no bound\n\
end\n\
";

#[test]
fn a_run_reports_three_environments(rt: HostRuntime) -> Result<(), Fail> {
    let bundle = Vec::from_slice(rt.alloc(), BUNDLE.as_bytes())?;
    let found = told(rt.alloc(), "report", bundle, 2000)?;
    assert!(rt; found.starts_with(b"0 "));
    assert!(rt; found.ends_with(REPORT.as_bytes()));
    assert!(rt; found.len() == REPORT.len() + 2);
    Ok(())
}

// Whether the report of this bundle is this one.
fn is_reported(alloc: Global, bundle: &[u8], report: &[u8]) -> bool {
    // No bundle of a test is longer.
    if bundle.len() > 10_000 {
        return false;
    }
    let Ok(checked) = check(alloc, bundle) else {
        return false;
    };
    let Ok(body) = Body::new(alloc, &checked.bundle().detail) else {
        return false;
    };
    if first_ratio_above(&checked.bundle().detail).is_some() {
        return false;
    }
    let Ok(mut sink) = MemorySink::new(alloc, 2000, Vec::new(alloc)) else {
        return false;
    };
    write_report(&checked, &body, &mut sink).is_ok() && sink.bytes() == report
}

#[test]
fn the_report_of_a_checked_bundle_is_written(rt: HostRuntime) -> Result<(), Fail> {
    assert!(rt; is_reported(rt.alloc(), BUNDLE.as_bytes(), REPORT.as_bytes()));
    Ok(())
}
