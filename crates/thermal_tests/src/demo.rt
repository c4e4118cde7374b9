// The detail of the demo beside the same detail as a text, and what a run of `demo` tells.
use crate::commands::{told, words_of};
use crate::solving::{before, behind, has_lines};
use std::alloc::{AllocError, Global};
use std::test::Fail;
use tb_demo::demo_detail;
use tb_numbers::parse_whole;
use tb_outside::{MemorySink, MemorySource, Source};
use tb_text::read_detail;
use thermal_cli::{Status, run};

// Two storeys, in mm.
const TWO: &[u8] = b"detail,1,2\nenv,inside\nenv,outside\n\
mat,masonry,0.8\nmat,insulation,0.04\nmat,concrete,2.3\n\
air,inside,0.13,0,1000,0,1400\nsolid,masonry,1000,1200,0,1400\n\
solid,insulation,1200,1300,0,1400\nair,outside,0.04,1300,2400,0,1400\n\
solid,concrete,0,2300,1400,1600\nair,outside,0.04,2300,2400,1400,1600\n\
air,inside,0.13,0,1000,1600,3000\nsolid,masonry,1000,1200,1600,3000\n\
solid,insulation,1200,1300,1600,3000\nair,outside,0.04,1300,2400,1600,3000\n\
air,inside,0.13,0,1000,3000,4400\nsolid,masonry,1000,1200,3000,4400\n\
solid,insulation,1200,1300,3000,4400\nair,outside,0.04,1300,2400,3000,4400\n\
solid,concrete,0,2300,4400,4600\nair,outside,0.04,2300,2400,4400,4600\n\
air,inside,0.13,0,1000,4600,6000\nsolid,masonry,1000,1200,4600,6000\n\
solid,insulation,1200,1300,4600,6000\nair,outside,0.04,1300,2400,4600,6000\n";

#[test]
fn a_demo_of_two_storeys_is_this_text(rt: HostRuntime) -> Result<(), Fail> {
    let detail = demo_detail(rt.alloc(), 2).map_err(|_| "no demo")?;
    let read = read_detail(rt.alloc(), TWO).map_err(|_| "no detail")?;
    assert!(rt; detail == read);
    Ok(())
}

// The status of a run of these words, a space and its text. `demo` doesn't read the detail.
fn run_of(alloc: Global, words: &str, room: usize) -> Result<Vec<u8>, AllocError> {
    told(alloc, words, Vec::from_slice(alloc, TWO)?, room)
}

// The width of the interval in the line of a demo, behind its cells.
fn width(line: &[u8]) -> Option<i128> {
    let lo = parse_whole(before(line, b','))?;
    let hi = parse_whole(before(behind(line, b","), b','))?;
    hi.checked_sub(lo)
}

// Its grid allows no interval as narrow as is wanted. Another program found the plain state after 50 passes.
#[test]
fn a_demo_is_no_wider_than_plain_passes(rt: HostRuntime) -> Result<(), Fail> {
    let found = run_of(rt.alloc(), "demo 1", 1000)?;
    assert!(rt; found.starts_with(b"6 demo,1,240,"));
    assert!(rt; found.ends_with(b",sweeps\nend\n"));
    let width = width(behind(found.as_slice(), b"demo,1,240,")).ok_or("no interval")?;
    assert!(rt;
        width > 100_000_000_000_000 && width <= 2_110_117_614_511_499 - 1_854_466_477_165_673
    );
    Ok(())
}

#[test]
fn a_demo_is_what_its_text_is_solved_to(rt: HostRuntime) -> Result<(), Fail> {
    let alloc = rt.alloc();
    let found = run_of(alloc, "demo 2", 1000)?;
    let words = "solve --width 200000 --grade 2 --halve 0 --sweeps 50";
    let bundle = run_of(alloc, words, 1_000_000)?;
    assert!(rt; has_lines(bundle.as_slice(), "verdict,sweeps,200000\nend"));
    let mut wanted = Vec::from_slice(alloc, b"6 demo,2,480,")?;
    wanted.extend_from_slice(before(behind(bundle.as_slice(), b"\ninterval,"), b'\n'))?;
    wanted.extend_from_slice(b",sweeps\nend\n")?;
    assert!(rt; found.as_slice() == wanted.as_slice());
    Ok(())
}

#[test]
fn a_demo_is_the_same_each_time(rt: HostRuntime) -> Result<(), Fail> {
    let found = run_of(rt.alloc(), "demo 4", 1000)?;
    let again = run_of(rt.alloc(), "demo -- 4", 1000)?;
    assert!(rt; found.starts_with(b"6 demo,4,960,"));
    assert!(rt; found.as_slice() == again.as_slice());
    Ok(())
}

#[test]
fn a_sink_without_room_gets_the_front_of_a_demo(rt: HostRuntime) -> Result<(), Fail> {
    let found = run_of(rt.alloc(), "demo 1", 10)?;
    assert!(rt; found.as_slice() == b"5 demo,1,240".as_slice());
    Ok(())
}

// Of a source that fails at its first call, that call is still to come.
#[test]
fn a_demo_leaves_its_source_alone(rt: HostRuntime) -> Result<(), Fail> {
    let words = words_of(rt.alloc(), "demo 1")?;
    let mut source = MemorySource::new(Vec::new(rt.alloc()), vec![in rt.alloc(); 1]?);
    let Ok(mut sink) = MemorySink::new(rt.alloc(), 1000, Vec::new(rt.alloc())) else {
        return Err(Fail::from(AllocError));
    };
    let status = run(rt.alloc(), words.as_slice(), &mut source, &mut sink);
    assert!(rt; status == Status::WidthNotReached);
    assert!(rt; sink.bytes().starts_with(b"demo,1,240,"));
    assert!(rt; source.read(&mut [0]).is_err());
    Ok(())
}
