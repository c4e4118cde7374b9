// Each text and each answer was worked out by hand from the rules of the format.
ghost use Rattle.std.specs.Prelude.{◌≤◌, IfOk, length};
ghost use Rattle.tb_bundle.specs.Limits.{BundleInLimits};

use crate::write_bundle;
use std::alloc::{AllocError, Global};
use std::test::Fail;
use tb_bundle::{Bundle, BundleFault, RecordPlace, read_bundle};
use tb_case_records::BundleRefusal;
use tb_outside::MemorySink;
use tb_places::AxisName;

// A wall of 200 mm between two environments, with its linear field and its flux; its own canonical text.
const WALL: &str =
    "bundle,1\ndetail,1,3\nenv,inside\nenv,outside\nmat,wall,1\nsolid,wall,0.1,200.1,0,1000,0,1000\n\
air,inside,0.13,0,0.1,0,1000,0,1000\nair,outside,0.04,200.1,200.2,0,1000,0,1000\n\
case,inside\nx,0,0.1,200.1,200.2\ny,0,1000\nz,0,1000\n\
t,0,64864865,10810811,0\nt,0,64864865,10810811,0\nt,0,64864865,10810811,0\nt,0,64864865,10810811,0\n\
fz,0,0,0\nfx,0,2702702702,2702702702,0\nfy,0,0,0\nfy,0,0,0\nfz,0,0,0\n\
interval,2702702702702700,2702702702702704\nverdict,grid,0\nend\n";

// So many records of the wall, other records with a semicolon for the end of a line, the records of the wall behind so
// many of them, and the answer: `Ok` where the bundle is that of the wall, `Other` where it is another one with this
// text as its canonical one, else the first fault.
const ANSWERS: &str = "\
0||0|Ok\n\
12|t,0,0,0,0;t,0,0,0,0;t,0,0,0,0;t,0,0,0,0;fz,0,0,0;fx,0,0,0,0;fy,0,0,0;fy,0,0,0;fz,0,0,0;interval,0,7692307692307693;\
verdict,sweeps,0|23|Other\n\
0||24|NotFormat 1\n\
0|# a remark;#|24|NotFormat 1\n\
0|# a remark;bundle,2|1|NotFormat 2\n\
0|bundle,1,x|1|NotFormat 1\n\
0||1|NotFormat 1\n\
1||8|Detail NotFormat 2 0\n\
1|#|24|Detail NotFormat 3 0\n\
4|mat,wall,x|5|Detail BadNumber 5 3\n\
7|#;walls|8|Detail UnknownKind 9 0\n\
8|cases,inside|9|Detail UnknownKind 9 0\n\
2|env,inside|8|Shape 4\n\
2|env,inside|24|NoEnd\n\
5||8|Shape 7\n\
8|case,outside|9|Shape 9\n\
8|case,inside,outside|9|Shape 9\n\
8|case|9|Shape 9\n\
8|case,inside;case,inside|9|Shape 10\n\
8||23|Shape 9\n\
9|y,0,1000|10|Shape 10\n\
9|x,q|10|Shape 10\n\
9|x|10|Shape 10\n\
9|x,0,0.1,200.1,200.25|10|BadNumber 10 5\n\
9|x,0,0.1,,200.2,0|10|BadNumber 10 4\n\
9|x,0,-0.1,200.1,200.2|10|BadNumber 10 3\n\
9|x,0,0.1,200.1,50000.1|10|ValueOutOfRange 10 5\n\
9|x,0,0.1,200.1,200.1|10|NotRising 10 5\n\
9|x,0,0.1,0.1,x|10|NotRising 10 4\n\
9|x,0,0.1,200.1,200.2,200.3|10|LineOutside 10 6\n\
9|x,0,300,200,x|10|LineOutside 10 3\n\
9|x,0,0.1,200.2;y,x|11|LineMissing 1 X 2001\n\
10|y,0.1,1000|11|LineMissing 1 Y 0\n\
11|z,0,999.9|12|LineMissing 1 Z 10000\n\
11|z,0,1000.1|12|LineOutside 12 3\n\
12|t,0,64864865,10810811|13|Shape 13\n\
12|t,0,64864865,10810811,0,0|13|Shape 13\n\
12|t,0,64864865,10810811,0;t,0,64864865,10810811,0;t,0,64864865,10810811,0|16|Shape 16\n\
16|t,0,64864865,10810811,0|16|Shape 17\n\
12|fx,0,0,0,0|13|Shape 13\n\
12|t,0,64864865,10810811,-1|13|BadNumber 13 5\n\
12|t,0,1.0,100000001,0;t|14|BadNumber 13 3\n\
15|t,0,64864865,10810811,100000001;fz,x,0,0|17|ValueOutOfRange 16 5\n\
12|t,100000000,64864865,10810811,0|13|Other\n\
16|fx,0,2702702702,2702702702,0;fz,0,0,0|18|Shape 17\n\
16|fz,0,0,1000000000001|17|ValueOutOfRange 17 4\n\
17|fx,0,1000000000001,2702702702,x|18|ValueOutOfRange 18 3\n\
17|fx,0,-1000000000001,0,0|18|ValueOutOfRange 18 3\n\
17|fx,0,1000000000000,-1000000000000,0|18|Other\n\
17|fx,0,2702702702,2702702702|18|Shape 18\n\
17|fx,0,27|24|Shape 18\n\
18|fy,0,0,0|20|Shape 20\n\
19|fy,0,0,--1|20|BadNumber 20 4\n\
20||21|Shape 21\n\
21|interval,2702702702702700|22|Shape 22\n\
21|interval,1e3,x|22|BadNumber 22 2\n\
21|interval,0,100000000000000000000000000000000000000|22|BadNumber 22 3\n\
21|interval,-99999999999999999999999999999999999999,99999999999999999999999999999999999999|22|Other\n\
21|interval,-368000000000000000000,2702702702702704|22|Other\n\
22|verdict,walls,x|23|Shape 23\n\
22|verdict,grid|23|Shape 23\n\
22|verdict,grid,-1|23|BadNumber 23 3\n\
22|verdict,grid,1000000001|23|ValueOutOfRange 23 3\n\
22|verdict,done,1000000000|23|Other\n\
22|verdict,sweeps,7|23|Other\n\
22||24|NoEnd\n\
23|end,x|24|Shape 24\n\
23|en|24|Shape 24\n\
23|# the end|24|NoEnd\n\
24|end|24|Shape 25\n\
24|# a remark;case,inside|24|Shape 26\n\
24|# a remark|24|Ok\n\
9|#;\"x\",0,0.1,0200.1,200.2;# a;#|10|Ok\n\
8|\"case\",\"inside\"\r|9|Ok\n\
17|fx,-0,2702702702,02702702702,0;# a remark;;fy,0,-0,0|19|Ok\n\
21|interval,002702702702702700,2702702702702704|22|Ok\n\
4|mat,wall,1.000|5|Ok\n\
1|#;detail,1,3;#|2|Ok\n\
2|env,outside;env,inside|4|Shape 9";

fn append(text: &mut Vec<u8>, records: &str) -> Result<(), AllocError> {
    for byte in records.bytes() {
        text.push(if byte == b';' { b'\n' } else { byte })?;
    }
    Ok(())
}

// The text of so many records of the wall, of other records, and of those of the wall behind so many of them.
fn edited(
    alloc: Global,
    before: usize,
    records: &str,
    behind: usize,
) -> Result<Vec<u8>, AllocError> {
    let mut text = Vec::new(alloc);
    for line in WALL.lines().take(before) {
        append(&mut text, line)?;
        text.push(b'\n')?;
    }
    append(&mut text, records)?;
    text.push(b'\n')?;
    for line in WALL.lines().skip(behind) {
        append(&mut text, line)?;
        text.push(b'\n')?;
    }
    Ok(text)
}

fn placed(alloc: Global, kind: &str, place: RecordPlace) -> Result<String, AllocError> {
    format!(in alloc; "{} {} {}", kind, place.number, place.field)
}

fn letter(axis: AxisName) -> &'static str {
    match axis {
        AxisName::X => "X",
        AxisName::Y => "Y",
        AxisName::Z => "Z",
    }
}

// A fault as the table shows it.
fn shown(alloc: Global, fault: BundleFault) -> Result<String, AllocError> {
    match fault {
        BundleFault::NotFormat(number) => format!(in alloc; "NotFormat {number}"),
        BundleFault::Detail(fault) => {
            format!(in alloc; "Detail {:?} {} {}", fault.kind, fault.number, fault.field)
        }
        BundleFault::NoEnd => String::from_str(alloc, "NoEnd"),
        BundleFault::Shape(number) => format!(in alloc; "Shape {number}"),
        BundleFault::BadNumber(place) => placed(alloc, "BadNumber", place),
        BundleFault::ValueOutOfRange(place) => placed(alloc, "ValueOutOfRange", place),
        BundleFault::NotRising(place) => placed(alloc, "NotRising", place),
        BundleFault::LineOutside(place) => placed(alloc, "LineOutside", place),
        BundleFault::GridTooLarge(number) => format!(in alloc; "GridTooLarge {number}"),
        BundleFault::LineMissing(case, axis, line) => {
            format!(in alloc; "LineMissing {} {} {}", case, letter(axis), line)
        }
    }
}

fn written(alloc: Global, bundle: &Bundle) -> Result<MemorySink, &'static str>
    requires { BundleInLimits bundle.now }
{
    let Ok(mut sink) = MemorySink::new(alloc, 10_000, Vec::new(alloc)) else {
        return Err("memory");
    };
    match write_bundle(bundle, &mut sink) {
        Ok(()) => Ok(sink),
        Err(_) => Err("the sink"),
    }
}

// What reading a text answers, as the table shows it.
fn answer(alloc: Global, text: &[u8]) -> Result<String, &'static str>
    requires { length text.now ≤ 10000 }
{
    match read_bundle(alloc, text) {
        Ok(bundle) => {
            let sink = written(alloc, &bundle)?;
            let answer = if sink.bytes() == WALL.as_bytes() {
                "Ok"
            } else if sink.bytes() == text {
                "Other"
            } else {
                "another text"
            };
            String::from_str(alloc, answer).map_err(|_| "memory")
        }
        Err(BundleRefusal::Fault(fault)) => shown(alloc, fault).map_err(|_| "memory"),
        Err(BundleRefusal::NoMemory) => Err("memory"),
    }
}

// The text that a line of the table gives, and the answer that it wants.
fn case_of(alloc: Global, line: &str) -> Option<(Vec<u8>, &str)> {
    let (before, rest) = line.split_once('|')?;
    let (records, rest) = rest.split_once('|')?;
    let (behind, want) = rest.split_once('|')?;
    let before = before.parse().ok()?;
    let behind = behind.parse().ok()?;
    let text = edited(alloc, before, records, behind).ok()?;
    Some((text, want))
}

#[test]
fn answers(rt: HostRuntime) -> Result<(), Fail> {
    for line in ANSWERS.lines() {
        let (text, want) = case_of(rt.alloc(), line).ok_or("no case")?;
        assert!(rt; text.len() <= 10_000);
        let found = answer(rt.alloc(), &text)?;
        assert!(rt; found.as_str() == want, "{line}: {found}");
    }
    Ok(())
}

#[test]
fn a_bundle_without_its_last_records(rt: HostRuntime) -> Result<(), Fail> {
    for count in 2..24 {
        let text = edited(rt.alloc(), count, "", 24)?;
        assert!(rt; text.len() <= 10_000);
        let found = answer(rt.alloc(), &text)?;
        assert!(rt; found.as_str() == "NoEnd", "{count}: {found}");
    }
    Ok(())
}

// Appends the record of an axis: some lines, those from 0.2 mm to below this one, each 0.1 mm, and some more.
fn append_axis(
    alloc: Global,
    text: &mut Vec<u8>,
    first: &str,
    end: u32,
    last: &str,
) -> Result<(), AllocError> {
    append(text, first)?;
    for line in 2..end {
        let line = format!(in alloc; ",{}.{}", line / 10, line % 10)?;
        append(text, line.as_str())?;
    }
    append(text, last)
}

// The wall on a grid of so many lines and two more along x, and of so many and one more along y.
fn on_grid(alloc: Global, x: u32, y: u32) -> Result<Vec<u8>, AllocError> {
    let mut axes = Vec::new(alloc);
    append_axis(alloc, &mut axes, "x,0,0.1", x, ",200.1,200.2;")?;
    append_axis(alloc, &mut axes, "y,0,0.1", y, ",1000;z,0,1000;")?;
    let mut text = Vec::new(alloc);
    for line in WALL.lines().take(9) {
        append(&mut text, line)?;
        text.push(b'\n')?;
    }
    text.extend_from_slice(&axes)?;
    append(&mut text, "t,0")?;
    Ok(text)
}

// 1,024 lines and one more; 262,144 cells and one more. The rows behind don't fit these grids.
const GRIDS: [(u32, u32, &str); 4] = [
    (1022, 2, "Shape 13"),
    (1023, 2, "GridTooLarge 10"),
    (511, 512, "Shape 13"),
    (544, 481, "GridTooLarge 12"),
];

#[test]
fn large_grids(rt: HostRuntime) -> Result<(), Fail> {
    for (x, y, want) in GRIDS {
        let text = on_grid(rt.alloc(), x, y)?;
        assert!(rt; text.len() <= 10_000);
        let found = answer(rt.alloc(), &text)?;
        assert!(rt; found.as_str() == want, "{x} {y}: {found}");
    }
    Ok(())
}

// Four environments in two dimensions: the records before the cases, and those of each case behind its first.
const FOUR: &str =
    "bundle,1;detail,1,2;env,a;env,b;env,c;env,d;mat,m,1;air,a,1,0,0.1,0,0.1;solid,m,0.1,0.2,0,0.1;\
air,b,1,0.2,0.3,0,0.1;air,c,1,0.3,0.4,0,0.1;air,d,1,0.4,0.5,0,0.1;";

const ZEROS: &str =
    ";x,0,0.1,0.2,0.3,0.4,0.5;y,0,0.1;z,0,1000;t,0,0,0,0,0,0;t,0,0,0,0,0,0;t,0,0,0,0,0,0;t,0,0,0,0,0,0;\
fz,0,0,0,0,0;fx,0,0,0,0,0,0;fy,0,0,0,0,0;fy,0,0,0,0,0;fz,0,0,0,0,0;interval,0,0;verdict,done,0;";

// The four environments with cases of these sets.
fn with_sets(alloc: Global, sets: &str) -> Result<Vec<u8>, AllocError> {
    let mut text = Vec::new(alloc);
    append(&mut text, FOUR)?;
    for set in sets.split(' ') {
        append(&mut text, "case,")?;
        append(&mut text, set)?;
        append(&mut text, ZEROS)?;
    }
    append(&mut text, "end;")?;
    Ok(text)
}

const SETS: [(&str, &str); 6] = [
    ("a b c d a,b a,c a,d", "Other"),
    ("a b c d b,a a,c a,d", "Shape 73"),
    ("a b c d c,d a,c a,d", "Shape 73"),
    ("a b c d a,b a,d a,c", "Shape 88"),
    ("a b c d a,b a,c", "Shape 103"),
    ("a b c d a,b a,c a,d a", "Shape 118"),
];

#[test]
fn pairs_of_environments(rt: HostRuntime) -> Result<(), Fail> {
    for (sets, want) in SETS {
        let text = with_sets(rt.alloc(), sets)?;
        assert!(rt; text.len() <= 10_000);
        let found = answer(rt.alloc(), &text)?;
        assert!(rt; found.as_str() == want, "{sets}: {found}");
    }
    Ok(())
}

#[test]
fn a_sink_without_room(rt: HostRuntime) -> Result<(), Fail> {
    let text = WALL.as_bytes();
    assert!(rt; text.len() <= 10_000);
    let bundle = read_bundle(rt.alloc(), text).map_err(|_| "a refusal")?;
    let mut sink = MemorySink::new(rt.alloc(), 17, Vec::new(rt.alloc()))?;
    assert!(rt; write_bundle(&bundle, &mut sink).is_err());
    assert!(rt; sink.bytes() == b"bundle,1\ndetail,1".as_slice());
    Ok(())
}
