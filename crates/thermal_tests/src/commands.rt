// What a run tells of bundles, details and words. The numbers were worked out by hand or by independent programs.
use std::alloc::{AllocError, Global};
use std::test::Fail;
use tb_outside::{MemorySink, SteadySource};
use thermal_cli::run;

// A wall of 1 m by 1 m by 200 mm with λ 1 W/(m·K), and the straight flux and the linear field on it.
const BUNDLE: &str = "bundle,1\ndetail,1,3\nenv,inside\nenv,outside\nmat,wall,1\n\
solid,wall,0.1,200.1,0,1000,0,1000\n\
air,inside,0.13,0,0.1,0,1000,0,1000\nair,outside,0.04,200.1,200.2,0,1000,0,1000\n\
case,inside\nx,0,0.1,200.1,200.2\ny,0,1000\nz,0,1000\n\
t,0,64864865,10810811,0\nt,0,64864865,10810811,0\nt,0,64864865,10810811,0\nt,0,64864865,10810811,0\n\
fz,0,0,0\nfx,0,2702702702,2702702702,0\nfy,0,0,0\nfy,0,0,0\nfz,0,0,0\n\
interval,2702702702702700,2702702702702704\nverdict,grid,0\nend\n";

// Its detail, and a blank line, which is no record.
const DETAIL: &str = "detail,1,3\nenv,inside\nenv,outside\nmat,wall,1\n\
solid,wall,0.1,200.1,0,1000,0,1000\n\
air,inside,0.13,0,0.1,0,1000,0,1000\nair,outside,0.04,200.1,200.2,0,1000,0,1000\n\n";

// The words, the exit code and the text that are to be told, and what stands in the place of some lines of the bundle,
// or for words other than `check` and `report` of the detail. A semicolon is the end of a line.
const CASES: &str = "\
check|0 accepted,inside,2702702702702700,2702702702702704;end;\n\
check|0 accepted,inside,0,7692307692307693;end;|13:t,0,0,0,0|14:t,0,0,0,0|15:t,0,0,0,0|16:t,0,0,0,0|18:fx,0,0,0,0|22:interval,0,7692307692307693|23:verdict,sweeps,0\n\
check|0 accepted,inside,2702702702702700,4637017451340115;end;|7:air,inside,0.04,0,0.1,0,1000,0,1000|8:air,outside,0.13,200.1,200.2,0,1000,0,1000|22:interval,2702702702702700,4637017451340115\n\
check|0 accepted,inside,-368000000000000000000,2702702702702704;end;|18:fx,0,1000000000000,1000000000000,0|22:interval,-368000000000000000000,2702702702702704\n\
check|0 accepted,inside,2702702702702700,2702702702702704;end;|10:\"x\",0,0000.1,200.1,200.2\r|22:interval,002702702702702700,2702702702702704\n\
check|7 refused,IntervalDiffers,case 1 claimed 2702702702702701 2702702702702704 found 2702702702702700 2702702702702704;|22:interval,2702702702702701,2702702702702704\n\
check|7 refused,Unbalanced,case 1 cell 1 sum 1;|18:fx,0,2702702702,2702702703,0\n\
check|7 refused,Unbalanced,case 1 cell 1 sum -2000000000000;|18:fx,0,1000000000000,-1000000000000,0\n\
check|0 accepted,inside,2702702702702699,2702702702702704;end;|10:x,0,0.1,100.1,200.1,200.2|13:t,0,64864865,37837838,10810811,0|14:t,0,64864865,37837838,10810811,0|15:t,0,64864865,37837838,10810811,0|16:t,0,64864865,37837838,10810811,0|17:fz,0,0,0,0|19:fy,0,0,0,0|20:fy,0,0,0,0|21:fz,0,0,0,0|22:interval,2702702702702699,2702702702702704|18:fx,0,2702702702,2702702702,2702702702,0\n\
check|7 refused,Unbalanced,case 1 cell 1 sum 1;|10:x,0,0.1,100.1,200.1,200.2|13:t,0,64864865,37837838,10810811,0|14:t,0,64864865,37837838,10810811,0|15:t,0,64864865,37837838,10810811,0|16:t,0,64864865,37837838,10810811,0|17:fz,0,0,0,0|19:fy,0,0,0,0|20:fy,0,0,0,0|21:fz,0,0,0,0|22:interval,2702702702702699,2702702702702704|18:fx,0,2702702702,2702702703,2702702702,0\n\
check|7 refused,OuterFlux,case 1 face 8;|19:fy,0,5,0|20:fy,0,5,0\n\
check|7 refused,OuterFlux,case 1 face 8;|18:fx,0,2702702702,2702702703,0|19:fy,0,5,0|22:interval,0,0\n\
check|7 refused,VerdictDiffers,case 1;|23:verdict,done,0\n\
check|0 accepted,inside,2702702702702700,2702702702702704;end;|23:verdict,done,1\n\
check|7 refused,VerdictDiffers,case 1;|23:verdict,grid,1\n\
check|7 refused,VerdictDiffers,case 1;|23:verdict,sweeps,1000000000\n\
check|7 refused,LineMissing,case 1 x 200.1;|10:x,0,0.1,200.2\n\
check|7 refused,LineOutside,record 10 field 6;|10:x,0,0.1,200.1,200.2,200.3\n\
check|7 refused,ValueOutOfRange,record 18 field 3;|18:fx,0,1000000000001,1000000000000,0\n\
check|7 refused,NotFormat,record 1;|1:bundle,2\n\
check|7 refused,NotFormat,record 2;|1:# a remark\n\
check|0 accepted,inside,2702702702702700,2702702702702704;end;|1:# a remark;bundle,1\n\
check|7 refused,FieldCount,record 6;|2:detail,1,2\n\
check|7 refused,OutOfRange,record 5 field 3;|5:mat,wall,0\n\
check|7 refused,BadNumber,record 5 field 3;|5:mat,wall,1e3\n\
check|7 refused,Uncovered,0.1 0 0;|6:solid,wall,0.2,200.1,0,1000,0,1000\n\
check|7 refused,Overlap,boxes 1 2;|7:air,inside,0.13,0,0.2,0,1000,0,1000\n\
check|7 refused,TooFewEnvironments;|4:|8:\n\
check|0 accepted,inside,2702702702702700,2702702702702704;end;|6:solid,wall,0.1,200.1,00,1000,0,1000\n\
check|7 refused,Reversed,record 8 field 5;|8:air,outside,0.04,200.1,200.1,0,1000,0,1000\n\
check|7 refused,Shape,record 9;|9:case,outside\n\
check|7 refused,BadNumber,record 10 field 5;|10:x,0,0.1,200.1,200.11\n\
check|7 refused,ValueOutOfRange,record 10 field 5;|10:x,0,0.1,200.1,50000.1\n\
check|7 refused,NotRising,record 11 field 3;|11:y,0,0\n\
check|7 refused,ValueOutOfRange,record 13 field 5;|13:t,0,64864865,10810811,100000001\n\
check|7 refused,BadNumber,record 13 field 5;|13:t,0,64864865,10810811,-1\n\
check|0 accepted,inside,2702702702702700,2702702702702704;end;|18:fx,-0,2702702702,2702702702,0|19:fy,0,0,1\n\
check|7 refused,BadNumber,record 22 field 3;|22:interval,2702702702702700,100000000000000000000000000000000000000\n\
check|7 refused,BadNumber,record 22 field 2;|22:interval,,2702702702702704\n\
check|7 refused,Shape,record 23;|23:verdict,ready,0\n\
check|7 refused,ValueOutOfRange,record 23 field 3;|23:verdict,grid,1000000001\n\
check|7 refused,Shape,record 24;|24:END\n\
check|7 refused,Shape,record 25;|24:end;end\n\
check|0 accepted,inside,2702702702702700,2702702702702704;end;|24:end;# a remark\n\
report|0 report,1;case,inside,2.702702,2.702703,grid;L3D,inside,outside,2.702702,2.702703;factor,inside,inside,0.64864865,0.64864865,grid value no bound;factor,inside,outside,0.10810811,0.10810811,grid value no bound;end;\n\
report|0 report,1;case,inside,2.702702,2.702703,grid;L2D,inside,outside,2.702702,2.702703;U,wall,2.702702,2.702703;psi,short,-0.000001,0.000001;psi,long,-0.540541,-0.540540;factor,inside,inside,0.64864865,0.64864865,grid value no bound;factor,inside,outside,0.10810811,0.10810811,grid value no bound;end;|2:detail,1,2|6:solid,wall,0.1,200.1,0,1000|7:air,inside,0.13,0,0.1,0,1000|8:air,outside,0.04,200.1,200.2,0,1000;part,wall,0.13,0.04;layer,wall,200,wall;psi,short,inside,outside;length,short,wall,1000;psi,long,inside,outside;length,long,wall,1200\n\
report|0 report,1;case,inside,2.702702,2.702703,grid;L3D,inside,outside,2.702702,2.702703;U,wall,2.702702,2.702703;chi,corner,-0.060001,-0.049999;factor,inside,inside,0.64864865,0.64864865,grid value no bound;factor,inside,outside,0.10810811,0.10810811,grid value no bound;end;|8:air,outside,0.04,200.1,200.2,0,1000,0,1000;part,wall,0.13,0.04;layer,wall,200,wall;chi,corner,inside,outside;area,corner,wall,1;line,corner,0.05,0.06,1000\n\
report|0 report,1;case,inside,0.000000,7.692308,sweeps;L3D,inside,outside,0.000000,7.692308;factor,inside,inside,0.00000000,0.00000000,grid value no bound;factor,inside,outside,0.00000000,0.00000000,grid value no bound;end;|13:t,0,0,0,0|14:t,0,0,0,0|15:t,0,0,0,0|16:t,0,0,0,0|18:fx,0,0,0,0|22:interval,0,7692307692307693|23:verdict,sweeps,0\n\
report|1 refused,RatioAbove,part edge;|8:air,outside,0.04,200.1,200.2,0,1000,0,1000;mat,a,3.5;mat,b,0.0999;part,wall,0.13,0.04;layer,wall,200,wall;part,edge,0.11,0.04,1,1;layer,edge,70,a,b;part,next,0.11,0.04,1,1;layer,next,70,a,b\n\
report|7 refused,IntervalDiffers,case 1 claimed 2702702702702701 2702702702702704 found 2702702702702700 2702702702702704;|8:air,outside,0.04,200.1,200.2,0,1000,0,1000;mat,a,3.5;mat,b,0.0999;part,wall,0.13,0.04;layer,wall,200,wall;part,edge,0.11,0.04,1,1;layer,edge,70,a,b;part,next,0.11,0.04,1,1;layer,next,70,a,b|22:interval,2702702702702701,2702702702702704\n\
report|7 refused,Overlap,boxes 1 2;|7:air,inside,0.13,0,0.2,0,1000,0,1000\n\
report|7 refused,NotFormat,record 1;|1:bundle,2\n\
uvalue|0 end;\n\
uvalue|0 end;|4:mat,wall,500\n\
uvalue|1 refused,BadNumber,record 4 field 3;|4:mat,wall,0.00001\n\
uvalue|1 refused,BadNumber,record 4 field 3;|4:mat,wall,1e3\n\
uvalue|1 refused,BadNumber,record 4 field 3;|4:mat,wall,\n\
uvalue|1 refused,OutOfRange,record 4 field 3;|4:mat,wall,500.0001\n\
uvalue|1 refused,OutOfRange,record 4 field 3;|4:mat,wall,0\n\
uvalue|1 refused,FieldCount,record 8;|8:solid,wall\n\
uvalue|0 U,wall,2.702702,2.702703,0.0000;end;|8:part,wall,0.13,0.04;layer,wall,200,wall\n\
uvalue|0 U,thick,0.000000,0.000001,0.0000;end;|4:mat,wall,0.0001|8:part,thick,10,10;layer,thick,50000,wall;layer,thick,50000,wall\n\
uvalue|0 U,timber,0.317444,0.317445,0.0228;end;|8:mat,plaster,0.25;mat,timber,0.14;mat,wool,0.035;mat,board,0.12;part,timber,0.13,0.04,3,17;layer,timber,12.5,plaster,plaster;layer,timber,140,timber,wool;layer,timber,12,board,board\n\
uvalue|0 U,wall,2.702702,2.702703,0.0000;U,edge,4.235294,4.235295,0.2001;end;|8:mat,a,3.5;mat,b,0.1;part,wall,0.13,0.04;layer,wall,200,wall;part,edge,0.11,0.04,1,1;layer,edge,70,a,b\n\
uvalue|1 refused,RatioAbove,part edge;|8:mat,a,3.5;mat,b,0.0999;part,wall,0.13,0.04;layer,wall,200,wall;part,edge,0.11,0.04,1,1;layer,edge,70,a,b;part,next,0.11,0.04,1,1;layer,next,70,a,b\n\
uvalue|1 refused,EmptyPart,record 9;|8:#;part,wall,0.13,0.04\n\
solve|1 refused,TooFewEnvironments;|3:|7:\n\
solve|1 refused,NoSolid;|5:\n\
solve|1 refused,Overlap,boxes 1 2;|6:air,inside,0.13,0,0.2,0,1000,0,1000\n\
solve|1 refused,Uncovered,200 999.9 999.9;|5:solid,wall,0.1,200.1,0,1000,0,999.9;solid,wall,0.1,200.1,0,999.9,999.9,1000;solid,wall,0.1,200,999.9,1000,999.9,1000\n\
solve|1 refused,Isolated,0.1 0 0;|6:|7:\n\
solve --grade 12 --halve 6|1 refused,GridTooLarge,cells 543001536;\n\
solve --halve 6 --grade 12|1 refused,GridTooLarge,lines x 2066;|1:detail,1,2|4:mat,masonry,0.6;mat,insulation,0.04|5:air,outside,0.04,0,0.1,0,1300.1;air,outside,0.04,0.1,1300.1,0,0.1;solid,insulation,0.1,100.1,0.1,1300.1;solid,insulation,100.1,1300.1,0.1,100.1|6:solid,masonry,100.1,300.1,100.1,1300.1;solid,masonry,300.1,1300.1,100.1,300.1;air,inside,0.13,300.1,1300.1,300.1,1300.1|7:\n\
solve --grade 12 --halve 6|1 refused,Isolated,0.1 0 0;|6:|7:\n\
solve --halve=6 --grade=12|1 refused,GridTooLarge,cells 543001536;\n\
solve --width=5|1 refused,NoSolid;|5:\n\
solve --width 1000000000 --grade 0 --sweeps=10000|1 refused,NoSolid;|5:\n\
solve --width 00000000012|1 refused,NoSolid;|5:\n\
solve --|1 refused,NoSolid;|5:\n\
solve --width 5 --|1 refused,NoSolid;|5:\n\
check --|0 accepted,inside,2702702702702700,2702702702702704;end;\n\
report --|7 refused,NotFormat,record 1;|1:bundle,2\n\
uvalue --|0 end;\n\
solve --grade 13|2 refused,Usage;\n\
solve --grade=13|2 refused,Usage;\n\
solve --halve 7|2 refused,Usage;\n\
solve --sweeps 0|2 refused,Usage;\n\
solve --sweeps 10001|2 refused,Usage;\n\
solve --width 1000000001|2 refused,Usage;\n\
solve --width 5.0|2 refused,Usage;\n\
solve --width -5|2 refused,Usage;\n\
solve --width=|2 refused,Usage;\n\
solve --grade|2 refused,Usage;\n\
solve --halve 1 --halve 1|2 refused,Usage;\n\
solve --halve=1 --halve 1|2 refused,Usage;\n\
solve --wid 5|2 refused,Usage;\n\
solve 5|2 refused,Usage;\n\
solve -- 5|2 refused,Usage;\n\
solve -h|2 refused,Usage;\n\
solve --help|2 refused,Usage;\n\
solve --version|2 refused,Usage;\n\
solve help|2 refused,Usage;\n\
solve |2 refused,Usage;\n\
solve --width |2 refused,Usage;\n\
uvalue --grade 1|2 refused,Usage;\n\
uvalue |2 refused,Usage;\n\
|2 refused,Usage;\n\
chec|2 refused,Usage;\n\
check check|2 refused,Usage;\n\
check --help|2 refused,Usage;\n\
check -- check|2 refused,Usage;\n\
Check|2 refused,Usage;\n\
report report|2 refused,Usage;\n\
report -h|2 refused,Usage;\n\
reports|2 refused,Usage;\n\
uvalues|2 refused,Usage;\n\
solv|2 refused,Usage;\n\
demo|2 refused,Usage;\n\
demo 0|2 refused,Usage;\n\
demo 17|2 refused,Usage;\n\
demo -1|2 refused,Usage;\n\
demo 1 2|2 refused,Usage;\n\
demo --width 5|2 refused,Usage;\n\
demo --help|2 refused,Usage;\n\
demos 1|2 refused,Usage;\n\
--help|2 refused,Usage;";

// The words that stand between spaces, of which one may be empty; no text is no word.
pub(crate) fn words_of(alloc: Global, text: &str) -> Result<Vec<String>, AllocError> {
    let mut words = Vec::new(alloc);
    if !text.is_empty() {
        for word in text.split(' ') {
            words.push(String::from_str(alloc, word)?)?;
        }
    }
    Ok(words)
}

// What a run tells of these words and bytes into a sink with this room: the exit code, a space and the text.
pub(crate) fn told(
    alloc: Global,
    text: &str,
    bytes: Vec<u8>,
    room: usize,
) -> Result<Vec<u8>, AllocError> {
    let words = words_of(alloc, text)?;
    let mut source = SteadySource::new(bytes);
    let Ok(mut sink) = MemorySink::new(alloc, room, Vec::new(alloc)) else {
        return Err(AllocError);
    };
    let status = run(alloc, words.as_slice(), &mut source, &mut sink);
    let mut told = Vec::new(alloc);
    told.push(b'0' + status.code())?;
    told.push(b' ')?;
    told.extend_from_slice(sink.bytes())?;
    Ok(told)
}

fn append(text: &mut Vec<u8>, lines: &str) -> Result<(), AllocError> {
    for byte in lines.bytes() {
        text.push(if byte == b';' { b'\n' } else { byte })?;
    }
    Ok(())
}

// What stands in the place of this line.
fn change<'a>(changes: &'a str, number: usize) -> Option<&'a str> {
    for change in changes.split('|') {
        if let Some((place, lines)) = change.split_once(':') {
            if place.parse() == Ok(number) {
                return Some(lines);
            }
        }
    }
    None
}

// The input of a case: the bundle for `check` and `report`, else the detail, with these changes.
pub(crate) fn input(alloc: Global, words: &str, changes: &str) -> Result<Vec<u8>, AllocError> {
    let example = if words.starts_with("check") || words.starts_with("report") {
        BUNDLE
    } else {
        DETAIL
    };
    let mut text = Vec::new(alloc);
    for (number, line) in example.lines().enumerate() {
        append(&mut text, change(changes, number + 1).unwrap_or(line))?;
        text.push(b'\n')?;
    }
    Ok(text)
}

#[test]
fn commands_answer(rt: HostRuntime) -> Result<(), Fail> {
    let alloc = rt.alloc();
    for case in CASES.lines() {
        let (word, rest) = case.split_once('|').ok_or("no answer")?;
        let (answer, changes) = rest.split_once('|').unwrap_or((rest, ""));
        let mut wanted = Vec::new(alloc);
        append(&mut wanted, answer)?;
        let found = told(alloc, word, input(alloc, word, changes)?, 1000)?;
        assert!(rt; found.as_slice() == wanted.as_slice(), "{case}");
    }
    Ok(())
}

// Whether `check` tells this of so many bytes of the bundle.
fn is_told_of_front(alloc: Global, length: usize, text: &[u8]) -> Result<bool, AllocError> {
    let front = Vec::from_slice(alloc, BUNDLE.as_bytes().get(..length).unwrap_or(b""))?;
    Ok(told(alloc, "check", front, 1000)?.as_slice() == text)
}

#[test]
fn a_bundle_that_is_cut_is_none(rt: HostRuntime) -> Result<(), Fail> {
    let alloc = rt.alloc();
    assert!(rt; is_told_of_front(alloc, 0, b"7 refused,NotFormat,record 1\n")?);
    assert!(rt; is_told_of_front(alloc, 8, b"7 refused,NotFormat,record 2\n")?);
    assert!(rt; is_told_of_front(alloc, 100, b"7 refused,FieldCount,record 7\n")?);
    assert!(rt; is_told_of_front(alloc, 168, b"7 refused,NoEnd\n")?);
    assert!(rt; is_told_of_front(alloc, 330, b"7 refused,Shape,record 18\n")?);
    assert!(rt; is_told_of_front(alloc, 422, b"7 refused,NoEnd\n")?);
    assert!(rt; is_told_of_front(alloc, 439, b"7 refused,Shape,record 24\n")?);
    Ok(())
}

#[test]
fn other_bytes_have_no_format(rt: HostRuntime) -> Result<(), Fail> {
    for (word, code) in [("check", b'7'), ("solve", b'1'), ("uvalue", b'1')] {
        for start in [b"".as_slice(), b"\xFF\x00"] {
            let found = told(rt.alloc(), word, Vec::from_slice(rt.alloc(), start)?, 1000)?;
            assert!(rt; found.first() == Some(&code), "{word}");
            assert!(rt; found.ends_with(b" refused,NotFormat,record 1\n"), "{word}");
        }
    }
    Ok(())
}

#[test]
fn a_sink_without_room_gets_the_front(rt: HostRuntime) -> Result<(), Fail> {
    let bundle = Vec::from_slice(rt.alloc(), BUNDLE.as_bytes())?;
    let found = told(rt.alloc(), "check", bundle, 10)?;
    assert!(rt; found.as_slice() == b"5 accepted,i".as_slice());
    Ok(())
}
