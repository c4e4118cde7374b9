// Each expected answer was worked out by hand from the rules of the format.
use crate::{DetailBuilder, DetailFault, DetailKind, DetailRefusal, read_detail};
use std::alloc::{AllocError, Global};
use std::test::Fail;
use tb_detail::{ChiItem, Content, LineTerm, Part, PlanarTerm, SpaceBox, Span};
use tb_records::ByteRecord;

// What a text begins with: four records in dimension 3 or 2, or six with a part and an item.
const SPACE: &str = "detail,1,3;env,in;env,out;mat,m,1;";

const FLAT: &str = "detail,1,2;env,in;env,out;mat,m,1;";

const SPACE_PART: &str = "detail,1,3;env,in;env,out;mat,m,1;part,p,0.13,0.04;chi,c,in,out;";

const FLAT_PART: &str = "detail,1,2;env,in;env,out;mat,m,1;part,p,0.13,0.04;psi,s,in,out;";

// A beginning, the records behind it with a semicolon for the end of a line, and the answer: a fault with
// its record and field, or that there is none.
const ANSWERS: &str = "\
||NotFormat 1 0\n\
|# a remark;#;|NotFormat 1 0\n\
|detail,1,4;|NotFormat 1 0\n\
|# a;;detail,2,3;|NotFormat 2 0\n\
|env,in;detail,1,3;|NotFormat 1 0\n\
|detail,1,3,x;walls;|NotFormat 1 0\n\
|detail,1;|NotFormat 1 0\n\
space|detail,1,3;|UnknownKind 5 0\n\
space|walls,m;|UnknownKind 5 0\n\
space|solid ,m,0,1,0,1,0,1;|UnknownKind 5 0\n\
space|\"\";|UnknownKind 5 0\n\
space|#;Env,x;env,in;|UnknownKind 6 0\n\
space|psi,s,in,out;|WrongDimension 5 0\n\
flat|chi,c,in,out;|WrongDimension 5 0\n\
flat|line,c,1;|WrongDimension 5 0\n\
space|length,s,p,x;walls;|WrongDimension 5 0\n\
flat|area,c,p,1;|WrongDimension 5 0\n\
space|env;|FieldCount 5 0\n\
space|mat,m,1,1;|FieldCount 5 0\n\
flat|solid,m,0,1,0,1,0,1;|FieldCount 5 0\n\
space|solid,m,0,1,0,1;|FieldCount 5 0\n\
space|air,in,0.1,0,1,0,1,0;|FieldCount 5 0\n\
space|part,p,1;|FieldCount 5 0\n\
space|part,p,1,1,1,1,1,1,1;|FieldCount 5 0\n\
space|layer;|FieldCount 5 0\n\
space|layer,q,10;|FieldCount 5 0\n\
space|layer,q,1,m,m,m,m,m;|FieldCount 5 0\n\
space-part|layer,p,10,m,m;|FieldCount 7 0\n\
flat-part|length,s,p;|FieldCount 7 0\n\
space-part|line,c,1,1;walls;|FieldCount 7 0\n\
space|env,;|BadName 5 2\n\
space|mat,a/b,1;|BadName 5 2\n\
space|mat,ä,1;|BadName 5 2\n\
space|env,aaaaaaaaaabbbbbbbbbbccccccccccddd;|BadName 5 2\n\
space|part,a:b,x,y;|BadName 5 2\n\
space|env,a\"b;env,in;|BadName 5 2\n\
space|env,in;|NameTwice 5 2\n\
space|mat,m,x;|NameTwice 5 2\n\
space-part|part,p,0.13,0.04;|NameTwice 7 2\n\
space-part|chi,c,in,in;|NameTwice 7 2\n\
space|env,\"in\";mat,m,1;|NameTwice 5 2\n\
space|solid,in,0,1,0,1,0,1;|UnknownName 5 2\n\
space|air,m,0.1,0,1,0,1,0,1;|UnknownName 5 2\n\
space-part|layer,p,10,x;|UnknownName 7 4\n\
space-part|layer,q,x,m;|UnknownName 7 2\n\
space-part|area,c,c,1;|UnknownName 7 3\n\
space-part|chi,d,in,nn;|UnknownName 7 4\n\
space|chi,d,x,y;walls;|UnknownName 5 3\n\
space-part|line,p,1,1,1;|UnknownName 7 2\n\
space|chi,c,in,in;|SamePair 5 4\n\
flat|psi,s,out,out;|SamePair 5 4\n\
space|chi,c,in,in;env,in;|SamePair 5 4\n\
flat|psi,s,in,\"in\";|SamePair 5 4\n\
space|mat,n,0.00001;|BadNumber 5 3\n\
space|mat,n,1e3;|BadNumber 5 3\n\
space|mat,n,;|BadNumber 5 3\n\
space|mat,n,-1;|BadNumber 5 3\n\
space|solid,m,0,1,0,1,0,1.05;|BadNumber 5 8\n\
space|solid,m,a,0,b,0,c,0;|BadNumber 5 3\n\
space|air,in,x,0,0,1,1,0,0;|BadNumber 5 3\n\
space-part|line,c,1,x,1;|BadNumber 7 4\n\
space-part|line,c,0.0000001,1,1;|BadNumber 7 3\n\
space-part|area,c,p,1.00001;walls;|BadNumber 7 4\n\
space|part,q,1,1,1.5;|BadNumber 5 5\n\
space|mat,n,500.0001;|OutOfRange 5 3\n\
space|mat,n,0;|OutOfRange 5 3\n\
space|solid,m,0,1,0,1,0,50000.1;|OutOfRange 5 8\n\
space|air,in,0,0,0,0,0,0,0;|OutOfRange 5 3\n\
space|air,in,10.0001,0,1,0,1,0,1;|OutOfRange 5 3\n\
space-part|layer,p,0,m;|OutOfRange 7 3\n\
space-part|layer,p,50000.1,m;|OutOfRange 7 3\n\
space|part,q,0.1,0.1,0;|OutOfRange 5 5\n\
space|part,q,0.1,0.1,1,1000001;|OutOfRange 5 6\n\
space-part|area,c,p,10000.0001;|OutOfRange 7 4\n\
space-part|line,c,-1000.000001,1,1;|OutOfRange 7 3\n\
space-part|line,c,1,1000.000001,1;|OutOfRange 7 4\n\
space-part|line,c,1,1,50000.1;walls;|OutOfRange 7 5\n\
flat-part|length,s,p,50000.1;|OutOfRange 7 4\n\
space|solid,m,1,1,x,1,0,1;|Reversed 5 4\n\
space|solid,m,0,1,2,1,0,1;|Reversed 5 6\n\
space|solid,m,0,1,0,1,1,0.9;|Reversed 5 8\n\
space|air,in,0.1,0,1,5,5,0,1;|Reversed 5 7\n\
flat|solid,m,3,2,1,0;|Reversed 5 4\n\
space-part|line,c,0.06,0.05,x;|Reversed 7 4\n\
space-part|line,c,-1,-2,1;walls;|Reversed 7 4\n\
space|env,a;env,b;env,c;|TooMany 7 0\n\
flat|env,a;env,b;env,c;walls;|TooMany 7 0\n\
space|env,a;env,b;env,a;|NameTwice 7 2\n\
space|env,a;env,b;walls;env,c;|UnknownKind 7 0\n\
space|part,p,0.13,0.04;part,q,0.13,0.04;|EmptyPart 5 0\n\
space-part||EmptyPart 5 0\n\
space-part|layer,p,1,m;part,q,1,1;|EmptyPart 8 0\n\
space-part|part,q,1,1;# q;layer,p,10,m;|EmptyPart 7 0\n\
space-part|walls;|UnknownKind 7 0\n\
space|\"solid\",\"m\",\"0\",\"1\",0,1,0,x;|BadNumber 5 8\n\
space|env,a\r;env,in\r;|NameTwice 6 2\n\
space|# solid,x,1;walls;|UnknownKind 6 0\n\
space|\u{FEFF}env,a;|UnknownKind 5 0\n\
|\u{FEFF}# remark\r;detail,1,3\r;|Ok\n\
space|#env,in;\"# quoted\",env,in;|Ok\n\
space|env,aaaaaaaaaabbbbbbbbbbccccccccccdd;|Ok\n\
space|env,C d_e-f.G0;mat,in,1;|Ok\n\
space|mat,n,500;|Ok\n\
space|mat,n,0.0001;|Ok\n\
space|solid,m,0,50000,0,0.1,0,1;|Ok\n\
space|air,in,10,0,1,0,1,0,1;air,in,0.0001,0,1,0,1,0,1;|Ok\n\
flat|solid,m,0,1,0,1;air,in,0.13,0,1,0,1;|Ok\n\
space|part,q,1,1,1,1000000,1,1;layer,q,1,m,m,m,m;|Ok\n\
space-part|layer,p,0.1,m;area,c,p,10000;area,c,p,0;|Ok\n\
space-part|layer,p,50000,m;line,c,-1000,1000,0;line,c,1,1,50000;|Ok\n\
flat-part|layer,p,1,m;length,s,p,0;length,s,p,50000;|Ok\n\
space|env,a;env,b;mat,a,1|Ok";

fn beginning(name: &str) -> &'static str {
    match name {
        "space" => SPACE,
        "flat" => FLAT,
        "space-part" => SPACE_PART,
        "flat-part" => FLAT_PART,
        _ => "",
    }
}

fn append(text: &mut Vec<u8>, records: &str) -> Result<(), AllocError> {
    for byte in records.bytes() {
        text.push(if byte == b';' { b'\n' } else { byte })?;
    }
    Ok(())
}

fn shown(alloc: Global, answer: Option<DetailRefusal>) -> Result<String, AllocError> {
    match answer {
        None => String::from_str(alloc, "Ok"),
        Some(DetailRefusal::NoMemory) => String::from_str(alloc, "NoMemory"),
        Some(DetailRefusal::Fault(fault)) => {
            format!(in alloc; "{:?} {} {}", fault.kind, fault.number, fault.field)
        }
    }
}

fn text_of(alloc: Global, start: &str, records: &str) -> Result<Vec<u8>, AllocError> {
    let mut text = Vec::new(alloc);
    append(&mut text, beginning(start))?;
    append(&mut text, records)?;
    Ok(text)
}

#[test]
fn answers(rt: HostRuntime) -> Result<(), Fail> {
    for line in ANSWERS.lines() {
        let (start, rest) = line.split_once('|').ok_or("no records")?;
        let (records, want) = rest.split_once('|').ok_or("no answer")?;
        let text = text_of(rt.alloc(), start, records)?;
        assert!(rt; text.len() <= 1000);
        let found = shown(rt.alloc(), read_detail(rt.alloc(), &text).err())?;
        assert!(rt; found.as_str() == want, "{line}: {found}");
    }
    Ok(())
}

// A beginning, a record that comes so many times, and the number of the one that is too many.
const LIMITS: [(&str, &str, u32, Option<u32>); 6] = [
    (SPACE, "solid,m,0,1,0,1,0,1;", 512, None),
    (SPACE, "solid,m,0,1,0,1,0,1;", 513, Some(517)),
    (SPACE_PART, "layer,p,1,m;", 17, Some(23)),
    (FLAT_PART, "length,s,p,1;", 17, Some(23)),
    (SPACE_PART, "area,c,p,1;", 17, Some(23)),
    (SPACE_PART, "line,c,1,1,1;", 17, Some(23)),
];

fn too_many(number: u32) -> DetailRefusal {
    DetailRefusal::Fault(DetailFault {
        number,
        field: 0,
        kind: DetailKind::TooMany,
    })
}

#[test]
fn limits(rt: HostRuntime) -> Result<(), Fail> {
    for (head, record, count, number) in LIMITS {
        let mut text = Vec::new(rt.alloc());
        append(&mut text, head)?;
        for _ in 0..count {
            append(&mut text, record)?;
        }
        assert!(rt; text.len() <= 100_000);
        assert_eq!(rt;
            read_detail(rt.alloc(), &text).err(),
            number.map(too_many),
            "{record:?}"
        );
    }
    Ok(())
}

// The beginning has 3 names, so the 254th material has the 257th.
#[test]
fn names_over_all_kinds(rt: HostRuntime) -> Result<(), Fail> {
    let mut text = Vec::new(rt.alloc());
    append(&mut text, SPACE)?;
    for n in 0..254 {
        let record = format!(in rt.alloc(); "mat,{n},1\n")?;
        text.extend_from_slice(record.as_bytes())?;
    }
    assert!(rt; text.len() <= 100_000);
    assert_eq!(rt; read_detail(rt.alloc(), &text).err(), Some(too_many(258)));
    Ok(())
}

const WALL: &[u8] = b"detail,1,3\nenv,inside\nenv,outside\nmat,wall,1\n\
solid,wall,0.1,200.1,0,1000,0,1000\n\
air,inside,0.13,0,0.1,0,1000,0,1000\n\
air,outside,0.04,200.1,200.2,0,1000,0,1000\n\
mat,wool,0.035\npart,plain,0.13,0.04\npart,timber,0.1,0.2,3,17\n\
layer,timber,12.5,wall,wool\nlayer,plain,0.1,wool\nlayer,timber,140,wool,wool\n\
chi,corner,outside,inside\nline,corner,-0.05,0.06,1000\narea,corner,timber,1.5\n";

#[test]
fn boxes(rt: HostRuntime) -> Result<(), Fail> {
    assert!(rt; WALL.len() <= 1000);
    let detail = read_detail(rt.alloc(), WALL).map_err(|_| "a refusal")?;
    let span = |x0: u32, x1: u32| Span {
        x0,
        x1,
        y0: 0,
        y1: 10_000,
        z0: 0,
        z1: 10_000,
    };
    let boxes = [
        SpaceBox {
            content: Content::Solid { material: 0 },
            span: span(1, 2001),
        },
        SpaceBox {
            content: Content::Air {
                environment: 0,
                rs: 1300,
            },
            span: span(0, 1),
        },
        SpaceBox {
            content: Content::Air {
                environment: 1,
                rs: 400,
            },
            span: span(2001, 2002),
        },
    ];
    assert_eq!(rt; detail.dimension, 3);
    assert!(rt; detail.boxes.items.as_slice() == boxes.as_slice());
    Ok(())
}

fn are_parts_of_wall(parts: &[Part]) -> bool {
    let [plain, timber] = parts else {
        return false;
    };
    let [thin, thick] = timber.layers.items.as_slice() else {
        return false;
    };
    plain.areas.items.as_slice() == [1].as_slice()
        && plain.layers.items.len() == 1
        && timber.areas.items.as_slice() == [3, 17].as_slice()
        && timber.rse == 2000
        && thin.thickness == 125
        && thin.materials.items.as_slice() == [0, 1].as_slice()
        && thick.thickness == 1400
        && thick.materials.items.as_slice() == [1, 1].as_slice()
}

fn are_items_of_wall(chis: &[ChiItem]) -> bool {
    let [corner] = chis else {
        return false;
    };
    let area = PlanarTerm {
        part: 1,
        amount: 15_000,
    };
    let line = LineTerm {
        psi_lo: -50_000,
        psi_hi: 60_000,
        length: 10_000,
    };
    corner.name.bytes.as_slice() == b"corner".as_slice()
        && corner.first == 1
        && corner.second == 0
        && corner.areas.items.as_slice() == [area].as_slice()
        && corner.lines.items.as_slice() == [line].as_slice()
}

#[test]
fn parts_and_items(rt: HostRuntime) -> Result<(), Fail> {
    assert!(rt; WALL.len() <= 1000);
    let detail = read_detail(rt.alloc(), WALL).map_err(|_| "a refusal")?;
    assert!(rt; are_parts_of_wall(&detail.parts.items));
    assert!(rt; are_items_of_wall(&detail.chis.items));
    Ok(())
}

#[test]
fn refusals_are_repeated(rt: HostRuntime) -> Result<(), Fail> {
    let mut builder = DetailBuilder::new(rt.alloc());
    let mut head = ByteRecord::new(rt.alloc());
    for field in [b"detail".as_slice(), b"1", b"2"] {
        head.push_field(field).map_err(|_| "memory")?;
    }
    let fault = DetailRefusal::Fault(DetailFault {
        number: 9,
        field: 0,
        kind: DetailKind::UnknownKind,
    });
    assert_eq!(rt; builder.feed(7, &head), Ok(()));
    assert_eq!(rt; builder.feed(9, &head), Err(fault));
    assert_eq!(rt; builder.feed(11, &ByteRecord::new(rt.alloc())), Err(fault));
    assert_eq!(rt; builder.finish().err(), Some(fault));
    Ok(())
}
