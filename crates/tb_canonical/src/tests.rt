// Each text was written out by hand from the rules of the format.
ghost use Rattle.std.specs.Prelude.{◌≤◌, IfOk, length};
ghost use Rattle.tb_detail.specs.Limits.{InLimits};

use crate::write_detail;
use std::alloc::Global;
use std::test::Fail;
use tb_detail::Detail;
use tb_outside::MemorySink;
use tb_reading::read_detail;

// Details and their canonical texts.
const TEXTS: [(&str, &str); 9] = [
    // A wall, with records in another order, remarks, and zeros at the ends of numbers.
    (
        "# a wall\ndetail,1,3\nmat,wall,500.0\nenv,inside\n\"env\",outside\n\nsolid,wall,0.1,0200.1,0,1000.0,0,1000\n\
         air,inside,0.13,0,0.1,0,1000,0,1000\r\nair,outside,0.0400,200.1,200.2,0,1000,0,1000",
        "detail,1,3\nenv,inside\nenv,outside\nmat,wall,500\nsolid,wall,0.1,200.1,0,1000,0,1000\n\
         air,inside,0.13,0,0.1,0,1000,0,1000\nair,outside,0.04,200.1,200.2,0,1000,0,1000\n",
    ),
    // A corner in two dimensions. A part without areas has one of area 1.
    (
        "detail,1,2\nenv,inside\nenv,outside\nmat,masonry,0.6\nmat,insulation,0.04\n\
         air,outside,0.04,0,0.1,0,1300.1\nair,outside,0.04,0.1,1300.1,0,0.1\n\
         solid,insulation,0.1,100.1,0.1,1300.1\nsolid,insulation,100.1,1300.1,0.1,100.1\n\
         solid,masonry,100.1,300.1,100.1,1300.1\nsolid,masonry,300.1,1300.1,100.1,300.1\n\
         air,inside,0.13,300.1,1300.1,300.1,1300.1\npart,wall,0.13,0.04\nlayer,wall,200,masonry\n\
         layer,wall,100,insulation\npsi,corner,inside,outside\nlength,corner,wall,1300\nlength,corner,wall,1300\n",
        "detail,1,2\nenv,inside\nenv,outside\nmat,masonry,0.6\nmat,insulation,0.04\n\
         air,outside,0.04,0,0.1,0,1300.1\nair,outside,0.04,0.1,1300.1,0,0.1\n\
         solid,insulation,0.1,100.1,0.1,1300.1\nsolid,insulation,100.1,1300.1,0.1,100.1\n\
         solid,masonry,100.1,300.1,100.1,1300.1\nsolid,masonry,300.1,1300.1,100.1,300.1\n\
         air,inside,0.13,300.1,1300.1,300.1,1300.1\npart,wall,0.13,0.04,1\nlayer,wall,200,masonry\n\
         layer,wall,100,insulation\npsi,corner,inside,outside\nlength,corner,wall,1300\nlength,corner,wall,1300\n",
    ),
    // Three environments, one of them declared behind a box.
    (
        "detail,1,3\nenv,room\nmat,wall,1\nsolid,wall,0.1,200.1,0,1000,0,1000\nenv,stair\n\
         air,room,0.13,0,0.1,0,1000,0,1000\nenv,outside\nair,outside,0.04,200.1,200.2,0,1000,0,1000\n\
         air,stair,0.13,200.2,200.3,0,1000,0,1000\n",
        "detail,1,3\nenv,room\nenv,stair\nenv,outside\nmat,wall,1\nsolid,wall,0.1,200.1,0,1000,0,1000\n\
         air,room,0.13,0,0.1,0,1000,0,1000\nair,outside,0.04,200.1,200.2,0,1000,0,1000\n\
         air,stair,0.13,200.2,200.3,0,1000,0,1000\n",
    ),
    // The χ of a wall, whose line comes before its area.
    (
        "detail,1,3\nenv,inside\nenv,outside\nmat,wall,1\npart,wall,0.13,0.04\nlayer,wall,200,wall\n\
         chi,corner,inside,outside\nline,corner,0.05,0.06,1000\narea,corner,wall,1\n",
        "detail,1,3\nenv,inside\nenv,outside\nmat,wall,1\npart,wall,0.13,0.04,1\nlayer,wall,200,wall\n\
         chi,corner,inside,outside\narea,corner,wall,1\nline,corner,0.05,0.06,1000\n",
    ),
    // A timber wall.
    (
        "detail,1,3\nmat,plaster,0.25\nmat,timber,0.14\nmat,wool,0.035\nmat,board,0.12\n\
         part,timber,0.13,0.04,3,17\nlayer,timber,12.5,plaster,plaster\nlayer,timber,140,timber,wool\n\
         layer,timber,12,board,board\n",
        "detail,1,3\nmat,plaster,0.25\nmat,timber,0.14\nmat,wool,0.035\nmat,board,0.12\n\
         part,timber,0.13,0.04,3,17\nlayer,timber,12.5,plaster,plaster\nlayer,timber,140,timber,wool\n\
         layer,timber,12,board,board\n",
    ),
    // Two parts, whose layers are mixed.
    (
        "detail,1,3\nmat,a,3.5\nmat,b,0.1\npart,edge,0.11,0.04,1,1\npart,plain,1,1\nlayer,plain,1,a\n\
         layer,edge,70,a,b\nlayer,plain,2,b\n",
        "detail,1,3\nmat,a,3.5\nmat,b,0.1\npart,edge,0.11,0.04,1,1\nlayer,edge,70,a,b\npart,plain,1,1,1\n\
         layer,plain,1,a\nlayer,plain,2,b\n",
    ),
    // The greatest numbers.
    (
        "detail,1,3\nenv,aaaaaaaaaabbbbbbbbbbccccccccccdd\nenv,Z z_9-.\nmat,m,500\n\
         solid,m,0,50000,49999.9,50000,0,50000\nair,Z z_9-.,10,0,50000,0,50000,0,50000\n\
         part,p,10,10,1000000,1000000,1000000,1000000\nlayer,p,50000,m,m,m,m\n\
         chi,c,Z z_9-.,aaaaaaaaaabbbbbbbbbbccccccccccdd\narea,c,p,10000\nline,c,-1000,1000,50000\n",
        "detail,1,3\nenv,aaaaaaaaaabbbbbbbbbbccccccccccdd\nenv,Z z_9-.\nmat,m,500\n\
         solid,m,0,50000,49999.9,50000,0,50000\nair,Z z_9-.,10,0,50000,0,50000,0,50000\n\
         part,p,10,10,1000000,1000000,1000000,1000000\nlayer,p,50000,m,m,m,m\n\
         chi,c,Z z_9-.,aaaaaaaaaabbbbbbbbbbccccccccccdd\narea,c,p,10000\nline,c,-1000,1000,50000\n",
    ),
    // The least numbers above 0, and a ψ below 0.
    (
        "detail,1,3\nenv,a\nenv,b\nmat,m,0.0001\nair,a,0.0001,0,0.1,0,0.1,0,0.1\npart,p,0.0001,0.0001,1\n\
         layer,p,0.1,m\nchi,c,a,b\narea,c,p,0.0001\nline,c,-0.000001,0.000001,0.1\n",
        "detail,1,3\nenv,a\nenv,b\nmat,m,0.0001\nair,a,0.0001,0,0.1,0,0.1,0,0.1\npart,p,0.0001,0.0001,1\n\
         layer,p,0.1,m\nchi,c,a,b\narea,c,p,0.0001\nline,c,-0.000001,0.000001,0.1\n",
    ),
    // The greatest numbers in two dimensions.
    (
        "detail,1,2\nenv,a\nenv,b\nmat,m,500\nsolid,m,0,50000,49999.9,50000\nair,b,10,0,0.1,0,50000\n\
         part,p,10,10\nlayer,p,50000,m\npsi,q,b,a\nlength,q,p,50000\n",
        "detail,1,2\nenv,a\nenv,b\nmat,m,500\nsolid,m,0,50000,49999.9,50000\nair,b,10,0,0.1,0,50000\n\
         part,p,10,10,1\nlayer,p,50000,m\npsi,q,b,a\nlength,q,p,50000\n",
    ),
];

fn read(alloc: Global, text: &[u8]) -> Result<Detail, &'static str>
    requires { length text.now ≤ 1000 }
    ensures { IfOk result InLimits }
{
    match read_detail(alloc, text) {
        Ok(detail) => Ok(detail),
        Err(_) => Err("a refusal"),
    }
}

fn written(alloc: Global, detail: &Detail) -> Result<MemorySink, &'static str>
    requires { InLimits detail.now }
{
    let Ok(mut sink) = MemorySink::new(alloc, 1000, Vec::new(alloc)) else {
        return Err("memory");
    };
    match write_detail(detail, &mut sink) {
        Ok(()) => Ok(sink),
        Err(_) => Err("the sink"),
    }
}

#[test]
fn canonical_texts(rt: HostRuntime) -> Result<(), Fail> {
    for (text, canonical) in TEXTS {
        assert!(rt; text.len() <= 1000 && canonical.len() <= 1000);
        let detail = read(rt.alloc(), text.as_bytes())?;
        let sink = written(rt.alloc(), &detail)?;
        assert!(rt; sink.bytes() == canonical.as_bytes(), "{canonical}");
        let again = read(rt.alloc(), canonical.as_bytes())?;
        assert!(rt; again == detail, "{canonical}");
    }
    Ok(())
}

#[test]
fn a_sink_without_room(rt: HostRuntime) -> Result<(), Fail> {
    let text = TEXTS[4].1.as_bytes();
    assert!(rt; text.len() <= 1000);
    let detail = read(rt.alloc(), text)?;
    let mut sink = MemorySink::new(rt.alloc(), 17, Vec::new(rt.alloc()))?;
    assert!(rt; write_detail(&detail, &mut sink).is_err());
    assert!(rt; sink.bytes() == b"detail,1,3\nmat,pl".as_slice());
    Ok(())
}
