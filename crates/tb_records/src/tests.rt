use crate::{ByteRecord, Records, first_records, is_remark};
use std::alloc::{AllocError, Global};
use std::test::Fail;

// Each text, and its records: a field ends with '|', and a record with ';'.
const READINGS: [(&[u8], &[u8]); 18] = [
    (b"", b""),
    (b"\n\r\n\r", b""),
    (b"a,b\r\nc\n", b"a|b|;c|;"),
    (b"a\rb\r\r\nc", b"a|;b|;c|;"),
    (b"\na\n\n\nb\n\n", b"a|;b|;"),
    (b",,\na,", b"|||;a||;"),
    (b"\"\"\n\"\"", b"|;|;"),
    (b" a , b \n", b" a | b |;"),
    (b"\"b,c\",\"d\ne\r\"\n", b"b,c|d\ne\r|;"),
    (b"\"x \"\"y\"\"\",z\n", b"x \"y\"|z|;"),
    (b"a\"b,c\"\"d\n", b"a\"b|c\"\"d|;"),
    (b" \"a,b\"\n", b" \"a|b\"|;"),
    (b"\"ab\"cd,\"e\" \"f\"\n", b"abcd|e \"f\"|;"),
    (b"a,\"b,c\nd", b"a|b,c\nd|;"),
    (b"\xEF\xBB\xBFa\n\xEF\xBB\xBFb\n", b"a|;\xEF\xBB\xBFb|;"),
    (b"\xEF\xBB\xBF\"a\"\n", b"a|;"),
    (b"\xEF\xBBa\n", b"\xEF\xBBa|;"),
    (b"# a,b\n\xFF\x00,\xC3\n", b"# a|b|;\xFF\x00|\xC3|;"),
];

fn shown(alloc: Global, rows: &[ByteRecord]) -> Result<Vec<u8>, AllocError> {
    let mut text = Vec::new(alloc);
    for row in rows {
        for field in row.iter() {
            text.extend_from_slice(field)?;
            text.push(b'|')?;
        }
        text.push(b';')?;
    }
    Ok(text)
}

#[test]
fn reads_as_csv_says(rt: HostRuntime) -> Result<(), Fail> {
    for (text, records) in READINGS {
        let rows = first_records(rt.alloc(), text, 9)?;
        let found = shown(rt.alloc(), &rows)?;
        assert!(rt; found.as_slice() == records, "{text:?}");
    }
    Ok(())
}

#[test]
fn stops_at_the_limit(rt: HostRuntime) -> Result<(), Fail> {
    let rows = first_records(rt.alloc(), b"a\nb\nc\n", 2)?;
    let found = shown(rt.alloc(), &rows)?;
    assert!(rt; found.as_slice() == b"a|;b|;".as_slice());
    Ok(())
}

#[test]
fn reads_one_by_one(rt: HostRuntime) -> Result<(), Fail> {
    let mut left = Records::new(rt.alloc(), b"\"#\",a\nb,#\n");
    let mut row = ByteRecord::new(rt.alloc());
    assert!(rt; left.next(&mut row)? && is_remark(&row));
    assert!(rt; left.next(&mut row)? && !is_remark(&row));
    assert!(rt; row.get(1) == Some(b"#".as_slice()));
    assert!(rt; !left.next(&mut row)? && !left.next(&mut row)?);
    Ok(())
}
