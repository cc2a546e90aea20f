// Lines that are silent, and lines that are none of the forms.
use script::{Line, read_line};
use std::test::Fail;

#[test]
fn empty_lines_and_comments_are_silent(rt: HostRuntime) -> Result<(), Fail> {
    assert_eq!(rt; read_line(rt.alloc(), b"")?, Line::Silent);
    assert_eq!(rt; read_line(rt.alloc(), b" \t \r")?, Line::Silent);
    assert_eq!(rt; read_line(rt.alloc(), b"#")?, Line::Silent);
    assert_eq!(rt; read_line(rt.alloc(), b"# suspend 3")?, Line::Silent);
    assert_eq!(rt; read_line(rt.alloc(), b" # suspend 3")?, Line::Unknown);
    Ok(())
}

#[test]
fn numbers_above_their_bounds_are_unknown(rt: HostRuntime) -> Result<(), Fail> {
    assert_eq!(rt; read_line(rt.alloc(), b"suspend 65536")?, Line::Unknown);
    assert_eq!(rt; read_line(rt.alloc(), b"open 65536 3 3600")?, Line::Unknown);
    assert_eq!(rt; read_line(rt.alloc(), b"open 1 256 3600")?, Line::Unknown);
    assert_eq!(rt;
        read_line(rt.alloc(), b"open 1 3 4294967296")?,
        Line::Unknown
    );
    assert_eq!(rt;
        read_line(rt.alloc(), b"open 1 3 3600 0 4294967296")?,
        Line::Unknown
    );
    assert_eq!(rt;
        read_line(rt.alloc(), b"suspend 18446744073709551617")?,
        Line::Unknown
    );
    Ok(())
}

#[test]
fn fields_that_are_missing_or_too_many_are_unknown(rt: HostRuntime) -> Result<(), Fail> {
    assert_eq!(rt; read_line(rt.alloc(), b"suspend")?, Line::Unknown);
    assert_eq!(rt; read_line(rt.alloc(), b"suspend 1 2")?, Line::Unknown);
    assert_eq!(rt; read_line(rt.alloc(), b"restore 1")?, Line::Unknown);
    assert_eq!(rt; read_line(rt.alloc(), b"open 1 3")?, Line::Unknown);
    assert_eq!(rt;
        read_line(rt.alloc(), b"add 0 1 1100 2 127")?,
        Line::Unknown
    );
    assert_eq!(rt;
        read_line(rt.alloc(), b"add 0 1 1100 2 127 RR")?,
        Line::Unknown
    );
    assert_eq!(rt; read_line(rt.alloc(), b"load 00 ff")?, Line::Unknown);
    Ok(())
}

#[test]
fn what_is_no_numeral_is_unknown(rt: HostRuntime) -> Result<(), Fail> {
    assert_eq!(rt; read_line(rt.alloc(), b"suspend +1")?, Line::Unknown);
    assert_eq!(rt; read_line(rt.alloc(), b"suspend -1")?, Line::Unknown);
    assert_eq!(rt; read_line(rt.alloc(), b"suspend 1/")?, Line::Unknown);
    assert_eq!(rt; read_line(rt.alloc(), b"suspend 1:")?, Line::Unknown);
    assert_eq!(rt; read_line(rt.alloc(), b"load 0")?, Line::Unknown);
    assert_eq!(rt; read_line(rt.alloc(), b"load 0g")?, Line::Unknown);
    assert_eq!(rt;
        read_line(rt.alloc(), "add 0 1 1100 2 127 é".as_bytes())?,
        Line::Unknown
    );
    Ok(())
}

#[test]
fn other_keywords_are_unknown(rt: HostRuntime) -> Result<(), Fail> {
    assert_eq!(rt; read_line(rt.alloc(), b"Suspend 1")?, Line::Unknown);
    assert_eq!(rt; read_line(rt.alloc(), b"suspended 1")?, Line::Unknown);
    assert_eq!(rt; read_line(rt.alloc(), b"garbage")?, Line::Unknown);
    Ok(())
}
