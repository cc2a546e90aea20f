// Scripts cut into their lines.
use script::next_line;
use std::test::Fail;

#[test]
fn a_last_line_needs_no_end(rt: HostRuntime) -> Result<(), Fail> {
    let (first, rest) = next_line(b"open\n\nload").ok_or("no first line")?;
    assert_eq!(rt; first, b"open".as_slice());
    let (second, rest) = next_line(rest).ok_or("no second line")?;
    assert_eq!(rt; second, b"".as_slice());
    let (third, rest) = next_line(rest).ok_or("no third line")?;
    assert_eq!(rt; third, b"load".as_slice());
    assert!(rt; next_line(rest).is_none());
    Ok(())
}

#[test]
fn an_end_is_no_line_of_its_own(rt: HostRuntime) -> Result<(), Fail> {
    let (first, rest) = next_line(b"load\r\n").ok_or("no first line")?;
    assert_eq!(rt; first, b"load\r".as_slice());
    assert!(rt; next_line(rest).is_none());
    assert!(rt; next_line(b"").is_none());
    Ok(())
}
