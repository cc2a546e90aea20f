// Each form of a line, with its numbers at their bounds.
use calls::Call;
use script::{Line, read_line};
use std::test::Fail;
use timetable::Addition;

#[test]
fn an_opening_has_its_departures(rt: HostRuntime) -> Result<(), Fail> {
    let heap = rt.alloc();
    assert_eq!(rt;
        read_line(heap, b"open 1 3 3600 0 1200 2400")?,
        Line::Call(Call::Open {
            mark: 1,
            events: 3,
            period: 3600,
            departures: vec![in heap; 0, 1200, 2400]?,
        })
    );
    assert_eq!(rt;
        read_line(heap, b"open 65535 255 4294967295")?,
        Line::Call(Call::Open {
            mark: 65535,
            events: 255,
            period: 4_294_967_295,
            departures: vec![in heap]?,
        })
    );
    assert_eq!(rt;
        read_line(heap, b"open 1 1 60 4294967295")?,
        Line::Call(Call::Open {
            mark: 1,
            events: 1,
            period: 60,
            departures: vec![in heap; 4_294_967_295]?,
        })
    );
    Ok(())
}

#[test]
fn a_file_is_spelt_in_hexadecimal(rt: HostRuntime) -> Result<(), Fail> {
    let heap = rt.alloc();
    let bytes = vec![in heap]?;
    assert_eq!(rt; read_line(heap, b"load")?, Line::Call(Call::Load { bytes }));
    let bytes = vec![in heap; 0, 255, 9, 175]?;
    assert_eq!(rt;
        read_line(heap, b"load 00ff09af")?,
        Line::Call(Call::Load { bytes })
    );
    let bytes = vec![in heap; 26, 43]?;
    assert_eq!(rt;
        read_line(heap, b"load 1A2b")?,
        Line::Call(Call::Load { bytes })
    );
    Ok(())
}

#[test]
fn an_addition_has_six_fields(rt: HostRuntime) -> Result<(), Fail> {
    let addition = Addition {
        from: 0,
        to: 1,
        time: 1100,
        tokens: 2,
        days: 127,
        letter: 82,
    };
    assert_eq!(rt;
        read_line(rt.alloc(), b"add 0 1 1100 2 127 R")?,
        Line::Call(Call::Add(addition))
    );
    let addition = Addition {
        from: 255,
        to: 255,
        time: 65535,
        tokens: 255,
        days: 255,
        letter: 35,
    };
    assert_eq!(rt;
        read_line(rt.alloc(), b"add 255 255 65535 255 255 #")?,
        Line::Call(Call::Add(addition))
    );
    Ok(())
}

#[test]
fn changes_name_numbers_and_marks(rt: HostRuntime) -> Result<(), Fail> {
    assert_eq!(rt;
        read_line(rt.alloc(), b"retime 3 900")?,
        Line::Call(Call::Retime {
            number: 3,
            time: 900
        })
    );
    assert_eq!(rt;
        read_line(rt.alloc(), b"withdraw 2")?,
        Line::Call(Call::Withdraw { number: 2 })
    );
    assert_eq!(rt;
        read_line(rt.alloc(), b"suspend 65535")?,
        Line::Call(Call::Suspend { number: 65535 })
    );
    assert_eq!(rt;
        read_line(rt.alloc(), b"restore 7 3")?,
        Line::Call(Call::Restore { mark: 7, number: 3 })
    );
    assert_eq!(rt;
        read_line(rt.alloc(), b"dismiss 7 3")?,
        Line::Call(Call::Dismiss { mark: 7, number: 3 })
    );
    Ok(())
}

#[test]
fn the_takeover_stands_alone(rt: HostRuntime) -> Result<(), Fail> {
    assert_eq!(rt; read_line(rt.alloc(), b"takeover")?, Line::Takeover);
    assert_eq!(rt; read_line(rt.alloc(), b" takeover ")?, Line::Takeover);
    assert_eq!(rt; read_line(rt.alloc(), b"takeover now")?, Line::Unknown);
    Ok(())
}

#[test]
fn blanks_and_leading_zeros_do_not_matter(rt: HostRuntime) -> Result<(), Fail> {
    assert_eq!(rt;
        read_line(rt.alloc(), b"  restore   7\t 0003 \r")?,
        Line::Call(Call::Restore { mark: 7, number: 3 })
    );
    assert_eq!(rt;
        read_line(rt.alloc(), b"suspend 000000000000000000000000000009")?,
        Line::Call(Call::Suspend { number: 9 })
    );
    Ok(())
}
