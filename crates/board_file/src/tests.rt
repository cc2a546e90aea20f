// Worked cases on a small file, whole and cut or altered in one place.
use crate::{
    Entry, FrameFault, LoadFault, OpeningRecord, RecordFault, Tag, UnknownTag, read_departures,
    read_end, read_entry, read_opening,
};
use faults::{Layer, Report};
use timetable::Addition;

// Three events and a period of an hour, departures every twenty minutes, four additions, and the end.
const FILE: [u8; 68] = [
    1, 0, 7, 0, 1, 3, 0, 0, 14, 16, 2, 0, 12, 0, 0, 0, 0, 0, 0, 4, 176, 0, 0, 9, 96, 3, 0, 7, 0, 1,
    4, 76, 0, 127, 82, 3, 0, 7, 1, 2, 3, 232, 0, 127, 82, 3, 0, 7, 2, 0, 4, 26, 1, 127, 76, 3, 0,
    7, 1, 0, 8, 252, 1, 127, 84, 4, 0, 0,
];

#[test]
fn reads_the_opening(rt: HostRuntime) {
    let opening = OpeningRecord {
        mark: 1,
        events: 3,
        period: 3600,
    };
    assert_eq!(rt; read_opening(&FILE), Ok(opening));
}

#[test]
fn reads_the_departures(rt: HostRuntime) {
    let mut departures = [7, 7, 7];
    assert_eq!(rt; read_departures(&FILE, 10, &mut departures), Ok(()));
    assert_eq!(rt; departures, [0, 1200, 2400]);
}

#[test]
fn reads_the_entries(rt: HostRuntime) {
    let last = Addition {
        from: 1,
        to: 0,
        time: 2300,
        tokens: 1,
        days: 127,
        letter: b'T',
    };
    assert_eq!(rt; read_entry(&FILE, 55), Ok(Entry::Add(last)));
    assert_eq!(rt; read_entry(&FILE, 65), Ok(Entry::End));
    assert_eq!(rt; read_end(&FILE, 68), Ok(()));
}

#[test]
fn refuses_what_is_not_due(rt: HostRuntime) {
    let mut departures = [7, 7];
    assert_eq!(rt;
        read_departures(&FILE, 10, &mut departures),
        Err(RecordFault::Length(10))
    );
    assert_eq!(rt; departures, [7, 7]);
    assert_eq!(rt; read_entry(&FILE, 10), Err(RecordFault::Tag(10)));
    assert_eq!(rt;
        read_entry(&FILE[..67], 65),
        Err(RecordFault::Frame(FrameFault::PastEnd(65)))
    );
    assert_eq!(rt; read_end(&FILE, 65), Err(FrameFault::Trailing(65)));
}

#[test]
fn reports_layer_number_and_place(rt: HostRuntime) {
    let report = Report::from(RecordFault::Frame(FrameFault::PastEnd(65)));
    assert_eq!(rt; report.layer, Layer::Frame);
    assert_eq!(rt; report.number, 24);
    assert_eq!(rt; report.place, 65);
}

#[test]
fn reports_a_judged_record_at_its_tag(rt: HostRuntime) {
    let fault = LoadFault::Judged {
        place: 10,
        fault: FrameFault::Trailing(68),
    };
    let report = Report {
        layer: Layer::Frame,
        number: 27,
        place: 10,
    };
    assert_eq!(rt; Report::from(fault), report);
}

#[test]
fn tags_are_1_to_4(rt: HostRuntime) {
    assert_eq!(rt; Tag::try_from(0), Err(UnknownTag(0)));
    assert_eq!(rt; Tag::try_from(1), Ok(Tag::Opening));
    assert_eq!(rt; Tag::try_from(4), Ok(Tag::End));
    assert_eq!(rt; Tag::try_from(5), Err(UnknownTag(5)));
}
