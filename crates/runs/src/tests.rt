// Worked cases of the table of runs.
use crate::{Link, TableFault, table_of_runs};
use faults::Report;
use std::test::Fail;
use weights::days::Days;
use weights::seconds::Seconds;

// What the lists hold before a call.
const OLD: Seconds = Seconds(Some(77));

fn link(from: u8, to: u8) -> Link {
    Link { from, to }
}

fn days(mask: u8) -> Result<Days, Fail> {
    Days::try_from(mask).map_err(|_| Fail::new("no mask of weekdays"))
}

// A loop at event 1 that gains 5, and links between events 0 and 1 that gain nothing.
fn gaining_links() -> ([Link; 3], [Seconds; 3]) {
    (
        [link(0, 1), link(1, 0), link(1, 1)],
        [Seconds(Some(0)), Seconds(Some(0)), Seconds(Some(5))],
    )
}

#[test]
fn two_links_are_too_few_to_gain_from_event_0(rt: HostRuntime) {
    let (links, weights) = gaining_links();
    let mut cells = [OLD; 4];
    let mut spare = [OLD; 2];
    assert_eq!(rt;
        table_of_runs(2, &links, &weights, &mut cells, &mut spare),
        Err(TableFault::Gain(1))
    );
    assert_eq!(rt; cells, [Seconds(None); 4]);
    assert_eq!(rt; spare, [Seconds(None); 2]);
}

#[test]
fn three_links_gain_from_event_0(rt: HostRuntime) {
    let (links, weights) = gaining_links();
    let mut cells = [OLD; 9];
    let mut spare = [OLD; 3];
    assert_eq!(rt;
        table_of_runs(3, &links, &weights, &mut cells, &mut spare),
        Err(TableFault::Gain(0))
    );
    assert_eq!(rt; cells, [Seconds(None); 9]);
    assert_eq!(rt; spare, [Seconds(None); 3]);
}

#[test]
fn no_events_and_33_are_refused(rt: HostRuntime) {
    let mut cells = [OLD; 1];
    let mut spare = [OLD; 1];
    assert_eq!(rt;
        table_of_runs(0, &[link(9, 9)], &[OLD], &mut cells, &mut spare),
        Err(TableFault::EventCount)
    );
    assert_eq!(rt;
        table_of_runs(33, &[], &[], &mut cells, &mut spare),
        Err(TableFault::EventCount)
    );
    assert_eq!(rt; cells, [OLD; 1]);
    assert_eq!(rt; spare, [OLD; 1]);
}

#[test]
fn an_event_not_below_n_is_refused_before_a_wrong_length(rt: HostRuntime) {
    let mut cells = [OLD; 3];
    let mut spare = [OLD; 2];
    assert_eq!(rt;
        table_of_runs(2, &[link(0, 1), link(1, 2)], &[OLD], &mut cells, &mut spare),
        Err(TableFault::Event)
    );
    assert_eq!(rt; cells, [OLD; 3]);
    assert_eq!(rt; spare, [OLD; 2]);
}

#[test]
fn a_list_of_wrong_length_is_refused_before_a_wide_span(rt: HostRuntime) {
    let wide = Seconds(Some(2_000_000_000));
    let mut cells = [OLD; 4];
    let mut spare = [OLD; 1];
    assert_eq!(rt;
        table_of_runs(2, &[link(0, 1)], &[wide], &mut cells, &mut spare),
        Err(TableFault::Length)
    );
    assert_eq!(rt; cells, [OLD; 4]);
    assert_eq!(rt; spare, [OLD; 1]);
}

#[test]
fn at_most_128_links_are_taken(rt: HostRuntime) {
    let mut cells = [OLD; 1];
    let mut spare = [OLD; 1];
    let start = Seconds(Some(0));
    assert_eq!(rt;
        table_of_runs(1, &[link(0, 0); 129], &[start; 129], &mut cells, &mut spare),
        Err(TableFault::Length)
    );
    assert_eq!(rt; cells, [OLD; 1]);
    assert_eq!(rt;
        table_of_runs(1, &[link(0, 0); 128], &[start; 128], &mut cells, &mut spare),
        Ok(())
    );
    assert_eq!(rt; cells, [start; 1]);
    assert_eq!(rt; spare, [Seconds(None); 1]);
}

#[test]
fn a_weight_of_span_2_is_refused_before_a_gain(rt: HostRuntime) {
    let mut cells = [OLD; 1];
    let mut spare = [OLD; 1];
    let widest = Seconds(Some(1_073_741_824));
    let wider = Seconds(Some(1_073_741_825));
    assert_eq!(rt;
        table_of_runs(1, &[link(0, 0)], &[wider], &mut cells, &mut spare),
        Err(TableFault::Span)
    );
    assert_eq!(rt; cells, [OLD; 1]);
    assert_eq!(rt; spare, [OLD; 1]);
    assert_eq!(rt;
        table_of_runs(1, &[link(0, 0)], &[widest], &mut cells, &mut spare),
        Err(TableFault::Gain(0))
    );
    assert_eq!(rt; cells, [Seconds(None); 1]);
}

#[test]
fn one_event_without_links_has_its_empty_run(rt: HostRuntime) {
    let mut cells = [OLD; 1];
    let mut spare = [OLD; 1];
    assert_eq!(rt; table_of_runs(1, &[], &[], &mut cells, &mut spare), Ok(()));
    assert_eq!(rt; cells, [Seconds(Some(0)); 1]);
    assert_eq!(rt; spare, [Seconds(None); 1]);
}

#[test]
fn the_larger_of_two_ways_is_chosen(rt: HostRuntime) {
    // 0 to 1 in 5 seconds, 1 to 2 in 6, 0 to 2 at once, and back to 0 with 20 to spare
    let links = [link(0, 1), link(1, 2), link(0, 2), link(2, 0)];
    let weights = [
        Seconds(Some(5)),
        Seconds(Some(6)),
        Seconds(Some(0)),
        Seconds(Some(-20)),
    ];
    let mut cells = [OLD; 9];
    let mut spare = [OLD; 3];
    assert_eq!(rt;
        table_of_runs(3, &links, &weights, &mut cells, &mut spare),
        Ok(())
    );
    assert_eq!(rt;
        cells,
        [
            Seconds(Some(0)),
            Seconds(Some(5)),
            Seconds(Some(11)),
            Seconds(Some(-14)),
            Seconds(Some(0)),
            Seconds(Some(6)),
            Seconds(Some(-20)),
            Seconds(Some(-15)),
            Seconds(Some(0)),
        ]
    );
    assert_eq!(rt; spare, [Seconds(None); 3]);
}

#[test]
fn a_run_has_the_days_that_all_its_links_have(rt: HostRuntime) -> Result<(), Fail> {
    // 0 to 1 on weekdays, 1 to 2 from Thursday on, 0 to 2 on Sundays
    let weekdays = days(0b001_1111)?;
    let from_thursday = days(0b111_1000)?;
    let sunday = days(0b100_0000)?;
    let none = days(0)?;
    let every = days(127)?;
    let mut cells = [every; 9];
    let mut spare = [every; 3];
    assert_eq!(rt;
        table_of_runs(
            3,
            &[link(0, 1), link(1, 2), link(0, 2)],
            &[weekdays, from_thursday, sunday],
            &mut cells,
            &mut spare,
        ),
        Ok(())
    );
    let thursday_friday_sunday = days(0b101_1000)?;
    assert_eq!(rt;
        cells,
        [
            every,
            weekdays,
            thursday_friday_sunday,
            none,
            every,
            from_thursday,
            none,
            none,
            every,
        ]
    );
    assert_eq!(rt; spare, [none; 3]);
    Ok(())
}

#[test]
fn a_fault_reports_its_layer_number_and_place(rt: HostRuntime) {
    assert_eq!(rt; Report::from(TableFault::EventCount).number, 3);
    assert_eq!(rt; Report::from(TableFault::Event).number, 6);
    assert_eq!(rt; Report::from(TableFault::Length).number, 18);
    assert_eq!(rt; Report::from(TableFault::Span).number, 22);
    let gain = Report::from(TableFault::Gain(4));
    assert_eq!(rt; gain.number, 23);
    assert_eq!(rt; gain.place, 4);
    assert_eq!(rt; gain.layer, faults::Layer::Table);
}
