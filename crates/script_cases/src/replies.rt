// Replies as they are printed.
use board::BoardFault;
use board_file::{FrameFault, LoadFault, RecordFault};
use calls::{Answer, CallFault, Reply};
use std::test::Fail;

#[test]
fn replies_are_printed_in_words_and_numbers(rt: HostRuntime) -> Result<(), Fail> {
    let done = Reply(Ok(Answer::Done));
    assert_eq!(rt; format!(in rt.alloc(); "{done}")?.as_str(), "ok");
    let number = Reply(Ok(Answer::Number(4)));
    assert_eq!(rt; format!(in rt.alloc(); "{number}")?.as_str(), "number 4");
    let ticket = Reply(Ok(Answer::Ticket { mark: 7, number: 3 }));
    assert_eq!(rt; format!(in rt.alloc(); "{ticket}")?.as_str(), "ticket 7 3");
    Ok(())
}

#[test]
fn refusals_are_printed_with_layer_number_and_place(rt: HostRuntime) -> Result<(), Fail> {
    let refused = Reply(Err(CallFault::Board(BoardFault::Circuit)));
    assert_eq!(rt;
        format!(in rt.alloc(); "{refused}")?.as_str(),
        "refused board 12 0"
    );
    let cut = LoadFault::Record(RecordFault::Frame(FrameFault::PastEnd(65)));
    let refused = Reply(Err(CallFault::Load(cut)));
    assert_eq!(rt;
        format!(in rt.alloc(); "{refused}")?.as_str(),
        "refused frame 24 65"
    );
    Ok(())
}
