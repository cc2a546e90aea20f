// The bytes of a board file: its fields, the records in them, and why a file is refused. Each layer's fault holds that of the
// layer below whole.
#![tactic(auto)]

ghost use Rattle.std.specs.Prelude.{◌≡◌, ◌≢◌, length, map, IfOk, IfErr};
ghost use Rattle.board_file.specs.declared.RecordFault.TheVariants.{Frame as FrameCase, Length as LengthCase};
ghost use Rattle.board_file.specs.declared.LoadFault.TheVariants.{Record as RecordCase};
ghost use Rattle.board_file.specs.Faults.{frame_report, record_report, LoadReported};
ghost use Rattle.board_file.specs.Numbers.{four_at};
ghost use Rattle.board_file.specs.Tags.{tag_of};
ghost use Rattle.board_file.specs.Frames.{framed, field_at, end_at};
ghost use Rattle.board_file.specs.Records.{opening_of, opening_at, departures_of, departures_at, departures_reply, departures_after, addition_of, entry_at};

use faults::{Layer, Report};
use timetable::Addition;

// The bytes of a field before its body.
pub const HEADER: usize = 3;

// The bytes of an opening record's body, of one departure, and of an addition's body.
pub const OPENING_LENGTH: usize = 7;

pub const DEPARTURE_LENGTH: usize = 4;

pub const ADDITION_LENGTH: usize = 7;

// The tags of the records, in the order in which they stand in a file.
#[derive(Clone, Copy, PartialEq, Eq, Debug)]
pub enum Tag {
    Opening,
    Departures,
    Addition,
    End,
}

// A byte that is no tag.
#[derive(Clone, Copy, PartialEq, Eq, Debug)]
pub struct UnknownTag(pub u8);

// A field of a file: where its tag stands, its tag's byte, which may be that of no tag, and its body.
#[derive(Clone, Copy)]
pub struct Field<'a> {
    pub place: usize,
    pub tag: u8,
    pub body: &'a [u8],
}

// Why the bytes do not fall into fields: a field runs past the end or is missing, or bytes follow the last field.
#[derive(Clone, Copy, PartialEq, Eq, Debug)]
pub enum FrameFault {
    PastEnd(usize),
    Trailing(usize),
}

// Why a field is no record that is due: it is no field, its tag is not due, or its body has a wrong length.
#[derive(Clone, Copy, PartialEq, Eq, Debug)]
pub enum RecordFault {
    Frame(FrameFault),
    Tag(usize),
    Length(usize),
}

// Why a file is not loaded: a field is no record that is due, or whoever performs the record at a place refuses it.
#[derive(Clone, Copy, PartialEq, Eq, Debug)]
pub enum LoadFault<F> {
    Record(RecordFault),
    Judged { place: usize, fault: F },
}

// The first record of a file: the mark of its timetable, the number of events, and the period.
#[derive(Clone, Copy, PartialEq, Eq, Debug)]
pub struct OpeningRecord {
    pub mark: u16,
    pub events: u8,
    pub period: u32,
}

// What follows the departures: an addition to the table, or the end. It is no `Option`, since a further tag is a further case.
#[derive(Clone, Copy, PartialEq, Eq, Debug)]
pub enum Entry {
    Add(Addition),
    End,
}

impl TryFrom<u8> for Tag {
    type Error = UnknownTag;

    ghost try_from_gives = { λ byte tag. tag ≡ tag_of byte };

    fn try_from(byte: u8) -> Result<Tag, UnknownTag> {
        match byte {
            1 => Ok(Tag::Opening),
            2 => Ok(Tag::Departures),
            3 => Ok(Tag::Addition),
            4 => Ok(Tag::End),
            _ => Err(UnknownTag(byte)),
        }
    }
}

impl From<FrameFault> for RecordFault {
    ghost from_gives = { λ e r. r ≡ FrameCase e };

    fn from(e: FrameFault) -> RecordFault {
        RecordFault::Frame(e)
    }
}

impl<F> From<RecordFault> for LoadFault<F> {
    ghost from_gives = { λ e r. r ≡ RecordCase e };

    fn from(e: RecordFault) -> LoadFault<F> {
        LoadFault::Record(e)
    }
}

impl<F> From<FrameFault> for LoadFault<F> {
    ghost from_gives = { λ e r. r ≡ RecordCase (FrameCase e) };

    fn from(e: FrameFault) -> LoadFault<F> {
        LoadFault::Record(RecordFault::from(e))
    }
}

// The fault's layer, number and place.
impl From<FrameFault> for Report {
    ghost from_gives = { λ fault report. report ≡ frame_report fault };

    fn from(fault: FrameFault) -> Report {
        let (number, place) = match fault {
            FrameFault::PastEnd(place) => (24, place),
            FrameFault::Trailing(place) => (27, place),
        };
        Report {
            layer: Layer::Frame,
            number,
            place,
        }
    }
}

// The fault's layer, number and place.
impl From<RecordFault> for Report {
    ghost from_gives = { λ fault report. report ≡ record_report fault };

    fn from(fault: RecordFault) -> Report {
        let (number, place) = match fault {
            RecordFault::Frame(fault) => return Report::from(fault),
            RecordFault::Tag(place) => (25, place),
            RecordFault::Length(place) => (26, place),
        };
        Report {
            layer: Layer::Record,
            number,
            place,
        }
    }
}

// The layer, number and place of a load's fault: a fault of whoever performs the record keeps its layer and number, and has the
// place of the record's tag.
impl<F: Into<Report>> From<LoadFault<F>> for Report {
    ghost from_gives = { λ fault report. LoadReported F.converts fault report };

    fn from(fault: LoadFault<F>) -> Report {
        match fault {
            LoadFault::Record(fault) => Report::from(fault),
            LoadFault::Judged { place, fault } => Report {
                place,
                ..fault.into()
            },
        }
    }
}

impl<'a> Field<'a> {
    // The body, which has to have a length: a fault at the tag where it has not.
    fn exact_body<const N: usize>(&self) -> Result<&'a [u8; N], RecordFault>
        ensures whole { IfOk result (λ body. (body.now ≡ self.now.body.now) × (length self.now.body.now ≡ N)) }
        ensures fault { IfErr result (λ fault. (fault ≡ LengthCase self.now.place) × (length self.now.body.now ≢ N)) }
    {
        self.body.as_array().ok_or(RecordFault::Length(self.place))
    }
}

// The field whose tag stands at `place`, or the fault that the file ends before the field does.
pub fn field_at(bytes: &[u8], place: usize) -> Result<Field<'_>, FrameFault>
    ensures { framed result ≡ field_at bytes.now place }
{
    let past_end = FrameFault::PastEnd(place);
    let field = bytes.get(place..).ok_or(past_end)?;
    let (header, behind) = field.split_first_chunk::<HEADER>().ok_or(past_end)?;
    let [tag, high, low] = *header;
    let length = usize::from(u16::from_be_bytes([high, low]));
    let body = behind.get(..length).ok_or(past_end)?;
    Ok(Field { place, tag, body })
}

// Whether the file ends at `place`: bytes behind the last field are a fault.
pub fn read_end(bytes: &[u8], place: usize) -> Result<(), FrameFault>
    ensures { result ≡ end_at bytes.now place }
{
    if place == bytes.len() {
        Ok(())
    } else {
        Err(FrameFault::Trailing(place))
    }
}

// The opening record in its body.
fn opening_of(body: &[u8; OPENING_LENGTH]) -> OpeningRecord
    ensures { result ≡ opening_of body.now }
{
    let [high, low, events, first, second, third, fourth] = *body;
    OpeningRecord {
        mark: u16::from_be_bytes([high, low]),
        events,
        period: u32::from_be_bytes([first, second, third, fourth]),
    }
}

// The opening record, in the field with tag 1 at the file's start.
pub fn read_opening(bytes: &[u8]) -> Result<OpeningRecord, RecordFault>
    ensures { result ≡ opening_at bytes.now 0 }
{
    let field = field_at(bytes, 0)?;
    let Ok(Tag::Opening) = Tag::try_from(field.tag) else {
        return Err(RecordFault::Tag(field.place));
    };
    Ok(opening_of(field.exact_body()?))
}

// Writes the departures, each from its four bytes.
fn fill_departures(bodies: &[[u8; DEPARTURE_LENGTH]], departures: &mut [u32])
    requires { length bodies.now ≡ length departures.old }
    ensures { departures.new ≡ map (λ body. four_at body 0) bodies.now }
{
    // The index is `enumerate`'s, since nothing is known of what a loop over a `zip` of `iter_mut` writes.
    for (i, departure) in departures.iter_mut().enumerate() {
        *departure = u32::from_be_bytes(bodies[i]);
    }
}

// The departures, in the field with tag 2 at `place`: as many as the slice has places, which is left as it was where the field
// is none that is due.
#[tactic(auto, using(crate::proofs::Departures::departures_in_chunks))]
pub fn read_departures(
    bytes: &[u8],
    place: usize,
    departures: &mut [u32],
) -> Result<(), RecordFault>
    ensures reply { result ≡ departures_reply (departures_at (length departures.old) bytes.now place) }
    ensures after { departures.new ≡ departures_after (departures_at (length departures.old) bytes.now place) departures.old }
{
    let field = field_at(bytes, place)?;
    let Ok(Tag::Departures) = Tag::try_from(field.tag) else {
        return Err(RecordFault::Tag(field.place));
    };
    match field.body.as_chunks::<DEPARTURE_LENGTH>() {
        (bodies, []) if bodies.len() == departures.len() => {
            fill_departures(bodies, departures);
            Ok(())
        }
        _ => Err(RecordFault::Length(field.place)),
    }
}

// The addition in its body.
fn addition_of(body: &[u8; ADDITION_LENGTH]) -> Addition
    ensures { result ≡ addition_of body.now }
{
    let [from, to, high, low, tokens, days, letter] = *body;
    Addition {
        from,
        to,
        time: u16::from_be_bytes([high, low]),
        tokens,
        days,
        letter,
    }
}

// The addition in a field with tag 3, or the end, which is a field with tag 4 and no body.
pub fn read_entry(bytes: &[u8], place: usize) -> Result<Entry, RecordFault>
    ensures { result ≡ entry_at bytes.now place }
{
    let field = field_at(bytes, place)?;
    match Tag::try_from(field.tag) {
        Ok(Tag::Addition) => Ok(Entry::Add(addition_of(field.exact_body()?))),
        Ok(Tag::End) => field.exact_body::<0>().map(|_| Entry::End),
        _ => Err(RecordFault::Tag(field.place)),
    }
}

#[cfg(test)]
mod tests;
