// Whether an addition would close a token-free circuit: the table of runs in Days decides it.
ghost use Rattle.std.specs.Prelude.{◌≡◌, ℕ, ◌*◌, ◌<◌, ◌≤◌, true, map, length};
ghost use Rattle.weights.specs.DaysKind.{days_of};
ghost use Rattle.runs.specs.Tables.{in_range};
ghost use Rattle.timetable.specs.Words.{link_of, free_days};
ghost use Rattle.board.specs.Circuits.{days_between, closes_circuit};
ghost use Rattle.board.specs.Invariant.{all_in_range};

use crate::{MOST_CELLS, MOST_EVENTS};
use arrayvec::ArrayVec;
use runs::{Link, table_of_runs};
use timetable::{Addition, CAPACITY, Constraint};
use weights::Weight;
use weights::days::Days;

// The link of each constraint, and the days on which it stands or is suspended without a token, both by its number.
fn links_and_days(rows: &[Constraint]) -> (ArrayVec<Link, CAPACITY>, ArrayVec<Days, CAPACITY>)
    requires { length rows.now ≤ 128 }
    ensures links { result.0.items ≡ map link_of rows.now }
    ensures days { map (λ w. days_of w.mask) result.1.items ≡ map free_days rows.now }
{
    let mut links = ArrayVec::new();
    let mut days = ArrayVec::new();
    for row in rows {
        links.push(row.link());
        days.push(row.free_days());
    }
    (links, days)
}

// The days on which token-free constraints, standing or suspended, lead from `i` to `j`. A board may ask for no memory, so the table of
// runs is worked out in arrays that serve every board.
fn days_between(n: usize, rows: &[Constraint], i: usize, j: usize) -> Days
    requires range { in_range n ≡ true }
    requires rows { all_in_range n rows.now ≡ true }
    requires few { length rows.now ≤ 128 }
    requires inside { (i < n) × (j < n) }
    ensures { days_of result.mask ≡ days_between n rows.now i j }
{
    let nothing = Days::none();
    let (links, days) = links_and_days(rows);
    let mut cells = [nothing; MOST_CELLS];
    let mut spare = [nothing; MOST_EVENTS];
    let cells = &mut cells[..n * n];
    let spare = &mut spare[..n];
    table_of_runs(n, links.as_slice(), days.as_slice(), cells, spare).unwrap();
    cells[i * n + j]
}

// Whether an addition whose values are in range would close a token-free circuit with the constraints standing or suspended. The number
// of events and the constraints are two parameters, since a type of both would serve these two functions alone.
pub(crate) fn closes_circuit(n: usize, rows: &[Constraint], addition: &Addition) -> bool
    requires range { in_range n ≡ true }
    requires rows { all_in_range n rows.now ≡ true }
    requires few { length rows.now ≤ 128 }
    requires from { addition.now.from < n }
    requires to { addition.now.to < n }
    requires days { addition.now.days < 128 }
    ensures { result ≡ closes_circuit n rows.now addition.now }
{
    if addition.tokens != 0 {
        return false;
    }
    let back = days_between(
        n,
        rows,
        usize::from(addition.to),
        usize::from(addition.from),
    );
    Days::try_from(addition.days).unwrap().meets(back)
}
