// The rows of a table of runs over a net whose links have weights, round by round.
ghost use Rattle.std.specs.Prelude.{◌≡◌, ◌≢◌, ℕ, ◌+◌, ◌*◌, ◌<◌, ◌≤◌, ◌==◌, length, None};
ghost use Rattle.std.specs.Int.{bit_at};
ghost use Rattle.std.specs.List.{AllByRecursion};
ghost use Rattle.weights.specs.Kinds.{gains};
ghost use Rattle.runs.specs.Runs.{cell};
ghost use Rattle.runs.specs.Gaining.{gaining_event};
ghost use Rattle.runs.specs.Links.{net_of, at};
ghost use Rattle.runs.specs.Rounds.{seed, arrive, Fit, Brought, Grown, Departing};
ghost use Rattle.std.proofs.Props.{props};

use crate::Link;
use weights::Weight;

// The chaining of two weights whose spans leave room.
fn chained<W: Weight>(a: W, b: W) -> W
    requires { W.kind.span (W.meaning a) + W.kind.span (W.meaning b) ≤ 32 }
    ensures { W.meaning result ≡ W.kind.chaining (W.meaning a) (W.meaning b) }
{
    a.chain(b).unwrap()
}

// Whether a weight gains.
fn does_gain<W: Weight>(w: W) -> bool
    ensures { result ≡ gains W.kind (W.meaning w) }
{
    !w.choose(W::start()).same(W::start())
}

// Writes none everywhere.
pub(crate) fn clear<W: Weight>(weights: &mut [W])
    ensures { (t : ℕ) → at W.kind W.meaning weights.new t ≡ W.kind.none }
{
    // `fill` asks for a clone that can't fail, and a kind of weight promises nothing of a clone
    for w in weights.iter_mut() {
        *w = W::none();
    }
}

// What the empty run gives the cell (i, j).
fn empty_run<W: Weight>(i: usize, j: usize) -> W
    ensures { W.meaning result ≡ seed W.kind i j }
{
    if i == j { W::start() } else { W::none() }
}

// Writes into row `i` what the empty run gives.
fn seed_row<W: Weight>(i: usize, row: &mut [W])
    ensures { (j : ℕ) → j < length row.old → at W.kind W.meaning row.new j ≡ seed W.kind i j }
{
    for (j, cell) in row.iter_mut().enumerate() {
        *cell = empty_run(i, j);
    }
}

// A set of events below 32, a bit for each.
#[derive(Clone, Copy)]
struct Events(u32);

impl Events {
    // The set of one event, which is empty where that event isn't below 32.
    fn only(event: usize) -> Events
        ensures added { event < 32 → bit_at result.0 event ≡ 1 }
        ensures others { (e : ℕ) → e ≢ event → bit_at result.0 e ≡ 0 }
    {
        if event < 32 {
            Events(1 << event)
        } else {
            Events(0)
        }
    }

    fn is_empty(self) -> bool
        ensures { result ≡ (self.0 == 0) }
    {
        self.0 == 0
    }

    fn has(self, event: usize) -> bool
        requires { event < 32 }
        ensures { result ≡ (bit_at self.0 event == 1) }
    {
        self.0 >> event & 1 == 1
    }

    fn add(&mut self, event: usize)
        requires { event < 32 }
        ensures added { bit_at self.new.0 event ≡ 1 }
        ensures others { (e : ℕ) → e ≢ event → bit_at self.new.0 e ≡ bit_at self.old.0 e }
    {
        self.0 |= 1 << event;
    }
}

// The links from each event, last first. A link goes by its number plus one, and 0 stands for none: `last` has the last link from each
// event, and `earlier`, for each link, the one before it from the same event.
#[derive(Drop)]
pub(crate) struct Departures {
    last: [u8; 32],
    earlier: [u8; 128],
}

impl Departures {
    // The links from each event.
    pub(crate) fn of(links: &[Link]) -> Departures
        requires few { length links.now ≤ 128 }
        requires within { AllByRecursion (λ l. l.from < 32) links.now }
        ensures { Departing links.now result.last result.earlier }
    {
        let mut last = [0; 32];
        let mut earlier = [0; 128];
        for (number, link) in links.iter().enumerate() {
            let from = usize::from(link.from);
            earlier[number] = last[from];
            last[from] = number as u8 + 1;
        }
        Departures { last, earlier }
    }
}

// Links between events, with a weight of span at most 1 for each.
#[derive(Drop)]
pub(crate) struct WeightedNet<'a, W: Weight> {
    pub(crate) events: usize,
    pub(crate) links: &'a [Link],
    pub(crate) weights: &'a [W],
    pub(crate) departures: Departures,
    ghost few: { events ≤ 32 },
    ghost departing: { Departing links.now departures.last departures.earlier },
    ghost fit: { Fit W.kind W.meaning events links.now weights.now } by { Prim.hlevel props },
}

// What reaches each event of a net, with room for one more link.
#[derive(Drop)]
struct Reached<'a, W: Weight> {
    net: &'a WeightedNet<'a, W>,
    weights: &'a [W],
    ghost side: { length weights.now ≡ net.now.events },
    ghost room: { AllByRecursion (λ w. W.kind.span (W.meaning w) ≤ 31) weights.now } by { Prim.hlevel props },
}

impl<'a, W: Weight> Reached<'a, W> {
    // Chooses, at the second event of each link from `from`, between the cell in the row and what reaches `from`, chained with the
    // link, and adds the events whose cells change.
    fn extend_from(&self, from: usize, row: &mut [W], changed: &mut Events)
        requires inside { from < self.now.net.now.events }
        requires side { length row.old ≡ self.now.net.now.events }
        ensures grown { Grown W.kind (net_of self.now.net.now.links.now) (at W.kind W.meaning self.now.net.now.weights.now) (at W.kind W.meaning self.now.weights.now) (at W.kind W.meaning row.old) (at W.kind W.meaning row.new) }
        ensures brought { (l : ℕ) → l < length self.now.net.now.links.now → (net_of self.now.net.now.links.now).from l ≡ from → Brought W.kind (net_of self.now.net.now.links.now) (at W.kind W.meaning self.now.net.now.weights.now) (at W.kind W.meaning self.now.weights.now) (at W.kind W.meaning row.new) l }
        ensures kept { (j : ℕ) → bit_at changed.new.0 j ≡ 0 → (bit_at changed.old.0 j ≡ 0) × (at W.kind W.meaning row.new j ≡ at W.kind W.meaning row.old j) }
    {
        let reaching = self.weights[from];
        let mut next = usize::from(self.net.departures.last[from]);
        while next > 0 {
            let number = next - 1;
            let to = usize::from(self.net.links[number].to);
            let chosen = row[to].choose(chained(reaching, self.net.weights[number]));
            if !chosen.same(row[to]) {
                row[to] = chosen;
                changed.add(to);
            }
            next = usize::from(self.net.departures.earlier[number]);
        }
    }

    // Chooses, at the second event of each link, between the cell in the row and what reaches its first event, chained with the
    // link, and answers the events whose cells change. It goes over the links from recent events only: what another brings is in the row.
    fn extend(&self, row: &mut [W], recent: Events) -> Events
        requires side { length row.old ≡ self.now.net.now.events }
        requires brought { (l : ℕ) → l < length self.now.net.now.links.now → bit_at recent.0 ((net_of self.now.net.now.links.now).from l) ≡ 0 → Brought W.kind (net_of self.now.net.now.links.now) (at W.kind W.meaning self.now.net.now.weights.now) (at W.kind W.meaning self.now.weights.now) (at W.kind W.meaning row.old) l }
        ensures row { (j : ℕ) → at W.kind W.meaning row.new j ≡ W.kind.choice (at W.kind W.meaning row.old j) (arrive W.kind (net_of self.now.net.now.links.now) (at W.kind W.meaning self.now.net.now.weights.now) (at W.kind W.meaning self.now.weights.now) j (net_of self.now.net.now.links.now).links) }
        ensures kept { (j : ℕ) → bit_at result.0 j ≡ 0 → at W.kind W.meaning row.new j ≡ at W.kind W.meaning row.old j }
    {
        let mut changed = Events(0);
        for from in 0..self.net.events {
            if recent.has(from) {
                self.extend_from(from, row, &mut changed);
            }
        }
        changed
    }

    // The choice over the links to `j`, each chained behind what reaches its first event. In a fold, a closure would have to justify the
    // chaining for any weights.
    #[tactic(auto, using(crate::proofs::Turns::link_ends))]
    fn closed_choice(&self, j: usize) -> W
        ensures { W.meaning result ≡ arrive W.kind (net_of self.now.net.now.links.now) (at W.kind W.meaning self.now.net.now.weights.now) (at W.kind W.meaning self.now.weights.now) j (net_of self.now.net.now.links.now).links }
    {
        let mut best = W::none();
        for (link, weight) in self.net.links.iter().zip(self.net.weights) {
            if usize::from(link.to) == j {
                best = best.choose(chained(self.weights[usize::from(link.from)], *weight));
            }
        }
        best
    }
}

impl<'a, W: Weight> WeightedNet<'a, W> {
    // Writes into row `i` the choice over the runs of fewer links than there are events, a round for each, and ends early where a
    // round changes nothing. `before` holds the row of the round before, and in the end the same row; `recent` has the events whose
    // cells changed in the last round.
    fn fill_row(&self, i: usize, row: &mut [W], before: &mut [W])
        requires side { length row.old ≡ self.now.events }
        requires same { length before.old ≡ length row.old }
        ensures row { (j : ℕ) → j < self.now.events → at W.kind W.meaning row.new j ≡ cell W.kind (net_of self.now.links.now) (at W.kind W.meaning self.now.weights.now) self.now.events i j }
        ensures before { (j : ℕ) → j < self.now.events → at W.kind W.meaning before.new j ≡ cell W.kind (net_of self.now.links.now) (at W.kind W.meaning self.now.weights.now) self.now.events i j }
    {
        seed_row(i, row);
        before.copy_from_slice(row);
        let mut recent = Events::only(i);
        for _ in 1..self.events {
            let reached = Reached {
                net: &*self,
                weights: before,
            };
            recent = reached.extend(row, recent);
            if recent.is_empty() {
                return;
            }
            before.copy_from_slice(row);
        }
    }

    // Fills row after row, up to the first event from which a closed run of 1 to so many links as there are events gains. The cells are
    // no part of the net: each method that changes them would owe that the rest of it stays.
    pub(crate) fn fill_rows(&self, cells: &mut [W], spare: &mut [W]) -> Option<usize>
        requires square { length cells.old ≡ self.now.events * self.now.events }
        requires side { length spare.old ≡ self.now.events }
        ensures gain { result ≡ gaining_event W.kind (net_of self.now.links.now) (at W.kind W.meaning self.now.weights.now) self.now.events }
        ensures cells { result ≡ None → (i j : ℕ) → i < self.now.events → j < self.now.events → at W.kind W.meaning cells.new (i * self.now.events + j) ≡ cell W.kind (net_of self.now.links.now) (at W.kind W.meaning self.now.weights.now) self.now.events i j }
    {
        // of rows lent by `chunks_exact_mut` nothing is known once the loan ends
        for i in 0..self.events {
            let row = &mut cells[i * self.events..(i + 1) * self.events];
            self.fill_row(i, row, spare);
            let reached = Reached {
                net: &*self,
                weights: spare,
            };
            if does_gain(reached.closed_choice(i)) {
                return Some(i);
            }
        }
        None
    }
}
