// The arcs of a net, with what each weighs.
ghost use Rattle.std.specs.Prelude.{◌<◌, ◌≤◌, length};
ghost use Rattle.std.specs.List.{All};
ghost use Rattle.circuits.specs.Weighed.{GoesBelow, IsModest};

use crate::Arc;

// An arc, with what it weighs.
#[derive(Clone, Copy, Default)]
pub(crate) struct WeighedArc {
    pub arc: Arc,
    pub weight: i64,
}

// A net of weighed arcs between so many events: at most 128 arcs, at most 32 events, and no weight above 2 ^ 40 either way.
#[derive(Clone, Copy)]
pub(crate) struct WeighedNet<'a> {
    pub events: usize,
    pub arcs: &'a [WeighedArc],
    ghost some: { 0 < events },
    ghost few: { events ≤ 32 },
    ghost count: { length arcs.now ≤ 128 },
    ghost within: { All (GoesBelow events) arcs.now },
    ghost modest: { All IsModest arcs.now },
}
