// Whether two are the same.
use crate::meadow::Meadow;

// The same run, depths and last leavings, but for the records kept.
pub(crate) fn same_state(a: Meadow, b: Meadow) -> bool {
    a.run.clock == b.run.clock
        && a.run.length == b.run.length
        && a.run.outflow == b.run.outflow
        && a.run.soaked == b.run.soaked
        && a.run.newest == b.run.newest
        && a.depths == b.depths
        && a.lasts == b.lasts
}

// All that a call could write is as it was.
pub(crate) fn as_it_was(a: Meadow, b: Meadow) -> bool {
    a.run.kept == b.run.kept && same_state(a, b) && a.records == b.records
}
