// The run value, and the answer of a call that gives one.
ghost use Rattle.ledger.specs.Runs.{RunJudged};

// clock and length are in ms; outflow and soaked are in µm over one square; kept and newest are of the ring of records.
#[derive(Clone, Copy)]
pub struct Run {
    pub clock: u64,
    pub length: u64,
    pub outflow: u64,
    pub kept: usize,
    pub newest: usize,
    pub soaked: u64,
}

#[derive(Clone, Copy)]
pub enum Answer {
    Done(Run),
    Refused(u32),
}

// Refusal 6: K is not 0, and the run value is in range.
pub fn run_fine(k: usize, run: Run) -> bool
    ensures { RunJudged k run result }
{
    if !trials::ring_fine(k, run.kept, run.newest) {
        return false;
    }
    if reckon::ranges::LAST_CLOCK < run.clock {
        return false;
    }
    if run.length < 1 {
        return false;
    }
    if reckon::ranges::MOST_LENGTH < run.length {
        return false;
    }
    if reckon::ranges::MOST_OUTFLOW < run.outflow {
        return false;
    }
    run.soaked <= reckon::ranges::MOST_SOAKED
}
