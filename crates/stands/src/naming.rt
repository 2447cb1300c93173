// The lines of the hatches, each at most once and by rising number.
ghost use Rattle.std.specs.Prelude.{◌≡◌, List, ℕ, ◌<◌};
ghost use Rattle.hatches.specs.Log.{most_hatches};
ghost use Rattle.stands.specs.Laying.{named_from, with_hatch};

use hatches::log::{Hatches, MOST_HATCHES};
use text::reading::line_of;

// The hatches named, the litres that each runs at, how many lines they have, and where the line after them starts.
#[derive(Clone, Copy)]
pub(crate) struct Named {
    pub(crate) hatches: Hatches,
    pub(crate) litres: [u32; 9],
    pub(crate) lines: usize,
    pub(crate) next: usize,
}

// No hatch is named yet.
fn none_named(at: usize) -> Named
    ensures { (s : List ℕ) → result ≡ named_from s at 0 }
{
    Named {
        hatches: Hatches {
            named: [false; 9],
            rows: [0; 9],
            columns: [0; 9],
        },
        litres: [0; 9],
        lines: 0,
        next: at,
    }
}

// `hatch` number row column litres.
const HATCH_FIELDS: usize = 4;

// The hatch of one place named, where the next line says so.
fn with_hatch(text: &[u8], so_far: Named, hatch: usize) -> Named
    requires { (hatch < most_hatches) × (so_far.lines < most_hatches) }
    ensures { result ≡ with_hatch text.now so_far hatch }
{
    let Some(line) = line_of(text, so_far.next, b"hatch", HATCH_FIELDS) else {
        return so_far;
    };
    let values = line.values;
    if values[0] as usize != hatch + 1 {
        return so_far;
    }
    let mut hatches = so_far.hatches;
    hatches.named[hatch] = true;
    hatches.rows[hatch] = values[1];
    hatches.columns[hatch] = values[2];
    let mut litres = so_far.litres;
    litres[hatch] = values[3];
    Named {
        hatches: hatches,
        litres: litres,
        lines: so_far.lines + 1,
        next: line.next,
    }
}

// All hatches that are named from a position on.
pub(crate) fn read_hatches(text: &[u8], at: usize) -> Named
    ensures { result ≡ named_from text.now at most_hatches }
{
    let mut named = none_named(at);
    for hatch in 0..MOST_HATCHES {
        named = with_hatch(text, named, hatch);
    }
    named
}
