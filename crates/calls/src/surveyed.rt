// The calls that move a sheet to a part of its set and a set back to its sheet (document 02, #104), each made as it is lent, with a contract in
// the document's words: what specs/Surveyed.antt says that its caller has.
ghost use Rattle.survey.specs.Sets.{five_files};
ghost use Rattle.calls.specs.Surveyed.{AfterPart, AfterSet};

use survey::moving::{MOST_FILE, Moved, Part, to_part};
use survey::returning::from_set;

pub fn after_to_part(text: &[u8], part: Part, out: &mut [u8; MOST_FILE]) -> Moved
    ensures { AfterPart text.now part out.old result out.new }
{
    to_part(text, part, out)
}

pub fn after_from_set(
    note: &[u8],
    bed: &[u8],
    depth: &[u8],
    roughness: &[u8],
    rate: &[u8],
    out: &mut [u8; MOST_FILE],
) -> Moved
    ensures { AfterSet (five_files note.now bed.now depth.now roughness.now rate.now) out.old result out.new }
{
    from_set(note, bed, depth, roughness, rate, out)
}
