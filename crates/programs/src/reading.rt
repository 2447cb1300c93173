// A sheet of at most so many bytes.
ghost use Rattle.sheet.specs.Sheet.{rooms};
ghost use Rattle.programs.specs.Reading.{ReadsWithin};

use sheet::reading::{Sheet, read};

// A sheet's text read into lent rooms; one with more bytes than `most` is refused before all else.
pub fn read_within(
    text: &[u8],
    most: usize,
    marks: &mut [u8],
    beds: &mut [u32],
    roughness: &mut [u32],
    rates: &mut [u32],
    depths: &mut [u32],
    rain: &mut [u32],
    inflow: &mut [u32],
) -> Sheet
    ensures { ReadsWithin most text.now (rooms marks.old beds.old roughness.old rates.old depths.old rain.old inflow.old) result (rooms marks.new beds.new roughness.new rates.new depths.new rain.new inflow.new) }
{
    if most < text.len() {
        return Sheet::Refused(12, 0);
    }
    read(text, marks, beds, roughness, rates, depths, rain, inflow)
}
