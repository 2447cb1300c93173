// A sheet's text read into rooms, and what `meadow` prints of one, under their plain names.
ghost use Rattle.sheet.specs.Sheet.{rooms};
ghost use Rattle.exports.specs.Sheets.{ExportsMeadow, ExportsRead};

use exports::sheets;

// Reads a sheet into rooms.
#[unsafe(no_mangle)]
pub extern "C" fn flood_read_sheet(
    text: &[u8],
    marks: &mut [u8],
    beds: &mut [u32],
    roughness: &mut [u32],
    rates: &mut [u32],
    depths: &mut [u32],
    rain: &mut [u32],
    inflow: &mut [u32],
    heading: &mut [u64],
    line: &mut [u64],
) -> u32
    ensures { ExportsRead text.now (rooms marks.old beds.old roughness.old rates.old depths.old rain.old inflow.old) heading.old line.old result (rooms marks.new beds.new roughness.new rates.new depths.new rain.new inflow.new) heading.new line.new }
{
    sheets::flood_read_sheet(
        text, marks, beds, roughness, rates, depths, rain, inflow, heading, line,
    )
}

// What `meadow` prints of a text, at the start of out, and its length; 0 and nothing where out is shorter than what always suffices.
#[unsafe(no_mangle)]
pub extern "C" fn flood_meadow(text: &[u8], out: &mut [u8]) -> usize
    ensures { ExportsMeadow text.now out.old result out.new }
{
    sheets::flood_meadow(text, out)
}
