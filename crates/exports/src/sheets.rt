// A sheet's text read into rooms, and what `meadow` prints of one.
ghost use Rattle.std.specs.Prelude.{◌≡◌, [], ◌∷◌, length};
ghost use Rattle.sheet.specs.Sheet.{rooms};
ghost use Rattle.exports.specs.Numbers.{heading_size, line_size};
ghost use Rattle.exports.specs.Sheets.{ExportsMeadow, ExportsRead, heading_in, sheet_line, sheet_number};

use crate::answers::put_heading;
use crate::sizes::{HEADING_NUMBERS, LINE_NUMBERS, NOT_ITS_SIZE};
use programs::limits::OUT_ROOM;
use programs::meadow::meadow_of;
use sheet::reading::{Sheet, read};
use text::writing::put_word;

// A sheet's number; its heading, where it was read, and the line of its refusal go into the slices.
fn tell_sheet(sheet: Sheet, heading: &mut [u64], line: &mut [u64]) -> u32
    requires { (length heading.old ≡ heading_size) × (length line.old ≡ line_size) }
    ensures { (result ≡ sheet_number sheet) × (heading.new ≡ heading_in sheet heading.old) × (line.new ≡ sheet_line sheet ∷ []) }
{
    match sheet {
        Sheet::Refused(number, at) => {
            line[0] = at as u64;
            number
        }
        Sheet::Read(read) => {
            put_heading(read, heading);
            line[0] = 0;
            0
        }
    }
}

// Reads a sheet into rooms.
pub fn flood_read_sheet(
    text: &[u8],
    marks: &mut [u8],
    beds: &mut [u32],
    roughness: &mut [u32],
    rates: &mut [u32],
    depths: &mut [u32],
    rain: &mut [u32],
    inflow: &mut [u32],
    heading: &mut [u64],
    line: &mut [u64],
) -> u32
    ensures { ExportsRead text.now (rooms marks.old beds.old roughness.old rates.old depths.old rain.old inflow.old) heading.old line.old result (rooms marks.new beds.new roughness.new rates.new depths.new rain.new inflow.new) heading.new line.new }
{
    if heading.len() != HEADING_NUMBERS {
        return NOT_ITS_SIZE;
    }
    if line.len() != LINE_NUMBERS {
        return NOT_ITS_SIZE;
    }
    let sheet = read(text, marks, beds, roughness, rates, depths, rain, inflow);
    tell_sheet(sheet, heading, line)
}

// What `meadow` prints of a text, at the start of out, and its length; 0 and nothing where out is shorter than what always suffices.
pub fn flood_meadow(text: &[u8], out: &mut [u8]) -> usize
    ensures { ExportsMeadow text.now out.old result out.new }
{
    if out.len() < OUT_ROOM {
        return 0;
    }
    let mut printed = [0u8; OUT_ROOM];
    let bytes = meadow_of(text, &mut printed);
    put_word(out, 0, &printed[..bytes])
}
