// Numbers copied into a room: the one copy for all crates above.
ghost use Rattle.std.specs.Prelude.{◌+◌, ◌≤◌, length};
ghost use Rattle.reckon.specs.Copying.{Copied};

// Copies all numbers of a list into a room, from a place on; the rest of the room stays.
pub fn copy_into(from: &[u32], room: &mut [u32], at: usize)
    requires { at + length from.now ≤ length room.old }
    ensures { Copied from.now room.old at room.new }
{
    room[at..at + from.len()].copy_from_slice(from);
}
