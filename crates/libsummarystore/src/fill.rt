// Bytes that go out to C.
ghost use Rattle.std.specs.Prelude.{◌≡◌, ◌≤◌, length, min, take};

/// Puts a text into the room, as much of it as fits, and answers how many bytes these are.
pub fn fill(text: &[u8], room: &mut [u8]) -> usize
    ensures count { result ≡ min (length text.now) (length room.old) }
    ensures length { length room.new ≡ length room.old }
    ensures bytes { take result room.new ≡ take result text.now }
{
    let count = text.len().min(room.len());
    room[..count].copy_from_slice(&text[..count]);
    count
}
