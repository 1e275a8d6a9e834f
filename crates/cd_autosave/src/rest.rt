ghost use Rattle.std.specs.Prelude.{◌≡◌, ◌≤◌, ◌+◌, ◌++◌, length, vec_len};
ghost use Rattle.std.specs.Vec.{vec_capacity};
ghost use Rattle.cd_autosave.specs.Image.{rest_of};

use cd_outside::MAX_KEPT_BYTES;

// Adds bytes for which there is room.
fn place(room: &mut Vec<u8>, bytes: &[u8])
    requires { vec_len room.old + length bytes.now ≤ vec_capacity room.old }
    ensures items { room.new.items ≡ room.old.items ++ bytes.now }
    ensures len { vec_len room.new ≡ vec_len room.old + length bytes.now }
    ensures capacity { vec_capacity room.old ≤ vec_capacity room.new }
{
    match room.extend_from_slice(bytes) {
        Ok(()) => {}
        Err(_) => unreachable!(),
    }
}

// Puts what a slot has after its gate, the number, the length and the text, into the room.
pub fn put_rest(room: &mut Vec<u8>, number: u64, text: &[u8])
    requires short { length text.now ≤ MAX_KEPT_BYTES }
    requires room { 12 + MAX_KEPT_BYTES ≤ vec_capacity room.old }
    ensures rest { room.new.items ≡ rest_of (record { number = number; text = text.now }) }
    ensures room { vec_capacity room.old ≤ vec_capacity room.new }
{
    room.clear();
    place(room, &number.to_be_bytes());
    place(room, &(text.len() as u32).to_be_bytes());
    place(room, text);
}
