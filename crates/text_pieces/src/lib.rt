// Pieces of a text in bounded room: bytes, and numbers in decimal.
// `write!` has no clause that says when it succeeds, so a text that can't fail is put together from pieces.
#![tactic(auto)]

ghost use Rattle.std.specs.Prelude.{◌≡◌, ◌+◌, ◌≤◌, ◌<◌, ◌++◌, length};
ghost use Rattle.arrayvec.specs.ArrayVec.{array_vec_len};
ghost use Rattle.text_pieces.specs.TextPieces.{decimal_text};

use arrayvec::ArrayVec;

// Appends the bytes, if they have room, and otherwise none of them.
pub fn put<const CAP: usize>(text: &mut ArrayVec<u8, CAP>, bytes: &[u8])
    ensures items { array_vec_len text.old + length bytes.now ≤ CAP → text.new.items ≡ text.old.items ++ bytes.now }
    ensures kept { CAP < array_vec_len text.old + length bytes.now → text.new.items ≡ text.old.items }
    ensures room { array_vec_len text.new ≤ array_vec_len text.old + length bytes.now }
{
    let _ = text.try_extend_from_slice(bytes);
}

// Appends a number in decimal, of at most 20 digits, if they have room, and otherwise none of them.
pub fn put_decimal<const CAP: usize>(text: &mut ArrayVec<u8, CAP>, n: u64)
    ensures fits { array_vec_len text.old + length (decimal_text n) ≤ CAP → text.new.items ≡ text.old.items ++ decimal_text n }
    ensures kept { CAP < array_vec_len text.old + length (decimal_text n) → text.new.items ≡ text.old.items }
    ensures items { array_vec_len text.old + 20 ≤ CAP → text.new.items ≡ text.old.items ++ decimal_text n }
    ensures room { array_vec_len text.new ≤ array_vec_len text.old + 20 }
{
    let mut buffer = itoa::Buffer::new();
    put(text, buffer.format(n).as_bytes());
}
