//! Bytes that are appended to a text of bounded length.

ghost use Rattle.std.specs.Prelude.{◌≡◌, ◌+◌, ◌≤◌, ◌++◌, length};
ghost use Rattle.arrayvec.specs.ArrayVec.{array_vec_len};

use arrayvec::ArrayVec;

/// Appends bytes to a text, for which there is room.
pub fn append<const N: usize>(text: &mut ArrayVec<u8, N>, more: &[u8])
    requires { array_vec_len text.old + length more.now ≤ N }
    ensures items { text.new.items ≡ text.old.items ++ more.now }
    ensures len { array_vec_len text.new ≡ array_vec_len text.old + length more.now }
{
    text.try_extend_from_slice(more).unwrap();
}
