//! A logged entry as it stands in a kept log.

ghost use Rattle.std.specs.Prelude.{◌≡◌, ◌≤◌, ◌∷◌, length};
ghost use Rattle.nx_kept.specs.Kept.{open_gate};

use crate::entries::entry::MAX_LOGGED;
use arrayvec::ArrayVec;
use nx_fec::append;

/// The gate before an entry that counts: a newline.
const OPEN_GATE: u8 = b'\n';

/// The gate behind the last entry: a space.
pub(crate) const GATE_BEHIND: &[u8] = b" ";

/// The most bytes of a logged entry and its gate.
const MAX_GATED: usize = MAX_LOGGED + 1;

/// The bytes of an entry, at most 4,146, behind an open gate.
pub(crate) fn kept_text(bytes: &[u8]) -> ArrayVec<u8, MAX_GATED>
    requires { length bytes.now ≤ MAX_LOGGED }
    ensures { result.items ≡ open_gate ∷ bytes.now }
{
    let mut text = ArrayVec::new();
    text.push(OPEN_GATE);
    append(&mut text, bytes);
    text
}
