//! Two lists of positions, taken together index by index.

ghost use Rattle.std.specs.Prelude.{◌≡◌, ◌≤◌, length};
ghost use Rattle.nx_combine.specs.Joining as spec;

use crate::position::Position;
use arrayvec::ArrayVec;
use nx_copies::is_good_share;

/// The most positions of a copy that is taken together with others (this profile).
pub const MAX_POSITIONS: usize = 8192;

/// Whether two lists of positions are of one text (this profile; 4 per cent is the share of ITU-R
/// M.540). As far as both go, 25 times the indices at which they took two combinations are fewer
/// than those at which they took the same one. No such index counts as one.
pub fn is_of_one_text(first: &[Position], second: &[Position]) -> bool
    ensures { result ≡ spec.is_of_one_text first.now second.now }
{
    let same = count_of_same(first, second);
    let differing = count_of_differing(first, second);
    is_good_share(differing, same)
}

/// At how many indices both took the same combination.
#[tactic(auto, unfolding(crate::specs::Joining::count_of_same))]
fn count_of_same(first: &[Position], second: &[Position]) -> usize
    ensures { result ≡ spec.count_of_same first.now second.now }
{
    first
        .iter()
        .zip(second)
        .filter(|(one, other)| one.took_one(**other))
        .count()
}

/// At how many indices they took two combinations.
#[tactic(auto, unfolding(crate::specs::Joining::count_of_differing))]
fn count_of_differing(first: &[Position], second: &[Position]) -> usize
    ensures { result ≡ spec.count_of_differing first.now second.now }
{
    first
        .iter()
        .zip(second)
        .filter(|(one, other)| one.took_two(**other))
        .count()
}

/// Joins the positions of a copy to those of its family: at each index what both give, and behind
/// the shorter list what the longer one has.
pub fn join(family: &mut ArrayVec<Position, MAX_POSITIONS>, copy: &[Position])
    requires { length copy.now ≤ MAX_POSITIONS }
    ensures { family.new.items ≡ spec.joined family.old.items copy.now }
{
    for (index, position) in copy.iter().enumerate() {
        if index < family.len() {
            family[index] = family[index].join(*position);
        } else {
            family.push(*position);
        }
    }
}
