// The sums of a window's 64 documents: one more score at each wanted place.
ghost use Rattle.std.specs.Prelude.{◌≡◌, not, T};
ghost use Rattle.std.specs.Float.Ieee.{is_nan};
ghost use Rattle.meaning.specs.Ieee754.{narrow};
ghost use Rattle.window_score.specs.Sums.{ChangePre, Changed, Reached, Answered, ConstantPre, ConstantPost, NarrowedPre, NarrowedPost, AfterPre, AfterPost, NarrowSumsPre, NarrowSumsPost, BothPre, both_of};

use bits::SetBits;
use ieee754::{add_score, narrow};

// The sum at each wanted place becomes what `changed` makes of it there; the others stay.
// Kept: a rule of the project: a contract asks no more than it did; who calls `term_scores` and the like may lend any
// slice that is 64 long.
#[inline(always)]
pub(crate) fn change_sums<F: FnMut(f64, u32) -> f64>(want: u64, sums: &mut [f64], changed: &mut F)
    requires { ChangePre F.pre F.step changed.old want sums.old }
    ensures reached { Reached F.step want sums.old changed.old changed.new }
    ensures changed { Changed (Answered F.step want sums.old changed.old) want sums.old sums.new }
{
    for place in (SetBits { left: want }) {
        let at = place as usize;
        sums[at] = changed(sums[at], place);
    }
}

// A required sum and the group's, each narrowed, added.
fn both(required: f64, group: f64) -> f64
    requires { BothPre required group }
    ensures { result ≡ both_of required group }
{
    add_score(narrow(required) as f64, narrow(group))
}

// Adds the same score to each wanted sum.
pub fn add_constant(score: f32, want: u64, sums: &mut [f64])
    requires { ConstantPre score sums.old }
    ensures { ConstantPost score want sums.old sums.new }
{
    change_sums(want, sums, &mut |sum, _| add_score(sum, score));
}

// Adds a Boolean's own sums, narrowed, to the wanted sums.
pub fn add_narrowed(own: &[f64], want: u64, sums: &mut [f64])
    requires { NarrowedPre own.now sums.old }
    ensures { NarrowedPost own.now want sums.old sums.new }
{
    change_sums(
        want,
        sums,
        &mut |sum, place| add_score(sum, narrow(own[place as usize])),
    );
}

// Narrows each wanted sum, unless it is of an only child's score, which is an f32 already.
pub fn narrow_sums(only_child: bool, want: u64, sums: &mut [f64])
    requires { NarrowSumsPre sums.old }
    ensures { NarrowSumsPost only_child want sums.old sums.new }
{
    if only_child {
        return;
    }
    change_sums(
        want,
        sums,
        &mut |sum, _|
            requires { T (not (is_nan (narrow sum))) }
            ensures { result ≡ narrow sum }
        { narrow(sum) as f64 },
    );
}

// Narrows each wanted sum and adds the group's sum, narrowed too.
pub fn join_after(group: &[f64], want: u64, sums: &mut [f64])
    requires { AfterPre group.now sums.old }
    ensures { AfterPost group.now want sums.old sums.new }
{
    change_sums(
        want,
        sums,
        &mut |sum, place| both(sum, group[place as usize]),
    );
}
