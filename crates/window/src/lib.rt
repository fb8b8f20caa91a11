// The documents of a run in a window of 64, as bits.
#![tactic(auto)]

ghost use Rattle.window.specs.Windows.{Cursor, Gathers};

use run::Postings;

// The window's documents as bits, and the first place of the run behind the window.
#[derive(Clone, Copy)]
pub struct InWindow {
    pub bits: u64,
    pub at: usize,
}

// The documents of the window at `base`, of a run from `from` on. Inlined, so that the run stays in registers.
#[inline(always)]
pub fn gathered(postings: Postings<'_>, from: usize, base: u32) -> InWindow
    requires { Cursor postings.words.now postings.stride postings.first postings.count base from }
    ensures { Gathers postings.entry.words.now postings.entry.stride postings.entry.first
        postings.entry.count base from result.bits result.at }
{
    let mut w = 0;
    for i in from..postings.count {
        let place = postings.document(i) - base;
        if 64 <= place {
            return InWindow { bits: w, at: i };
        }
        w = bits::set_bit(w, place);
    }
    InWindow {
        bits: w,
        at: postings.count,
    }
}
