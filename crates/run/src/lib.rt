// A search in a run of documents: records of `stride` words, the run's first record at `first`.
#![tactic(auto)]

ghost use Rattle.std.specs.Prelude.{◌≡◌, ℕ, ◌+◌, ◌*◌, ◌≤◌, ◌<◌, length, MatchOption};
ghost use Rattle.run.specs.Run.{document_at, Run, Lower, Between};

// How many postings are tried one by one before the search gallops.
const NEAR: usize = 4;

// Kept: no plainer as the method alone, which asks for a run that ascends, and this does not; who reads one or two
// documents makes no `Postings`.
pub fn document(words: &[u32], stride: usize, first: usize, i: usize) -> u32
    requires { (0 < stride) × (stride * (first + i) < length words.now) }
    ensures { result ≡ document_at words.now stride first i }
{
    words[stride * (first + i)]
}

// A run of records in the lent words; its documents ascend.
#[derive(Clone, Copy)]
pub struct Postings<'a> {
    pub words: &'a [u32],
    pub stride: usize,
    pub first: usize,
    pub count: usize,
    pub ghost run: { Run words.now stride first count },
}

impl Postings<'_> {
    pub fn document(self, i: usize) -> u32
        requires { i < self.count }
        ensures { result ≡ document_at self.entry.words.now self.entry.stride self.entry.first i }
    {
        document(self.words, self.stride, self.first, i)
    }

    // The document at a place, if the run goes so far.
    pub fn get(self, i: usize) -> Option<u32>
        ensures { MatchOption result (self.entry.count ≤ i)
            (λ d. (i < self.entry.count)
            × (d ≡ document_at self.entry.words.now self.entry.stride self.entry.first i)) }
    {
        if i < self.count {
            Some(self.document(i))
        } else {
            None
        }
    }

    // Binary search between two places.
    // Kept: no plainer: `lower` promises it for every stride, so there is no slice of records for `partition_point`; a
    // method for 3 alone would be a second one.
    fn halve(self, from: usize, to: usize, target: u32) -> usize
        requires { Between self.words.now self.stride self.first self.count from to target }
        ensures { Lower self.entry.words.now self.entry.stride self.entry.first self.entry.count
            from target result }
    {
        let mut low = from;
        let mut high = to;
        while low < high {
            let mid = low + (high - low) / 2;
            if self.document(mid) < target {
                low = mid + 1;
            } else {
                high = mid;
            }
        }
        low
    }

    // Galloping search: steps that double, then a binary search within the last one.
    // Kept: `while`, since no range goes by steps that double.
    fn gallop(self, from: usize, target: u32) -> usize
        requires { from ≤ self.count }
        ensures { Lower self.entry.words.now self.entry.stride self.entry.first self.entry.count
            from target result }
    {
        let mut low = from;
        let mut step = NEAR;
        while step < self.count - low {
            let high = low + step;
            if self.document(high) < target {
                low = high + 1;
                step = step * 2;
            } else {
                return self.halve(low, high, target);
            }
        }
        self.halve(low, self.count, target)
    }

    // The first place from the cursor on whose document is at least the target: mostly it is near.
    #[inline(always)]
    pub fn lower(self, from: usize, target: u32) -> usize
        requires { from ≤ self.count }
        ensures { Lower self.entry.words.now self.entry.stride self.entry.first self.entry.count
            from target result }
    {
        let near = self.count.min(from + NEAR);
        for at in from..near {
            if target <= self.document(at) {
                return at;
            }
        }
        self.gallop(near, target)
    }
}

// The same for a caller that has the run's words and numbers.
// Kept: no plainer as the method alone: who searches once has a run's words and numbers, and would make a `Postings`
// for that one call.
pub fn lower(
    words: &[u32],
    stride: usize,
    first: usize,
    count: usize,
    from: usize,
    target: u32,
) -> usize
    requires { Run words.now stride first count × (from ≤ count) }
    ensures { Lower words.now stride first count from target result }
{
    let postings = Postings {
        words,
        stride,
        first,
        count,
    };
    postings.lower(from, target)
}
