// Live words, 64 documents each.
ghost use Rattle.std.specs.Prelude.{◌≡◌, ◌<◌, ◌*◌, length};
ghost use Rattle.meaning.specs.Live.{is_live};
ghost use Rattle.index.specs.Slices.{live_only};

// Whether document doc is live: no words at all means that all are.
pub fn is_live(live: &[u64], doc: u32) -> bool
    requires { 0 < length live.now → doc < 64 * length live.now }
    ensures { result ≡ is_live (live_only live.now) doc }
{
    if live.is_empty() {
        return true;
    }
    bits::is_set(live[(doc / 64) as usize], doc % 64)
}
