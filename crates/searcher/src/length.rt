// Length: what a norm byte decodes to.
ghost use Rattle.std.specs.Prelude.{◌≡◌};
ghost use Rattle.meaning.specs.Entries.{length_answer};

pub fn length(norm: u8) -> u32
    ensures { result ≡ length_answer norm }
{
    sim::small_float::byte4_to_int(norm)
}
