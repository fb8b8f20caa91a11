// The token writer, as the functions of lib.rt.
ghost use Rattle.border.specs.Write.{LotWritesIndex};

// Kept: the C interface hands over each slice and number by itself, so its clause names them one by one.
#[unsafe(no_mangle)]
pub extern "C" fn lot_write_index(
    max_doc: u32,
    fields: &[u32],
    tokens: &[u32],
    leaf_fields: &[u32],
    norms: &mut [u8],
    postings: &mut [u32],
    positions: &mut [u32],
    runs: &mut [u32],
    answer: &mut [u64],
) -> u32
    ensures { LotWritesIndex max_doc fields.now leaf_fields.now tokens.now norms.old postings.old
        positions.old runs.old answer.old norms.new postings.new positions.new runs.new answer.new result }
{
    border::write_index::lot_write_index(
        max_doc,
        fields,
        tokens,
        leaf_fields,
        norms,
        postings,
        positions,
        runs,
        answer,
    )
}
