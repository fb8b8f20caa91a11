// What a caller lends of an index, in one struct: the entries hand it on as it is.
#[derive(Clone, Copy)]
pub struct Lent<'a> {
    pub max_doc: u32,
    pub fields: &'a [u32],
    pub leaves: &'a [u32],
    pub postings: &'a [u32],
    pub positions: &'a [u32],
    pub norms: &'a [u8],
    pub live: &'a [u64],
    pub columns: &'a [u32],
    pub values: &'a [u32],
}
