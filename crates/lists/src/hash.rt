// FNV-1a of 64 bits.
#[derive(Clone, Copy)]
pub(crate) struct Hash(pub(crate) u64);

impl Hash {
    pub(crate) fn new() -> Hash {
        Hash(0xcbf2_9ce4_8422_2325)
    }

    // Joins the four bytes of a word, the lowest first.
    pub(crate) fn join(&mut self, word: u32) {
        let bytes = word.to_le_bytes();
        self.0 = bytes.iter().fold(self.0, |hash, byte| {
            (hash ^ u64::from(*byte)).wrapping_mul(0x100_0000_01b3)
        });
    }
}
