//! PBKDF2 of RFC 8018 over any keyed digest.
ghost use Rattle.std.specs.Prelude.{◌≡◌, ◌-◌, ◌≤◌, ◌++◌, length, take, replicate};
ghost use Rattle.cipher.specs.Stretching.{int, combined, pbkdf2};

use crate::wiped::Wiped;
use digest::KeyedDigest;

// What every block is made with, besides the salt.
#[derive(Drop)]
pub(crate) struct Pbkdf2<'d, 'p, D> {
    pub(crate) digest: &'d D,
    pub(crate) password: &'p [u8],
    pub(crate) count: u32,
    ghost short: { length password.now ≤ 65536 },
    ghost some: { 1 ≤ count },
}

impl<D: KeyedDigest> Pbkdf2<'_, '_, D> {
    // Writes the block of that number to `total`: U_1 xor .. xor U_c.
    // The last four bytes of the text are for the number, and the salt is before them. `link` and `total` are as long as a digest.
    fn write_block(&self, number: u32, text: &mut [u8], link: &mut [u8], total: &mut [u8])
        requires fits { (4 ≤ length text.old) × (length text.old ≤ 65536) }
        requires room { (length link.old ≡ D.size) × (length total.old ≡ D.size) }
        ensures gives { total.new ≡ combined (D.keyed self.now.password.now) (take (length text.old - 4) text.old ++ int number) self.now.count }
        ensures keeps { take (length text.old - 4) text.new ≡ take (length text.old - 4) text.old }
    {
        let end = text.len() - 4;
        text[end..].copy_from_slice(&number.to_be_bytes());
        // The input is short and the spaces are as long as a digest, so nothing is refused.
        self.digest.digest(self.password, text, link).unwrap();
        total.copy_from_slice(link);
        self.digest
            .chain(self.password, self.count - 1, link, total)
            .unwrap();
    }

    // Fills `out` with the blocks one after the other, the last of them cut. The salt is in the text, which has four bytes after it.
    // The spaces `link` and `total` are as long as a digest, and hold zeros afterwards.
    pub(crate) fn fill(&self, text: &mut [u8], link: &mut [u8], total: &mut [u8], out: &mut [u8])
        requires fits { (4 ≤ length text.old) × (length text.old ≤ 65536) × (length out.old ≤ 65536) }
        requires room { (length link.old ≡ D.size) × (length total.old ≡ D.size) }
        ensures writes { out.new ≡ pbkdf2 D.keyed D.size self.now.password.now (take (length text.old - 4) text.old) self.now.count (length out.old) }
        ensures wiped { (link.new ≡ replicate (length link.old) 0) × (total.new ≡ replicate (length total.old) 0) }
    {
        let last = Wiped { bytes: link };
        let sum = Wiped { bytes: total };
        let size = self.digest.length();
        let length = out.len();
        // Not over `chunks_mut`: when that borrow is over, nothing is known of the bytes that were written through it.
        for i in 0..length.div_ceil(size) {
            self.write_block(i as u32 + 1, text, last.bytes, sum.bytes);
            let at = i * size;
            let end = length.min(at + size);
            out[at..end].copy_from_slice(&sum.bytes[..end - at]);
        }
    }
}
