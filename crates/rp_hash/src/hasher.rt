//! The hasher of one key.

ghost use Rattle.std.specs.Prelude.{◌≡◌, length};
ghost use Rattle.rp_hash.specs.Words as words;

use std::hash::{DefaultHasher, Hasher};

/// SipHash-1-3 (Aumasson and Bernstein, "SipHash: a fast short-input PRF") over words: a write of eight bytes, as of a
/// number, is one word, and so is a single byte. Any other is first hashed by std's SipHash from a secret start, and
/// its hash is the word.
#[derive(Clone, Copy)]
pub struct WordHasher {
    pub(crate) v0: u64,
    pub(crate) v1: u64,
    pub(crate) v2: u64,
    pub(crate) v3: u64,
    pub(crate) start: DefaultHasher,
}

#[inline(always)]
fn read_u64(bytes: &[u8]) -> u64
    requires { length bytes.now ≡ 8 }
    ensures { result ≡ words.read_u64 bytes.now }
{
    u64::from_le_bytes([
        bytes[0], bytes[1], bytes[2], bytes[3], bytes[4], bytes[5], bytes[6], bytes[7],
    ])
}

#[inline(never)]
fn of_text(start: DefaultHasher, bytes: &[u8]) -> u64
    ensures { result ≡ words.of_text start bytes.now }
{
    let mut sip = start;
    sip.write(bytes);
    sip.finish()
}

impl WordHasher {
    #[inline(always)]
    fn round(&mut self)
        ensures { self.new ≡ words.round self.old }
    {
        self.v0 = self.v0.wrapping_add(self.v1);
        self.v2 = self.v2.wrapping_add(self.v3);
        self.v1 = self.v1.rotate_left(13) ^ self.v0;
        self.v3 = self.v3.rotate_left(16) ^ self.v2;
        self.v0 = self.v0.rotate_left(32);
        self.v2 = self.v2.wrapping_add(self.v1);
        self.v0 = self.v0.wrapping_add(self.v3);
        self.v1 = self.v1.rotate_left(17) ^ self.v2;
        self.v3 = self.v3.rotate_left(21) ^ self.v0;
        self.v2 = self.v2.rotate_left(32);
    }

    #[inline(always)]
    fn write_word(&mut self, word: u64)
        ensures { self.new ≡ words.write_word self.old word }
    {
        self.v3 ^= word;
        self.round();
        self.v0 ^= word;
    }
}

impl Hasher for WordHasher {
    ghost write = { words.write };

    ghost finish = { words.finish };

    #[inline(always)]
    fn finish(&self) -> u64 {
        let mut s = *self;
        s.v2 ^= 0xFF;
        s.round();
        s.round();
        s.round();
        s.v0 ^ s.v1 ^ s.v2 ^ s.v3
    }

    #[inline(always)]
    fn write(&mut self, bytes: &[u8]) {
        if bytes.len() == 8 {
            self.write_word(read_u64(bytes));
            return;
        }
        if bytes.len() == 1 {
            self.write_word(bytes[0] as u64);
            return;
        }
        self.write_word(of_text(self.start, bytes));
    }
}
