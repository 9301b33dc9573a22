//! The secret from which tables hash their keys.

use crate::hasher::WordHasher;
use std::hash::{BuildHasher, Hasher};

/// The secret of sixteen bytes from which tables hash their keys. It makes a hasher for each key. No contract tells
/// what a key hashes to.
#[derive(Clone, Copy)]
pub struct Seed {
    first: u64,
    second: u64,
}

impl Seed {
    /// The seed of these bytes.
    pub fn from_bytes(bytes: [u8; 16]) -> Seed {
        let number = u128::from_le_bytes(bytes);
        Seed {
            first: (number & 0xFFFF_FFFF_FFFF_FFFF) as u64,
            second: (number >> 64) as u64,
        }
    }

    /// The seed of this one and of these bytes, as of a file that may bring keys. It takes time by their number.
    pub fn mixed(self, bytes: &[u8]) -> Seed {
        let mut hasher = core::hash::keyed_hasher(self.first, self.second);
        hasher.write(bytes);
        let first = hasher.finish();
        hasher.write(&[1]);
        Seed {
            first,
            second: hasher.finish(),
        }
    }
}

impl BuildHasher for Seed {
    type Hasher = WordHasher;

    ghost use Rattle.rp_hash.specs.Words.{begun};

    ghost build_hasher = { begun };

    #[inline(always)]
    fn build_hasher(&self) -> WordHasher {
        WordHasher {
            v0: self.first ^ 0x736f_6d65_7073_6575,
            v1: self.second ^ 0x646f_7261_6e64_6f6d,
            v2: self.first ^ 0x6c79_6765_6e65_7261,
            v3: self.second ^ 0x7465_6462_7974_6573,
            start: core::hash::keyed_hasher(self.second, self.first),
        }
    }
}
