//! A digest of bytes and numbers.
ghost use Rattle.std.specs.Prelude.{◌≡◌, ◌<◌, length};
ghost use Rattle.bench_main.specs.declared.digest.TheConstants.{BLOCK};

use std::alloc::{AllocError, Global};
use std::io::{self, Write};

/// How many bytes are taken together, as many as the programs keep back until they write them.
const BLOCK: usize = 65_536;

/// An odd number whose bits look drawn by chance.
const FACTOR: u64 = 0x9e37_79b9_7f4a_7c15;

/// A digest of all that is written to it, which doesn't depend on the pieces that it comes in, and of numbers.
#[derive(Drop)]
pub(crate) struct Digest {
    block: Vec<u8>,
    end: usize,
    lanes: [u64; 4],
    taken: u64,

    ghost block_room: { length block.items ≡ BLOCK },
    ghost in_block: { end < BLOCK },
}

impl Digest {
    pub(crate) fn new(alloc: Global) -> Result<Digest, AllocError> {
        Ok(Digest {
            block: vec![in alloc; 0; BLOCK]?,
            end: 0,
            lanes: [1, 2, 3, 4],
            taken: 0,
        })
    }

    /// How many bytes and numbers it was given; from `u64::MAX` on it stays.
    pub(crate) fn taken(&self) -> u64 {
        self.taken
    }

    /// The digest of all that it was given.
    pub(crate) fn value(&self) -> u64 {
        let mut lanes = self.lanes;
        mix_all(&self.block[..self.end], &mut lanes);
        let [a, b, c, d] = lanes;
        let last = mixed(mixed(mixed(mixed(a, b), c), d), self.taken);
        last ^ last >> 32
    }

    /// Takes a number.
    pub(crate) fn number(&mut self, number: u64) {
        self.lanes[0] = mixed(self.lanes[0], number);
        self.taken = self.taken.saturating_add(1);
    }
}

impl Write for Digest {
    fn write(&mut self, buf: &[u8]) -> io::Result<usize> {
        let taken = buf.len().min(BLOCK - self.end);
        let end = self.end + taken;
        self.block[self.end..end].copy_from_slice(&buf[..taken]);
        self.end = end % BLOCK;
        if end == BLOCK {
            mix_all(&self.block, &mut self.lanes);
        }
        self.taken = self.taken.saturating_add(taken as u64);
        Ok(taken)
    }

    fn flush(&mut self) -> io::Result<()> {
        Ok(())
    }
}

/// Mixes bytes into four lanes, 32 at a time.
fn mix_all(bytes: &[u8], lanes: &mut [u64; 4]) {
    let [mut a, mut b, mut c, mut d] = *lanes;
    for i in 0..bytes.len() / 32 {
        let at = 32 * i;
        a = mixed(a, word(&bytes[at..at + 8]));
        b = mixed(b, word(&bytes[at + 8..at + 16]));
        c = mixed(c, word(&bytes[at + 16..at + 24]));
        d = mixed(d, word(&bytes[at + 24..at + 32]));
    }
    for i in bytes.len() / 32 * 32..bytes.len() {
        a = mixed(a, u64::from(bytes[i]));
    }
    *lanes = [a, b, c, d];
}

/// The number of eight bytes.
fn word(bytes: &[u8]) -> u64
    requires { length bytes.now ≡ 8 }
{
    let mut eight = [0; 8];
    eight.copy_from_slice(bytes);
    u64::from_le_bytes(eight)
}

/// Another number, which depends on both.
fn mixed(lane: u64, number: u64) -> u64 {
    (lane ^ number).wrapping_mul(FACTOR).rotate_left(29)
}
