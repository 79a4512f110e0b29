//! The lines of a script, made word by word.
use itoa::Buffer;
use std::alloc::Global;

/// The digits of hexadecimal.
const DIGITS: [u8; 16] = *b"0123456789abcdef";

/// Lines that are being made.
#[derive(Drop)]
pub(crate) struct Lines {
    bytes: Vec<u8>,
    is_short: bool,
}

impl Lines {
    pub(crate) fn new(alloc: Global) -> Lines {
        Lines {
            bytes: Vec::new(alloc),
            is_short: false,
        }
    }

    /// All that was made since they were cleared.
    pub(crate) fn as_bytes(&self) -> &[u8] {
        &self.bytes
    }

    /// Whether something is missing of what was made, since there was no memory for it.
    pub(crate) fn is_short(&self) -> bool {
        self.is_short
    }

    pub(crate) fn clear(&mut self) {
        self.bytes.clear();
    }

    fn put(&mut self, bytes: &[u8]) {
        if self.bytes.extend_from_slice(bytes).is_err() {
            self.is_short = true;
        }
    }

    /// Any text.
    pub(crate) fn text(&mut self, text: &str) {
        self.put(text.as_bytes());
    }

    /// A decimal.
    pub(crate) fn number(&mut self, number: u32) {
        let mut digits = Buffer::new();
        self.put(digits.format(number).as_bytes());
    }

    /// An address, with dots.
    pub(crate) fn address(&mut self, address: u32) {
        let [a, b, c, d] = address.to_be_bytes();
        self.number(u32::from(a));
        self.put(b".");
        self.number(u32::from(b));
        self.put(b".");
        self.number(u32::from(c));
        self.put(b".");
        self.number(u32::from(d));
    }

    /// A number of 32 bits in eight hexadecimal digits.
    pub(crate) fn hex(&mut self, number: u32) {
        let mut digits = [0; 8];
        let bytes = number.to_be_bytes();
        for i in 0..4 {
            digits[2 * i] = DIGITS[usize::from(bytes[i] / 16)];
            digits[2 * i + 1] = DIGITS[usize::from(bytes[i] % 16)];
        }
        self.put(&digits);
    }
}
