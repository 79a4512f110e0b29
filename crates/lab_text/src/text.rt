//! A text that grows at its end. Each call asks for memory where there is no room, and counts where it was refused.
ghost use Rattle.std.specs.Prelude.{◌≡◌, ◌-◌, ◌++◌, [], OnOk, decimal, is_err, length, replicate};
ghost use Rattle.event_file.specs.Answers.{gate_word};
ghost use Rattle.event_file.specs.Printed.{inet_word};
ghost use Rattle.hex.specs.Hex.{encode_lower};
ghost use Rattle.memory.specs.Refusing.{Rises};
ghost use Rattle.lab_text.specs.Words.{destination_word};

use itoa::Buffer;
use mask_table::Rank;
use memory::{MOST_ASKED, Memory};
use sock_addrs::{Gate, Inet};
use std::alloc::{AllocError, Global};
use std::marker::Model;

/// A text. A contract sees its bytes. What a call that was refused leaves behind the text that was there isn't said.
#[derive(Drop)]
pub struct Text {
    bytes: Vec<u8>,
}

impl Model for Text {
    ghost use Rattle.std.specs.Prelude.{List, ℕ};

    ghost Value = { List ℕ };

    ghost view = { λ t. t.bytes.items };
}

impl Text {
    /// No text. It asks for no memory.
    pub fn new(alloc: Global) -> Text
        ensures { result ≡ [] }
    {
        Text {
            bytes: Vec::new(alloc),
        }
    }

    /// Its bytes.
    pub fn as_bytes(&self) -> &[u8]
        ensures { result.now ≡ self.now }
    {
        &self.bytes
    }

    /// How many bytes it has.
    pub fn len(&self) -> usize
        ensures { result ≡ length self.now }
    {
        self.bytes.len()
    }

    /// Takes all of it away, and keeps its memory.
    pub fn clear(&mut self)
        ensures { self.new ≡ [] }
    {
        self.bytes.clear();
    }

    /// Appends bytes, however many these are: more than may be asked for at once one by one.
    pub fn put(&mut self, bytes: &[u8], memory: &mut Memory) -> Result<(), AllocError>
        ensures put { OnOk result (self.new ≡ self.old ++ bytes.now) }
        ensures counted { Rises (is_err result) memory.old memory.new }
    {
        if bytes.len() <= MOST_ASKED {
            return memory.extend(&mut self.bytes, bytes);
        }
        for byte in bytes {
            memory.push(&mut self.bytes, *byte)?;
        }
        Ok(())
    }

    /// Appends a number in decimal.
    pub fn put_number(&mut self, number: u64, memory: &mut Memory) -> Result<(), AllocError>
        ensures put { OnOk result (self.new ≡ self.old ++ decimal number) }
        ensures counted { Rises (is_err result) memory.old memory.new }
    {
        let mut buffer = Buffer::new();
        memory.extend(&mut self.bytes, buffer.format(number).as_bytes())
    }

    /// Appends bytes as pairs of lower-case hexadecimal digits.
    pub fn put_digits(&mut self, bytes: &[u8], memory: &mut Memory) -> Result<(), AllocError>
        ensures put { OnOk result (self.new ≡ self.old ++ encode_lower bytes.now) }
        ensures counted { Rises (is_err result) memory.old memory.new }
    {
        for byte in bytes {
            let mut pair = [0; 2];
            hex::encode_to_slice([*byte], &mut pair).unwrap();
            memory.extend(&mut self.bytes, &pair)?;
        }
        Ok(())
    }

    /// Appends an IPv4 address, as `10.0.0.1`.
    #[tactic(auto, using(crate::proofs::Dotted::dotted))]
    pub fn put_inet(&mut self, address: Inet, memory: &mut Memory) -> Result<(), AllocError>
        ensures put { OnOk result (self.new ≡ self.old ++ inet_word address) }
        ensures counted { Rises (is_err result) memory.old memory.new }
    {
        let [a, b, c, d] = address.number().to_be_bytes();
        self.put_number(u64::from(a), memory)?;
        self.put(b".", memory)?;
        self.put_number(u64::from(b), memory)?;
        self.put(b".", memory)?;
        self.put_number(u64::from(c), memory)?;
        self.put(b".", memory)?;
        self.put_number(u64::from(d), memory)?;
        Ok(())
    }

    /// Appends the destination of a route: the address of a host, a network as `10.0.0.0/8`, and `default` for that of
    /// all addresses.
    pub fn put_destination(
        &mut self,
        key: Inet,
        rank: Rank,
        memory: &mut Memory,
    ) -> Result<(), AllocError>
        ensures put { OnOk result (self.new ≡ self.old ++ destination_word key rank) }
        ensures counted { Rises (is_err result) memory.old memory.new }
    {
        if rank.number() == 0 && key.number() == 0 {
            return self.put(b"default", memory);
        }
        self.put_inet(key, memory)?;
        if rank == Rank::host() {
            return Ok(());
        }
        self.put(b"/", memory)?;
        self.put_number(u64::from(rank.number()), memory)
    }

    /// Appends a gateway: an IPv4 address, or `link:` and the bytes of a link-layer address in hexadecimal.
    pub fn put_gate(&mut self, gate: &Gate, memory: &mut Memory) -> Result<(), AllocError>
        ensures put { OnOk result (self.new ≡ self.old ++ gate_word gate.now) }
        ensures counted { Rises (is_err result) memory.old memory.new }
    {
        match gate {
            Gate::Inet(address) => self.put_inet(*address, memory),
            Gate::Link(link) => {
                self.put(b"link:", memory)?;
                self.put_digits(link.as_bytes(), memory)
            }
        }
    }

    /// Appends spaces, so that what stands behind this place is as wide as a column; none where it is as wide already.
    pub fn pad(&mut self, from: usize, width: usize, memory: &mut Memory) -> Result<(), AllocError>
        ensures put { OnOk result (self.new ≡ self.old ++ replicate (width - (length self.old - from)) 32) }
        ensures counted { Rises (is_err result) memory.old memory.new }
    {
        let missing = width.saturating_sub(self.bytes.len().saturating_sub(from));
        'spaces: for _i in 0..missing {
            memory.push(&mut self.bytes, b' ')?;
        }
        Ok(())
    }
}
