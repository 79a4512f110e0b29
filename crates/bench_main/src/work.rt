//! What a workload works on.
use crate::chance::Chance;
use crate::digest::Digest;
use crate::machine::{Fault, Machine};
use crate::networks::Network;
use route_core::{Answer, Choice};
use sock_addrs::{Gate, Inet};
use std::alloc::{AllocError, Global};

/// A machine, what its lines are drawn from, the networks that it has routes to, and a digest of what it answered
/// without a text.
#[derive(Drop)]
pub(crate) struct Work {
    pub(crate) machine: Machine,
    pub(crate) chance: Chance,
    pub(crate) networks: Vec<Network>,
    pub(crate) digest: Digest,
    pub(crate) alloc: Global,
}

impl Work {
    pub(crate) fn new(alloc: Global, seed: u32) -> Result<Work, AllocError> {
        let machine = Machine::new(alloc)?;
        let digest = Digest::new(alloc)?;
        Ok(Work {
            machine,
            chance: Chance::new(seed),
            networks: Vec::new(alloc),
            digest,
            alloc,
        })
    }

    /// One of the networks by chance, where there is one.
    pub(crate) fn draw_network(&mut self) -> Option<Network> {
        let count = self.networks.len();
        if count == 0 {
            return None;
        }
        let which = self.chance.word() as usize % count;
        Some(self.networks[which])
    }

    /// Keeps a network that there is a route to.
    pub(crate) fn keep(&mut self, network: Network) -> Result<(), Fault> {
        self.networks.push(network)?;
        Ok(())
    }

    /// Sends a packet without a line, and puts its answer into the digest.
    pub(crate) fn packet(&mut self, destination: Inet) {
        let answer = self.machine.packet(destination);
        take(&answer, &mut self.digest);
    }

    /// The digest of all answers.
    pub(crate) fn end(self) -> Digest {
        let Work {
            machine,
            mut digest,
            ..
        } = self;
        let written = machine.end();
        digest.number(written.value());
        digest.number(written.taken());
        digest
    }
}

/// Puts an answer into a digest.
fn take(answer: &Answer<'_>, digest: &mut Digest) {
    match answer {
        Answer::Routed(choice) | Answer::Dropped(choice) => take_choice(choice, digest),
        Answer::Refused(errno) => digest.number(u64::from(errno.number())),
        _ => digest.number(0),
    }
}

/// Puts a packet's route into a digest.
fn take_choice(choice: &Choice, digest: &mut Digest) {
    digest.number(u64::from(choice.key.number()) << 8 | u64::from(choice.rank.number()));
    digest.number(u64::from(choice.index) << 16 | u64::from(choice.flags));
    if let Gate::Inet(gateway) = choice.gateway {
        digest.number(u64::from(gateway.number()));
    }
}
