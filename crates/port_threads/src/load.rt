//! How many clients there are, and how many rounds each makes.

ghost use Rattle.std.specs.Prelude.{◌≡◌, ◌≤◌, ◌<◌, IfSome};
ghost use Rattle.port_threads.specs.Loads.{most_clients, most_rounds, default_clients, default_rounds, from_1_to};

use script_lines::number_up_to;
use std::sync::ledger::Blank;
use thiserror::Error;

/// The most clients: one for each command slot of a port (AHCI 1.3.1, 3.1.1).
const MOST_CLIENTS: u16 = 32;

/// The most rounds of a client.
const MOST_ROUNDS: u32 = 1_000;

/// The clients of the load that stands where none is given.
const DEFAULT_CLIENTS: u16 = 2;

/// The rounds of each of its clients.
const DEFAULT_ROUNDS: u32 = 100;

/// The limits are those of the definitions.
pub fn laws_of_loads()
    ensures clients { MOST_CLIENTS ≡ most_clients }
    ensures rounds { MOST_ROUNDS ≡ most_rounds }
    ensures default_clients { DEFAULT_CLIENTS ≡ default_clients }
    ensures default_rounds { DEFAULT_ROUNDS ≡ default_rounds }
{}

/// What is wrong with the words that say a load.
#[derive(Clone, Copy, Debug, PartialEq, Eq, Error)]
pub enum LoadFault {
    #[error("--clients takes a number from 1 to 32")]
    Clients,
    #[error("--rounds takes a number from 1 to 1000")]
    Rounds,
}

/// How many clients there are, and how many rounds each makes: at least one, at most 32 and 1,000.
#[derive(Drop)]
pub struct Load {
    pub(crate) clients: u16,
    pub(crate) rounds: u32,
    ghost clients_within: { (0 < clients) × (clients ≤ most_clients) },
    ghost rounds_within: { (0 < rounds) × (rounds ≤ most_rounds) },
}

/// The number from 1 up to so much that a text writes in decimal digits.
fn from_1_to(most: u64, text: &[u8]) -> Option<u64>
    ensures exact { result ≡ from_1_to most text.now }
    ensures within { IfSome result (λ n. (0 < n) × (n ≤ most)) }
{
    let number = number_up_to(most, text)?;
    if number == 0 { None } else { Some(number) }
}

impl Load {
    ghost use Rattle.std.specs.Prelude.{◌≡◌, ◌+◌, IfOk, IfErr};
    ghost use Rattle.port_threads.specs.Loads.{default_clients, default_rounds, WritesLoad, IsFirstLoadFault};

    /// The load that stands where none is given.
    pub(crate) fn usual() -> Load
        ensures clients { result.clients ≡ default_clients }
        ensures rounds { result.rounds ≡ default_rounds }
    {
        Load {
            clients: DEFAULT_CLIENTS,
            rounds: DEFAULT_ROUNDS,
        }
    }

    /// Reads both numbers as they are written on the command line. The first fault is told: `Clients`, `Rounds`.
    pub fn parse(clients: &[u8], rounds: &[u8]) -> Result<Load, LoadFault>
        ensures read { IfOk result (λ load. WritesLoad clients.now rounds.now load.clients
            load.rounds) }
        ensures fault { IfErr result (λ fault. IsFirstLoadFault clients.now rounds.now fault) }
    {
        let Some(clients) = from_1_to(u64::from(MOST_CLIENTS), clients) else {
            return Err(LoadFault::Clients);
        };
        let Some(rounds) = from_1_to(u64::from(MOST_ROUNDS), rounds) else {
            return Err(LoadFault::Rounds);
        };
        Ok(Load {
            clients: clients as u16,
            rounds: rounds as u32,
        })
    }

    /// The blank of a port that has a pass for each client and one for the engine.
    pub fn blank(&self) -> Blank
        ensures { result.parts ≡ self.now.clients + 1 }
    {
        Blank::new(u64::from(self.clients) + 1)
    }
}
