//! What a client is told of its steps.

ghost use Rattle.std.specs.Prelude.{◌≡◌, IfOk};
ghost use Rattle.port_threads.specs.Rounds.{filled};
ghost use Rattle.port_threads.specs.Steps.{put_receipt};

use basics::Bytes;
use locked_port::{LockedPort, Pass, PortName, Receipt, Ticket};
use port::{Answer, PortError, Request, Step};
use std::alloc::{AllocError, Global};
use std::sync::Wait;
use trusted_cmds::SECTOR_SIZE;

/// The receipts of a client, the oldest first, and the error that ended it, if one did.
#[derive(Drop)]
pub(crate) struct Log {
    pub(crate) receipts: Vec<Receipt>,
    pub(crate) refusal: Option<PortError>,
}

/// The receipt of a Put: its step is the request that was put, and it replies no bytes.
fn put_receipt(ticket: &Ticket, request: Request) -> Receipt
    ensures { result ≡ put_receipt ticket.now request }
{
    Receipt {
        number: ticket.number,
        step: Step::Put {
            client: ticket.client,
            tag: ticket.tag,
            request,
        },
        reply: Answer::nothing(),
    }
}

impl Log {
    ghost use Rattle.std.specs.Prelude.{◌≡◌, ◌↔◌, ◌⊎◌, ◌+◌, ◌<◌, ◌≤◌, ◌++◌, ◌∷◌, [], List, length, vec_len, true, false, MatchResult, OnOk};
    ghost use Rattle.locked_port.specs.declared.ticket.Receipt.{Receipt};
    ghost use Rattle.locked_port.specs.Hands.{counted, Claims, Frees};
    ghost use Rattle.port_history.specs.declared.request.Answer.TheVariants.{Done};
    ghost use Rattle.port_history.specs.declared.step.Step.TheVariants as steps;
    ghost use Rattle.port_threads.specs.Rounds.{steps_of_round, IsTransfer, TellsRound};
    ghost use Rattle.port_threads.specs.Steps.{put_receipt};

    /// No receipts.
    pub(crate) fn new(alloc: Global) -> Log
        ensures { result.receipts.items ≡ [] }
    {
        Log {
            receipts: Vec::new(alloc),
            refusal: None,
        }
    }

    /// Puts a request, and keeps its receipt.
    ///
    /// # Errors
    ///
    /// Those of `LockedPort::submit`. Nothing is put then.
    fn put<L: PortName, R: Wait>(
        &mut self,
        rt: &R,
        port: &LockedPort<L>,
        pass: &mut Pass<L>,
        request: Request,
    ) -> Result<Ticket, PortError>
        ensures steps { MatchResult result
            (λ ticket. (self.new.receipts.items
            ≡ self.old.receipts.items ++ put_receipt ticket request ∷ [])
            × (ticket.client ≡ pass.old.client) × Claims ticket.tag (counted pass.old) pass.new)
            (λ _. (self.new.receipts.items ≡ self.old.receipts.items) × (pass.new ≡ pass.old)) }
        ensures one { OnOk result (vec_len self.new.receipts ≡ vec_len self.old.receipts + 1) }
        ensures least { vec_len self.old.receipts ≤ vec_len self.new.receipts }
    {
        self.receipts.reserve(1)?;
        let ticket = port.submit(rt, pass, &request)?;
        self.receipts.push_reserved(put_receipt(&ticket, request));
        Ok(ticket)
    }

    /// Waits for the answer of a ticket, takes it, and keeps its receipt. Tells whether the answer is that all is done,
    /// with these bytes.
    ///
    /// # Errors
    ///
    /// Those of `LockedPort::await_answer`. Nothing is taken then.
    fn take<L: PortName, R: Wait>(
        &mut self,
        rt: &R,
        port: &LockedPort<L>,
        pass: &mut Pass<L>,
        ticket: Ticket,
        bytes: &[u8],
    ) -> Result<bool, PortError>
        ensures steps { MatchResult result
            (λ is_so. (taken : Receipt)
            × (self.new.receipts.items ≡ self.old.receipts.items ++ taken ∷ [])
            × (taken.step ≡ steps.Take pass.old.client ticket.tag) × (ticket.number < taken.number)
            × ((is_so ≡ true) ↔ (taken.reply ≡ Done bytes.now))
            × Frees ticket.tag (counted pass.old) pass.new)
            (λ _. (self.new.receipts.items ≡ self.old.receipts.items) × (pass.new ≡ pass.old)) }
        ensures one { OnOk result (vec_len self.new.receipts ≡ vec_len self.old.receipts + 1) }
        ensures least { vec_len self.old.receipts ≤ vec_len self.new.receipts }
    {
        self.receipts.reserve(1)?;
        let receipt = port.await_answer(rt, pass, ticket)?;
        let is_so = receipt.reply.bytes() == Some(bytes);
        self.receipts.push_reserved(receipt);
        Ok(is_so)
    }

    /// Puts a request, and takes its answer. Tells whether that is that all is done, with these bytes.
    ///
    /// # Errors
    ///
    /// Those of `put`, and nothing is put then; those of `take`, and then the request is put.
    fn transfer<L: PortName, R: Wait>(
        &mut self,
        rt: &R,
        port: &LockedPort<L>,
        pass: &mut Pass<L>,
        request: Request,
        bytes: &[u8],
    ) -> Result<bool, PortError>
        ensures steps { MatchResult result
            (λ is_so. (put : Receipt) × (taken : Receipt)
            × (self.new.receipts.items ≡ self.old.receipts.items ++ put ∷ taken ∷ [])
            × IsTransfer pass.old.client request taken.reply put taken
            × ((is_so ≡ true) ↔ (taken.reply ≡ Done bytes.now)))
            (λ _. (made : List Receipt)
            × (self.new.receipts.items ≡ self.old.receipts.items ++ made)
            × (length made < 2)) }
        ensures client { pass.new.client ≡ pass.old.client }
        ensures both { OnOk result (vec_len self.new.receipts ≡ vec_len self.old.receipts + 2) }
        ensures least { vec_len self.old.receipts ≤ vec_len self.new.receipts }
    {
        let ticket = self.put(rt, port, pass, request)?;
        self.take(rt, port, pass, ticket, bytes)
    }

    /// A round: fills the client's sector with one byte, and reads it back. Tells whether the port wrote it, and then
    /// read what was written.
    ///
    /// # Errors
    ///
    /// `OutOfMemory`, `HistoryFull`, or `SlotBusy` where there are more clients than tags.
    fn round<L: PortName, R: Wait>(
        &mut self,
        rt: &R,
        alloc: Global,
        port: &LockedPort<L>,
        pass: &mut Pass<L>,
        byte: u8,
    ) -> Result<bool, PortError>
        ensures steps { MatchResult result
            (λ is_right. (made : List Receipt)
            × (self.new.receipts.items ≡ self.old.receipts.items ++ made)
            × TellsRound pass.old.client byte is_right made)
            (λ _. (made : List Receipt)
            × (self.new.receipts.items ≡ self.old.receipts.items ++ made)
            × (length made < steps_of_round)) }
        ensures client { pass.new.client ≡ pass.old.client }
        ensures all { OnOk result (vec_len self.new.receipts
            ≡ vec_len self.old.receipts + steps_of_round) }
        ensures least { vec_len self.old.receipts ≤ vec_len self.new.receipts }
    {
        let lba = u64::from(pass.client());
        let sector = sector_of(alloc, byte)?;
        let bytes = sector_of(alloc, byte)?;
        let is_written = self.transfer(rt, port, pass, Request::Write { lba, bytes }, &[])?;
        let read = Request::Read { lba, count: 1 };
        let is_read = self.transfer(rt, port, pass, read, sector.as_slice())?;
        Ok(is_written && is_read)
    }

    /// Makes a round, and tells whether it was made and is right. Keeps the error that it ends with.
    pub(crate) fn makes<L: PortName, R: Wait>(
        &mut self,
        rt: &R,
        alloc: Global,
        port: &LockedPort<L>,
        pass: &mut Pass<L>,
        byte: u8,
    ) -> bool
        ensures made { result ≡ true → (last : List Receipt)
            × (self.new.receipts.items ≡ self.old.receipts.items ++ last)
            × TellsRound pass.old.client byte true last }
        ensures left { result ≡ false → (rest : List Receipt)
            × (self.new.receipts.items ≡ self.old.receipts.items ++ rest)
            × ((length rest < steps_of_round) ⊎ TellsRound pass.old.client byte false rest) }
        ensures client { pass.new.client ≡ pass.old.client }
        ensures all { result ≡ true → vec_len self.new.receipts
            ≡ vec_len self.old.receipts + steps_of_round }
        ensures least { vec_len self.old.receipts ≤ vec_len self.new.receipts }
    {
        match self.round(rt, alloc, port, pass, byte) {
            Ok(is_right) => is_right,
            Err(error) => {
                self.refusal = Some(error);
                false
            }
        }
    }
}

/// A sector that is filled with one byte.
fn sector_of(alloc: Global, byte: u8) -> Result<Bytes, AllocError>
    ensures { IfOk result (λ bytes. bytes ≡ filled byte) }
{
    let mut bytes = Vec::new(alloc);
    bytes.resize(SECTOR_SIZE, byte)?;
    Ok(Bytes::from_vec(bytes))
}
