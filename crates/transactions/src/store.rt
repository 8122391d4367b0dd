//! The store: rows and bytes in force, and the open transaction of each SP.

ghost use Rattle.std.specs.Prelude.{IfOk, ◌≡◌, ◌≤◌, ◌==◌, ◌+◌, ◌*◌, ◌↔◌, ℕ, Bool, [], length, None, Some, OnOk, OnErr, IfErr, IsErr, is_some, true, false, option_map};
ghost use Rattle.sp_cells.specs.declared.names.Sp.TheVariants.{Admin, Locking};
ghost use Rattle.sp_cells.specs.Config.{table_sectors};
ghost use Rattle.sp_cells.specs.Names.{c_pin_sid};
ghost use Rattle.sp_cells.specs.ColumnNames.{pin_column};
ghost use Rattle.sp_tables.specs.Items.{with_items};
ghost use Rattle.sp_tables.specs.Faults.{TellsFault};
ghost use Rattle.sp_tables.specs.Undo.{IsNoBound};
ghost use Rattle.sp_tables.specs.Tries.{is_tries as is_tries_of, names_tries as names_tries_of};
ghost use Rattle.shadow_mbr.specs.Stored.{sector_size};
ghost use Rattle.transactions.specs.Bytes.{written, blank};
ghost use Rattle.sp_tables.specs.Contents.{new_locking};
ghost use Rattle.transactions.specs.Stored.{part, at_part, is_open as is_open_in, part_begin, part_change, part_set, part_commit, part_close, part_tries, part_put, part_from, new_store, reverted, after_reset};
ghost use Rattle.transactions.specs.Sights.{committed_sight, sight_of, look_up, is_manufactured as is_manufactured_in, activated};
ghost use Rattle.transactions.specs.declared.change.TransactionError.TheVariants as errors;
ghost use Rattle.transactions.specs.Changes.{IsInside, fault_of_cells, fault_of_change};

use crate::change::{Change, SessionId, TransactionError};
use crate::log::{Pending, copied};
use crate::part::{
    begin, byte_log, byte_log_of_others, change_bytes, change_row, row_log, row_log_of_others,
    session_of, undo_admin, undo_locking,
};
use crate::view::View;
use shadow_mbr::Mbr;
use sp_cells::limits::{MANUFACTURED, MANUFACTURED_INACTIVE};
use sp_tables::{Cell, Column, Rows, SetError, Sp, Tables, Uid, copy_cells, is_pin, number_at};
use std::alloc::{AllocError, Global};
use std::marker::Model;

/// The rows in force of both SPs and the bytes of the byte tables, and on each SP what the open transaction of a session
/// makes of them. The tables have what the open transactions see; a log of each has what was there before.
#[derive(Drop)]
pub struct Store {
    alloc: Global,
    tables: Tables,
    mbr: Mbr,
    admin: Option<Pending>,
    locking: Option<Pending>,
}

impl Model for Store {
    ghost use Rattle.sp_tables.specs.Contents.{new_locking};
    ghost use Rattle.transactions.specs.Stored.{Stored};

    ghost Value = { Stored };

    ghost use Rattle.transactions.specs.Kept.{stored, row_log, byte_log, CanUndo};

    ghost view = { λ s. stored s.tables s.mbr s.admin s.locking };

    ghost invariant = { λ s. CanUndo s.tables s.mbr (row_log s.admin) (row_log s.locking)
        (byte_log s.locking) };
}

impl Store {
    /// A store with these rows and bytes in force, and no transaction.
    pub fn new(alloc: Global, tables: Tables, mbr: Mbr) -> Store
        requires { mbr.sectors ≡ table_sectors tables.config }
        ensures { result ≡ new_store tables mbr }
    {
        Store {
            alloc,
            tables,
            mbr,
            admin: None,
            locking: None,
        }
    }

    /// The same store once more, with its open transactions, in memory of its own.
    #[inline(always)]
    pub fn copy(&self) -> Result<Store, AllocError>
        ensures { IfOk result (λ copied. copied ≡ self.now) }
    {
        Ok(Store {
            alloc: self.alloc,
            tables: self.tables.copy()?,
            mbr: self.mbr.copy()?,
            admin: copied(&self.admin)?,
            locking: copied(&self.locking)?,
        })
    }

    /// The tables, and the bytes of the byte tables. Where no transaction is open they are all that the store keeps.
    pub fn kept(&self) -> (&Tables, &Mbr)
        ensures alone { (part self.now Admin).pending ≡ None
            → (part self.now Locking).pending ≡ None
            → self.now ≡ new_store result.0.now result.1.now }
        ensures config { result.0.now.config ≡ self.now.config }
        ensures sectors { result.1.now.sectors ≡ table_sectors self.now.config }
    {
        (&self.tables, &self.mbr)
    }

    /// The session whose transaction is open on the SP.
    pub fn open_on(&self, sp: Sp) -> Option<SessionId>
        ensures { result
            ≡ option_map (λ t. record { tsn = t.tsn; sp = sp }) (part self.now sp).pending }
    {
        match sp {
            Sp::Admin => session_of(&self.admin, sp),
            Sp::Locking => session_of(&self.locking, sp),
        }
    }

    /// Whether the session has a transaction open.
    pub fn is_open(&self, session: SessionId) -> bool
        ensures { result ≡ is_open_in (part self.now session.sp).pending session.tsn }
    {
        let pending = match session.sp {
            Sp::Admin => &self.admin,
            Sp::Locking => &self.locking,
        };
        match pending {
            Some(open) => open.tsn == session.tsn,
            None => false,
        }
    }

    /// Opens a transaction, where none is open on the SP. It takes no memory.
    pub fn begin(&mut self, session: SessionId) -> Result<(), TransactionError>
        ensures ok { OnOk result (self.new ≡ at_part session.sp (part_begin session.tsn) self.old) }
        ensures already { IsErr result ↔ (is_some (part self.old session.sp).pending ≡ true) }
        ensures error { IfErr result (λ e. e ≡ errors.AlreadyOpen) }
        ensures err { OnErr result (self.new ≡ self.old) }
    {
        match session.sp {
            Sp::Admin => begin(self.alloc, &mut self.admin, session.tsn)?,
            Sp::Locking => begin(self.alloc, &mut self.locking, session.tsn)?,
        }
        Ok(())
    }

    /// What is in force.
    pub fn committed(&self) -> View<'_>
        ensures { result ≡ committed_sight self.now }
    {
        View {
            tables: &self.tables,
            mbr: &self.mbr,
            admin: row_log(&self.admin),
            locking: row_log(&self.locking),
            bytes: byte_log(&self.locking),
        }
    }

    /// What a session sees: on its SP what its open transaction makes of it, else what is in force.
    pub fn view(&self, session: SessionId) -> View<'_>
        ensures { result ≡ sight_of self.now session }
    {
        match session.sp {
            Sp::Admin => View {
                tables: &self.tables,
                mbr: &self.mbr,
                admin: row_log_of_others(&self.admin, session.tsn),
                locking: row_log(&self.locking),
                bytes: byte_log(&self.locking),
            },
            Sp::Locking => View {
                tables: &self.tables,
                mbr: &self.mbr,
                admin: row_log(&self.admin),
                locking: row_log_of_others(&self.locking, session.tsn),
                bytes: byte_log_of_others(&self.locking, session.tsn),
            },
        }
    }

    /// Makes what the session sees the rows and bytes in force. It takes no memory.
    pub fn commit(&mut self, session: SessionId) -> Result<(), TransactionError>
        ensures ok { OnOk result (self.new
            ≡ at_part session.sp (part_commit session.tsn) self.old) }
        ensures not_open { IsErr result
            ↔ (is_open_in (part self.old session.sp).pending session.tsn ≡ false) }
        ensures error { IfErr result (λ e. e ≡ errors.NotOpen) }
        ensures err { OnErr result (self.new ≡ self.old) }
    {
        if !self.is_open(session) {
            return Err(TransactionError::NotOpen);
        }
        match session.sp {
            Sp::Admin => self.admin = None,
            Sp::Locking => self.locking = None,
        }
        Ok(())
    }

    /// Drops the session's transaction: what is in force stays. It takes no memory.
    pub fn abort(&mut self, session: SessionId) -> Result<(), TransactionError>
        ensures ok { OnOk result (self.new ≡ at_part session.sp part_close self.old) }
        ensures not_open { IsErr result
            ↔ (is_open_in (part self.old session.sp).pending session.tsn ≡ false) }
        ensures error { IfErr result (λ e. e ≡ errors.NotOpen) }
        ensures err { OnErr result (self.new ≡ self.old) }
    {
        if !self.is_open(session) {
            return Err(TransactionError::NotOpen);
        }
        self.close(session.sp);
        Ok(())
    }

    /// Drops the transaction that is open on the SP, whoever has it. It takes no memory.
    pub fn close(&mut self, sp: Sp)
        ensures { self.new ≡ at_part sp part_close self.old }
    {
        match sp {
            Sp::Admin => undo_admin(&mut self.tables, &mut self.admin),
            Sp::Locking => undo_locking(&mut self.tables, &mut self.mbr, &mut self.locking),
        }
    }

    /// Puts this number of wrong attempts into a C_PIN row, for every eye at once, and changes nothing where the name
    /// is none of one. It takes no memory.
    pub fn set_tries(&mut self, sp: Sp, pin: Uid, number: u64)
        ensures { self.new ≡ at_part sp (part_tries pin number) self.old }
    {
        self.tables.set_tries(sp, pin, number);
    }
}

/// Whether the place is where a C_PIN row counts wrong attempts.
fn is_tries(object: Uid, column: Column) -> bool
    ensures { result ≡ is_tries_of object column }
{
    is_pin(object) && column == Column::TRIES
}

/// Whether one of these cells is.
fn names_tries(object: Uid, cells: &[(Column, Cell)]) -> bool
    ensures { result ≡ names_tries_of object cells.now }
{
    cells.iter().any(|cell| is_tries(object, cell.0))
}

impl Store {
    /// Changes what the SP's open transaction sees, or what is in force where none is open; bytes within the
    /// sectors of the byte tables, on the Locking SP.
    pub fn set(&mut self, session: SessionId, change: &Change) -> Result<(), SetError>
        requires { IsInside self.old.config session.sp change.now }
        ensures ok { OnOk result (self.new ≡ at_part session.sp (part_set change.now) self.old) }
        ensures fault { TellsFault (fault_of_change self.old session.sp change.now) result }
        ensures err { OnErr result (self.new ≡ self.old) }
    {
        match change {
            Change::Cells { object, cells } => self.set_cells(session.sp, *object, cells)?,
            Change::Mbr { at, bytes } => self.set_bytes(*at, bytes)?,
        }
        Ok(())
    }

    /// Why these cells of an object are not set.
    fn refusal(&self, sp: Sp, object: Uid, cells: &Vec<(Column, Cell)>) -> Option<SetError>
        ensures { result ≡ fault_of_cells self.now sp object cells.now.items }
    {
        if names_tries(object, cells) {
            return Some(SetError::NoCell);
        }
        self.tables.row_fault(sp, object, cells)
    }

    fn set_cells(
        &mut self,
        sp: Sp,
        object: Uid,
        cells: &Vec<(Column, Cell)>,
    ) -> Result<(), SetError>
        ensures ok { OnOk result (self.new
            ≡ at_part sp (part_change (λ rows. with_items rows object cells.now.items)
            (λ bytes. bytes)) self.old) }
        ensures fault { TellsFault (fault_of_cells self.old sp object cells.now.items) result }
        ensures err { OnErr result (self.new ≡ self.old) }
    {
        if let Some(fault) = self.refusal(sp, object, cells) {
            return Err(fault);
        }
        self.put_cells(sp, object, cells)?;
        Ok(())
    }

    /// Sets cells that are not refused.
    fn put_cells(
        &mut self,
        sp: Sp,
        object: Uid,
        cells: &Vec<(Column, Cell)>,
    ) -> Result<(), AllocError>
        requires { fault_of_cells self.old sp object cells.now.items ≡ None }
        ensures ok { OnOk result (self.new
            ≡ at_part sp (part_change (λ rows. with_items rows object cells.now.items)
            (λ bytes. bytes)) self.old) }
        ensures err { OnErr result (self.new ≡ self.old) }
    {
        let copies = copy_cells(self.alloc, cells)?;
        match sp {
            Sp::Admin => change_row(&mut self.tables, &mut self.admin, sp, object, copies)?,
            Sp::Locking => change_row(&mut self.tables, &mut self.locking, sp, object, copies)?,
        }
        Ok(())
    }

    fn set_bytes(&mut self, at: u64, bytes: &[u8]) -> Result<(), AllocError>
        requires { at + length bytes.now ≤ sector_size * table_sectors self.old.config }
        ensures ok { OnOk result (self.new
            ≡ at_part Locking (part_change (λ rows. rows) (written at bytes.now)) self.old) }
        ensures err { OnErr result (self.new ≡ self.old) }
    {
        change_bytes(self.alloc, &mut self.mbr, &mut self.locking, at, bytes)?;
        Ok(())
    }

    /// Puts a value into one cell in force, where there is one.
    fn put(&mut self, sp: Sp, object: Uid, column: Column, cell: Cell)
        requires closed { (part self.old sp).pending ≡ None }
        requires no_tries { is_tries_of object column ≡ false }
        requires no_bound { IsNoBound object column }
        ensures { self.new ≡ at_part sp (part_put object column cell) self.old }
    {
        self.tables.restore_cell(sp, object, column, cell);
    }

    /// Makes the Locking SP Manufactured, with SID's PIN for its first Admin, where it is not so already.
    pub fn activate(&mut self) -> Result<(), AllocError>
        ensures ok { OnOk result (self.new ≡ activated self.old) }
        ensures err { OnErr result (self.new ≡ self.old) }
    {
        if self.is_manufactured() {
            return Ok(());
        }
        let pin = self.c_pin_sid()?;
        self.close(Sp::Admin);
        self.close(Sp::Locking);
        self.put(
            Sp::Admin,
            Uid::LOCKING_SP,
            Column::LIFE_CYCLE_STATE,
            Cell::Number(MANUFACTURED),
        );
        if let Some(pin) = pin {
            self.put(Sp::Locking, Uid::pin_of_admin(1), Column::PIN, pin);
        }
        Ok(())
    }

    fn is_manufactured(&self) -> bool
        ensures { result ≡ is_manufactured_in self.now }
    {
        let view = self.committed();
        let state = number_at(&view, Sp::Admin, Uid::LOCKING_SP, Column::LIFE_CYCLE_STATE);
        state == MANUFACTURED
    }

    /// The PIN of SID that is in force, copied.
    fn c_pin_sid(&self) -> Result<Option<Cell>, AllocError>
        ensures { IfOk result (λ pin. pin
            ≡ look_up (committed_sight self.now) Admin c_pin_sid pin_column) }
    {
        let view = self.committed();
        view.cell(Sp::Admin, Uid::C_PIN_SID, Column::PIN)
            .map(|pin| pin.copy())
            .transpose()
    }

    /// Makes the cells of the SP those of a new drive, of the Admin SP those of both, and the bytes of the byte
    /// tables zeros. The Locking SP is Manufactured-Inactive then, and no transaction stays open.
    pub fn revert(&mut self, sp: Sp) -> Result<(), AllocError>
        ensures ok { OnOk result (self.new ≡ reverted sp self.old) }
        ensures err { OnErr result (self.new ≡ self.old) }
    {
        match sp {
            Sp::Admin => self.restore_both()?,
            Sp::Locking => {
                self.restore_locking()?;
                self.close(Sp::Admin);
                self.put(
                    Sp::Admin,
                    Uid::LOCKING_SP,
                    Column::LIFE_CYCLE_STATE,
                    Cell::Number(MANUFACTURED_INACTIVE),
                );
            }
        }
        Ok(())
    }

    fn restore_both(&mut self) -> Result<(), AllocError>
        ensures ok { OnOk result (self.new ≡ reverted Admin self.old) }
        ensures err { OnErr result (self.new ≡ self.old) }
    {
        self.tables.restore_factory(Sp::Admin)?;
        self.mbr.wipe();
        self.admin = None;
        self.locking = None;
        Ok(())
    }

    fn restore_locking(&mut self) -> Result<(), AllocError>
        ensures ok { OnOk result (self.new
            ≡ at_part Locking
            (λ p. part_from (new_locking self.old.config) (blank p.bytes)) self.old) }
        ensures err { OnErr result (self.new ≡ self.old) }
    {
        self.tables.restore_factory(Sp::Locking)?;
        self.mbr.wipe();
        self.locking = None;
        Ok(())
    }

    /// Does what a reset of this kind does to the cells, with the open transactions dropped. It takes no memory.
    pub fn reset_rows(&mut self, kind: u8)
        ensures { self.new ≡ after_reset kind self.old }
    {
        self.close(Sp::Admin);
        self.close(Sp::Locking);
        self.reset_cells(kind);
    }

    fn reset_cells(&mut self, kind: u8)
        requires admin { self.old.admin.pending ≡ None }
        requires locking { self.old.locking.pending ≡ None }
        ensures { self.new ≡ after_reset kind self.old }
    {
        self.tables.reset_rows(kind);
    }
}
