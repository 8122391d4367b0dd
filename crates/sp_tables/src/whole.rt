//! The tables of both SPs, and the setting of cells, all or none.

ghost use Rattle.std.specs.Prelude.{◌≡◌, [], ◌∷◌, map, IfOk, OnOk, OnErr, Some, option_copied, unwrap_or};
ghost use Rattle.sp_cells.specs.Flat.{with_cells};
ghost use Rattle.sp_tables.specs.Items.{replaced, item_of};
ghost use Rattle.sp_tables.specs.Contents.{Contents, items_of, flat as flat_list, cells_look_up as look_up_in, with_row, factory_contents};
ghost use Rattle.sp_tables.specs.Faults.{set_fault, TellsFault};
ghost use Rattle.sp_cells.specs.Config.{sizes_in};
ghost use Rattle.sp_cells.specs.Ranges.{AreApart};

use crate::sp_rows::{ListedCell, SpTables, exchange_all, new_cells, new_halves};
use basics::Profile;
use sp_cells::{Cell, Column, DriveConfig, Rows, SetError, Sp, TableSizes, Uid};
use std::alloc::{AllocError, Global};
use std::marker::Model;

/// The rows of both SPs of a drive, and what the drive was made with. No two numbered ranges have a sector in
/// common.
#[derive(Drop)]
pub struct Tables {
    pub(crate) alloc: Global,
    pub(crate) config: DriveConfig,
    pub(crate) admin: SpTables,
    pub(crate) locking: SpTables,
}

impl Model for Tables {
    ghost use Rattle.sp_tables.specs.Contents.{Contents, cells_look_up};
    ghost use Rattle.sp_cells.specs.Ranges.{AreApart};

    ghost Value = { Contents };

    ghost use Rattle.sp_tables.specs.Halves.{half_items};

    ghost view = { λ t. record {
      admin = half_items t.admin;
      locking = half_items t.locking;
      config = t.config;
    } };

    ghost invariant = { λ t. AreApart
        (cells_look_up (record {
          admin = half_items t.admin;
          locking = half_items t.locking;
          config = t.config;
        })) };
}

impl Tables {
    /// The tables of a new drive. It is a call of its own for the stack that it takes.
    #[tactic(auto, using(crate::proofs::ContentLemmas::new_tables))]
    #[inline(never)]
    pub fn factory(alloc: Global, config: &DriveConfig) -> Result<Tables, AllocError>
        ensures { IfOk result (λ t. t ≡ factory_contents config.now) }
    {
        let copy = config.copy()?;
        let halves = new_halves(alloc, config)?;
        Ok(Tables {
            alloc,
            config: copy,
            admin: halves.0,
            locking: halves.1,
        })
    }

    /// The same tables once more, in memory of their own.
    pub fn copy(&self) -> Result<Tables, AllocError>
        ensures { IfOk result (λ copied. copied ≡ self.now) }
    {
        Ok(Tables {
            alloc: self.alloc,
            config: self.config.copy()?,
            admin: self.admin.copy(self.alloc)?,
            locking: self.locking.copy(self.alloc)?,
        })
    }

    /// What the drive was made with.
    pub fn config(&self) -> &DriveConfig
        ensures { result.now ≡ self.now.config }
    {
        &self.config
    }

    /// No two numbered ranges meet: the type promises it, and says so where a field is used.
    pub(crate) fn are_apart(&self)
        ensures { AreApart (look_up_in self.now) }
    {
        let _ = &self.config;
    }

    /// The cell at a place, where there is one.
    #[tactic(auto, using(crate::proofs::ContentLemmas::halves))]
    pub fn get_cell(&self, sp: Sp, object: Uid, column: Column) -> Option<&Cell>
        ensures value { option_copied result ≡ look_up_in self.now sp object column }
        ensures apart { AreApart (look_up_in self.now) }
    {
        match sp {
            Sp::Admin => self.admin.cell(object, column),
            Sp::Locking => self.locking.cell(object, column),
        }
    }

    /// All cells of an SP, table by table.
    pub fn cells(&self, alloc: Global, sp: Sp) -> Result<Vec<ListedCell>, AllocError>
        ensures { IfOk result (λ v. map item_of v.items ≡ items_of self.now sp) }
    {
        match sp {
            Sp::Admin => self.admin.cells(alloc),
            Sp::Locking => self.locking.cells(alloc),
        }
    }
}

impl Tables {
    /// Sets these cells of an object, all or none, and gives the old ones in the same order. Where a column is
    /// named twice, the later value counts.
    #[tactic(auto, using(crate::proofs::TableLemmas::flattened))]
    pub fn set_row(
        &mut self,
        sp: Sp,
        object: Uid,
        changes: &[(Column, Cell)],
    ) -> Result<Vec<Cell>, SetError>
        ensures ok { OnOk result (self.new ≡ with_row sp object changes.now self.old) }
        ensures flat { OnOk result
            (flat_list self.new ≡ with_cells (flat_list self.old) sp object changes.now) }
        ensures old { IfOk result
            (λ cells. cells.items ≡ replaced (items_of self.old sp) object changes.now) }
        ensures fault { TellsFault (set_fault self.old sp object changes.now) result }
        ensures err { OnErr result (self.new ≡ self.old) }
    {
        let cells = self.put(sp, object, changes)?;
        Ok(cells)
    }

    /// Sets these cells of an object, all or none.
    fn put(
        &mut self,
        sp: Sp,
        object: Uid,
        changes: &[(Column, Cell)],
    ) -> Result<Vec<Cell>, SetError>
        ensures ok { OnOk result (self.new ≡ with_row sp object changes.now self.old) }
        ensures old { IfOk result
            (λ cells. cells.items ≡ replaced (items_of self.old sp) object changes.now) }
        ensures fault { TellsFault (set_fault self.old sp object changes.now) result }
        ensures err { OnErr result (self.new ≡ self.old) }
    {
        if let Some(fault) = self.fault(sp, object, changes) {
            return Err(fault);
        }
        let mut cells = new_cells(self.alloc, changes)?;
        match sp {
            Sp::Admin => exchange_all(&mut self.admin, object, changes, &mut cells),
            Sp::Locking => exchange_all(&mut self.locking, object, changes, &mut cells),
        }
        Ok(cells)
    }

    /// Sets one cell, as `set_row` does, and gives the old one.
    pub fn set_cell(
        &mut self,
        sp: Sp,
        object: Uid,
        column: Column,
        cell: Cell,
    ) -> Result<Cell, SetError>
        ensures ok { OnOk result (self.new ≡ with_row sp object ((column, cell) ∷ []) self.old) }
        ensures old { IfOk result
            (λ old. old ≡ unwrap_or (look_up_in self.old sp object column) cell) }
        ensures fault { TellsFault (set_fault self.old sp object ((column, cell) ∷ [])) result }
        ensures err { OnErr result (self.new ≡ self.old) }
    {
        let mut old = self.set_row(sp, object, &[(column, cell)])?;
        Ok(old.pop().unwrap())
    }
}

impl Rows for Tables {
    ghost look_up = { look_up_in };

    ghost shadow_sectors = { λ t. t.config.mbr_sectors };

    ghost sizes_of = { λ t. sizes_in t.config };

    ghost profile_of = { λ t. t.config.profile };

    fn cell(&self, sp: Sp, object: Uid, column: Column) -> Option<&Cell> {
        self.get_cell(sp, object, column)
    }

    fn mbr_sectors(&self) -> u64 {
        self.config.mbr_sectors()
    }

    fn table_sizes(&self) -> TableSizes {
        self.config.table_sizes()
    }

    fn profile(&self) -> Profile {
        self.config.profile()
    }
}
