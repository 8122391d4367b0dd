//! The byte tables of the Locking SP: their bytes stand behind one another, those of the shadow MBR first.

ghost use Rattle.std.specs.Prelude.{◌≡◌, ◌+◌, ◌*◌, ◌≤◌, ◌<◌, ◌^◌};
ghost use Rattle.shadow_mbr.specs.Stored.{sector_size};
ghost use Rattle.sp_cells.specs.ByteTables.{bytes_of_table, table_begin, sectors_of, fits_table};
ghost use Rattle.sp_cells.specs.Limits.{most_mbr_sectors, most_datastore_bytes};

use shadow_mbr::SECTOR_SIZE;

/// A byte table.
#[derive(Clone, Copy, Debug, PartialEq, Eq)]
pub enum ByteTable {
    /// What hosts read in place of the first sectors while the shadow covers them.
    ShadowMbr,

    /// What a host keeps on the drive for itself.
    DataStore,
}

/// How large the byte tables of a drive are.
#[derive(Clone, Copy, Debug, PartialEq, Eq)]
pub struct TableSizes {
    /// The sectors of the shadow MBR.
    pub mbr_sectors: u64,

    /// The bytes of DataStore.
    pub datastore: u64,
}

impl TableSizes {
    /// The bytes of a table.
    pub fn bytes_of(self, table: ByteTable) -> u64
        requires { self.mbr_sectors ≤ most_mbr_sectors }
        ensures { result ≡ bytes_of_table self table }
    {
        match table {
            ByteTable::ShadowMbr => SECTOR_SIZE as u64 * self.mbr_sectors,
            ByteTable::DataStore => self.datastore,
        }
    }

    /// The place of the first byte of a table.
    pub fn begin_of(self, table: ByteTable) -> u64
        requires { self.mbr_sectors ≤ most_mbr_sectors }
        ensures value { result ≡ table_begin self table }
        ensures within { result + bytes_of_table self table ≤ sector_size * sectors_of self }
    {
        match table {
            ByteTable::ShadowMbr => 0,
            ByteTable::DataStore => SECTOR_SIZE as u64 * self.mbr_sectors,
        }
    }

    /// The sectors in which all of them stand.
    pub fn sectors(self) -> u64
        requires small { self.mbr_sectors ≤ most_mbr_sectors }
        requires few { self.datastore ≤ most_datastore_bytes }
        ensures { result ≡ sectors_of self }
    {
        self.mbr_sectors + (self.datastore + 511) / SECTOR_SIZE as u64
    }

    /// Whether bytes from this row on stand within a table.
    pub fn fits(self, table: ByteTable, row: u64, bytes: &[u8]) -> bool
        requires { self.mbr_sectors ≤ most_mbr_sectors }
        ensures { result ≡ fits_table self table row bytes.now }
    {
        u128::from(row) + bytes.len() as u128 <= u128::from(self.bytes_of(table))
    }
}
