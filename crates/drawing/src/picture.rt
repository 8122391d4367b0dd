//! A picture as a value: rows with names, bars over columns, and marks.

use crate::paint::Paint;
use basics::Bytes;
use std::alloc::{AllocError, Global};
use std::marker::Model;

/// A bar in a row, over so many columns from one on. Rows and columns are counted from 0.
#[derive(Debug, Drop)]
pub struct Bar {
    pub row: u32,
    pub from: u32,
    pub columns: u32,
    pub paint: Paint,
    /// What the bar stands for: it is written in the bar, and shown over it.
    pub says: Bytes,
}

/// A mark in a row at a column.
#[derive(Debug, Drop)]
pub struct Mark {
    pub row: u32,
    pub at: u32,
    /// What the mark stands for: it is shown over it.
    pub says: Bytes,
}

/// How many rows there are at most.
const MOST_ROWS: usize = 0xffff_ffff;

/// A picture.
#[derive(Drop)]
pub struct Picture {
    title: Bytes,
    columns: u32,
    rows: Vec<Bytes>,
    bars: Vec<Bar>,
    marks: Vec<Mark>,
}

impl Model for Picture {
    ghost use Rattle.drawing.specs.Pictures.{Picture};

    ghost Value = { Picture };

    ghost view = { λ p. record {
      title = p.title;
      columns = p.columns;
      rows = p.rows.items;
      bars = p.bars.items;
      marks = p.marks.items;
    } };

    ghost use Rattle.std.specs.Prelude.{◌<◌, ◌^◌, vec_len};

    ghost invariant = { λ p. vec_len p.rows < 2 ^ 32 };
}

impl Picture {
    ghost use Rattle.std.specs.Prelude.{◌≡◌, ◌<◌, ◌^◌, length, IfOk, OnOk, OnErr};
    ghost use Rattle.drawing.specs.Pictures.{blank_picture, with_named_row, with_bar, with_mark};

    /// A picture in which nothing is drawn yet.
    pub fn new(alloc: Global, title: Bytes, columns: u32) -> Picture
        ensures { result ≡ blank_picture title columns }
    {
        Picture {
            title,
            columns,
            rows: Vec::new(alloc),
            bars: Vec::new(alloc),
            marks: Vec::new(alloc),
        }
    }

    /// What stands over the picture.
    pub fn title(&self) -> &[u8]
        ensures { result.now ≡ self.now.title }
    {
        self.title.as_slice()
    }

    /// How many columns there are.
    pub fn columns(&self) -> u32
        ensures { result ≡ self.now.columns }
    {
        self.columns
    }

    /// The names of the rows, the topmost first.
    pub fn rows(&self) -> &[Bytes]
        ensures value { result.now ≡ self.now.rows }
        ensures most { length result.now < 2 ^ 32 }
    {
        self.rows.as_slice()
    }

    /// The bars.
    pub fn bars(&self) -> &[Bar]
        ensures { result.now ≡ self.now.bars }
    {
        self.bars.as_slice()
    }

    /// The marks.
    pub fn marks(&self) -> &[Mark]
        ensures { result.now ≡ self.now.marks }
    {
        self.marks.as_slice()
    }

    /// Adds a row below the others, and gives its number.
    ///
    /// # Errors
    ///
    /// An allocation was refused, or there are as many rows as 32 bits number; then the picture is as before.
    pub fn add_row(&mut self, name: Bytes) -> Result<u32, AllocError>
        ensures number { IfOk result (λ row. row ≡ length self.old.rows) }
        ensures added { OnOk result (self.new ≡ with_named_row name self.old) }
        ensures err { OnErr result (self.new ≡ self.old) }
    {
        let row = self.rows.len();
        if row >= MOST_ROWS {
            return Err(AllocError);
        }
        self.rows.push(name)?;
        Ok(row as u32)
    }

    /// Adds a bar.
    ///
    /// # Errors
    ///
    /// An allocation was refused; then the picture is as before.
    pub fn add_bar(&mut self, bar: Bar) -> Result<(), AllocError>
        ensures added { OnOk result (self.new ≡ with_bar bar self.old) }
        ensures err { OnErr result (self.new ≡ self.old) }
    {
        self.bars.push(bar)?;
        Ok(())
    }

    /// Adds a mark.
    ///
    /// # Errors
    ///
    /// An allocation was refused; then the picture is as before.
    pub fn add_mark(&mut self, mark: Mark) -> Result<(), AllocError>
        ensures added { OnOk result (self.new ≡ with_mark mark self.old) }
        ensures err { OnErr result (self.new ≡ self.old) }
    {
        self.marks.push(mark)?;
        Ok(())
    }
}
