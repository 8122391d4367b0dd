//! Where a value stands in a call, and so what the numbers there mean.

ghost use Rattle.std.specs.Prelude.{◌≡◌, MatchOption, Some, None};
ghost use Rattle.tcg_calls.specs.Places.{place_in_call, place_of_name, place_behind, number_name};

use crate::call_shapes::parameter;
use crate::tcg_names::column_name;
use sp_cells::{Column, Uid};

/// Where a value stands. A table is named by the upper four bytes of its rows' names.
#[derive(Clone, Copy, Debug)]
pub(crate) enum Place {
    /// Where numbers are only numbers.
    Plain,
    /// Among the arguments of a Get on a row of this table.
    Get(u64),
    /// Where a name of these stands.
    GetName,
    /// Among the arguments of a Set on a row of this table.
    Set(u64),
    /// Where a name of these stands.
    SetName,
    /// Among the arguments of a Next.
    Next,
    /// Where a name of these stands.
    NextName,
    /// Among the cells that are set in a row of this table.
    Cells(u64),
    /// Where a column of this table stands.
    Column(u64),
}

impl Place {
    /// Where the arguments of a method of this object stand.
    pub(crate) fn of_call(object: Uid, method: Uid) -> Place
        ensures { result ≡ place_in_call object method }
    {
        if method == Uid::GET {
            Place::Get(object.table())
        } else if method == Uid::SET {
            Place::Set(object.table())
        } else if method == Uid::NEXT {
            Place::Next
        } else {
            Place::Plain
        }
    }

    /// Where the name of a named value stands.
    pub(crate) fn of_name(self) -> Place
        ensures { result ≡ place_of_name self }
    {
        match self {
            Place::Get(_) => Place::GetName,
            Place::Set(_) => Place::SetName,
            Place::Next => Place::NextName,
            Place::Cells(table) => Place::Column(table),
            _ => Place::Plain,
        }
    }

    /// Where a value stands that has this number as its name.
    pub(crate) fn behind(self, name: Option<u64>) -> Place
        ensures { result ≡ place_behind self name }
    {
        match (self, name) {
            (Place::Get(table), Some(parameter::START_COLUMN | parameter::END_COLUMN)) => {
                Place::Column(table)
            }
            (Place::Set(table), Some(parameter::VALUES)) => Place::Cells(table),
            _ => Place::Plain,
        }
    }

    /// The name of a number that stands here.
    pub(crate) fn number_name(self, number: u64) -> Option<&'static str>
        ensures { MatchOption result (number_name self number ≡ None)
            (λ name. number_name self number ≡ Some name.now) }
    {
        match (self, number) {
            (Place::GetName, parameter::START_ROW) => Some("startRow"),
            (Place::GetName, parameter::END_ROW) => Some("endRow"),
            (Place::GetName, parameter::START_COLUMN) => Some("startColumn"),
            (Place::GetName, parameter::END_COLUMN) => Some("endColumn"),
            (Place::SetName, parameter::WHERE) => Some("Where"),
            (Place::SetName, parameter::VALUES) => Some("Values"),
            (Place::NextName, parameter::NEXT_WHERE) => Some("Where"),
            (Place::NextName, parameter::NEXT_COUNT) => Some("Count"),
            (Place::Column(table), _) => column_name(table, Column(number)),
            _ => None,
        }
    }
}
