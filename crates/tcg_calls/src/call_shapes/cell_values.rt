//! Cells as values of token streams, both ways.

ghost use Rattle.std.specs.Prelude.{◌≡◌, ◌==◌, ◌<◌, ◌≤◌, ◌^◌, ◌++◌, [], ◌∷◌, List, map, length, IfOk, OnOk, IsTrue, option_map, ℕ, None, Some, if◌then◌else◌};
ghost use Rattle.std.specs.Str.{bytes_eq};
ghost use Rattle.tcg_tokens.specs.Tree.{tree, trees, trees_of, bytes, number, list, named};
ghost use Rattle.sp_cells.specs.Limits.{most_elements, cryptographic_erase};
ghost use Rattle.tcg_calls.specs.CellValues.{uid_tree, element_tree, numbers_tree, cell_tree, each_of, number_in as number_of_tree, operator_in as operator_of_tree, element_in as element_of_tree, bytes_in as bytes_of_tree, numbers_in as numbers_of_trees, elements_in as elements_of_trees, expression_of, resets_of, columns_written as columns_of_numbers, name_cell, bytes_at_most, with_power_cycle, one_name_of, flag_of, mechanism_of, cell_in};
ghost use Rattle.tcg_calls.specs.Named.{list_in as list_of_tree};
ghost use Rattle.sp_cells.specs.Names.{col};

use crate::call_shapes::ask::uid_in;
use crate::call_shapes::named::list_in;
use arrayvec::ArrayVec;
use sp_cells::limits::{
    CRYPTOGRAPHIC_ERASE, MOST_COMMON_NAME_BYTES, MOST_ELEMENTS, MOST_PIN_BYTES, MOST_SHORT_ELEMENTS,
};
use sp_cells::values::ColumnType;
use sp_cells::{Bytes, Cell, Column, Columns, Element, Expr, ResetTypes, Uid};
use std::alloc::{AllocError, Global};
use tcg_tokens::Value;

/// The type of an element of an expression that names an authority.
const AUTHORITY_REF: [u8; 4] = [0, 0, 0x0c, 0x05];

/// The type of an element of an expression that is an operator.
const OPERATOR_REF: [u8; 4] = [0, 0, 0x04, 0x0e];

/// Bytes as a value.
pub fn bytes_value(alloc: Global, octets: &[u8]) -> Result<Value, AllocError>
    ensures { IfOk result (λ v. tree v ≡ bytes octets.now) }
{
    let items = Vec::from_slice(alloc, octets)?;
    Ok(Value::Bytes(tcg_tokens::Bytes::from_vec(items)))
}

/// The name of an object as a value: its eight bytes.
fn uid_value(alloc: Global, uid: Uid) -> Result<Value, AllocError>
    ensures { IfOk result (λ v. tree v ≡ uid_tree uid) }
{
    let value = bytes_value(alloc, &uid.0.to_be_bytes())?;
    Ok(value)
}

/// A value with a name.
#[tactic(auto, using(crate::proofs::call_shapes::CellLemmas::made))]
pub fn named_value(alloc: Global, name: Value, content: Value) -> Result<Value, AllocError>
    ensures { IfOk result (λ v. tree v ≡ named (tree name) (tree content)) }
{
    Ok(Value::Named(Box::new(alloc, (name, content))?))
}

/// Values as one that is their list.
#[tactic(auto, using(crate::proofs::call_shapes::CellLemmas::made))]
pub fn list_value(items: Vec<Value>) -> Value
    ensures { tree result ≡ list (trees items.items) }
{
    Value::List(items)
}

/// An element of an expression as a value.
fn element_value(alloc: Global, element: Element) -> Result<Value, AllocError>
    ensures { IfOk result (λ v. tree v ≡ element_tree element) }
{
    match element {
        Element::Authority(authority) => {
            let name = bytes_value(alloc, &AUTHORITY_REF)?;
            let content = uid_value(alloc, authority)?;
            Ok(named_value(alloc, name, content)?)
        }
        Element::And => {
            let name = bytes_value(alloc, &OPERATOR_REF)?;
            Ok(named_value(alloc, name, Value::Number(0))?)
        }
        Element::Or => {
            let name = bytes_value(alloc, &OPERATOR_REF)?;
            Ok(named_value(alloc, name, Value::Number(1))?)
        }
    }
}

/// Numbers as values.
fn number_values(alloc: Global, numbers: &[u64]) -> Result<Vec<Value>, AllocError>
    ensures { IfOk result (λ vs. map tree vs.items ≡ map number numbers.now) }
{
    let mut values = Vec::new(alloc);
    for number in numbers {
        values.push(Value::Number(*number))?;
    }
    Ok(values)
}

/// The numbers of columns as values.
fn column_values(alloc: Global, columns: &[Column]) -> Result<Vec<Value>, AllocError>
    ensures { IfOk result (λ vs. map tree vs.items ≡ map number (map (λ c. c.0) columns.now)) }
{
    let mut values = Vec::new(alloc);
    for column in columns {
        values.push(Value::Number(column.0))?;
    }
    Ok(values)
}

/// The elements of an expression as values.
fn element_values(alloc: Global, elements: &[Element]) -> Result<Vec<Value>, AllocError>
    ensures { IfOk result (λ vs. map tree vs.items ≡ map element_tree elements.now) }
{
    let mut values = Vec::new(alloc);
    for element in elements {
        values.push(element_value(alloc, *element)?)?;
    }
    Ok(values)
}

/// A list of one name.
fn one_name_value(alloc: Global, name: &[u8]) -> Result<Value, AllocError>
    ensures { IfOk result (λ v. tree v ≡ list (trees_of (bytes name.now ∷ []))) }
{
    let mut values = Vec::new(alloc);
    values.push(bytes_value(alloc, name)?)?;
    Ok(list_value(values))
}

/// A cell as Get writes it.
pub fn value_of(alloc: Global, cell: &Cell) -> Result<Value, AllocError>
    ensures { IfOk result (λ v. tree v ≡ cell_tree cell.now) }
{
    Ok(match cell {
        Cell::Number(number) => Value::Number(*number),
        Cell::Bytes(octets) => bytes_value(alloc, octets.as_slice())?,
        Cell::Uid(uid) => uid_value(alloc, *uid)?,
        Cell::Numbers(resets) => list_value(number_values(alloc, resets.numbers().as_slice())?),
        Cell::Expr(expr) => list_value(element_values(alloc, expr.as_slice())?),
        Cell::Columns(columns) => list_value(column_values(alloc, columns.as_slice())?),
        Cell::OneName(name) => one_name_value(alloc, name.as_slice())?,
    })
}

/// A number that is a value.
pub fn number_in(value: &Value) -> Option<u64>
    ensures { result ≡ number_of_tree (tree value.now) }
{
    match value {
        Value::Number(number) => Some(*number),
        _ => None,
    }
}

/// Bytes that are a value.
fn bytes_in(value: &Value) -> Option<&[u8]>
    ensures { option_map (λ b. b.now) result ≡ bytes_of_tree (tree value.now) }
{
    match value {
        Value::Bytes(octets) => Some(octets.as_slice()),
        _ => None,
    }
}

/// The operator that a value writes.
fn operator_in(value: &Value) -> Option<Element>
    ensures { result ≡ operator_of_tree (tree value.now) }
{
    match value {
        Value::Number(0) => Some(Element::And),
        Value::Number(1) => Some(Element::Or),
        _ => None,
    }
}

/// The element of an expression that a value writes.
fn element_in(value: &Value) -> Option<Element>
    ensures { result ≡ element_of_tree (tree value.now) }
{
    let Value::Named(both) = value else {
        return None;
    };
    let (name, content) = &**both;
    let kind = bytes_in(name)?;
    if kind == AUTHORITY_REF.as_slice() {
        let authority = uid_in(content)?;
        Some(Element::Authority(authority))
    } else if kind == OPERATOR_REF.as_slice() {
        operator_in(content)
    } else {
        None
    }
}

/// The numbers that values are, where each is one.
fn numbers_in(alloc: Global, values: &[Value]) -> Result<Option<Vec<u64>>, AllocError>
    ensures { IfOk result (λ ns.
        option_map (λ v. v.items) ns ≡ each_of number_of_tree (map tree values.now)) }
{
    let mut numbers = Vec::new(alloc);
    for value in values {
        let Some(number) = number_in(value) else {
            return Ok(None);
        };
        numbers.push(number)?;
    }
    Ok(Some(numbers))
}

/// The elements that values write, where each writes one.
fn elements_in(values: &[Value]) -> Option<ArrayVec<Element, MOST_ELEMENTS>>
    requires { length values.now ≤ most_elements }
    ensures { option_map (λ v. v.items) result ≡ each_of element_of_tree (map tree values.now) }
{
    let mut elements = ArrayVec::new();
    for value in values {
        elements.push(element_in(value)?);
    }
    Some(elements)
}

/// The expression that a value writes, of so many elements at most.
#[tactic(auto, using(crate::proofs::call_shapes::CellLemmas::too_long))]
fn expression_in(alloc: Global, most: usize, value: &Value) -> Result<Option<Cell>, AllocError>
    requires { most ≤ most_elements }
    ensures { IfOk result (λ c.
        c ≡ expression_of most (elements_of_trees (list_of_tree (tree value.now)))) }
{
    let Some(values) = list_in(value) else {
        return Ok(None);
    };
    if values.len() > most {
        return Ok(None);
    }
    let Some(elements) = elements_in(values) else {
        return Ok(None);
    };
    let expr = Expr::new(alloc, elements)?;
    Ok(Some(Cell::Expr(expr)))
}

/// The set of resets that a value writes.
fn resets_in(alloc: Global, value: &Value) -> Result<Option<Cell>, AllocError>
    ensures { IfOk result (λ c. c ≡ resets_of (numbers_of_trees (list_of_tree (tree value.now)))) }
{
    let Some(values) = list_in(value) else {
        return Ok(None);
    };
    let Some(numbers) = numbers_in(alloc, values)? else {
        return Ok(None);
    };
    match ResetTypes::from_numbers(&numbers) {
        Some(resets) => Ok(Some(Cell::Numbers(resets))),
        None => Ok(None),
    }
}

/// The set of resets that a value writes, where it has the power cycle.
fn power_cycle_resets_in(alloc: Global, value: &Value) -> Result<Option<Cell>, AllocError>
    ensures { IfOk result (λ c.
        c ≡ with_power_cycle (resets_of (numbers_of_trees (list_of_tree (tree value.now))))) }
{
    match resets_in(alloc, value)? {
        Some(Cell::Numbers(resets)) if resets.power_cycle => Ok(Some(Cell::Numbers(resets))),
        _ => Ok(None),
    }
}

/// The columns of these numbers.
fn columns_of(alloc: Global, numbers: &[u64]) -> Result<Columns, AllocError>
    ensures { IfOk result (λ cs. cs ≡ map col numbers.now) }
{
    let mut columns = Vec::new(alloc);
    for number in numbers {
        columns.push(Column(*number))?;
    }
    Ok(Columns::from_vec(columns))
}

/// The columns that a value lists.
fn columns_in(alloc: Global, value: &Value) -> Result<Option<Cell>, AllocError>
    ensures { IfOk result (λ c.
        c ≡ columns_of_numbers (numbers_of_trees (list_of_tree (tree value.now)))) }
{
    let Some(values) = list_in(value) else {
        return Ok(None);
    };
    let Some(numbers) = numbers_in(alloc, values)? else {
        return Ok(None);
    };
    let columns = columns_of(alloc, &numbers)?;
    Ok(Some(Cell::Columns(columns)))
}

/// Bytes as those of a cell.
fn copied(alloc: Global, octets: &[u8]) -> Result<Bytes, AllocError>
    ensures { IfOk result (λ b. b ≡ octets.now) }
{
    let mut items = Vec::new(alloc);
    items.extend_from_slice(octets)?;
    Ok(Bytes::from_vec(items))
}

/// Bytes of any length that a value is.
fn name_in(alloc: Global, value: &Value) -> Result<Option<Cell>, AllocError>
    ensures { IfOk result (λ c. c ≡ name_cell (bytes_of_tree (tree value.now))) }
{
    let Some(octets) = bytes_in(value) else {
        return Ok(None);
    };
    let bytes = copied(alloc, octets)?;
    Ok(Some(Cell::Bytes(bytes)))
}

/// So many bytes at most that a value is.
fn bytes_at_most_in(alloc: Global, most: usize, value: &Value) -> Result<Option<Cell>, AllocError>
    ensures { IfOk result (λ c. c ≡ bytes_at_most most (bytes_of_tree (tree value.now))) }
{
    let Some(octets) = bytes_in(value) else {
        return Ok(None);
    };
    if octets.len() > most {
        return Ok(None);
    }
    let bytes = copied(alloc, octets)?;
    Ok(Some(Cell::Bytes(bytes)))
}

/// The one name of the list that a value is.
fn one_name_in(alloc: Global, value: &Value) -> Result<Option<Cell>, AllocError>
    ensures { IfOk result (λ c. c ≡ one_name_of (list_of_tree (tree value.now))) }
{
    let Some([Value::Bytes(name)]) = list_in(value) else {
        return Ok(None);
    };
    let name = copied(alloc, name.as_slice())?;
    Ok(Some(Cell::OneName(name)))
}

/// The flag that a value is.
fn flag_in(value: &Value) -> Option<Cell>
    ensures { result ≡ flag_of (number_of_tree (tree value.now)) }
{
    match number_in(value) {
        Some(flag) if flag <= 1 => Some(Cell::Number(flag)),
        _ => None,
    }
}

/// The way to remove data that a value is.
fn mechanism_in(value: &Value) -> Option<Cell>
    ensures { result ≡ mechanism_of (number_of_tree (tree value.now)) }
{
    match number_in(value) {
        Some(mechanism) if mechanism == CRYPTOGRAPHIC_ERASE => Some(Cell::Number(mechanism)),
        _ => None,
    }
}

/// The cell that a value writes in a column of this type; None where the column does not take the value.
pub fn cell_of(alloc: Global, kind: ColumnType, value: &Value) -> Result<Option<Cell>, AllocError>
    ensures { IfOk result (λ c. c ≡ cell_in kind (tree value.now)) }
{
    Ok(match kind {
        ColumnType::Name => name_in(alloc, value)?,
        ColumnType::CommonName => bytes_at_most_in(alloc, MOST_COMMON_NAME_BYTES, value)?,
        ColumnType::Secret => bytes_at_most_in(alloc, MOST_PIN_BYTES, value)?,
        ColumnType::Object => uid_in(value).map(Cell::Uid),
        ColumnType::Number => number_in(value).map(Cell::Number),
        ColumnType::Flag => flag_in(value),
        ColumnType::Mechanism => mechanism_in(value),
        ColumnType::Resets => resets_in(alloc, value)?,
        ColumnType::PowerCycleResets => power_cycle_resets_in(alloc, value)?,
        ColumnType::Expression => expression_in(alloc, MOST_SHORT_ELEMENTS, value)?,
        ColumnType::LongExpression => expression_in(alloc, MOST_ELEMENTS, value)?,
        ColumnType::Columns => columns_in(alloc, value)?,
        ColumnType::OneName => one_name_in(alloc, value)?,
    })
}
