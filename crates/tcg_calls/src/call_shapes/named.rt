//! Arguments that are named by numbers.

ghost use Rattle.std.specs.Prelude.{◌≡◌, ◌<◌, ◌∷◌, ◌==◌, [], List, map, length, IfOk, option_map, ℕ, None, Some};
ghost use Rattle.tcg_tokens.specs.Tree.{tree};
ghost use Rattle.tcg_calls.specs.Named.{assigned as assigned_by, has_name, assignments as assignments_of, value_of, list_in, pair_of, are_among as are_among_names, options as options_of, number_or as number_or_in, number_if_any as number_if_any_in, bytes_or_empty as bytes_or_empty_in};

use std::alloc::{AllocError, Global};
use std::marker::Model;
use tcg_tokens::Value;

/// Values that are named by numbers, no two by the same, seen as the list of names and values.
#[derive(Drop)]
pub struct Assignments<'a> {
    items: Vec<(u64, &'a Value)>,
}

impl<'a> Model for Assignments<'a> {
    ghost use Rattle.std.specs.Prelude.{List, ℕ, map};
    ghost use Rattle.tcg_tokens.specs.Tree.{Tree, tree};
    ghost use Rattle.tcg_calls.specs.TreeCode.{assignments_code};

    ghost Value = { List (ℕ × Tree) };

    ghost coded = { assignments_code };

    ghost view = { λ a. map (λ p. (p.0, tree p.1.now)) a.items.items };
}

impl<'a> Assignments<'a> {
    /// The names and the values, in their order.
    pub fn as_slice(&self) -> &[(u64, &'a Value)]
        ensures { map (λ p. (p.0, tree p.1.now)) result.now ≡ self.now }
    {
        self.items.as_slice()
    }

    /// Whether nothing is assigned.
    pub fn is_empty(&self) -> bool
        ensures { result ≡ (length self.now == 0) }
    {
        self.items.is_empty()
    }

    /// The value of this name, where there is one.
    pub fn get(&self, name: u64) -> Option<&'a Value>
        ensures { option_map (λ v. tree v.now) result ≡ value_of name self.now }
    {
        for (other, value) in &self.items {
            if *other == name {
                return Some(*value);
            }
        }
        None
    }

    /// Each name is one of these.
    fn are_among(&self, allowed: &[u64]) -> bool
        ensures { result ≡ are_among_names allowed.now self.now }
    {
        for item in &self.items {
            if !allowed.contains(&item.0) {
                return false;
            }
        }
        true
    }
}

/// The values of a value that is a list.
pub fn list_in(value: &Value) -> Option<&[Value]>
    ensures { option_map (λ vs. map tree vs.now) result ≡ list_in (tree value.now) }
{
    match value {
        Value::List(values) => Some(values.as_slice()),
        _ => None,
    }
}

/// The number that names a value, and what it names.
pub fn assigned(value: &Value) -> Option<(u64, &Value)>
    ensures { option_map (λ p. (p.0, tree p.1.now)) result ≡ assigned_by (tree value.now) }
{
    match value {
        Value::Named(both) => match &**both {
            (Value::Number(number), content) => Some((*number, content)),
            _ => None,
        },
        _ => None,
    }
}

/// Whether one of the values has this name.
fn has_name(items: &[(u64, &Value)], name: u64) -> bool
    ensures { result ≡ has_name name (map (λ p. (p.0, tree p.1.now)) items.now) }
{
    for item in items {
        if item.0 == name {
            return true;
        }
    }
    false
}

/// What is assigned to two numbers, where both may be left out.
#[derive(Drop)]
pub(crate) struct Pair<'a> {
    pub first: Option<&'a Value>,
    pub last: Option<&'a Value>,
}

impl<'a> Model for Pair<'a> {
    ghost use Rattle.std.specs.Prelude.{Option, option_map};
    ghost use Rattle.tcg_tokens.specs.Tree.{Tree, tree};
    ghost use Rattle.tcg_calls.specs.TreeCode.{pair_code};

    ghost Value = { Option Tree × Option Tree };

    ghost coded = { pair_code };

    ghost view = { λ p. (
      option_map (λ v. tree v.now) p.first,
      option_map
          (λ v. tree v.now) p.last,
    ) };
}

/// What one value assigns to one of two numbers.
fn one_of_pair<'a>(first: u64, last: u64, value: &'a Value) -> Option<Pair<'a>>
    requires { first < last }
    ensures { result ≡ option_map (pair_of first last)
        (options_of (first ∷ last ∷ []) (tree value.now ∷ [])) }
{
    let (name, content) = assigned(value)?;
    if name == first {
        return Some(Pair {
            first: Some(content),
            last: None,
        });
    }
    if name == last {
        return Some(Pair {
            first: None,
            last: Some(content),
        });
    }
    None
}

/// What two values assign to two numbers, one to each.
fn both_of_pair<'a>(first: u64, last: u64, value: &'a Value, other: &'a Value) -> Option<Pair<'a>>
    requires { first < last }
    ensures { result ≡ option_map (pair_of first last)
        (options_of (first ∷ last ∷ []) (tree value.now ∷ tree other.now ∷ [])) }
{
    let (name, content) = assigned(value)?;
    let (other_name, other_content) = assigned(other)?;
    if name == first && other_name == last {
        return Some(Pair {
            first: Some(content),
            last: Some(other_content),
        });
    }
    if name == last && other_name == first {
        return Some(Pair {
            first: Some(other_content),
            last: Some(content),
        });
    }
    None
}

/// What values assign to two numbers, where none is named by another, and no two by the same.
pub(crate) fn read_pair<'a>(first: u64, last: u64, values: &'a [Value]) -> Option<Pair<'a>>
    requires { first < last }
    ensures { result ≡ option_map (pair_of first last)
        (options_of (first ∷ last ∷ []) (map tree values.now)) }
{
    match values {
        [] => Some(Pair {
            first: None,
            last: None,
        }),
        [value] => one_of_pair(first, last, value),
        [value, other] => both_of_pair(first, last, value, other),
        _ => None,
    }
}

/// What the values assign, where each is named by a number, and no two by the same.
pub fn read_assignments<'a>(
    alloc: Global,
    values: &'a [Value],
) -> Result<Option<Assignments<'a>>, AllocError>
    ensures { IfOk result (λ a. a ≡ assignments_of (map tree values.now)) }
{
    let mut items = Vec::with_capacity(alloc, values.len())?;
    for value in values {
        let Some((name, content)) = assigned(value) else {
            return Ok(None);
        };
        if has_name(&items, name) {
            return Ok(None);
        }
        items.push((name, content))?;
    }
    Ok(Some(Assignments { items }))
}

/// What optional arguments assign, where each has one of these names, and no two the same.
pub fn read_options<'a>(
    alloc: Global,
    allowed: &[u64],
    values: &'a [Value],
) -> Result<Option<Assignments<'a>>, AllocError>
    ensures { IfOk result (λ a. a ≡ options_of allowed.now (map tree values.now)) }
{
    match read_assignments(alloc, values)? {
        Some(named) if named.are_among(allowed) => Ok(Some(named)),
        _ => Ok(None),
    }
}

/// An optional number, with what stands for it where it is absent; None where something else stands there.
pub fn number_or(absent: u64, value: Option<&Value>) -> Option<u64>
    ensures { result ≡ number_or_in absent (option_map (λ v. tree v.now) value.entry) }
{
    match value {
        None => Some(absent),
        Some(Value::Number(number)) => Some(*number),
        Some(_) => None,
    }
}

/// An optional number that nothing stands for.
pub fn number_if_any(value: Option<&Value>) -> Option<Option<u64>>
    ensures { result ≡ number_if_any_in (option_map (λ v. tree v.now) value.entry) }
{
    match value {
        None => Some(None),
        Some(Value::Number(number)) => Some(Some(*number)),
        Some(_) => None,
    }
}

/// Optional bytes; absent ones are the empty bytes.
pub fn bytes_or_empty<'a>(value: Option<&'a Value>) -> Option<&'a [u8]>
    ensures { option_map (λ b. b.now) result ≡
        bytes_or_empty_in (option_map (λ v. tree v.now) value.entry) }
{
    match value {
        None => Some(&[]),
        Some(Value::Bytes(bytes)) => Some(bytes.as_slice()),
        Some(_) => None,
    }
}
