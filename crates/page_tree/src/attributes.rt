ghost use Rattle.std.specs.Prelude.{◌≡◌, [], option_map, IfOk};
ghost use Rattle.serde_json.specs.View.{view, items_view};
ghost use Rattle.node_tree.specs.Labels.{is_below, is_ascending};
ghost use Rattle.page_tree.specs.Loads.{pairs_of, in_order, attributes_spelled};
ghost use Rattle.page_tree.specs.Entries.{entry_pairs};

use node_tree::{Attributes, Text};
use serde_json::Value;
use std::alloc::{AllocError, Global};
use std::collections::BTreeMap;

/// The pairs that a flat list of names and values spells.
fn read_pairs(alloc: Global, values: &[Value]) -> Result<Option<Vec<(Text, Text)>>, AllocError>
    ensures { IfOk result (λ pairs. option_map (λ v. v.items) pairs ≡ pairs_of (items_view values.now)) }
{
    let mut pairs = Vec::with_capacity(alloc, values.len() / 2)?;
    let mut rest = values;
    while let Some((name, others)) = rest.split_first() {
        let Some((value, others)) = others.split_first() else {
            return Ok(None);
        };
        let Some(name) = name.as_str() else {
            return Ok(None);
        };
        let Some(value) = value.as_str() else {
            return Ok(None);
        };
        pairs.push((Text::copied(alloc, name)?, Text::copied(alloc, value)?))?;
        rest = others;
    }
    Ok(Some(pairs))
}

/// The pairs by name; none where a name is there twice.
fn gather(
    alloc: Global,
    pairs: Vec<(Text, Text)>,
) -> Result<Option<BTreeMap<String, Text>>, AllocError>
    ensures { IfOk result (λ entries. option_map (λ m. entry_pairs m.entries) entries ≡ in_order [] pairs.items) }
{
    let mut entries = BTreeMap::new(alloc);
    for (name, value) in pairs {
        let key = name.to_string(alloc)?;
        if entries.insert(key, value)?.is_some() {
            return Ok(None);
        }
    }
    Ok(Some(entries))
}

fn list_entries(
    alloc: Global,
    entries: BTreeMap<String, Text>,
) -> Result<Vec<(Text, Text)>, AllocError>
    ensures { IfOk result (λ pairs. pairs.items ≡ entry_pairs entries.entries) }
{
    let mut pairs = Vec::with_capacity(alloc, entries.len())?;
    for (name, value) in entries {
        pairs.push((Text::new(name), value))?;
    }
    Ok(pairs)
}

// The name comes before that of the first pair, by bytes.
fn is_below(name: &str, pairs: &[(Text, Text)]) -> bool
    ensures { result ≡ is_below name.now pairs.now }
{
    match pairs.first() {
        Some(first) => name < first.0.as_str(),
        None => true,
    }
}

// Each name comes before the next one, by bytes.
fn ascend(pairs: &[(Text, Text)]) -> bool
    ensures { result ≡ is_ascending pairs.now }
{
    let mut rest = pairs;
    while let Some((first, others)) = rest.split_first() {
        if !is_below(first.0.as_str(), others) {
            return false;
        }
        rest = others;
    }
    true
}

/// The pairs as attributes, in ascending order of the names' bytes; none where a name is there twice.
pub fn order_pairs(
    alloc: Global,
    mut pairs: Vec<(Text, Text)>,
) -> Result<Option<Attributes>, AllocError>
    ensures { IfOk result (λ attributes. attributes ≡ in_order [] pairs.items) }
{
    if ascend(&pairs) {
        pairs.shrink_to_fit();
        return Ok(Some(Attributes::from_pairs(pairs)));
    }
    let Some(entries) = gather(alloc, pairs)? else {
        return Ok(None);
    };
    Ok(Some(Attributes::from_pairs(list_entries(alloc, entries)?)))
}

/// The attributes that a list spells, in ascending order of the names' bytes.
pub fn read_attributes(alloc: Global, v: &Value) -> Result<Option<Attributes>, AllocError>
    ensures { IfOk result (λ attributes. attributes ≡ attributes_spelled (view v.now)) }
{
    let Some(values) = v.as_array() else {
        return Ok(None);
    };
    let Some(pairs) = read_pairs(alloc, values)? else {
        return Ok(None);
    };
    order_pairs(alloc, pairs)
}
