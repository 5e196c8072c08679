//! A page as a flat list of rows.
ghost use Rattle.std.specs.Prelude.{map, IfOk};
ghost use Rattle.serde_json.specs.View.{view};
ghost use Rattle.node_tree.specs.Nodes.{nodes_of};
ghost use Rattle.page_tree.specs.Forms.{CanLoad};
ghost use Rattle.page_tree.specs.Loads.{Reads, Nests};
ghost use Rattle.page_tree.specs.Flat.{FlatIs, flat_formed};
ghost use Rattle.page_tree.specs.FlatRows.{row_of, flat_in};

use crate::faults::{LoadErr, LoadFault};
use crate::flat_rows::{Row, read_rows};
use crate::forms::NodeForm;
use crate::limits::limit_fault;
use crate::nested::nest;
use crate::outlines::flat_levels;
use node_tree::MAX_LEVEL;
use serde_json::Value;
use std::alloc::Global;

/// The rows of nodes are read as these nodes, and no other rows are.
pub fn flat_law()
    ensures { FlatIs }
{}

/// The nodes of these rows, in document order, or their first fault: rows that are those of no nodes, or of more levels than a page may
/// have. How many nodes they are, and how these are named, is left to `limit_fault`. The time is that of the rows, and nothing goes down
/// the tree where a page may not be so deep.
fn nest_rows(alloc: Global, rows: Vec<Row>) -> Result<Vec<NodeForm>, LoadErr>
    ensures { Nests result (flat_formed (map row_of rows.items)) }
{
    let Some(levels) = flat_levels(alloc, &rows)? else {
        return Err(LoadErr::Fault(LoadFault::BadForm));
    };
    if levels > MAX_LEVEL {
        return Err(LoadErr::Fault(LoadFault::TooDeep));
    }
    let Some(forms) = nest(alloc, rows)? else {
        return Err(LoadErr::Fault(LoadFault::BadForm));
    };
    Ok(forms)
}

/// The nodes that the rows of a list tell, in document order, or the first fault of the load. A row is `{"up":i,"e":NAME,"a":[..]}`,
/// `{"up":i,"t":TEXT}`, `{"up":i,"k":TEXT}` or `{"up":i,"d":NAME}`, where `up` is the number of the parent's row, counted from 1, or 0
/// for the document.
pub fn read_flat(alloc: Global, v: &Value) -> Result<Vec<NodeForm>, LoadErr>
    ensures reads { Reads result (flat_in (view v.now)) }
    ensures fit { IfOk result (λ forms. CanLoad (nodes_of forms.items)) }
{
    let Some(rows) = read_rows(alloc, v)? else {
        return Err(LoadErr::Fault(LoadFault::BadForm));
    };
    let forms = match nest_rows(alloc, rows) {
        Ok(forms) => forms,
        Err(LoadErr::Fault(fault)) => return Err(LoadErr::Fault(fault)),
        Err(LoadErr::Memory) => return Err(LoadErr::Memory),
    };
    if let Some(fault) = limit_fault(&forms) {
        return Err(LoadErr::Fault(fault));
    }
    Ok(forms)
}
