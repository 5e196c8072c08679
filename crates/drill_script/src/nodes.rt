// The nodes of a drill's page.
ghost use Rattle.std.specs.Prelude.{◌≡◌, ◌+◌, ◌<◌, [], ◌∷◌, ◌++◌, length, List, IfOk, OnOk};
ghost use Rattle.node_tree.specs.Nodes.{Nodes, nodes_of};
ghost use Rattle.node_tree.specs.Labels.{Label};
ghost use Rattle.drill_script.specs.DrillNodes.{element, div_label, below, drill_nodes};
ghost use Rattle.drill_script.specs.Hanging.{AreDivsNumbered, hung};

use crate::digits::numbered;
use crate::divs::Div;
use crate::hanging::Hanging;
use node_tree::{Attributes, Kind, Text};
use page_tree::NodeForm;
use std::alloc::{AllocError, Global};

// An element with these attributes and nodes below it.
fn element(
    alloc: Global,
    name: &str,
    attributes: Attributes,
    children: Vec<NodeForm>,
) -> Result<NodeForm, AllocError>
    ensures { IfOk result (λ form. form
        ≡ record { row = element name.now attributes; children = nodes_of children.items }) }
{
    Ok(NodeForm {
        kind: Kind::Element,
        name: Text::copied(alloc, name)?,
        value: Text::empty(alloc),
        attributes,
        children,
    })
}

// A div with the class of that digit.
fn div_form(alloc: Global, digit: u64, children: Vec<NodeForm>) -> Result<NodeForm, AllocError>
    ensures { IfOk result (λ form. form
        ≡ record { row = div_label digit; children = nodes_of children.items }) }
{
    let name = Text::copied(alloc, "class")?;
    let value = Text::new(numbered(alloc, "k", digit)?);
    let mut attributes = Attributes::new(alloc);
    attributes.push(name, value)?;
    element(alloc, "div", attributes, children)
}

// The last div takes what hangs below it, and hangs below the one that it is put into.
fn hang_div(alloc: Global, div: Div, hanging: &mut Hanging) -> Result<(), AllocError>
    requires { div.up + 1 < length hanging.old }
    ensures { OnOk result ((front : List (Nodes Label)) (trees : Nodes Label) → hanging.old ≡ front ++ trees ∷ []
        → hanging.new ≡ hung front div.up (record { row = div_label div.digit; children = trees })) }
{
    let children = hanging.take_last(alloc);
    let form = div_form(alloc, div.digit, children)?;
    hanging.hang(div.up, form)
}

// The nodes below the body.
fn nest(alloc: Global, mut divs: Vec<Div>) -> Result<Vec<NodeForm>, AllocError>
    requires { AreDivsNumbered 1 divs.items }
    ensures { IfOk result (λ forms. nodes_of forms.items ≡ below 0 divs.items) }
{
    let mut hanging = Hanging::new(alloc, divs.len())?;
    while let Some(div) = divs.pop() {
        hang_div(alloc, div, &mut hanging)?;
    }
    Ok(hanging.take_last(alloc))
}

// A list of one node.
fn alone(alloc: Global, form: NodeForm) -> Result<Vec<NodeForm>, AllocError>
    ensures { IfOk result (λ forms. forms.items ≡ form ∷ []) }
{
    let mut forms = Vec::new(alloc);
    forms.push(form)?;
    Ok(forms)
}

/// `html`, which has `body`, which has the divs.
pub(crate) fn drill_nodes(alloc: Global, divs: Vec<Div>) -> Result<Vec<NodeForm>, AllocError>
    requires { AreDivsNumbered 1 divs.items }
    ensures { IfOk result (λ forms. nodes_of forms.items ≡ drill_nodes divs.items) }
{
    let below = nest(alloc, divs)?;
    let body = element(alloc, "body", Attributes::new(alloc), below)?;
    let below = alone(alloc, body)?;
    let html = element(alloc, "html", Attributes::new(alloc), below)?;
    alone(alloc, html)
}
