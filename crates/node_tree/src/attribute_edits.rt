// Attributes set and dropped, in a list that ascends by the names' bytes.
ghost use Rattle.std.specs.Prelude.{◌≡◌, true, IfOk, OnOk, OnErr};
ghost use Rattle.node_tree.specs.Labels.{value_of, is_ascending};
ghost use Rattle.node_tree.specs.LabelChanges.{placed, pairs_without};

use crate::attribute_lists::Attributes;
use crate::texts::Text;
use std::alloc::AllocError;

/// Sets the attribute of that name, or adds it in its place, and gives the old value. After want of memory the list is as before.
pub fn set_attribute(
    attributes: &mut Attributes,
    name: Text,
    value: Text,
) -> Result<Option<Text>, AllocError>
    requires { is_ascending attributes.old ≡ true }
    ensures ok { OnOk result (attributes.new ≡ placed (name, value) attributes.old) }
    ensures was { IfOk result (λ was. was ≡ value_of name attributes.old) }
    ensures err { OnErr result (attributes.new ≡ attributes.old) }
{
    attributes.set_named(name, value)
}

/// Takes the attribute of that name away, and gives its value. Where there is none, nothing changes.
pub fn drop_attribute(attributes: &mut Attributes, name: &str) -> Option<Text>
    requires { is_ascending attributes.old ≡ true }
    ensures rest { attributes.new ≡ pairs_without name.now attributes.old }
    ensures was { result ≡ value_of name.now attributes.old }
{
    attributes.remove_named(name)
}
