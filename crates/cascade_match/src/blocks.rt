//! Blocks of declarations, as they compete.

ghost use Rattle.std.specs.Prelude.{◌≡◌, length};

use node_tree::Text;
use sheet_reader::Origin;
use std::marker::Model;

/// A declaration.
#[derive(Drop)]
pub struct Decl {
    /// In ASCII lower case, unless it begins with `--`: names are compared by exact characters.
    pub name: Text,
    pub important: bool,
}

/// The declarations of a block, in its order.
#[derive(Drop)]
pub struct Declarations {
    declarations: Vec<Decl>,
}

impl Model for Declarations {
    ghost use Rattle.std.specs.Prelude.{List};
    ghost use Rattle.cascade_match.specs.declared.blocks.Decl.{Decl};

    ghost Value = { List Decl };

    ghost view = { λ l. l.declarations.items };
}

impl Declarations {
    /// Takes no memory.
    pub fn new(declarations: Vec<Decl>) -> Declarations
        ensures { result ≡ declarations.items }
    {
        Declarations { declarations }
    }

    /// The declarations, in their order in the block.
    pub fn as_slice(&self) -> &[Decl]
        ensures { result.now ≡ self.now }
    {
        self.declarations.as_slice()
    }

    /// Gives the list back; takes no memory.
    pub fn into_vec(self) -> Vec<Decl>
        ensures { result.items ≡ self }
    {
        self.declarations
    }

    /// How many declarations there are.
    pub fn len(&self) -> usize
        ensures { result ≡ length self.now }
    {
        self.declarations.len()
    }
}

/// The declarations of a rule or of an inline style.
#[derive(Drop)]
pub struct Block {
    pub origin: Origin,
    pub declarations: Declarations,
}
