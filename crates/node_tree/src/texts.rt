ghost use Rattle.std.specs.Prelude.{◌≡◌, [], length, IsTrue, ◌↔◌, IfOk, string_bytes};

use arrayvec::ArrayString;
use std::alloc::{AllocError, Global};
use std::marker::Model;

/// Where the bytes of a text are: in the value itself, or in memory of their own.
#[derive(Drop, Debug)]
enum Store {
    Short(ArrayString<16>),
    Long(String),
}

/// A text of a node, which contracts see as the list of its bytes. A text of at most 16 bytes takes no memory of its own.
#[derive(Debug)]
pub struct Text {
    store: Store,
}

impl Model for Text {
    ghost use Rattle.std.specs.Prelude.{ℕ, List};
    ghost use Rattle.node_tree.specs.Stores.{stored};

    ghost Value = { List ℕ };

    ghost view = { λ t. stored t.store };
}

// By hand, so that who lets a text go need not know of its two forms.
impl Drop for Text {
    fn drop(self) {
        let Text { store } = self;
        drop(store);
    }
}

impl Text {
    /// The text of a string; takes no memory, and frees that of a short one.
    pub fn new(text: String) -> Text
        ensures { result ≡ string_bytes text }
    {
        match ArrayString::from(text.as_str()) {
            Ok(short) => Text {
                store: Store::Short(short),
            },
            Err(_) => Text {
                store: Store::Long(text),
            },
        }
    }

    /// The empty text; takes no memory.
    pub fn empty(_alloc: Global) -> Text
        ensures { result ≡ [] }
    {
        Text {
            store: Store::Short(ArrayString::new()),
        }
    }

    /// A copy of the text.
    pub fn copied(alloc: Global, text: &str) -> Result<Text, AllocError>
        ensures { IfOk result (λ copy. copy ≡ text.now) }
    {
        match ArrayString::from(text) {
            Ok(short) => Ok(Text {
                store: Store::Short(short),
            }),
            Err(_) => Ok(Text {
                store: Store::Long(String::from_str(alloc, text)?),
            }),
        }
    }

    /// The text.
    pub fn as_str(&self) -> &str
        ensures { result.now ≡ self.now }
    {
        match &self.store {
            Store::Short(short) => short.as_str(),
            Store::Long(long) => long.as_str(),
        }
    }

    /// A copy of the text.
    pub fn to_string(&self, alloc: Global) -> Result<String, AllocError>
        ensures { IfOk result (λ copy. string_bytes copy ≡ self.now) }
    {
        String::from_str(alloc, self.as_str())
    }

    /// In bytes.
    pub fn len(&self) -> usize
        ensures { result ≡ length self.now }
    {
        self.as_str().len()
    }

    /// Whether the text has no bytes.
    pub fn is_empty(&self) -> bool
        ensures { IsTrue result ↔ (self.now ≡ []) }
    {
        self.as_str().is_empty()
    }

    /// A copy of the text.
    pub fn try_clone(&self) -> Result<Text, AllocError>
        ensures { IfOk result (λ copy. copy ≡ self.now) }
    {
        Ok(Text {
            store: match &self.store {
                Store::Short(short) => Store::Short(*short),
                Store::Long(long) => Store::Long(long.clone()?),
            },
        })
    }
}
