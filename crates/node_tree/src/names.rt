ghost use Rattle.std.specs.Prelude.{◌≡◌};
ghost use Rattle.std.specs.List.{list_all};
ghost use Rattle.node_tree.specs.Names.{is_letter, is_name_byte, is_element_name, is_attribute_byte, is_attribute_name};

fn is_letter(byte: u8) -> bool
    ensures { result ≡ is_letter byte }
{
    byte >= b'a' && byte <= b'z'
}

fn is_name_byte(byte: u8) -> bool
    ensures { result ≡ is_name_byte byte }
{
    is_letter(byte)
        || (byte >= b'0' && byte <= b'9')
        || byte == b'-'
        || byte == b'_'
        || byte == b'.'
}

fn are_name_bytes(bytes: &[u8]) -> bool
    ensures { result ≡ list_all is_name_byte bytes.now }
{
    bytes.iter().all(|byte| is_name_byte(*byte))
}

/// The form of an element's or a doctype's name: 1 to 64 bytes of `a` to `z`, `0` to `9`, `-`, `_` and `.`, the first
/// a letter.
pub fn is_element_name(name: &str) -> bool
    ensures { result ≡ is_element_name name.now }
{
    let bytes = name.as_bytes();
    let Some((first, rest)) = bytes.split_first() else {
        return false;
    };
    is_letter(*first) && bytes.len() <= 64 && are_name_bytes(rest)
}

fn is_attribute_byte(byte: u8) -> bool
    ensures { result ≡ is_attribute_byte byte }
{
    let delimiter = byte == b'"'
        || byte == b'\''
        || byte == b'<'
        || byte == b'>'
        || byte == b'/'
        || byte == b'=';
    byte >= 0x21 && byte <= 0x7E && !delimiter && !(byte >= b'A' && byte <= b'Z')
}

fn are_attribute_bytes(bytes: &[u8]) -> bool
    ensures { result ≡ list_all is_attribute_byte bytes.now }
{
    bytes.iter().all(|byte| is_attribute_byte(*byte))
}

/// The form of an attribute's name: 1 to 256 bytes from 0x21 to 0x7E without `"`, `'`, `<`, `>`, `/`, `=` and without
/// upper-case letters.
pub fn is_attribute_name(name: &str) -> bool
    ensures { result ≡ is_attribute_name name.now }
{
    let bytes = name.as_bytes();
    bytes.len() >= 1 && bytes.len() <= 256 && are_attribute_bytes(bytes)
}
