use super::*;
use std::test::Fail;

#[test]
fn names_have_their_forms(rt: HostRuntime) {
    let long = "abcdefghijklmnopqrstuvwxyz0123456789-_.abcdefghijklmnopqrstuvwxyz";
    let cases = [
        ("a", true, true),
        ("h1-x_y.z", true, true),
        ("1a", false, true),
        ("", false, false),
        ("Div", false, false),
        ("@data:x", false, true),
        ("a b", false, false),
        ("a=b", false, false),
        ("a/", false, false),
        ("\u{e9}", false, false),
        (long, false, true),
    ];
    for (name, element, attribute) in cases {
        assert_eq!(rt; is_element_name(name), element, "{name:?} of an element");
        assert_eq!(rt;
            is_attribute_name(name),
            attribute,
            "{name:?} of an attribute"
        );
    }
}

#[test]
fn attributes_are_kept(rt: HostRuntime) -> Result<(), Fail> {
    let alloc = rt.alloc();
    let mut list = Attributes::new(alloc);
    list.push(Text::copied(alloc, "id")?, Text::copied(alloc, "x")?)?;
    list.push(Text::copied(alloc, "class")?, Text::empty(alloc))?;
    let copy = list.try_clone(alloc)?;
    assert_eq!(rt; copy.len(), 2);
    assert_eq!(rt; copy.get("id"), Some("x"));
    assert_eq!(rt; copy.get("class"), Some(""));
    assert_eq!(rt; copy.get("title"), None);
    let mut pairs = copy.iter();
    assert_eq!(rt; pairs.next().map(|pair| pair.1.as_str()), Some("x"));
    Ok(())
}
