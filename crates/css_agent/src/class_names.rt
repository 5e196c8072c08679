// The names of the classes that the selectors of a sheet ask for.
ghost use Rattle.std.specs.Prelude.{◌≡◌, map, option_map, option_to_list, IfOk, OnOk, []};
ghost use Rattle.selectors.specs.Forms.{simple_seen, compound_seen};
ghost use Rattle.selectors.specs.Lists.{list_seen};
ghost use Rattle.sheet_reader.specs.Forms.{rule_seen};
ghost use Rattle.css_agent.specs.ClassNames.{class_of, classes_of_tests, classes_of_compounds, classes_of_selectors, classes_of_rules};
ghost use Rattle.css_agent.specs.ClassNames.{with_names};

use cdp_messages::Text;
use selectors::{Compound, SelectorList, Simple, Test};
use sheet_reader::StyleRule;
use std::alloc::{AllocError, Global};
use std::collections::BTreeSet;

/// The class that a simple selector asks for, inside `:not` too.
fn class_of(simple: &Simple) -> Option<&str>
    ensures { option_map (λ n. n.now) result ≡ class_of (simple_seen simple.now) }
{
    match simple {
        Simple::Is(Test::Class(name)) | Simple::Not(Test::Class(name)) => Some(name.as_str()),
        _ => None,
    }
}

fn add_name<'a>(name: Option<&'a str>, names: &mut BTreeSet<&'a str>) -> Result<(), AllocError>
    ensures { OnOk result (map (λ n. n.now) names.new.keys
        ≡ with_names (map (λ n. n.now) names.old.keys) (option_to_list (option_map (λ n. n.now) name.entry))) }
{
    if let Some(name) = name {
        names.insert(name)?;
    }
    Ok(())
}

fn add_tests<'a>(tests: &'a [Simple], names: &mut BTreeSet<&'a str>) -> Result<(), AllocError>
    ensures { OnOk result (map (λ n. n.now) names.new.keys
        ≡ with_names (map (λ n. n.now) names.old.keys) (classes_of_tests (map simple_seen tests.now))) }
{
    for simple in tests {
        add_name(class_of(simple), names)?;
    }
    Ok(())
}

fn add_compounds<'a>(
    compounds: &'a [Compound],
    names: &mut BTreeSet<&'a str>,
) -> Result<(), AllocError>
    ensures { OnOk result (map (λ n. n.now) names.new.keys
        ≡ with_names (map (λ n. n.now) names.old.keys) (classes_of_compounds (map compound_seen compounds.now))) }
{
    for compound in compounds {
        add_tests(compound.tests.as_slice(), names)?;
    }
    Ok(())
}

fn add_selectors<'a>(
    selectors: &'a SelectorList,
    names: &mut BTreeSet<&'a str>,
) -> Result<(), AllocError>
    ensures { OnOk result (map (λ n. n.now) names.new.keys
        ≡ with_names (map (λ n. n.now) names.old.keys) (classes_of_selectors (list_seen selectors.now))) }
{
    for i in 0..selectors.len() {
        add_compounds(selectors.at(i).compounds.as_slice(), names)?;
    }
    Ok(())
}

fn add_rules<'a>(rules: &'a [StyleRule], names: &mut BTreeSet<&'a str>) -> Result<(), AllocError>
    ensures { OnOk result (map (λ n. n.now) names.new.keys
        ≡ with_names (map (λ n. n.now) names.old.keys) (classes_of_rules (map rule_seen rules.now))) }
{
    for rule in rules {
        add_selectors(&rule.selectors, names)?;
    }
    Ok(())
}

fn copies_of(alloc: Global, names: BTreeSet<&str>) -> Result<Vec<Text>, AllocError>
    ensures { IfOk result (λ v. v.items ≡ map (λ n. n.now) names.entry.keys) }
{
    let mut copies = Vec::new(alloc);
    for name in names {
        copies.push(Text::copied(alloc, name)?)?;
    }
    Ok(copies)
}

/// The class names of style rules, ascending by bytes, each once.
pub(crate) fn class_names(alloc: Global, rules: &[StyleRule]) -> Result<Vec<Text>, AllocError>
    ensures { IfOk result (λ v. v.items ≡ with_names [] (classes_of_rules (map rule_seen rules.now))) }
{
    let mut names = BTreeSet::new(alloc);
    add_rules(rules, &mut names)?;
    copies_of(alloc, names)
}
