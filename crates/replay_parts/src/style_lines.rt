// The lines of a show of matched styles.
ghost use Rattle.std.specs.Prelude.{◌≡◌, ◌++◌, ◌∷◌, [], List, map, drop, option_map, option_to_list, OnOk, IfOk};
ghost use Rattle.inspect_world.specs.StylesTexts.{ShownBlock, rule_heading, rule_block, inline_block, blocks_shown, declared, competing};
ghost use Rattle.inspect_world.specs.StylesTexts.{win_mark, important_text, property_line, property_lines, block_lines};
ghost use Rattle.inspect_world.specs.StylesTexts.{styles_headed};

use crate::sheet_lines::write_quoted;
use cascade_match::{Block, Decl, Declarations, winners};
use cdp_messages::{Matched, RuleMatch, Style, StyleProperty};
use node_tree::Text;
use sheet_reader::Origin;
use std::alloc::{AllocError, Global};

// ---- as the declarations compete

fn declaration_of(alloc: Global, property: &StyleProperty) -> Result<Decl, AllocError>
    ensures { IfOk result (λ d. d ≡ declared property.now) }
{
    Ok(Decl {
        name: Text::copied(alloc, property.name.as_str())?,
        important: property.important,
    })
}

fn declarations_of(alloc: Global, properties: &[StyleProperty]) -> Result<Declarations, AllocError>
    ensures { IfOk result (λ ds. ds ≡ map declared properties.now) }
{
    let mut declarations = Vec::new(alloc);
    for property in properties {
        declarations.push(declaration_of(alloc, property)?)?;
    }
    Ok(Declarations::new(declarations))
}

fn rule_block(alloc: Global, found: &RuleMatch) -> Result<Block, AllocError>
    ensures { IfOk result (λ b. b ≡ competing (rule_block found.now)) }
{
    Ok(Block {
        origin: found.rule.origin,
        declarations: declarations_of(alloc, found.rule.style.properties.as_slice())?,
    })
}

fn rule_blocks(alloc: Global, rules: &[RuleMatch]) -> Result<Vec<Block>, AllocError>
    ensures { IfOk result (λ blocks. blocks.items ≡ map (λ m. competing (rule_block m)) rules.now) }
{
    let mut blocks = Vec::new(alloc);
    for found in rules {
        blocks.push(rule_block(alloc, found)?)?;
    }
    Ok(blocks)
}

fn inline_block(alloc: Global, style: &Style) -> Result<Block, AllocError>
    ensures { IfOk result (λ b. b ≡ competing (inline_block style.now)) }
{
    Ok(Block {
        origin: Origin::Regular,
        declarations: declarations_of(alloc, style.properties.as_slice())?,
    })
}

fn inline_blocks(
    alloc: Global,
    inline: Option<&Style>,
    blocks: &mut Vec<Block>,
) -> Result<(), AllocError>
    ensures { OnOk result (blocks.new.items
        ≡ blocks.old.items ++ map competing (option_to_list (option_map (λ s. inline_block s.now) inline.entry))) }
{
    match inline {
        Some(style) => blocks.push(inline_block(alloc, style)?)?,
        None => {}
    }
    Ok(())
}

/// The matched rules, and then the element's own `style` attribute, which counts as the page's.
#[tactic(auto, using(crate::proofs::StyleLineLemmas::blocks_are))]
fn blocks_of(alloc: Global, matched: &Matched) -> Result<Vec<Block>, AllocError>
    ensures { IfOk result (λ blocks. blocks.items ≡ map competing (blocks_shown matched.now)) }
{
    let mut blocks = rule_blocks(alloc, matched.rules.as_slice())?;
    inline_blocks(alloc, matched.inline.as_ref(), &mut blocks)?;
    Ok(blocks)
}

// ---- lines

fn win_mark(won: bool) -> u8
    ensures { result ∷ [] ≡ win_mark won }
{
    if won { b'*' } else { b'-' }
}

fn important_text(important: bool) -> &'static str
    ensures { result.now ≡ important_text important }
{
    if important { " !important" } else { "" }
}

/// Appends the line of a property.
fn write_property(
    alloc: Global,
    won: bool,
    property: &StyleProperty,
    out: &mut Vec<u8>,
) -> Result<(), AllocError>
    ensures { OnOk result (out.new.items ≡ out.old.items ++ property_line won property.now) }
{
    out.extend_from_slice(b"  ")?;
    out.push(win_mark(won))?;
    out.push(b' ')?;
    out.extend_from_slice(property.name.as_str().as_bytes())?;
    out.push(b' ')?;
    write_quoted(alloc, property.value.as_str(), out)?;
    out.extend_from_slice(important_text(property.important).as_bytes())?;
    out.push(b'\n')?;
    Ok(())
}

/// Appends the lines of properties; the marks say of each whether it wins.
fn write_properties(
    alloc: Global,
    marks: &[bool],
    properties: &[StyleProperty],
    out: &mut Vec<u8>,
) -> Result<(), AllocError>
    ensures { OnOk result (out.new.items ≡ out.old.items ++ property_lines marks.now properties.now) }
{
    for i in 0..marks.len().min(properties.len()) {
        write_property(alloc, marks[i], &properties[i], out)?;
    }
    Ok(())
}

/// The marks after those of so many properties.
fn marks_after(marks: &[bool], count: usize) -> &[bool]
    ensures { result.now ≡ drop count marks.now }
{
    marks.split_at(count.min(marks.len())).1
}

/// Appends the line above the properties of a rule: its sheet, its origin and its selectors.
fn write_heading(alloc: Global, found: &RuleMatch, out: &mut Vec<u8>) -> Result<(), AllocError>
    ensures { OnOk result (out.new.items ≡ out.old.items ++ rule_heading found.now) }
{
    out.push(b's')?;
    out.extend_from_slice(found.rule.sheet.to_string(alloc)?.as_bytes())?;
    out.push(b' ')?;
    out.extend_from_slice(found.rule.origin.as_str().as_bytes())?;
    out.push(b' ')?;
    write_quoted(alloc, found.rule.selectors.text.as_str(), out)?;
    out.push(b'\n')?;
    Ok(())
}

/// Appends the lines of the matched rules, and gives the marks that are left.
fn write_rules<'a>(
    alloc: Global,
    marks: &'a [bool],
    rules: &[RuleMatch],
    out: &mut Vec<u8>,
) -> Result<&'a [bool], AllocError>
    ensures { IfOk result (λ left. (more : List ShownBlock) → out.new.items ++ block_lines left.now more
        ≡ out.old.items ++ block_lines marks.now (map rule_block rules.now ++ more)) }
{
    let mut left = marks;
    for found in rules {
        let properties = found.rule.style.properties.as_slice();
        write_heading(alloc, found, out)?;
        write_properties(alloc, left, properties, out)?;
        left = marks_after(left, properties.len());
    }
    Ok(left)
}

/// Appends the lines of the element's own `style` attribute, where it has one.
fn write_inline(
    alloc: Global,
    marks: &[bool],
    inline: Option<&Style>,
    out: &mut Vec<u8>,
) -> Result<(), AllocError>
    ensures { OnOk result (out.new.items
        ≡ out.old.items ++ block_lines marks.now (option_to_list (option_map (λ s. inline_block s.now) inline.entry))) }
{
    if let Some(style) = inline {
        out.extend_from_slice(b"inline\n")?;
        write_properties(alloc, marks, style.properties.as_slice(), out)?;
    }
    Ok(())
}

/// A heading that ends in `behind`, and the lines of the matched styles that the reply to the ask told.
pub(crate) fn styles_text(
    alloc: Global,
    ask: u64,
    behind: &str,
    matched: &Matched,
) -> Result<Vec<u8>, AllocError>
    ensures { IfOk result (λ text. text.items ≡ styles_headed behind.now ask matched.now) }
{
    let won = winners(alloc, &blocks_of(alloc, matched)?)?;
    let mut text = Vec::from_slice(alloc, b"# styles ")?;
    text.extend_from_slice(ask.to_string(alloc)?.as_bytes())?;
    text.extend_from_slice(behind.as_bytes())?;
    text.push(b'\n')?;
    let left = write_rules(alloc, &won, matched.rules.as_slice(), &mut text)?;
    write_inline(alloc, left, matched.inline.as_ref(), &mut text)?;
    Ok(text)
}
