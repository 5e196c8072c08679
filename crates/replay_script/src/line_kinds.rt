// Which form a line has.
ghost use Rattle.std.specs.Prelude.{◌≡◌, codes, option_map, if◌then◌else◌, Some, None};
ghost use Rattle.serde_json.specs.View.{view};
ghost use Rattle.cdp_json.specs.Kinds.{named, only_text};
ghost use Rattle.cdp_json.specs.Left.{left};
ghost use Rattle.cdp_json.specs.Rows.{left_with, need};
ghost use Rattle.replay_script.specs.Kinds.{line_kind_name, all_line_kinds, is_load, sole, styles_in, said};
ghost use Rattle.replay_script.specs.Seen.{member_seen, said_seen};

use cdp_json::Cursor;
use serde_json::Value;

/// The kinds of lines: each is told by the name of its one property, but for a show of styles, which has two.
#[derive(Clone, Copy)]
pub enum LineKind {
    /// `load`
    Load,
    /// `act`
    Act,
    /// `ask`
    Ask,
    /// `raw`
    Raw,
    /// `up`
    Up,
    /// `down`
    Down,
    /// `settle`
    Settle,
    /// `show`
    Show,
    /// `close`
    Close,
    /// `show` and `ask`
    Styles,
}

impl LineKind {
    /// The kind whose one property has the name.
    pub fn named(name: &str) -> Option<LineKind>
        ensures { result ≡ named line_kind_name all_line_kinds name.now }
    {
        match name {
            "load" => Some(LineKind::Load),
            "act" => Some(LineKind::Act),
            "ask" => Some(LineKind::Ask),
            "raw" => Some(LineKind::Raw),
            "up" => Some(LineKind::Up),
            "down" => Some(LineKind::Down),
            "settle" => Some(LineKind::Settle),
            "show" => Some(LineKind::Show),
            "close" => Some(LineKind::Close),
            _ => None,
        }
    }

    /// Whether the line is a load.
    pub fn is_load(self) -> bool
        ensures { result ≡ is_load self }
    {
        match self {
            LineKind::Load => true,
            LineKind::Act
            | LineKind::Ask
            | LineKind::Raw
            | LineKind::Up
            | LineKind::Down
            | LineKind::Settle
            | LineKind::Show
            | LineKind::Close
            | LineKind::Styles => false,
        }
    }
}

/// The name and the value of an object's one property.
pub(crate) fn sole(value: &Value) -> Option<(&str, &Value)>
    ensures { option_map member_seen result ≡ sole (view value.now) }
{
    let mut members = value.as_object()?.iter();
    let (name, found) = members.next()?;
    match members.next() {
        Some(_) => None,
        None => Some((name.as_str(), found)),
    }
}

/// Whether the next property is that of a show of matched styles.
pub(crate) fn shows_styles(fields: &mut Cursor<'_>) -> bool
    ensures { option_map (left_with (left fields.new)) (if result then Some tt else None)
        ≡ need (only_text (codes "styles")).reads (codes "show") (left fields.old) }
{
    match fields.need_text("show") {
        Some(word) => word == "styles",
        None => false,
    }
}

// The ask of a show of styles.
fn styles_of(value: &Value) -> Option<&Value>
    ensures { option_map (λ v. view v.now) result ≡ styles_in (view value.now) }
{
    let mut fields = Cursor::new(value.as_object()?);
    let ask = fields.need("ask")?;
    if !shows_styles(&mut fields) {
        return None;
    }
    if fields.is_done() { Some(ask) } else { None }
}

/// The kind of a line, with the value that it says; none where its properties are those of no kind.
pub(crate) fn said(value: &Value) -> Option<(LineKind, &Value)>
    ensures { option_map said_seen result ≡ said (view value.now) }
{
    if let Some(ask) = styles_of(value) {
        return Some((LineKind::Styles, ask));
    }
    let (name, found) = sole(value)?;
    let kind = LineKind::named(name)?;
    Some((kind, found))
}
