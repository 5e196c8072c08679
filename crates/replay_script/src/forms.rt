// What a line says.
ghost use Rattle.std.specs.Prelude.{◌≡◌, option_map, IfOk};
ghost use Rattle.serde_json.specs.View.{view};
ghost use Rattle.replay_script.specs.Forms.{ask_in};
ghost use Rattle.replay_script.specs.Script.{closed_by, styles_ask};
ghost use Rattle.replay_script.specs.Seen.{parts_form, seen, seen_ask};

use cdp_json::Cursor;
use node_tree::Text;
use page_forms::{Act, PageForm};
use serde_json::Value;
use std::alloc::{AllocError, Global};

/// A line of a script.
#[derive(Drop)]
pub enum Line {
    /// A new page in place of the old one.
    Load(PageForm),
    /// A change that the script makes of the page.
    Act(Act),
    Ask(Ask),
    /// A frame that the front end sends as it is; it names no ask.
    Raw(Text),
    /// So many bytes are delivered up, or as many as are on their way.
    Up(u64),
    /// So many bytes are delivered down, or as many as are on their way.
    Down(u64),
    /// All that was sent is delivered.
    Settle,
    ShowFront,
    ShowPage,
    ShowSheets,
    ShowReplies,
    ShowPauses,
    ShowPanels,
    /// The matched styles that the reply to the ask of this number told.
    ShowStyles(u64),
    /// The panel at this place of those handed in, counted from 1, is dropped.
    Close(u64),
}

impl Line {
    /// The ask whose matched styles the line shows.
    pub fn styles_ask(&self) -> Option<u64>
        ensures { result ≡ styles_ask (seen self.now) }
    {
        match self {
            Line::ShowStyles(ask) => Some(*ask),
            Line::Load(_)
            | Line::Act(_)
            | Line::Ask(_)
            | Line::Raw(_)
            | Line::Up(_)
            | Line::Down(_)
            | Line::Settle
            | Line::ShowFront
            | Line::ShowPage
            | Line::ShowSheets
            | Line::ShowReplies
            | Line::ShowPauses
            | Line::ShowPanels
            | Line::Close(_) => None,
        }
    }

    /// The place of the panel that the line drops.
    pub fn closed_by(&self) -> Option<u64>
        ensures { result ≡ closed_by (seen self.now) }
    {
        match self {
            Line::Close(place) => Some(*place),
            Line::Load(_)
            | Line::Act(_)
            | Line::Ask(_)
            | Line::Raw(_)
            | Line::Up(_)
            | Line::Down(_)
            | Line::Settle
            | Line::ShowFront
            | Line::ShowPage
            | Line::ShowSheets
            | Line::ShowReplies
            | Line::ShowPauses
            | Line::ShowPanels
            | Line::ShowStyles(_) => None,
        }
    }
}

/// A command that the front end is to send, of any method and with any parameters.
#[derive(Drop)]
pub struct Ask {
    pub method: Text,
    pub params: Option<Value>,
    pub session: Option<Value>,
}

// The same within the line's JSON.
#[derive(Drop)]
pub(crate) struct AskParts<'a> {
    pub method: &'a str,
    pub params: Option<&'a Value>,
    pub session: Option<&'a Value>,
}

pub(crate) fn ask_in(value: &Value) -> Option<AskParts<'_>>
    ensures { option_map parts_form result ≡ ask_in (view value.now) }
{
    let mut fields = Cursor::new(value.as_object()?);
    let method = fields.need_text("method")?;
    let params = fields.may("params");
    let session = fields.may("sessionId");
    if fields.is_done() {
        Some(AskParts {
            method,
            params,
            session,
        })
    } else {
        None
    }
}

fn copied(value: Option<&Value>) -> Result<Option<Value>, AllocError>
    ensures { IfOk result (λ copy. option_map view copy ≡ option_map (λ v. view v.now) value.entry) }
{
    match value {
        Some(value) => Ok(Some(value.clone()?)),
        None => Ok(None),
    }
}

impl AskParts<'_> {
    /// A copy of the ask.
    pub fn to_ask(&self, alloc: Global) -> Result<Ask, AllocError>
        ensures { IfOk result (λ ask. seen_ask ask ≡ parts_form self.now) }
    {
        Ok(Ask {
            method: Text::copied(alloc, self.method)?,
            params: copied(self.params)?,
            session: copied(self.session)?,
        })
    }
}
