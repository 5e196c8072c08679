// Commands, and why one is refused.
ghost use Rattle.std.specs.Prelude.{◌≡◌};
ghost use Rattle.cdp_json.specs.Kinds.{named};
ghost use Rattle.node_tree.specs.Watches.{watch_name};
ghost use Rattle.cdp_messages.specs.Events.{all_watches};
ghost use Rattle.cdp_messages.specs.Whitespace.{whitespace_name, all_whitespace};
ghost use Rattle.cdp_messages.specs.declared.command.CommandErr.TheVariants as command_err;

use crate::css_ask::CssAsk;
use crate::css_edit::CssEdit;
use crate::dom_ask::DomAsk;
use crate::dom_edit::DomEdit;
use crate::kept::Json;
use crate::method::Method;
use crate::search_ask::SearchAsk;
use node_tree::WatchKind;
use std::alloc::{AllocError, AllocFailed};

/// The words of the parameter `includeWhitespace`: which texts of white space alone are shown.
#[derive(Clone, Copy, Drop, Debug)]
pub enum WhitespaceWord {
    /// `none`
    Hidden,
    /// `all`
    Shown,
}

/// A command with its parameters; `None` stands for one that is absent.
#[derive(Drop)]
pub enum Command {
    /// `DOM.enable`
    DomEnable {
        include_whitespace: Option<WhitespaceWord>,
    },
    /// `DOM.disable`
    DomDisable,
    /// A command that the DOM agent serves.
    AskDom(DomAsk),
    /// A client's edit of the tree.
    EditDom(DomEdit),
    /// A command on searches.
    AskSearch(SearchAsk),
    /// `DOM.markUndoableState`
    MarkUndoableState,
    /// `DOM.undo`
    Undo,
    /// `DOM.redo`
    Redo,
    /// `CSS.enable`
    CssEnable,
    /// `CSS.disable`
    CssDisable,
    /// A command of the domain CSS that edits nothing.
    AskCss(CssAsk),
    /// A client's edit of sheets.
    EditCss(CssEdit),
    /// `DOMDebugger.setDOMBreakpoint`
    SetBreakpoint {
        node: u64,
        kind: WatchKind,
    },
    /// `DOMDebugger.removeDOMBreakpoint`
    RemoveBreakpoint {
        node: u64,
        kind: WatchKind,
    },
    /// `Replay.load`, one of our own two methods: the page.
    ReplayLoad {
        params: Json,
    },
    /// `Replay.act`, one of our own two methods: the change.
    ReplayAct {
        params: Json,
    },
}

impl Command {
    ghost use Rattle.cdp_messages.specs.Asked.{method_of};

    /// Its method.
    pub fn method(&self) -> Method
        ensures { result ≡ method_of self.now }
    {
        match self {
            Command::DomEnable { .. } => Method::DomEnable,
            Command::DomDisable => Method::DomDisable,
            Command::AskDom(ask) => ask.method(),
            Command::EditDom(edit) => edit.method(),
            Command::AskSearch(ask) => ask.method(),
            Command::MarkUndoableState => Method::MarkUndoableState,
            Command::Undo => Method::Undo,
            Command::Redo => Method::Redo,
            Command::CssEnable => Method::CssEnable,
            Command::CssDisable => Method::CssDisable,
            Command::AskCss(ask) => ask.method(),
            Command::EditCss(edit) => edit.method(),
            Command::SetBreakpoint { .. } => Method::SetBreakpoint,
            Command::RemoveBreakpoint { .. } => Method::RemoveBreakpoint,
            Command::ReplayLoad { .. } => Method::ReplayLoad,
            Command::ReplayAct { .. } => Method::ReplayAct,
        }
    }
}

// What is watched, by its word.
pub(crate) fn watch_named(word: &str) -> Option<WatchKind>
    ensures { result ≡ named watch_name all_watches word.now }
{
    match word {
        "subtree-modified" => Some(WatchKind::Subtree),
        "attribute-modified" => Some(WatchKind::Attribute),
        "node-removed" => Some(WatchKind::Removed),
        _ => None,
    }
}

// Which texts of white space alone are shown, by its word.
pub(crate) fn whitespace_named(word: &str) -> Option<WhitespaceWord>
    ensures { result ≡ named whitespace_name all_whitespace word.now }
{
    match word {
        "none" => Some(WhitespaceWord::Hidden),
        "all" => Some(WhitespaceWord::Shown),
        _ => None,
    }
}

/// A parameter of a command, by its name.
#[derive(Clone, Copy)]
pub enum Param {
    BackendNodeId,
    BackendNodeIds,
    Depth,
    Edits,
    Flatten,
    FromIndex,
    IncludeUserAgentShadowDom,
    IncludeWhitespace,
    InsertBeforeNodeId,
    Location,
    Name,
    NodeId,
    Params,
    Path,
    Pierce,
    Query,
    Range,
    RuleText,
    SearchId,
    Selector,
    SessionId,
    StyleSheetId,
    TargetId,
    TargetNodeId,
    Text,
    ToIndex,
    Type,
    Value,
}

/// Why a frame is refused (JSON-RPC 2.0, section 5.1, and codes of the protocol's own). From `NoNode` on they are the faults of
/// edits, by their names.
#[derive(Clone, Copy)]
pub enum Why {
    /// The bytes are not UTF-8 or not JSON.
    NotJson,
    /// The value is no object, or its `id` is no whole number from 0 to 2^53-1.
    NoId,
    /// `method` is no string, or `params` is there and is no object.
    BadRequest,
    /// A `sessionId` is there.
    NoSession,
    NoMethod,
    /// The first parameter that is missing, of the wrong kind or out of range.
    BadParam(Param),
    /// The domain DOM is off.
    DomOff,
    /// The domain CSS is off.
    CssOff,
    /// An id is not the id of a known node.
    UnknownNode,
    /// Nothing is known.
    NotPushed,
    /// The path is none, or leads nowhere.
    NoPath,
    /// The text is no selector list.
    BadQuery,
    /// No search with that id is kept.
    NoSearch,
    /// The range is empty or upside down, or ends behind what the search found.
    BadSearchRange,
    /// There is no target with that id to attach a session to.
    NoTarget,
    /// A session is attached already.
    SessionTaken,
    /// The session that is to be detached is not attached.
    NoTargetSession,
    /// Script changed the page since the edit that is to be taken back.
    Crossed,
    /// A serial is not that of a live node.
    NoNode,
    NotElement,
    /// The node is neither a text nor a comment.
    NotText,
    IsDocument,
    /// The node to insert before is no child of the parent.
    NotChild,
    /// The parent is the node that is moved, or stands below it.
    Inside,
    TooDeep,
    TooMany,
    BadName,
    /// There is no attribute of that name to drop.
    NoAttr,
    /// The parent is no container, or a doctype would leave the document.
    NotContainer,
    NoSheet,
    /// The sheet is one of the user agent's.
    NotMutable,
    /// No style rule has this range.
    BadRange,
    /// The text is not sealed, or is not of the form that is wanted.
    BadText,
    /// The text is no selector list.
    BadSelector,
    /// The place is none between the top-level parts of the sheet.
    BadPlace,
    TooBig,
}

/// A command and the id that its reply will have.
#[derive(Drop)]
pub struct Asked {
    pub id: u64,
    pub command: Command,
}

/// A refusal, with the id of the frame where it has one.
#[derive(Clone, Copy)]
pub struct Refused {
    pub id: Option<u64>,
    pub why: Why,
}

#[derive(Clone, Copy)]
pub enum ReadErr {
    Refused(Refused),
    Memory,
}

/// Why a method with its parameters is no command.
#[derive(Clone, Copy)]
pub enum CommandErr {
    Refused(Why),
    Memory,
}

impl From<Why> for CommandErr {
    ghost from_gives = { λ why e. e ≡ command_err.Refused why };

    fn from(why: Why) -> CommandErr {
        CommandErr::Refused(why)
    }
}

impl From<AllocError> for CommandErr {
    ghost from_gives = { λ _ e. e ≡ command_err.Memory };

    fn from(_error: AllocError) -> CommandErr {
        CommandErr::Memory
    }
}

impl<T: Drop> From<AllocFailed<T>> for CommandErr {
    ghost from_gives = { λ _ e. e ≡ command_err.Memory };

    fn from(_error: AllocFailed<T>) -> CommandErr {
        CommandErr::Memory
    }
}
