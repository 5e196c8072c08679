// The methods: one table says what is said of each.
ghost use Rattle.std.specs.Prelude.{◌≡◌};
ghost use Rattle.cdp_json.specs.Kinds.{named};
ghost use Rattle.cdp_messages.specs.Methods.{MethodSaid, said, row_seen, row_of, name_of, method_named, is_own, result_form, domains_of};
ghost use Rattle.cdp_messages.specs.Methods.{is_replay};
ghost use Rattle.cdp_messages.specs.declared.method.ResultForm.TheVariants as form;

use crate::method::ResultForm as Form;

/// A method of the protocol, or one of the two of our own.
#[derive(Clone, Copy)]
pub enum Method {
    /// `DOM.enable`
    DomEnable,
    /// `DOM.disable`
    DomDisable,
    /// `DOM.getDocument`
    GetDocument,
    /// `DOM.requestChildNodes`
    RequestChildNodes,
    /// `DOM.pushNodeByPathToFrontend`
    PushByPath,
    /// `DOM.pushNodesByBackendIdsToFrontend`
    PushBySerials,
    /// `DOM.querySelector`
    QuerySelector,
    /// `DOM.querySelectorAll`
    QuerySelectorAll,
    /// `DOM.getAttributes`
    GetAttributes,
    /// `DOM.describeNode`
    DescribeNode,
    /// `DOM.setAttributeValue`
    SetAttributeValue,
    /// `DOM.removeAttribute`
    RemoveAttribute,
    /// `DOM.setNodeValue`
    SetNodeValue,
    /// `DOM.removeNode`
    RemoveNode,
    /// `DOM.moveTo`
    MoveTo,
    /// `DOM.copyTo`
    CopyTo,
    /// `DOM.markUndoableState`
    MarkUndoableState,
    /// `DOM.undo`
    Undo,
    /// `DOM.redo`
    Redo,
    /// `CSS.enable`
    CssEnable,
    /// `CSS.disable`
    CssDisable,
    /// `CSS.getMatchedStylesForNode`
    GetMatchedStyles,
    /// `CSS.getStyleSheetText`
    GetStyleSheetText,
    /// `CSS.collectClassNames`
    CollectClassNames,
    /// `CSS.setStyleTexts`
    SetStyleTexts,
    /// `CSS.setRuleSelector`
    SetRuleSelector,
    /// `CSS.setStyleSheetText`
    SetStyleSheetText,
    /// `CSS.addRule`
    AddRule,
    /// `CSS.setMediaText`
    SetMediaText,
    /// `DOM.performSearch`
    PerformSearch,
    /// `DOM.getSearchResults`
    GetSearchResults,
    /// `DOM.discardSearchResults`
    DiscardSearchResults,
    /// `DOMDebugger.setDOMBreakpoint`
    SetBreakpoint,
    /// `DOMDebugger.removeDOMBreakpoint`
    RemoveBreakpoint,
    /// `Replay.load`
    ReplayLoad,
    /// `Replay.act`
    ReplayAct,
}

// The form of a result.
#[derive(Clone, Copy)]
pub(crate) enum ResultForm {
    Nothing,
    Root,
    Node,
    NodeId,
    NodeIds,
    Attributes,
    Search,
    ClassNames,
    SheetText,
    Styles,
    Selectors,
    Rule,
    Media,
    Matched,
}

/// Whose a method is: who carries out what it asks.
#[derive(Clone, Copy)]
pub enum Server {
    /// The DOM agent, which is asked about the page.
    DomAgent,
    /// The CSS agent, which is asked about sheets and edits them.
    CssAgent,
    /// The seat itself.
    Seat,
    /// The seat, for one of our own two methods.
    Replay,
}

/// Which domains have to be on for a method, and whether DOM is on after it.
#[derive(Clone, Copy)]
pub enum Domains {
    /// None has to be on.
    Any,
    /// None has to be on, and DOM is on after it.
    TurnsDomOn,
    /// DOM has to be on.
    Dom,
    /// DOM and CSS have to be on.
    DomAndCss,
}

impl Domains {
    ghost use Rattle.cdp_messages.specs.Methods.{needs_dom, needs_both, turns_dom_on};

    /// Whether DOM has to be on.
    pub fn needs_dom(self) -> bool
        ensures { result ≡ needs_dom self }
    {
        match self {
            Domains::Dom | Domains::DomAndCss => true,
            Domains::Any | Domains::TurnsDomOn => false,
        }
    }

    /// Whether CSS has to be on.
    pub fn needs_css(self) -> bool
        ensures { result ≡ needs_both self }
    {
        match self {
            Domains::DomAndCss => true,
            Domains::Any | Domains::TurnsDomOn | Domains::Dom => false,
        }
    }

    /// Whether DOM is on after it, whether it was before or not.
    pub fn turns_dom_on(self) -> bool
        ensures { result ≡ turns_dom_on self }
    {
        match self {
            Domains::TurnsDomOn => true,
            Domains::Any | Domains::Dom | Domains::DomAndCss => false,
        }
    }
}

// What is said of a method.
#[derive(Clone, Copy)]
pub(crate) struct MethodRow {
    pub(crate) name: &'static str,
    pub(crate) server: Server,
    pub(crate) domains: Domains,
    pub(crate) form: Form,
}

// Each method once.
const METHODS: [Method; 36] = [
    Method::DomEnable,
    Method::DomDisable,
    Method::GetDocument,
    Method::RequestChildNodes,
    Method::PushByPath,
    Method::PushBySerials,
    Method::QuerySelector,
    Method::QuerySelectorAll,
    Method::GetAttributes,
    Method::DescribeNode,
    Method::SetAttributeValue,
    Method::RemoveAttribute,
    Method::SetNodeValue,
    Method::RemoveNode,
    Method::MoveTo,
    Method::CopyTo,
    Method::MarkUndoableState,
    Method::Undo,
    Method::Redo,
    Method::CssEnable,
    Method::CssDisable,
    Method::GetMatchedStyles,
    Method::GetStyleSheetText,
    Method::CollectClassNames,
    Method::SetStyleTexts,
    Method::SetRuleSelector,
    Method::SetStyleSheetText,
    Method::AddRule,
    Method::SetMediaText,
    Method::PerformSearch,
    Method::GetSearchResults,
    Method::DiscardSearchResults,
    Method::SetBreakpoint,
    Method::RemoveBreakpoint,
    Method::ReplayLoad,
    Method::ReplayAct,
];

// The first of the methods that has the name.
fn named_among(methods: &[Method], name: &str) -> Option<Method>
    ensures { result ≡ named name_of methods.now name.now }
{
    for method in methods {
        if method.as_str() == name {
            return Some(*method);
        }
    }
    None
}

// A method by which the DOM agent is asked.
fn dom_ask(name: &'static str, domains: Domains, form: Form) -> MethodRow
    ensures { row_seen result ≡ said name.now Server.DomAgent domains form }
{
    let server = Server::DomAgent;
    MethodRow {
        name,
        server,
        domains,
        form,
    }
}

// A method by which the CSS agent is asked, or edits sheets.
fn sheets(name: &'static str, form: Form) -> MethodRow
    ensures { row_seen result ≡ said name.now Server.CssAgent Domains.DomAndCss form }
{
    let server = Server::CssAgent;
    let domains = Domains::DomAndCss;
    MethodRow {
        name,
        server,
        domains,
        form,
    }
}

// A method that the seat serves itself.
fn seat(name: &'static str, domains: Domains, form: Form) -> MethodRow
    ensures { row_seen result ≡ said name.now Server.Seat domains form }
{
    let server = Server::Seat;
    MethodRow {
        name,
        server,
        domains,
        form,
    }
}

// One of our own two methods.
fn replay(name: &'static str) -> MethodRow
    ensures { row_seen result ≡ said name.now Server.Replay Domains.Any form.Nothing }
{
    let server = Server::Replay;
    let domains = Domains::Any;
    let form = Form::Nothing;
    MethodRow {
        name,
        server,
        domains,
        form,
    }
}

// Whether a method is one of our own two, by whose it is.
fn is_replay(server: Server) -> bool
    ensures { result ≡ is_replay server }
{
    match server {
        Server::Replay => true,
        Server::DomAgent | Server::CssAgent | Server::Seat => false,
    }
}

impl Method {
    // The table: all that is said of a method, once.
    fn row(self) -> MethodRow
        ensures { row_seen result ≡ row_of self }
    {
        match self {
            Method::DomEnable => seat("DOM.enable", Domains::TurnsDomOn, Form::Nothing),
            Method::DomDisable => seat("DOM.disable", Domains::Dom, Form::Nothing),
            Method::GetDocument => dom_ask("DOM.getDocument", Domains::TurnsDomOn, Form::Root),
            Method::RequestChildNodes => dom_ask(
                "DOM.requestChildNodes",
                Domains::Dom,
                Form::Nothing,
            ),
            Method::PushByPath => dom_ask(
                "DOM.pushNodeByPathToFrontend",
                Domains::Dom,
                Form::NodeId,
            ),
            Method::PushBySerials => dom_ask(
                "DOM.pushNodesByBackendIdsToFrontend",
                Domains::Dom,
                Form::NodeIds,
            ),
            Method::QuerySelector => dom_ask("DOM.querySelector", Domains::Dom, Form::NodeId),
            Method::QuerySelectorAll => dom_ask(
                "DOM.querySelectorAll",
                Domains::Dom,
                Form::NodeIds,
            ),
            Method::GetAttributes => dom_ask("DOM.getAttributes", Domains::Dom, Form::Attributes),
            Method::DescribeNode => dom_ask("DOM.describeNode", Domains::Any, Form::Node),
            Method::SetAttributeValue => seat("DOM.setAttributeValue", Domains::Dom, Form::Nothing),
            Method::RemoveAttribute => seat("DOM.removeAttribute", Domains::Dom, Form::Nothing),
            Method::SetNodeValue => seat("DOM.setNodeValue", Domains::Dom, Form::Nothing),
            Method::RemoveNode => seat("DOM.removeNode", Domains::Dom, Form::Nothing),
            Method::MoveTo => seat("DOM.moveTo", Domains::Dom, Form::NodeId),
            Method::CopyTo => seat("DOM.copyTo", Domains::Dom, Form::NodeId),
            Method::MarkUndoableState => seat("DOM.markUndoableState", Domains::Dom, Form::Nothing),
            Method::Undo => seat("DOM.undo", Domains::Dom, Form::Nothing),
            Method::Redo => seat("DOM.redo", Domains::Dom, Form::Nothing),
            Method::CssEnable => seat("CSS.enable", Domains::Dom, Form::Nothing),
            Method::CssDisable => seat("CSS.disable", Domains::DomAndCss, Form::Nothing),
            Method::GetMatchedStyles => sheets("CSS.getMatchedStylesForNode", Form::Matched),
            Method::GetStyleSheetText => sheets("CSS.getStyleSheetText", Form::SheetText),
            Method::CollectClassNames => sheets("CSS.collectClassNames", Form::ClassNames),
            Method::SetStyleTexts => sheets("CSS.setStyleTexts", Form::Styles),
            Method::SetRuleSelector => sheets("CSS.setRuleSelector", Form::Selectors),
            Method::SetStyleSheetText => sheets("CSS.setStyleSheetText", Form::Nothing),
            Method::AddRule => sheets("CSS.addRule", Form::Rule),
            Method::SetMediaText => sheets("CSS.setMediaText", Form::Media),
            Method::PerformSearch => seat("DOM.performSearch", Domains::Dom, Form::Search),
            Method::GetSearchResults => seat("DOM.getSearchResults", Domains::Dom, Form::NodeIds),
            Method::DiscardSearchResults => seat(
                "DOM.discardSearchResults",
                Domains::Dom,
                Form::Nothing,
            ),
            Method::SetBreakpoint => seat(
                "DOMDebugger.setDOMBreakpoint",
                Domains::Dom,
                Form::Nothing,
            ),
            Method::RemoveBreakpoint => seat(
                "DOMDebugger.removeDOMBreakpoint",
                Domains::Dom,
                Form::Nothing,
            ),
            Method::ReplayLoad => replay("Replay.load"),
            Method::ReplayAct => replay("Replay.act"),
        }
    }

    /// The method's name.
    pub fn as_str(self) -> &'static str
        ensures { result.now ≡ name_of self }
    {
        self.row().name
    }

    /// The method that has the name.
    pub fn named(name: &str) -> Option<Method>
        ensures { result ≡ method_named name.now }
    {
        named_among(&METHODS, name)
    }

    /// Whether it is no part of the protocol.
    pub fn is_own(self) -> bool
        ensures { result ≡ is_own self }
    {
        is_replay(self.row().server)
    }

    /// Which domains it needs on.
    pub fn domains(self) -> Domains
        ensures { result ≡ domains_of self }
    {
        self.row().domains
    }

    // The form of its result.
    pub(crate) fn result_form(self) -> Form
        ensures { result ≡ result_form self }
    {
        self.row().form
    }
}
