// Whose a frame is.
ghost use Rattle.std.specs.Prelude.{◌≡◌, ◌<◌, ◌++◌, IfOk, OnOk, OnErr, option_and_then};
ghost use Rattle.serde_json.specs.Find.{as_object};
ghost use Rattle.cdp_json.specs.Fields.{field_map};
ghost use Rattle.serde_json.specs.View.{view, members_view};
ghost use Rattle.session_mux.specs.Sessions.{Sessions, session_limit, no_sessions, is_attached};
ghost use Rattle.cdp_messages.specs.Replies.{message_frames};
ghost use Rattle.session_mux.specs.declared.targets.Target.TheVariants.{Attach, Detach};
ghost use Rattle.session_mux.specs.Targets.{target_named, attach_refusal, detach_refusal};
ghost use Rattle.session_mux.specs.Routes.{request_in, routing, routing_by, by_session, by_method, by_name, by_refusal, refused, Routes};

use crate::replies::{session_text, write_attached, write_detached, write_refusal};
use crate::targets::{Target, session_in, target_in};
use cdp_json::{Field, int_field, object_field, text_field};
use cdp_messages::{Why, json_of};
use serde_json::{Map, Value};
use std::alloc::{AllocError, Global};
use std::marker::Model;

/// Whose a frame is.
#[derive(Clone, Copy)]
pub enum Routed {
    /// The root session has to serve it, or to refuse it.
    Root,
    /// The attached session has to serve it, as if it had no `sessionId`.
    Attached,
    /// It was answered at once.
    Answered,
}

/// Which session is attached beside the root's, if one is. At most one is; each has a number of its own.
#[derive(Drop)]
pub struct Router {
    attached: Option<u64>,
    next: u64,
}

impl Model for Router {
    ghost use Rattle.session_mux.specs.Sessions.{Sessions};

    ghost Value = { Sessions };

    ghost view = { λ r. record { attached = r.attached; next = r.next } };
}

impl Router {
    /// None is attached, and the first number is 1.
    pub fn new() -> Router
        ensures { result ≡ no_sessions }
    {
        Router {
            attached: None,
            next: 1,
        }
    }

    /// Tells whose a frame is. The two methods that attach and detach a session are answered, and carried out where they are not
    /// refused; a frame of a session that is not attached is refused. Such an answer is appended as one frame, with its zero byte.
    /// After want of memory all is as before.
    pub fn route(
        &mut self,
        alloc: Global,
        bytes: &[u8],
        out: &mut Vec<u8>,
    ) -> Result<Routed, AllocError>
        requires { self.old.next < session_limit }
        ensures routed { IfOk result (λ r. r ≡ (routing bytes.now self.old).routed) }
        ensures said { OnOk result (out.new.items ≡ out.old.items ++ message_frames (routing bytes.now self.old).said) }
        ensures sessions { OnOk result (self.new ≡ (routing bytes.now self.old).sessions) }
        ensures unsaid { OnErr result (out.new.items ≡ out.old.items) }
        ensures same { OnErr result (self.new ≡ self.old) }
    {
        match json_of(alloc, bytes)? {
            Some(value) => self.route_value(alloc, &value, out),
            None => Ok(Routed::Root),
        }
    }

    // The same of the value that a frame is.
    fn route_value(
        &mut self,
        alloc: Global,
        value: &Value,
        out: &mut Vec<u8>,
    ) -> Result<Routed, AllocError>
        requires { self.old.next < session_limit }
        ensures { Routes result self.old self.new out.old.items out.new.items
            (routing_by (option_and_then request_in (as_object (view value.now))) self.old) }
    {
        let Some(frame) = value.as_object() else {
            return Ok(Routed::Root);
        };
        let Field::Is(id) = int_field(frame, "id") else {
            return Ok(Routed::Root);
        };
        let Field::Is(method) = text_field(frame, "method") else {
            return Ok(Routed::Root);
        };
        let session = text_field(frame, "sessionId");
        match object_field(frame, "params") {
            Field::Missing => self.route_request(alloc, id, method, &Map::new(alloc), session, out),
            Field::Is(params) => self.route_request(alloc, id, method, params, session, out),
            Field::WrongKind => Ok(Routed::Root),
        }
    }

    // The same of a frame that any session could serve, by these fields.
    fn route_request(
        &mut self,
        alloc: Global,
        id: u64,
        method: &str,
        params: &Map<String, Value>,
        session: Field<&str>,
        out: &mut Vec<u8>,
    ) -> Result<Routed, AllocError>
        requires { self.old.next < session_limit }
        ensures { Routes result self.old self.new out.old.items out.new.items
            (by_session (field_map (λ s. s.now) session.entry) id method.now (members_view params.now.entries) self.old) }
    {
        match session {
            Field::Missing => self.route_method(alloc, id, method, params, out),
            Field::WrongKind => refuse(alloc, id, Why::NoSession, out),
            Field::Is(text) => self.route_session(alloc, id, text, out),
        }
    }

    // The same of a frame that names no session.
    fn route_method(
        &mut self,
        alloc: Global,
        id: u64,
        method: &str,
        params: &Map<String, Value>,
        out: &mut Vec<u8>,
    ) -> Result<Routed, AllocError>
        requires { self.old.next < session_limit }
        ensures { Routes result self.old self.new out.old.items out.new.items
            (by_method (target_named method.now) id (members_view params.now.entries) self.old) }
    {
        match Target::named(method) {
            Some(Target::Attach) => self.attach(alloc, id, params, out),
            Some(Target::Detach) => self.detach(alloc, id, params, out),
            None => Ok(Routed::Root),
        }
    }

    // The same of a frame that names this session: the attached one serves its own, and all others are refused.
    fn route_session(
        &mut self,
        alloc: Global,
        id: u64,
        text: &str,
        out: &mut Vec<u8>,
    ) -> Result<Routed, AllocError>
        ensures { Routes result self.old self.new out.old.items out.new.items
            (by_name (is_attached self.old.attached text.now) id self.old) }
    {
        if is_attached(alloc, self.attached, text)? {
            return Ok(Routed::Attached);
        }
        refuse(alloc, id, Why::NoSession, out)
    }

    // Answers `Target.attachToTarget`.
    fn attach(
        &mut self,
        alloc: Global,
        id: u64,
        params: &Map<String, Value>,
        out: &mut Vec<u8>,
    ) -> Result<Routed, AllocError>
        requires { self.old.next < session_limit }
        ensures { Routes result self.old self.new out.old.items out.new.items
            (by_refusal (attach_refusal (members_view params.now.entries) self.old.attached) id Attach self.old) }
    {
        match attach_refusal(params, self.attached) {
            Some(why) => write_refusal(alloc, id, why, out)?,
            None => {
                write_attached(alloc, id, self.next, out)?;
                self.attached = Some(self.next);
                self.next += 1;
            }
        }
        Ok(Routed::Answered)
    }

    // Answers `Target.detachFromTarget`.
    fn detach(
        &mut self,
        alloc: Global,
        id: u64,
        params: &Map<String, Value>,
        out: &mut Vec<u8>,
    ) -> Result<Routed, AllocError>
        ensures { Routes result self.old self.new out.old.items out.new.items
            (by_refusal (detach_refusal (members_view params.now.entries) self.old.attached) id Detach self.old) }
    {
        match detach_refusal(alloc, params, self.attached)? {
            Some(why) => write_refusal(alloc, id, why, out)?,
            None => {
                write_detached(alloc, id, out)?;
                self.attached = None;
            }
        }
        Ok(Routed::Answered)
    }

    /// The number of the attached session; `None` exactly where none is attached.
    pub fn attached(&self) -> Option<u64>
        ensures { result ≡ self.now.attached }
    {
        self.attached
    }

    /// The number that the next session gets.
    pub fn next(&self) -> u64
        ensures { result ≡ self.now.next }
    {
        self.next
    }
}

// Whether the text is that of the attached session.
fn is_attached(alloc: Global, attached: Option<u64>, text: &str) -> Result<bool, AllocError>
    ensures { IfOk result (λ is. is ≡ is_attached attached text.now) }
{
    match attached {
        Some(session) => Ok(session_text(alloc, session)?.as_str() == text),
        None => Ok(false),
    }
}

// Refuses the frame of that id.
fn refuse(alloc: Global, id: u64, why: Why, out: &mut Vec<u8>) -> Result<Routed, AllocError>
    ensures { (s : Sessions) → Routes result s s out.old.items out.new.items (refused id why s) }
{
    write_refusal(alloc, id, why, out)?;
    Ok(Routed::Answered)
}

// Why a session is not attached, if it is not.
fn attach_refusal(params: &Map<String, Value>, attached: Option<u64>) -> Option<Why>
    ensures { result ≡ attach_refusal (members_view params.now.entries) attached }
{
    let target = match target_in(params) {
        Ok(target) => target,
        Err(why) => return Some(why),
    };
    if target != "page" {
        return Some(Why::NoTarget);
    }
    match attached {
        Some(_) => Some(Why::SessionTaken),
        None => None,
    }
}

// Why a session is not detached, if it is not.
fn detach_refusal(
    alloc: Global,
    params: &Map<String, Value>,
    attached: Option<u64>,
) -> Result<Option<Why>, AllocError>
    ensures { IfOk result (λ why. why ≡ detach_refusal (members_view params.now.entries) attached) }
{
    let session = match session_in(params) {
        Ok(session) => session,
        Err(why) => return Ok(Some(why)),
    };
    if is_attached(alloc, attached, session)? {
        Ok(None)
    } else {
        Ok(Some(Why::NoTargetSession))
    }
}
