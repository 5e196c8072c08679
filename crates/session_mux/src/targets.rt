// The two methods by which the root attaches a session and detaches it.
ghost use Rattle.std.specs.Prelude.{◌≡◌, IfOk, IfErr, Ok, Err};
ghost use Rattle.serde_json.specs.View.{members_view};
ghost use Rattle.session_mux.specs.Targets.{target_named, attach_fields, detach_fields};

use cdp_json::{Field, flag_field, text_field};
use cdp_messages::{Param, Why};
use serde_json::{Map, Value};

/// A method of the domain Target.
#[derive(Clone, Copy)]
pub enum Target {
    Attach,
    Detach,
}

impl Target {
    /// The method of that name.
    pub(crate) fn named(name: &str) -> Option<Target>
        ensures { result ≡ target_named name.now }
    {
        match name {
            "Target.attachToTarget" => Some(Target::Attach),
            "Target.detachFromTarget" => Some(Target::Detach),
            _ => None,
        }
    }
}

// The target of `Target.attachToTarget`, where each of its parameters is there.
pub(crate) fn target_in(params: &Map<String, Value>) -> Result<&str, Why>
    ensures ok { IfOk result (λ target. attach_fields.gets (members_view params.now.entries) ≡ Ok (target.now, (tt, tt))) }
    ensures refused { IfErr result (λ why. attach_fields.gets (members_view params.now.entries) ≡ Err why) }
{
    let Field::Is(target) = text_field(params, "targetId") else {
        return Err(Why::BadParam(Param::TargetId));
    };
    match flag_field(params, "flatten") {
        Field::Is(true) => Ok(target),
        Field::Is(false) | Field::Missing | Field::WrongKind => Err(Why::BadParam(Param::Flatten)),
    }
}

// The session of `Target.detachFromTarget`, where it is there.
pub(crate) fn session_in(params: &Map<String, Value>) -> Result<&str, Why>
    ensures ok { IfOk result (λ session. detach_fields.gets (members_view params.now.entries) ≡ Ok (session.now, tt)) }
    ensures refused { IfErr result (λ why. detach_fields.gets (members_view params.now.entries) ≡ Err why) }
{
    match text_field(params, "sessionId") {
        Field::Is(session) => Ok(session),
        Field::Missing | Field::WrongKind => Err(Why::BadParam(Param::SessionId)),
    }
}
