ghost use Rattle.std.specs.Prelude.{◌≡◌};
ghost use Rattle.replay_script.specs.Names.{load_fault_name, fault_name};

use page_tree::LoadFault;
use std::alloc::AllocError;
use thiserror::Error;

/// Why a line is refused. The first that applies is answered, in the order NotJson, NotLoad, BadForm, BadLoad, BadRaw, BadSession,
/// NoPanel, NoStyles.
#[derive(Clone, Copy, Debug, Error)]
pub enum LineFault {
    /// `serde_json` does not read the line; bytes that are not UTF-8 are no JSON.
    #[error("NotJson")]
    NotJson,
    /// The first line is no object whose one property is `load`.
    #[error("NotLoad")]
    NotLoad,
    /// The line holds a number that is not whole, or it has none of the forms.
    #[error("BadForm")]
    BadForm,
    /// The page of a load is refused; a page of another form is `BadForm` here too.
    #[error("BadLoad {0:?}")]
    BadLoad(LoadFault),
    /// A raw text holds U+0000, or reads as an object whose `id` is a whole number.
    #[error("BadRaw")]
    BadRaw,
    /// An attach meets a second front that stands, or a detach or a line of the second front meets none. Reading a line never gives
    /// it: it comes as the line is carried out.
    #[error("BadSession")]
    BadSession,
    /// No panel stands open at the place that the line names. Reading a line never gives it: it comes as the line is carried out.
    #[error("NoPanel")]
    NoPanel,
    /// No reply told the matched styles that the line shows. Reading a line never gives it: it comes as the line is carried out.
    #[error("NoStyles")]
    NoStyles,
}

#[derive(Clone, Copy, Debug, Error)]
pub enum LineErr {
    #[error(transparent)]
    Fault(LineFault),
    #[error("out of memory")]
    Memory,
}

impl From<AllocError> for LineErr {
    ghost use Rattle.std.specs.Prelude.{◌≡◌};
    ghost use Rattle.replay_script.specs.declared.faults.LineErr.TheVariants.{Memory};

    ghost from_gives = { λ _ e. e ≡ Memory };

    fn from(_: AllocError) -> LineErr {
        LineErr::Memory
    }
}

fn load_fault_name(fault: LoadFault) -> &'static str
    ensures { result.now ≡ load_fault_name fault }
{
    match fault {
        LoadFault::BadForm => "BadLoad BadForm",
        LoadFault::TooDeep => "BadLoad TooDeep",
        LoadFault::TooMany => "BadLoad TooMany",
        LoadFault::BadName => "BadLoad BadName",
    }
}

/// The fault's name, as a status line prints it.
pub fn fault_name(fault: LineFault) -> &'static str
    ensures { result.now ≡ fault_name fault }
{
    match fault {
        LineFault::NotJson => "NotJson",
        LineFault::NotLoad => "NotLoad",
        LineFault::BadForm => "BadForm",
        LineFault::BadLoad(fault) => load_fault_name(fault),
        LineFault::BadRaw => "BadRaw",
        LineFault::BadSession => "BadSession",
        LineFault::NoPanel => "NoPanel",
        LineFault::NoStyles => "NoStyles",
    }
}
