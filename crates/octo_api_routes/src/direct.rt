//! Why a message is no request.
ghost use Rattle.std.specs.Prelude.{◌≡◌};
ghost use Rattle.octo_api_routes.specs.Members.{member_name};

use byte_text::Name;
use std::alloc::AllocError;
use thiserror::Error;

/// A member of a JSON body.
#[derive(Clone, Copy, Debug, PartialEq, Eq)]
pub enum Member {
    Command,
    Commands,
    Parameters,
    Port,
    Targets,
    Tool0,
    Target,
    Action,
    Print,
    Name,
    File,
    Priority,
    Copies,
    Material,
    Key,
    Groups,
    Active,
    Passive,
    X,
    Y,
    Z,
    Absolute,
    Speed,
    Axes,
    Factor,
    Amount,
    Tool,
}

impl Member {
    /// The name that the member has in a body.
    pub fn name(self) -> &'static str
        ensures { result.now ≡ member_name self }
    {
        match self {
            Member::Command => "command",
            Member::Commands => "commands",
            Member::Parameters => "parameters",
            Member::Port => "port",
            Member::Targets => "targets",
            Member::Tool0 => "tool0",
            Member::Target => "target",
            Member::Action => "action",
            Member::Print => "print",
            Member::Name => "name",
            Member::File => "file",
            Member::Priority => "priority",
            Member::Copies => "copies",
            Member::Material => "material",
            Member::Key => "key",
            Member::Groups => "groups",
            Member::Active => "active",
            Member::Passive => "passive",
            Member::X => "x",
            Member::Y => "y",
            Member::Z => "z",
            Member::Absolute => "absolute",
            Member::Speed => "speed",
            Member::Axes => "axes",
            Member::Factor => "factor",
            Member::Amount => "amount",
            Member::Tool => "tool",
        }
    }
}

/// What is wrong with a body.
#[derive(Clone, Copy, Debug, PartialEq, Eq)]
pub enum BodyFault {
    /// A body of JSON has over 1,048,576 bytes.
    TooLong,
    /// The body isn't JSON.
    NotJson,
    /// The body is JSON, but no object.
    NoObject,
    /// This member is missing.
    Missing { member: Member },
    /// This member isn't what the route takes.
    Wrong { member: Member },
    /// The body has both `command` and `commands`.
    Both,
    /// The body has a password, and the host knows keys alone.
    Password,
    /// A form has no closing delimiter.
    NoClose,
    /// A part of a form is no field.
    BadPart,
    /// A form has no part `file` with a filename.
    NoFile,
    /// The name of an uploaded file has this number of bytes, over 100.
    LongName { bytes: usize },
}

/// What is wrong with the type of a body or of an uploaded file.
#[derive(Debug, Drop)]
pub enum MediaFault {
    /// The body is in a coding.
    Coded,
    /// The type isn't JSON.
    NotJson,
    /// The type isn't a form with a boundary.
    NoForm,
    /// The name of an uploaded file, of which these are the first 100 bytes, has no ending of a print file.
    NoEnding { name: Name },
}

/// The methods that a route takes.
#[derive(Clone, Copy, Debug, PartialEq, Eq)]
pub struct Methods {
    pub get: bool,
    pub post: bool,
    pub put: bool,
    pub delete: bool,
}

/// Why a message is no request. Source: RFC 9110, section 15.5.
#[derive(Debug, Drop, Error)]
pub enum Direct {
    /// The body isn't one that the route takes.
    #[error("request: bad body")]
    BadBody { fault: BodyFault },
    /// There is no such route.
    #[error("request: no route")]
    NoRoute,
    /// The route doesn't take the method.
    #[error("request: bad method")]
    BadMethod { allowed: Methods },
    /// The message only asks which methods the route takes. Source: RFC 9110, section 9.3.7.
    #[error("request: the methods")]
    Options { allowed: Methods },
    /// A body is wanted, and the message has neither a length nor chunks.
    #[error("request: no length")]
    NoLength,
    /// The body's type or coding, or the type of an uploaded file, isn't taken.
    #[error("request: bad media type")]
    BadMedia { fault: MediaFault },
    /// Memory ran out.
    #[error("out of memory")]
    NoMemory,
}

impl From<AllocError> for Direct {
    ghost use Rattle.std.specs.Prelude.{◌≡◌};
    ghost use Rattle.octo_api_routes.specs.declared.direct.Direct.TheVariants as direct;

    ghost from_gives = { λ _ e. e ≡ direct.NoMemory };

    fn from(_error: AllocError) -> Direct {
        Direct::NoMemory
    }
}
