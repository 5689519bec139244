//! What asks want of the print.
ghost use Rattle.std.specs.Prelude.{◌≡◌};
ghost use Rattle.octo_log_history.specs.Story.{is_accepted, paused_by, press_next, press_of};

use octo_asks::{Answer, Next, Request};

// What an ask wants of the print that is going on.
#[derive(Clone, Copy, Debug, PartialEq, Eq)]
pub(crate) enum Press {
    Pause,
    Resume,
    // To pause it, or to resume it.
    Toggle,
    // To end it.
    End,
    // Something else.
    Other,
}

// What a request wants.
fn press_of(request: &Request) -> Press
    ensures { result ≡ press_of request.now }
{
    match request {
        Request::Pause => Press::Pause,
        Request::Resume => Press::Resume,
        Request::Toggle => Press::Toggle,
        Request::Cancel | Request::Restart => Press::End,
        _ => Press::Other,
    }
}

// What the ask that comes next wants.
pub(crate) fn press_next(next: &Next) -> Press
    ensures { result ≡ press_next next.now }
{
    match next {
        Next::Nothing => Press::Other,
        Next::Asked { ask, .. } => press_of(&ask.request),
    }
}

// Whether an answer accepts.
pub(crate) fn is_accepted(answer: &Answer) -> bool
    ensures { result ≡ is_accepted answer.now }
{
    matches!(answer, Answer::Accepted)
}

impl Press {
    // Whether the print is paused after this was accepted.
    pub(crate) fn paused_by(self, paused: bool) -> bool
        ensures { result ≡ paused_by self paused }
    {
        match self {
            Press::Pause => true,
            Press::Resume | Press::End => false,
            Press::Toggle => !paused,
            Press::Other => paused,
        }
    }
}
