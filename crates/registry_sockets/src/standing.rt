//! What the last reply on a connection tells of the client at its other end.

use registry_model::Verb;
use registry_server::Turn;

/// What is known of a client by the replies that it was given.
#[derive(Clone, Copy)]
pub struct Standing {
    /// It was given one.
    pub answered: bool,
    /// The last one was to GET or HEAD of what is there. A client sends those again on another connection
    /// (RFC 9110, section 9.2.2). One that pushes asks for what is not there, and goes on with what it sends
    /// once.
    pub resumes: bool,
    /// The last one was to a token that is known.
    pub known: bool,
}

impl Standing {
    /// No reply yet.
    pub fn new() -> Standing {
        Standing {
            answered: false,
            resumes: false,
            known: false,
        }
    }

    /// What the reply of a turn tells, if a request was answered.
    pub fn after(turn: &Turn) -> Option<Standing> {
        let report = turn.report.as_ref()?;
        let asked = report.asked.as_ref()?;
        let reads = matches!(asked.verb, Verb::Get | Verb::Head);
        let status = report.status;
        Some(Standing {
            answered: true,
            resumes: reads && status != 404,
            known: status < 500 && status != 401,
        })
    }
}
