//! For what connections want room.

/// For what room is wanted.
#[derive(Clone, Copy)]
pub struct Wanted {
    /// For bytes of a request.
    pub for_requests: bool,
    /// For a body that is to be staged.
    pub for_stages: bool,
}

impl Wanted {
    pub fn none() -> Wanted {
        Wanted {
            for_requests: false,
            for_stages: false,
        }
    }

    /// One more wants room.
    pub fn note(&mut self, for_stage: bool) {
        self.for_requests = self.for_requests || !for_stage;
        self.for_stages = self.for_stages || for_stage;
    }
}
