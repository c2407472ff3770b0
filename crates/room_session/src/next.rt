//! The outcome of an event, if no allocation failed.
use crate::sent::Texts;
use crate::session::State;

// The texts that go out, and the state after them.
#[derive(Debug, Drop)]
pub(crate) struct Next {
    pub texts: Texts,
    pub state: State,
}
