use thiserror::Error;

/// Why a change does not fit a state.
#[derive(Clone, Copy, Debug, PartialEq, Eq, Error)]
pub enum StoreFault {
    #[error("name is taken")]
    X1,
    #[error("class is abstract")]
    X2,
    #[error("link is there already")]
    X3,
    #[error("no such link")]
    X4,
    #[error("no such object")]
    X5,
    #[error("too many objects")]
    X6,
    #[error("too many links")]
    X7,
    #[error("counter is spent")]
    X15,
    #[error("state is too large")]
    X8,
}
