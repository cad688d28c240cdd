//! What expressions come to in a scene, over stores of both kinds, as texts.
#![tactic(auto)]

mod bound;
mod evaluated;
mod scene;
mod texts;
mod turns;

pub use bound::environment;
pub use evaluated::{is_done, shown};
pub use scene::Scene;
pub use texts::{cells_text, is_value};
pub use turns::{outcome_in, text_in};
