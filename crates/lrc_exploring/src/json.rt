//! What the command prints with `--json`: an object a line, which `told` names.

pub mod allowed;
pub mod allowed_showing;
pub mod explored;
pub mod open;
pub mod showing;
