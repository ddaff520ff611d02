//! What holds for all threads of a run.

/// What holds for all threads of a run: the gate before each instruction, and after how many NotYet answers in a row a
/// thread gives up.
#[derive(Drop)]
pub struct Course<'a, G> {
    pub gate: &'a G,
    pub tries: u64,
}
