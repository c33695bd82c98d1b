//! What the parts of a work pass that threads share.

/// Each part of a work that threads share passes it once, before its first step. It decides nothing of the work; a test can
/// have parts wait there for one another.
pub trait Gate: Sync {
    /// The part of this number begins. It returns.
    fn pass(&self, part: usize);
}

/// It lets every part pass at once.
pub struct OpenGate;

impl Gate for OpenGate {
    fn pass(&self, _part: usize) {}
}
