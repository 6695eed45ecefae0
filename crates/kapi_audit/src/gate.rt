/// Hooks that readers call around each question: a test holds readers in them. Questions are counted from 0.
pub trait Gate {
    /// Runs before the question is answered, in the reader that answers it.
    fn before(&self, question: usize);

    /// Runs after the question was answered, in the reader that answered it.
    fn after(&self, question: usize);
}

/// A gate that holds no reader.
#[derive(Clone, Copy)]
pub struct NoGate;

impl Gate for NoGate {
    fn before(&self, _question: usize) {}

    fn after(&self, _question: usize) {}
}
