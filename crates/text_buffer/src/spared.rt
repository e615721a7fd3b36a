//! Which paragraphs are left as they are where others are forgotten.

ghost use Rattle.std.specs.Prelude.{◌≡◌, ◌<◌};
ghost use Rattle.text_buffer.specs.Forgetting.{stays};

/// The paragraphs from one number up to another, and of the others those whose number does not leave `turn` when it is divided
/// by `step`.
#[derive(Clone, Copy)]
pub struct Spared {
    pub from: usize,
    pub to: usize,
    pub step: usize,
    pub turn: usize,
}

impl Spared {
    /// Whether the paragraph with this number is one of them.
    #[inline]
    pub fn has(&self, number: usize) -> bool
        requires { 0 < self.now.step }
        ensures { result ≡ stays self.now number }
    {
        self.from <= number && number < self.to || number % self.step != self.turn
    }
}
