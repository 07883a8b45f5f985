ghost use Rattle.std.specs.Prelude.{◌≡◌, ℕ, List, Option};

/// Gives each list of bytes a rank or none, always the same. A slot stands where its gate is open and its body has a
/// rank; of the slots that stand the one of greatest rank is held.
pub trait Ranked {
    ghost rank: { Self → List ℕ → Option ℕ };

    /// The rank of a body, if it has one.
    fn rank(&self, body: &[u8]) -> Option<u32>
        ensures { result ≡ rank self.now body.now };
}
