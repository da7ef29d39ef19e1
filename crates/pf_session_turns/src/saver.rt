ghost use Rattle.std.specs.Prelude.{ℕ, List, Bool};

/// Who writes files.
pub trait Saver {
    // it was to write these bytes to the file of this name, and did or did not
    ghost saves: { Self → List ℕ → List ℕ → Bool → Self → Type 0 };

    /// Writes these bytes to the file of this name, whole or not at all, and says whether it did.
    fn save(&mut self, file: &[u8], bytes: &[u8]) -> bool
        ensures { saves self.old file.now bytes.now result self.new };
}
