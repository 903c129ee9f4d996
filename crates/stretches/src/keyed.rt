// Entries that stand by a number.
ghost use Rattle.std.specs.Prelude.{◌≡◌, ℕ};

/// An entry with a number, by which entries stand in order.
pub trait Keyed: Copy {
    ghost key: { Self → ℕ };

    /// The number.
    fn key(&self) -> u64
        ensures { result ≡ key self.now };
}
