ghost use Rattle.std.specs.Prelude.{◌≡◌};

/// What is done to the value of each column of a stretch.
pub trait Change<V> {
    ghost makes: { Self → V → V };

    /// The new value.
    fn make(&self, old: V) -> V
        ensures { result ≡ makes self.now old };
}
