ghost use Rattle.std.specs.Prelude.{◌≡◌, Bool};

/// A test that an item passes or not.
pub trait Test<T> {
    ghost passed_by: { Self → T → Bool };

    /// Whether the item passes.
    fn passes(&self, item: &T) -> bool
        ensures { result ≡ passed_by self.now item.now };
}
