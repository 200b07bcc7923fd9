ghost use Rattle.std.specs.Prelude.{◌≡◌, ℕ, List};

/// What has a name of its own.
pub trait Named {
    ghost name_of: { Self → List ℕ };

    /// The name.
    fn own_name(&self) -> &str
        ensures { result.now ≡ name_of self.now };
}
