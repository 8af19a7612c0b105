ghost use Rattle.std.specs.Prelude.{◌≡◌, IfSome, Option, ℕ};

/// A clock. Reading it never fails.
pub trait Clock {
    /// The moment that it shows, where that is told: then it shows no other.
    ghost told: { Self → Option ℕ };

    /// The moment, in milliseconds since a start of its own.
    fn now(&self) -> u64
        ensures told { IfSome (told self.now) (λ moment. result ≡ moment) };
}
