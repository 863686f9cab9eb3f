ghost use Rattle.std.specs.Prelude.{◌≡◌, ℕ, ◌+◌, ◌<◌, ◌≤◌, List, ◌++◌, length, take};
ghost use Rattle.std.specs.Prelude.{IfOk, IfErr, MatchResult};
ghost use Rattle.am_universe.specs.declared.kind.Kind.TheVariants as kinds;

use crate::Kind;

/// A destination for bytes, which it takes in order. A take may fail.
pub trait Sink {
    /// The bytes taken so far.
    ghost taken: { Self → List ℕ };

    /// How many takes failed so far.
    ghost failures: { Self → ℕ };

    /// Takes a prefix of the bytes, and returns how many it took: at least one.
    ///
    /// `bytes` must not be empty. Fails only with `Kind::Write`; then nothing was taken, and one
    /// more take has failed.
    fn take(&mut self, bytes: &[u8]) -> Result<usize, Kind>
        requires { 0 < length bytes.now }
        ensures count { IfOk result (λ n. (0 < n) × (n ≤ length bytes.now)) }
        ensures taken { MatchResult result
            (λ n. taken self.new ≡ taken self.old ++ take n bytes.now)
            (λ _. taken self.new ≡ taken self.old) }
        ensures failures { MatchResult result
            (λ _. failures self.new ≡ failures self.old)
            (λ _. failures self.new ≡ failures self.old + 1) }
        ensures kind { IfErr result (λ kind. kind ≡ kinds.Write) };
}
