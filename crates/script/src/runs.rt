ghost use Rattle.std.specs.Prelude.{◌≡◌, ℕ, Bool};
ghost use Rattle.std.specs.List.{before_first};
ghost use Rattle.script.specs.Runs.{Computes, is_blank, from_first};

// Whether a byte stands between words.
pub fn is_blank(byte: u8) -> bool
    ensures { result ≡ is_blank byte }
{
    matches!(byte, b' ' | b'\t' | b'\r')
}

// What stands before the first byte that passes a test, all where none does, and what follows from there on.
pub fn cut<P: Fn(&u8) -> bool>(bytes: &[u8], stop: P) -> (&[u8], &[u8])
    requires { P.IsAlwaysCallable stop }
    ensures before { (p : ℕ → Bool) → Computes P.Fn p stop → result.0.now ≡ before_first p bytes.now }
    ensures rest { (p : ℕ → Bool) → Computes P.Fn p stop → result.1.now ≡ from_first p bytes.now }
{
    let end = bytes.iter().position(stop).unwrap_or(bytes.len());
    bytes.split_at(end)
}
