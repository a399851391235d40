//! Bytes up to the first of a kind.
ghost use Rattle.std.specs.Prelude.{◌≡◌, ◌∷◌, ◌++◌, IfSome, None};
ghost use Rattle.pm_start.specs.Entry.{Lacks, IsFirstLine};

use memchr::memchr;

/// The bytes before the first sign, and those after it; None where the sign doesn't stand.
pub fn before_sign(bytes: &[u8], sign: u8) -> Option<(&[u8], &[u8])>
    ensures cut { IfSome result (λ cut. (bytes.now ≡ cut.0.now ++ sign ∷ cut.1.now) × Lacks sign cut.0.now) }
    ensures none { result ≡ None → Lacks sign bytes.now }
{
    let Some(place) = memchr(sign, bytes) else {
        return None;
    };
    Some((&bytes[..place], &bytes[place + 1..]))
}

/// The first line of a text, without its end.
#[tactic(auto, using(crate::proofs::Machine::first_of_cut))]
pub fn first_line(text: &[u8]) -> &[u8]
    ensures { IsFirstLine text.now result.now }
{
    match before_sign(text, b'\n') {
        Some((line, _)) => line,
        None => text,
    }
}
