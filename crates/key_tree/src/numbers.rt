//! The numbers that walks look for.
ghost use Rattle.std.specs.Prelude.{◌≡◌, ◌⊎◌, ◌<◌, ◌≤◌, IfSome, IsSomeAnd, MatchOption};

/// What a walk begins with: above all numbers.
pub const ABOVE_ALL: u64 = 1 << 32;

/// The number that was found, if it isn't what the walk began with.
pub fn number_of(found: u64) -> Option<u32>
    requires { found ≤ ABOVE_ALL }
    ensures found { MatchOption result (found ≡ ABOVE_ALL) (λ number. number ≡ found) }
    ensures small { IfSome result (λ number. number < ABOVE_ALL) }
{
    u32::try_from(found).ok()
}

/// The lesser of the number found so far and the one that a place has, if it has one.
pub fn lesser(best: u64, number: Option<u32>) -> u64
    ensures falls { result ≤ best }
    ensures attained { (result ≡ best) ⊎ IsSomeAnd number (λ n. n ≡ result) }
    ensures least { IfSome number (λ n. result ≤ n) }
{
    match number {
        Some(number) => best.min(u64::from(number)),
        None => best,
    }
}
