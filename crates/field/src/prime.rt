// The test of a prime.
ghost use Rattle.std.specs.Prelude.{◌≡◌};
ghost use Rattle.field.specs.Prime.{is_prime};

// Whether m is prime: neither 2 nor an odd number up to the square root divides it. k is the quotient of m by d: the square of d, which
// may be above 2^32, is not above m exactly if d is not above k, and d divides m exactly if d times k is m. So a turn takes one division.
pub fn is_prime(m: u32) -> bool
    ensures { result ≡ is_prime m }
{
    if m < 2 {
        return false;
    }
    if m % 2 == 0 {
        return m == 2;
    }
    let mut d: u32 = 3;
    let mut k = m / d;
    // No counted loop: its end depends on k, which each turn works out anew.
    while d <= k {
        if d * k == m {
            return false;
        }
        d += 2;
        k = m / d;
    }
    true
}
