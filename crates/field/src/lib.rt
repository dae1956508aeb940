// Arithmetic on residues modulo m, where a product is taken in 64 bits, and the test of a prime.
#![tactic(auto)]

ghost use Rattle.std.specs.Prelude.{◌≡◌, ◌<◌};
ghost use Rattle.field.specs.Residue.{sub, mul, inv};
ghost use Rattle.field.specs.Prime.{Prime};
ghost use Rattle.field.specs.Polynomial.{value_at};

mod prime;

pub use prime::is_prime;

// Internal: callers ensure that both figures are below m.
pub fn sub(m: u32, a: u32, b: u32) -> u32
    requires { (a < m) × (b < m) }
    ensures { result ≡ sub m a b }
{
    if a < b { m - (b - a) } else { a - b }
}

// Internal: callers ensure that m is not 0.
pub fn mul(m: u32, a: u32, b: u32) -> u32
    requires { 0 < m }
    ensures { result ≡ mul m a b }
{
    ((a as u64 * b as u64) % (m as u64)) as u32
}

// Internal: callers ensure that m is prime and that a is in 1 to m - 1.
pub fn inverse(m: u32, a: u32) -> u32
    requires { (Prime m) × (0 < a) × (a < m) }
    ensures { result ≡ inv m a }
{
    let mut t: u32 = 1;
    let mut x = a;
    // No counted loop: x goes to the rest of m by x, as in Euclid's algorithm.
    while x > 1 {
        t = mul(m, t, m - m / x);
        x = m % x;
    }
    t
}

// The value at x of the polynomial with the coefficients cs, the constant first.
// Internal: callers ensure that m is not 0.
pub fn value_at(m: u32, cs: &[u32], x: u32) -> u32
    requires { 0 < m }
    ensures { result ≡ value_at m cs.now x }
{
    let mut r: u64 = 0;
    for &c in cs.iter().rev() {
        r = (c as u64 + x as u64 * r) % (m as u64);
    }
    r as u32
}
