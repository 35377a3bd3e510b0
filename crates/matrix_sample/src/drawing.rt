//! The recurrence, and the vectors that it draws.

ghost use Rattle.std.specs.Prelude.{◌≡◌, ℕ, ◌+◌, ◌≤◌, ◌<◌, length, slice_index_or};
ghost use Rattle.matrix_sample.specs.Samples.{number_after, number_at, coordinate_from};

const MULTIPLIER: u64 = 6364136223846793005;

const INCREMENT: u64 = 1442695040888963407;

/// The number that follows `x`: x·6364136223846793005 + 1442695040888963407, modulo 2^64.
pub fn next_number(x: u64) -> u64
    ensures { result ≡ number_after x }
{
    // It wraps on purpose: that is the remainder modulo 2^64.
    x.wrapping_mul(MULTIPLIER).wrapping_add(INCREMENT)
}

/// The coordinate that a number gives, 0 to 2: `x` shifted right by 33, modulo 3.
pub fn coordinate_of(x: u64) -> u32
    ensures value { result ≡ coordinate_from x }
    ensures small { result ≤ 2 }
{
    ((x >> 33) % 3) as u32
}

/// The next coordinate: the number makes one step, and then gives it.
pub(crate) fn next_coordinate(number: &mut u64) -> u32
    ensures number { number.new ≡ number_after number.old }
    ensures value { result ≡ coordinate_from (number_after number.old) }
    ensures small { result ≤ 2 }
{
    *number = next_number(*number);
    coordinate_of(*number)
}

/// The next vector, of `n` coordinates; the places from `n` on are 0.
pub(crate) fn next_vector(n: u8, number: &mut u64) -> [u32; 6]
    requires { n ≤ 6 }
    ensures number { number.new ≡ number_at number.old n }
    ensures size { length result ≡ 6 }
    ensures coordinates { (p : ℕ) → p < n → slice_index_or result p 0 ≡ coordinate_from (number_at number.old (p + 1)) }
    ensures small { (p : ℕ) → p < n → slice_index_or result p 0 ≤ 2 }
{
    let mut vector = [0; 6];
    for place in 0..usize::from(n) {
        vector[place] = next_coordinate(number);
    }
    vector
}
