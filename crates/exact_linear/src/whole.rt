//! An exchange over whole numbers with one common denominator.

ghost use Rattle.std.specs.Prelude.{◌≡◌, ◌≢◌, ◌+◌, ◌*◌, ◌<◌, ◌^◌, ◌≤ℤ◌, ◌*ℤ◌, ◌-ℤ◌, nat_abs, length, pos, IfSome, IsTrue};
ghost use Rattle.exact_forms.specs.Rational.{ratio};
ghost use Rattle.exact_linear.specs.Whole.{fractions_over, whole_at, AreSmallWholes, AreScales, turned};
ghost use Rattle.exact_linear.specs.Exchange.{new_cell, table_cells};

/// The pivot of an exchange, and the denominator before it. After it the denominator is the magnitude of the pivot.
#[derive(Clone, Copy)]
struct Scales {
    pivot: i64,
    den: i64,
    // The denominator is an odd number times 2^twos, and the inverse that of the odd number modulo 2^64.
    inverse: i64,
    twos: u32,
}

impl Scales {
    fn new(pivot: i64, den: i64) -> Scales
        ensures pivot { result.pivot ≡ pivot }
        ensures den { result.den ≡ den }
    {
        let twos = den.cast_unsigned().trailing_zeros();
        Scales {
            pivot,
            den,
            inverse: inverse_of_odd(den.wrapping_shr(twos)),
            twos,
        }
    }
}

// The inverse modulo 2^64 of an odd number. Nothing rests on it: each quotient that it gives is tried.
fn inverse_of_odd(odd: i64) -> i64 {
    // An odd number is its own inverse modulo 2^3, and Newton's step doubles the exponent.
    let mut inverse = odd;
    for _ in 0..5 {
        inverse = inverse.wrapping_mul(2i64.wrapping_sub(odd.wrapping_mul(inverse)));
    }
    inverse
}

// The number, if its magnitude is at most 2^63 - 1.
#[inline]
pub fn small(value: i128) -> Option<i64>
    ensures value { IfSome result (λ n. n ≡ value) }
    ensures small { IfSome result (λ n. nat_abs n < 2 ^ 63) }
{
    if -(i64::MAX as i128) <= value && value <= i64::MAX as i128 {
        Some(value as i64)
    } else {
        None
    }
}

// The quotient, if the division leaves nothing and the quotient is small.
#[cold]
fn divided(value: i128, by: i64) -> Option<i64>
    requires { pos 1 ≤ℤ by }
    ensures value { IfSome result (λ q. q *ℤ by ≡ value) }
    ensures small { IfSome result (λ q. nat_abs q < 2 ^ 63) }
{
    let by = by as i128;
    if value % by == 0 {
        small(value / by)
    } else {
        None
    }
}

/// The magnitude.
#[inline]
pub fn magnitude(value: i64) -> i64
    requires { nat_abs value < 2 ^ 63 }
    ensures value { result ≡ pos (nat_abs value) }
    ensures small { nat_abs result < 2 ^ 63 }
{
    if value < 0 { -value } else { value }
}

// The number with the sign of another: its opposite where the other is negative.
#[inline]
fn with_sign(of: i64, value: i64) -> i64
    requires { nat_abs value < 2 ^ 63 }
    ensures value { result ≡ turned of value }
    ensures small { nat_abs result < 2 ^ 63 }
{
    if of < 0 { -value } else { value }
}

// The product of two small numbers.
#[inline]
fn wide_product(left: i64, right: i64) -> i128
    requires left { nat_abs left < 2 ^ 63 }
    requires right { nat_abs right < 2 ^ 63 }
    ensures value { result ≡ left *ℤ right }
    ensures small { nat_abs result < 2 ^ 126 }
{
    (left as i128) * (right as i128)
}

// The difference of two such products.
#[inline]
fn difference(left: i128, right: i128) -> i128
    requires left { nat_abs left < 2 ^ 126 }
    requires right { nat_abs right < 2 ^ 126 }
    ensures value { result ≡ left -ℤ right }
    ensures small { nat_abs result < 2 ^ 127 }
{
    left - right
}

// A number, if it is the quotient, and small. No division is needed to tell.
#[inline]
fn tried(quotient: i64, value: i128, by: i64) -> Option<i64>
    requires { nat_abs by < 2 ^ 63 }
    ensures value { IfSome result (λ q. q *ℤ by ≡ value) }
    ensures small { IfSome result (λ q. nat_abs q < 2 ^ 63) }
{
    if quotient != i64::MIN && wide_product(quotient, by) == value {
        Some(quotient)
    } else {
        None
    }
}

// entry · |pivot| - factor · above
#[inline]
fn cleared_value(scales: Scales, entry: i64, factor: i64, above: i64) -> i128
    requires scales { AreScales scales.pivot scales.den }
    requires entry { nat_abs entry < 2 ^ 63 }
    requires factor { nat_abs factor < 2 ^ 63 }
    requires above { nat_abs above < 2 ^ 63 }
    ensures value { result ≡ entry *ℤ pos (nat_abs scales.pivot) -ℤ factor *ℤ above }
    ensures small { nat_abs result < 2 ^ 127 }
{
    let size = magnitude(scales.pivot);
    difference(wide_product(entry, size), wide_product(factor, above))
}

// The quotient of that value by the denominator, where there is one and 2^twos times it has 64 bits: the low 64 bits of the
// value are enough for it.
#[inline]
fn guess(scales: Scales, entry: i64, factor: i64, above: i64) -> i64 {
    let low = entry
        .wrapping_mul(scales.pivot.wrapping_abs())
        .wrapping_sub(factor.wrapping_mul(above));
    low.wrapping_mul(scales.inverse).wrapping_shr(scales.twos)
}

// (entry · |pivot| - factor · above) / den, where it is a small whole number.
#[inline]
fn cleared_whole(scales: Scales, entry: i64, factor: i64, above: i64) -> Option<i64>
    requires scales { AreScales scales.pivot scales.den }
    requires entry { nat_abs entry < 2 ^ 63 }
    requires factor { nat_abs factor < 2 ^ 63 }
    requires above { nat_abs above < 2 ^ 63 }
    ensures value { IfSome result (λ q.
        q *ℤ scales.den ≡ entry *ℤ pos (nat_abs scales.pivot) -ℤ factor *ℤ above) }
    ensures small { IfSome result (λ q. nat_abs q < 2 ^ 63) }
{
    let value = cleared_value(scales, entry, factor, above);
    match tried(guess(scales, entry, factor, above), value, scales.den) {
        Some(quotient) => Some(quotient),
        None => divided(value, scales.den),
    }
}

// The whole number of the new entry at row i over the magnitude of the pivot.
#[inline]
fn new_whole(
    scales: Scales,
    row: usize,
    i: usize,
    entry: i64,
    factor: i64,
    above: i64,
) -> Option<i64>
    requires scales { AreScales scales.pivot scales.den }
    requires entry { nat_abs entry < 2 ^ 63 }
    requires factor { nat_abs factor < 2 ^ 63 }
    requires above { nat_abs above < 2 ^ 63 }
    ensures value { IfSome result (λ q.
        new_cell row i (ratio entry (nat_abs scales.den)) (ratio factor (nat_abs scales.den))
        (ratio (turned scales.pivot above) (nat_abs scales.pivot)) ≡ ratio q (nat_abs scales.pivot)) }
    ensures small { IfSome result (λ q. nat_abs q < 2 ^ 63) }
{
    let above = with_sign(scales.pivot, above);
    if i == row {
        Some(above)
    } else {
        cleared_whole(scales, entry, factor, above)
    }
}

/// `into` becomes the whole numbers of the entries after the exchange at a row and a column, over the magnitude of the
/// pivot. Where one is not whole or not small, the answer is no.
pub fn exchange_wholes(
    row: usize,
    column: usize,
    width: usize,
    rows: usize,
    den: i64,
    old: &[i64],
    into: &mut [i64],
) -> bool
    requires row { row < rows }
    requires column { column < width }
    requires rows { length old.now ≡ rows * width }
    requires size { length into.old ≡ length old.now }
    requires den { pos 1 ≤ℤ den }
    requires den_small { nat_abs den < 2 ^ 63 }
    requires small { AreSmallWholes old.now }
    requires pivot { whole_at old.now (row * width + column) ≢ pos 0 }
    ensures made { IsTrue result →
        fractions_over (nat_abs (whole_at old.now (row * width + column))) into.new
        ≡ table_cells width (fractions_over (nat_abs den) old.now) row column }
    ensures small { IsTrue result → AreSmallWholes into.new }
    ensures size { length into.new ≡ length old.now }
{
    let scales = Scales::new(old[row * width + column], den);
    let mut i = 0;
    let mut j = 0;
    for k in 0..old.len() {
        let (factor, above) = (old[i * width + column], old[row * width + j]);
        match new_whole(scales, row, i, old[k], factor, above) {
            Some(entry) => into[k] = entry,
            None => return false,
        }
        if j + 1 < width {
            j += 1;
        } else {
            i += 1;
            j = 0;
        }
    }
    true
}
