//! Rows of small numbers in 64 bits, whose sums and products need no test.

ghost use Rattle.std.specs.Prelude.{◌≡◌, ◌≤◌, ◌^◌, ◌+ℤ◌, true, IfSome};
ghost use Rattle.certificate_checker.specs.Rows.{numbers, at, AreFirst, AgreeBelow};
ghost use Rattle.certificate_checker.specs.Dots.{dot, rows_times, image_rows};
ghost use Rattle.certificate_checker.specs.Small.{AreSmall, AreSmallBelow};

/// Whether the first n numbers have a magnitude up to 2^19.
pub fn is_small(n: usize, row: &[i64; 8]) -> bool
    requires { n ≤ 8 }
    ensures { result ≡ true → AreSmall n (2 ^ 19) (numbers row.now) }
{
    for k in 0..n {
        if row[k].unsigned_abs() > 1 << 19 {
            return false;
        }
    }
    true
}

/// The first n numbers in 64 bits, where each has a magnitude up to 2^40.
fn narrowed_row(n: usize, row: &[i128; 8]) -> Option<[i64; 8]>
    requires { n ≤ 8 }
    ensures same { IfSome result (λ narrow. AreFirst n narrow (numbers row.now)) }
    ensures small { IfSome result (λ narrow. AreSmall n (2 ^ 40) (numbers narrow)) }
{
    let mut narrow = [0; 8];
    for k in 0..n {
        if row[k].unsigned_abs() > 1 << 40 {
            return None;
        }
        narrow[k] = row[k] as i64;
    }
    Some(narrow)
}

/// The first n numbers of the first n rows in 64 bits, where each has a magnitude up to 2^40.
pub fn narrowed(n: usize, rows: &[[i128; 8]; 8]) -> Option<[[i64; 8]; 8]>
    requires { n ≤ 8 }
    ensures same { IfSome result (λ narrow. AgreeBelow n (at narrow) (at rows.now)) }
    ensures small { IfSome result (λ narrow. AreSmallBelow n (2 ^ 40) (at narrow)) }
{
    let mut narrow = [[0; 8]; 8];
    for i in 0..n {
        match narrowed_row(n, &rows[i]) {
            Some(row) => narrow[i] = row,
            None => return None,
        }
    }
    Some(narrow)
}

/// The same numbers in 128 bits.
fn widened_row(row: &[i64; 8]) -> [i128; 8]
    ensures { AreFirst 8 result (numbers row.now) }
{
    let mut wide = [0; 8];
    for k in 0..8 {
        wide[k] = row[k] as i128;
    }
    wide
}

/// The same numbers in 128 bits.
pub fn widened(rows: &[[i64; 8]; 8]) -> [[i128; 8]; 8]
    ensures { AgreeBelow 8 (at result) (at rows.now) }
{
    let mut wide = [[0; 8]; 8];
    for k in 0..8 {
        wide[k] = widened_row(&rows[k]);
    }
    wide
}

/// The sums of the first n numbers.
pub fn sums_of(n: usize, x: &[i64; 8], y: &[i64; 8]) -> [i64; 8]
    requires few { n ≤ 8 }
    requires left { AreSmall n (2 ^ 19) (numbers x.now) }
    requires right { AreSmall n (2 ^ 19) (numbers y.now) }
    ensures { AreFirst n result (λ p. numbers x.now p +ℤ numbers y.now p) }
{
    let mut sums = [0; 8];
    for p in 0..n {
        sums[p] = x[p] + y[p];
    }
    sums
}

/// The sum of the products of the first n numbers.
fn dot(n: usize, x: &[i64; 8], y: &[i64; 8]) -> i64
    requires few { n ≤ 8 }
    requires left { AreSmall n (2 ^ 40) (numbers x.now) }
    requires right { AreSmall n (2 ^ 19) (numbers y.now) }
    ensures { result ≡ dot n (numbers x.now) (numbers y.now) }
{
    let mut sum = 0;
    for k in 0..n {
        sum += x[k] * y[k];
    }
    sum
}

/// The image of a vector under W: the sums of the products of its rows with it.
pub fn image(n: usize, w: &[[i64; 8]; 8], x: &[i64; 8]) -> [i64; 8]
    requires few { n ≤ 8 }
    requires matrix { AreSmallBelow n (2 ^ 40) (at w.now) }
    requires vector { AreSmall n (2 ^ 19) (numbers x.now) }
    ensures { AreFirst n result (rows_times n (at w.now) (numbers x.now)) }
{
    let mut sums = [0; 8];
    for i in 0..n {
        sums[i] = dot(n, &w[i], x);
    }
    sums
}

/// The images of the first n generators.
pub fn images(n: usize, w: &[[i64; 8]; 8], v: &[[i64; 8]; 8]) -> [[i64; 8]; 8]
    requires few { n ≤ 8 }
    requires matrix { AreSmallBelow n (2 ^ 40) (at w.now) }
    requires generators { AreSmallBelow n (2 ^ 19) (at v.now) }
    ensures { AgreeBelow n (at result) (image_rows n (at w.now) (at v.now)) }
{
    let mut images = [[0; 8]; 8];
    for k in 0..n {
        images[k] = image(n, w, &v[k]);
    }
    images
}
