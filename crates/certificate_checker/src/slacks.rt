//! Whether a leaf is closed, where the numbers are small and no operation is owed. Each product of two generators is made
//! once, since it stands at both places of the Gram matrix.

ghost use Rattle.std.specs.Prelude.{◌≡◌, ◌≤◌, ◌<◌, ◌+◌, ◌*◌, ◌^◌, ◌-ℤ◌};
ghost use Rattle.exact_forms.specs.Sums.{sum_to};
ghost use Rattle.exact_forms.specs.Slacks.{shortfall, slack};
ghost use Rattle.certificate_checker.specs.Rows.{numbers, at, AreFirst, from_half};
ghost use Rattle.certificate_checker.specs.Dots.{dot, rows_times, products_with};
ghost use Rattle.certificate_checker.specs.Small.{AreSmall, AreSmallBelow};
ghost use Rattle.certificate_checker.specs.Leaves.{is_closed};

use crate::closing::lesser_of_zero;

/// The sum of the products of the first n numbers.
fn dot(n: usize, x: &[i64; 8], y: &[i64; 8]) -> i128
    requires few { n ≤ 8 }
    requires left { AreSmall n (2 ^ 19) (numbers x.now) }
    requires right { AreSmall n (2 ^ 62) (numbers y.now) }
    ensures { result ≡ dot n (numbers x.now) (numbers y.now) }
{
    let mut sum = 0;
    for k in 0..n {
        sum += x[k] as i128 * y[k] as i128;
    }
    sum
}

/// Writes the products of an image with the first generators, up to the one with this index.
fn write_row(n: usize, v: &[[i64; 8]; 8], image: &[i64; 8], last: usize, row: &mut [i128; 8])
    requires few { n ≤ 8 }
    requires range { last < n }
    requires generators { AreSmallBelow n (2 ^ 19) (at v.now) }
    requires image { AreSmall n (2 ^ 62) (numbers image.now) }
    ensures { AreFirst (last + 1) row.new (rows_times n (at v.now) (numbers image.now)) }
{
    for a in 0..last + 1 {
        row[a] = dot(n, &v[a], image);
    }
}

/// Takes from the slacks of the generators before the last what the entries of its row take.
fn lessen(last: usize, row: &[i128; 8], slacks: &mut [i128; 8])
    requires range { last < 8 }
    requires row { AreSmall last (2 ^ 84) (numbers row.now) }
    requires slacks { AreSmall last (9 * 2 ^ 84) (numbers slacks.old) }
    ensures { AreFirst last slacks.new (λ a. numbers slacks.old a -ℤ shortfall (numbers row.now a)) }
{
    for a in 0..last {
        slacks[a] += lesser_of_zero(row[a]);
    }
}

/// The slack of the last generator as far as its row goes.
fn own_slack(last: usize, row: &[i128; 8]) -> i128
    requires range { last < 8 }
    requires row { AreSmall (last + 1) (2 ^ 84) (numbers row.now) }
    ensures { result ≡ numbers row.now last -ℤ sum_to last (λ a. shortfall (numbers row.now a)) }
{
    let mut left = row[last];
    for a in 0..last {
        left += lesser_of_zero(row[a]);
    }
    left
}

/// Writes the slacks of the first n generators, by the products of their images with them.
fn write_slacks(n: usize, v: &[[i64; 8]; 8], images: &[[i64; 8]; 8], slacks: &mut [i128; 8])
    requires few { n ≤ 8 }
    requires generators { AreSmallBelow n (2 ^ 19) (at v.now) }
    requires images { AreSmallBelow n (2 ^ 62) (at images.now) }
    ensures { AreFirst n slacks.new (slack n (from_half (products_with n (at v.now) (at images.now)))) }
{
    let mut row = [0; 8];
    for b in 0..n {
        write_row(n, v, &images[b], b, &mut row);
        lessen(b, &row, slacks);
        slacks[b] = own_slack(b, &row);
    }
}

/// Whether the cone of the first n generators is closed at 0, by the products of their images with them.
pub fn is_closed(n: usize, v: &[[i64; 8]; 8], images: &[[i64; 8]; 8]) -> bool
    requires few { n ≤ 8 }
    requires generators { AreSmallBelow n (2 ^ 19) (at v.now) }
    requires images { AreSmallBelow n (2 ^ 62) (at images.now) }
    ensures { result ≡ is_closed n (from_half (products_with n (at v.now) (at images.now))) }
{
    let mut slacks = [0; 8];
    write_slacks(n, v, images, &mut slacks);
    for a in 0..n {
        if slacks[a] < 0 {
            return false;
        }
    }
    true
}
