//! The slacks of a narrow cone and of its children, in 64 bits.

ghost use Rattle.std.specs.Prelude.{◌≡◌, ◌≢◌, ◌≤◌, ◌<◌, ◌^◌, ℕ, pos, nat_abs, slice_index_or};
ghost use Rattle.exact_forms.specs.Slacks.{shortfall};
ghost use Rattle.unimodular_cone.specs.Cones.{child_gram};
ghost use Rattle.unimodular_cone.specs.Mediant.{AreProducts};
ghost use Rattle.unimodular_cone.specs.Narrow.{HasNarrowMediant};
ghost use Rattle.unimodular_cone.specs.OpenChildren.{AreSlacks};
ghost use Rattle.unimodular_cone.specs.Shown.{shown_gram};

use crate::narrow::NarrowCone;
use crate::narrow_bound::slack_of;

/// The slacks of a cone of n generators.
pub fn slacks_of(c: &NarrowCone, n: u8) -> [i64; 8]
    requires few { n ≤ 8 }
    requires size { n ≡ c.now.size }
    ensures { AreSlacks n (shown_gram c.now) result }
{
    let mut slacks = [0; 8];
    for k in 0..n {
        slacks[usize::from(k)] = slack_of(c, k, n);
    }
    slacks
}

/// Writes the slacks of n generators over others; what is past them stays.
#[inline(always)]
pub fn put_slacks(into: &mut [i64; 8], from: &[i64; 8], n: u8)
    requires { n ≤ 8 }
    ensures { (k : ℕ) → k < n → slice_index_or into.new k (pos 0) ≡ slice_index_or from.now k (pos 0) }
{
    for k in 0..n {
        into[usize::from(k)] = from[usize::from(k)];
    }
}

/// How far a narrow number is below 0, else 0.
#[inline(always)]
fn shortfall_of(x: i64) -> i64
    requires { nat_abs x ≤ 2 ^ 59 }
    ensures { result ≡ shortfall x }
{
    if x < 0 { -x } else { 0 }
}

/// The value of the mediant of r and s, by its products with the generators.
#[inline(always)]
pub fn mediant_value(c: &NarrowCone, products: &[i64; 8], r: u8, s: u8, n: u8) -> i64
    requires few { n ≤ 8 }
    requires size { n ≡ c.now.size }
    requires first { r < n }
    requires second { s < n }
    requires products { AreProducts c.now r s products.now }
    requires narrow { HasNarrowMediant c.now r s }
    ensures { result ≡ child_gram (shown_gram c.now) r s r r }
{
    products[usize::from(r)] + products[usize::from(s)]
}

/// The slacks of the child in which the mediant of r and s takes the place of r, by its parent's and the mediant's value and
/// products with the generators.
#[inline(always)]
pub fn child_slacks(
    c: &NarrowCone,
    slacks: &[i64; 8],
    products: &[i64; 8],
    value: i64,
    r: u8,
    s: u8,
    n: u8,
) -> [i64; 8]
    requires size { n ≡ c.now.size }
    requires first { r < n }
    requires second { s < n }
    requires apart { r ≢ s }
    requires slacks { AreSlacks n (shown_gram c.now) slacks.now }
    requires products { AreProducts c.now r s products.now }
    requires narrow { HasNarrowMediant c.now r s }
    requires value { value ≡ child_gram (shown_gram c.now) r s r r }
    ensures { AreSlacks n (child_gram (shown_gram c.now) r s) result }
{
    let _n = c.count();
    let mut made = [0; 8];
    let mut left = value;
    for k in 0..n {
        let short = shortfall_of(products[usize::from(k)]);
        made[usize::from(k)] = slacks[usize::from(k)] + shortfall_of(c.entry(r, k)) - short;
        left -= short;
    }
    // The product with r stands nowhere in the child.
    made[usize::from(r)] = left + shortfall_of(products[usize::from(r)]);
    made
}
