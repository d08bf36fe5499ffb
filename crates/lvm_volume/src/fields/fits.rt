//! Tests of content: whether a list is valid for its field, and whether integers are within their limits.
//!
//! Change a limit here and in `specs/fields/Fields.antt` together.

ghost use Rattle.lvm_volume.specs.Prelude.{nat_lt, list_all, list_any, scalar_view, scalar_views, are_pairs, is_far_scalar, is_text, most};
ghost use Rattle.std.specs.Prelude.{◌≡◌, ◌==◌, ◌*◌};

use lvm_text::Scalar;

/// The greatest number of sectors or extents: 2^50.
pub(crate) const MOST: u64 = 1 << 50;

/// Whether a scalar is a string.
fn is_text(scalar: &Scalar<'_>) -> bool
    ensures { result ≡ is_text (scalar_view scalar.now) }
{
    match scalar {
        Scalar::Text(_) => true,
        Scalar::Int(_) => false,
    }
}

/// Whether all scalars are strings.
pub(crate) fn are_texts(items: &[Scalar<'_>]) -> bool
    ensures { result ≡ list_all is_text (scalar_views items.now) }
{
    for item in items {
        if !is_text(item) {
            return false;
        }
    }
    true
}

/// Whether a list consists of pairs, each of a string and an integer. One pass.
pub(crate) fn are_pairs(items: &[Scalar<'_>]) -> bool
    ensures { result ≡ are_pairs (scalar_views items.now) }
{
    let mut rest = items;
    while let [Scalar::Text(_), Scalar::Int(_), more @ ..] = rest {
        rest = more;
    }
    rest.is_empty()
}

/// Whether a number is half of a length. Halves the length, because doubling the number could overflow.
pub(crate) fn is_half(number: u64, len: usize) -> bool
    ensures { result ≡ (2 * number == len) }
{
    len % 2 == 0 && len as u64 / 2 == number
}

/// Whether a product is above the limit, even if the product doesn't fit 64 bits.
pub(crate) fn is_far_product(count: u64, size: u64) -> bool
    ensures { result ≡ nat_lt most (count * size) }
{
    match count.checked_mul(size) {
        Some(product) => MOST < product,
        None => true,
    }
}

/// Whether a list contains an integer above the limit.
pub(crate) fn has_far(items: &[Scalar<'_>]) -> bool
    ensures { result ≡ list_any is_far_scalar (scalar_views items.now) }
{
    for item in items {
        if let Scalar::Int(number) = item
            && MOST < *number
        {
            return true;
        }
    }
    false
}
