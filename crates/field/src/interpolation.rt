ghost use Rattle.field.specs.Interpolation.{xs_of, TimesQuotients, Interpolated, OnePolynomial};

use crate::Field;

/// Points.
pub mod point;

pub use point::Point;

/// `start` times the product, over the others, of (x - xj) / (xi - xj), unless one of these is a division by 0.
fn times_quotients<F: Field>(start: F, x: F, xi: F, others: &[Point<F>]) -> Option<F>
    ensures { TimesQuotients F.zero F.one F.sum F.product F.inverse start x xi (xs_of others.now) result }
{
    let mut result = start;
    for other in others {
        let divisor = xi.plus(other.x).inverse()?;
        result = result.times(x.plus(other.x).times(divisor));
    }
    Some(result)
}

/// The value at `x` of the only polynomial, of degree below the number of points, through these points.
/// It is absent if two points have the same x.
pub fn interpolate<F: Field>(points: &[Point<F>], x: F) -> Option<F>
    ensures lagrange { Interpolated F.zero F.one F.sum F.product F.inverse x points.now result }
    ensures polynomial { OnePolynomial F.zero F.one F.sum F.product F.inverse x points.now result }
{
    let mut total = F::zero();
    for (i, point) in points.iter().enumerate() {
        // The place is where the points are parted into those before and those after.
        let before = times_quotients(point.y, x, point.x, &points[..i])?;
        let term = times_quotients(before, x, point.x, &points[i + 1..])?;
        total = total.plus(term);
    }
    Some(total)
}
