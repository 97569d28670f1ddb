ghost use Rattle.std.specs.Prelude.{◌≡◌};
ghost use Rattle.route_model.specs.Terms.{term as term_over};

use crate::wide::product;

/// The least of a multiplier times a number between two sides: at the low side, or for a multiplier below 0 at the high
/// one.
///
/// `None` comes exactly where that side is open. For multiplier 0 the term is 0, whatever the sides are. A multiplier has
/// the scale of 65,536 to a unit of cost, and so has the term.
pub fn term(m: i64, low: Option<i64>, high: Option<i64>) -> Option<i128>
    ensures { result ≡ term_over m (record { low = low; high = high }) }
{
    if m == 0 {
        return Some(0);
    }
    let side = if m > 0 { low } else { high };
    match side {
        Some(end) => Some(product(m, end)),
        None => None,
    }
}
