//! The term of a multiplier over sides. The expected values are worked out by hand.

use route_model::term;
use std::test::Fail;

#[test]
fn terms(rt: HostRuntime) -> Result<(), Fail> {
    for (m, low, high, expected) in [
        (3, Some(2), Some(5), Some(6)),
        (-3, Some(2), Some(5), Some(-15)),
        (-1, Some(0), None, None),
        (1, None, Some(4), None),
        (0, None, None, Some(0)),
    ] {
        assert_eq!(rt; term(m, low, high), expected, "{m} over {low:?}..{high:?}");
    }
    Ok(())
}
