//! Sets of packing sets.

use path_graph::SetBits;
use std::test::Fail;

#[test]
fn members(rt: HostRuntime) -> Result<(), Fail> {
    let low = SetBits::empty().with(0).with(2);
    let high = low.with(64).with(511).with(511);
    for (name, sets, number, is_member) in [
        ("of no set", SetBits::empty(), 0, false),
        ("the lowest", low, 0, true),
        ("between members", low, 1, false),
        ("kept beside others", high, 2, true),
        ("in the second word", high, 64, true),
        ("beside it", high, 65, false),
        ("the last", high, 511, true),
        ("before the last", high, 510, false),
        ("past the last", high, 512, false),
        ("the greatest number", high, 65_535, false),
    ] {
        assert_eq!(rt; sets.has(number), is_member, "{name}");
    }
    Ok(())
}

#[test]
fn meets(rt: HostRuntime) -> Result<(), Fail> {
    let none = SetBits::empty();
    let two = none.with(2);
    let ends = none.with(0).with(511);
    let three = ends.with(2);
    for (name, one, other, both, is_within) in [
        ("none and some", none, two, none, true),
        ("some and none", two, none, none, false),
        ("a part", ends, three, ends, true),
        ("more", three, ends, ends, false),
        ("the same", three, three, three, true),
        ("apart", ends, two, none, false),
    ] {
        assert_eq!(rt; one.meet(&other), both, "{name}");
        assert_eq!(rt; one.within(&other), is_within, "{name}");
    }
    Ok(())
}
