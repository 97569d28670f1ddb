//! Rank-1 cuts. The expected values are worked out by hand.

ghost use Rattle.rank1_cuts.specs.Fit.{CutFits};

use path_graph::{List, SetBits};
use rank1_cuts::{Cut, CutFault, CutSet, coef, cut_fits, right_side, step_state};
use std::alloc::{AllocError, Global};
use std::test::Fail;

/// The sets 0, 1, 2, each with numerator 1.
const ONES: [(u16, u8); 3] = [(0, 1), (1, 1), (2, 1)];

/// Seventeen sets, the last of which is the first again.
const MANY: [(u16, u8); 17] = [
    (0, 1),
    (1, 1),
    (2, 1),
    (3, 1),
    (4, 1),
    (5, 1),
    (6, 1),
    (7, 1),
    (8, 1),
    (9, 1),
    (10, 1),
    (11, 1),
    (12, 1),
    (13, 1),
    (14, 1),
    (65_535, 1),
    (0, 1),
];

/// A cut whose memory is the sets that the bits of the first word name.
fn cut_of(alloc: Global, den: u8, sets: &[(u16, u8)], memory: u64) -> Result<Cut, AllocError> {
    let mut items = Vec::new(alloc);
    for (set, num) in sets {
        items.push(CutSet {
            set: *set,
            num: *num,
        })?;
    }
    Ok(Cut {
        den,
        sets: List::from_vec(items),
        memory: SetBits {
            bits: [memory, 0, 0, 0, 0, 0, 0, 0],
        },
    })
}

/// The states over visits, from 0 on.
fn states_of(alloc: Global, cut: &Cut, visits: &[Option<u16>]) -> Result<Vec<u8>, AllocError>
    requires { CutFits cut.now }
{
    let mut states = Vec::new(alloc);
    let mut state = 0;
    for visit in visits {
        let (next, _) = step_state(cut, state, *visit);
        state = next;
        states.push(state)?;
    }
    Ok(states)
}

#[test]
fn coefficients(rt: HostRuntime) -> Result<(), Fail> {
    for (name, den, sets, memory, visits, states, coefficient) in [
        // All three are remembered: 1, then 2 over 2, then 1.
        (
            "full memory",
            2,
            ONES.as_slice(),
            7,
            [Some(0), Some(1), Some(2)].as_slice(),
            [1, 0, 1].as_slice(),
            1,
        ),
        // The visit to 1 forgets the visit to 0.
        (
            "limited memory",
            2,
            ONES.as_slice(),
            5,
            [Some(0), Some(1), Some(2)].as_slice(),
            [1, 0, 1].as_slice(),
            0,
        ),
        (
            "a visit of no set",
            2,
            ONES.as_slice(),
            7,
            [Some(0), None, Some(1)].as_slice(),
            [1, 1, 0].as_slice(),
            1,
        ),
        // 5 is remembered and not in the cut, and 9 is not remembered.
        (
            "sets beside",
            2,
            ONES.as_slice(),
            39,
            [Some(0), Some(5), Some(9)].as_slice(),
            [1, 1, 0].as_slice(),
            0,
        ),
        (
            "no visits",
            2,
            ONES.as_slice(),
            7,
            [].as_slice(),
            [].as_slice(),
            0,
        ),
        // 3, 5 - 4, 4 - 4, 3 over 4.
        (
            "what is left over",
            4,
            [(0, 3), (1, 2)].as_slice(),
            3,
            [Some(0), Some(1), Some(0), Some(0)].as_slice(),
            [3, 1, 0, 3].as_slice(),
            2,
        ),
        (
            "beyond all sets",
            4,
            [(0, 3), (600, 2)].as_slice(),
            1,
            [Some(0), Some(600)].as_slice(),
            [3, 0].as_slice(),
            0,
        ),
    ] {
        let cut = cut_of(rt.alloc(), den, sets, memory)?;
        cut_fits(&cut)?;
        let passed = states_of(rt.alloc(), &cut, visits)?;
        assert_eq!(rt; passed.as_slice(), states, "{name}");
        assert_eq!(rt; coef(&cut, visits), coefficient, "{name}");
    }
    Ok(())
}

#[test]
fn faults(rt: HostRuntime) -> Result<(), Fail> {
    for (name, den, sets, fault) in [
        ("fits", 2, ONES.as_slice(), None),
        ("sixteen sets", 8, &MANY[..16], None),
        ("one set", 8, [(65_535, 7)].as_slice(), None),
        (
            "denominator 1",
            1,
            ONES.as_slice(),
            Some(CutFault::Denominator),
        ),
        (
            "denominator 9",
            9,
            ONES.as_slice(),
            Some(CutFault::Denominator),
        ),
        ("no sets", 2, [].as_slice(), Some(CutFault::Empty)),
        (
            "denominator and no sets",
            0,
            [].as_slice(),
            Some(CutFault::Denominator),
        ),
        (
            "seventeen sets, one of them twice",
            2,
            MANY.as_slice(),
            Some(CutFault::Long),
        ),
        (
            "a set twice",
            3,
            [(4, 1), (5, 2), (4, 1)].as_slice(),
            Some(CutFault::Repeated(4)),
        ),
        (
            "two sets twice",
            3,
            [(4, 1), (5, 2), (5, 1), (4, 1)].as_slice(),
            Some(CutFault::Repeated(5)),
        ),
        (
            "a set twice, and numerator 0 before",
            3,
            [(4, 0), (5, 2), (5, 1)].as_slice(),
            Some(CutFault::Repeated(5)),
        ),
        (
            "numerator 0",
            3,
            [(4, 1), (5, 0)].as_slice(),
            Some(CutFault::Numerator(5)),
        ),
        (
            "numerator as the denominator",
            3,
            [(4, 3), (5, 0)].as_slice(),
            Some(CutFault::Numerator(4)),
        ),
    ] {
        let cut = cut_of(rt.alloc(), den, sets, 0)?;
        assert_eq!(rt; cut_fits(&cut).err(), fault, "{name}");
    }
    Ok(())
}

#[test]
fn right_sides(rt: HostRuntime) -> Result<(), Fail> {
    for (name, den, sets, side) in [
        ("three halves", 2, ONES.as_slice(), 1),
        ("one third", 3, [(0, 1)].as_slice(), 0),
        ("six thirds", 3, [(0, 2), (1, 2), (2, 2)].as_slice(), 2),
        ("sixteen halves", 2, &MANY[..16], 8),
    ] {
        let cut = cut_of(rt.alloc(), den, sets, 0)?;
        let copy = cut.copy(rt.alloc())?;
        cut_fits(&copy)?;
        assert_eq!(rt; right_side(&copy), side, "{name}");
    }
    Ok(())
}
