//! The numbers 0 to 8: choices lead down by 3, 5 or 7, and a lesser number dominates a greater.

ghost use Rattle.std.specs.Prelude.{◌≡◌};

use label_space::Space;

pub struct Ladder;

impl Space for Ladder {
    type Label = u8;

    ghost use Rattle.labels_tests.specs.Ladder.{ladder_rules};
    ghost use Rattle.labels_tests.specs.LadderLawful.{ladder_lawful};

    ghost rules = { λ _. ladder_rules };

    fn fits(&self, l: &u8) -> bool {
        let l = *l;
        l <= 8
    }

    fn root(&self) -> u8 {
        8
    }

    fn cells(&self) -> u32 {
        3
    }

    fn cell(&self, l: &u8) -> u32 {
        let l = *l;
        if l == 0 { 2 } else { (l % 2) as u32 }
    }

    fn degree(&self, _l: &u8) -> u32 {
        3
    }

    fn level(&self, l: &u8) -> i64 {
        *l as i64
    }

    fn extend(&self, l: &u8, k: u32) -> Option<u8> {
        Some(l.saturating_sub(2 * k as u8 + 3))
    }

    fn dominates(&self, a: &u8, b: &u8) -> bool {
        let (a, b) = (*a, *b);
        a <= b
    }

    fn same(&self, a: &u8, b: &u8) -> bool {
        let (a, b) = (*a, *b);
        a == b
    }

    ghost lawful = { λ _. ladder_lawful };
}
