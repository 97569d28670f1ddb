//! The numbers 1 to 127: over the choice k the number n leads to 2n + k.

ghost use Rattle.std.specs.Prelude.{◌≡◌};

use label_space::Space;

pub struct Numbers;

impl Space for Numbers {
    type Label = u8;

    ghost use Rattle.labels_tests.specs.Numbers.{number_rules};
    ghost use Rattle.labels_tests.specs.NumbersLawful.{number_lawful};

    ghost rules = { λ _. number_rules };

    fn fits(&self, l: &u8) -> bool {
        let l = *l;
        1 <= l && l <= 127
    }

    fn root(&self) -> u8 {
        1
    }

    fn cells(&self) -> u32 {
        4
    }

    fn cell(&self, l: &u8) -> u32 {
        (*l % 4) as u32
    }

    fn degree(&self, l: &u8) -> u32 {
        if *l <= 63 { 2 } else { 0 }
    }

    fn level(&self, l: &u8) -> i64 {
        *l as i64
    }

    fn extend(&self, l: &u8, k: u32) -> Option<u8> {
        Some(2 * *l + k as u8)
    }

    fn dominates(&self, a: &u8, b: &u8) -> bool {
        let (a, b) = (*a, *b);
        a == b
    }

    fn same(&self, a: &u8, b: &u8) -> bool {
        let (a, b) = (*a, *b);
        a == b
    }

    ghost lawful = { λ _. number_lawful };
}
