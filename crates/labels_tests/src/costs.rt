//! States 0 to 3 with a cost: labels of one state are compared by cost.

ghost use Rattle.std.specs.Prelude.{◌≡◌, ◌==◌, if◌then◌else◌};

use label_space::Space;

/// A state, and what was paid to come there.
#[derive(Clone, Copy, Debug, PartialEq, Eq)]
pub struct Paid {
    pub state: u8,
    pub cost: u8,
}

pub struct Costs;

/// The cost of the last state over a choice.
fn last_cost(k: u32) -> u8
    ensures { result ≡ (if k == 0 then 5 else (if k == 1 then 3 else 1)) }
{
    match k {
        0 => 5,
        1 => 3,
        _ => 1,
    }
}

impl Space for Costs {
    type Label = Paid;

    ghost use Rattle.labels_tests.specs.Costs.{cost_rules};
    ghost use Rattle.labels_tests.specs.CostsLawful.{cost_lawful};

    ghost rules = { λ _. cost_rules };

    fn fits(&self, l: &Paid) -> bool {
        l.state <= 3
    }

    fn root(&self) -> Paid {
        Paid { state: 0, cost: 0 }
    }

    fn cells(&self) -> u32 {
        4
    }

    fn cell(&self, l: &Paid) -> u32 {
        l.state as u32
    }

    fn degree(&self, l: &Paid) -> u32 {
        match l.state {
            0 => 2,
            3 => 0,
            _ => 4,
        }
    }

    fn level(&self, l: &Paid) -> i64 {
        l.state as i64
    }

    fn extend(&self, l: &Paid, k: u32) -> Option<Paid> {
        if l.state == 0 {
            return Some(Paid {
                state: 1 + k as u8,
                cost: 0,
            });
        }
        Some(Paid {
            state: 3,
            cost: last_cost(k),
        })
    }

    fn dominates(&self, a: &Paid, b: &Paid) -> bool {
        a.state == b.state && a.cost <= b.cost
    }

    fn same(&self, a: &Paid, b: &Paid) -> bool {
        a.state == b.state && a.cost == b.cost
    }

    ghost lawful = { λ _. cost_lawful };
}
