//! One pivot: a variable enters the basis and another one leaves it. It takes no memory.

ghost use Rattle.std.specs.Prelude.{◌≡◌, ◌+◌, ◌<◌};

use crate::basis::{Basic, Region, Simplex};
use crate::program::{LinearProgram, Member};
use fixed_point::{clamped, inverse_product};

/// A turn that puts a variable into the basis.
#[derive(Clone, Copy)]
pub(crate) struct Exchange {
    pub(crate) entering: Member,
    /// The place of the leaving variable.
    pub(crate) place: usize,
    /// The change of the entering variable's value.
    pub(crate) step: i64,
    /// Where the entering variable then lies.
    pub(crate) region: Region,
    /// Where the leaving variable then stands.
    pub(crate) at_ceiling: bool,
}

impl Simplex {
    /// Fills in the column of a variable as the basis sees it: the product of the inverse and the column.
    pub(crate) fn fill_image(&self, program: &LinearProgram, member: Member, image: &mut [i64]) {
        for (place, share) in image.iter_mut().enumerate() {
            *share = clamped(program.product(self.inverse.row(place), member));
        }
    }

    /// Moves the values of the basis by a step of the variable with this image.
    pub(crate) fn move_values(&mut self, image: &[i64], step: i64) {
        for (basic, share) in self.basics.iter_mut().zip(image) {
            basic.value = basic.value.saturating_sub(inverse_product(*share, step));
        }
    }

    /// Puts a variable with this image into the basis, and into its inverse.
    pub(crate) fn enter(&mut self, image: &[i64], place: usize, basic: Basic) {
        if !self.inverse.exchange(image, place) {
            self.is_inexact = true;
        }
        self.replace_basic(place, basic);
    }

    /// Takes a turn, and one from the turns left.
    pub(crate) fn exchange(
        &mut self,
        program: &LinearProgram,
        image: &[i64],
        turn: Exchange,
        turns: &mut u32,
    )
        requires { 0 < turns.old }
        ensures { turns.new + 1 ≡ turns.old }
    {
        *turns -= 1;
        let start = self.nonbasic_value(program, turn.entering);
        self.move_values(image, turn.step);
        if let Some(leaving) = self.basic(turn.place) {
            self.move_to_end(leaving.member, turn.at_ceiling);
        }
        let basic = Basic {
            member: turn.entering,
            value: start.saturating_add(turn.step),
            region: turn.region,
        };
        self.enter(image, turn.place, basic);
        self.pay_for(program, turn.place, basic);
    }
}
