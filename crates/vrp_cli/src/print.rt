ghost use Rattle.std.specs.Prelude.{◌<◌, ◌^◌, ◌-◌, length, IfOk};
ghost use Rattle.vrp_cli.specs.Answer.{AnswersInput};

use crate::answer::Answer;
use crate::texts::fault_line;
use command_words::Command;
use model_text::{ReadError, print_model, read_model};
use path_graph::NoMemory;
use std::alloc::Global;

/// What `print` answers to an input.
pub(crate) fn print(alloc: Global, input: &[u8]) -> Result<Answer, NoMemory>
    requires { length input.now < 2 ^ 32 - 1 }
    ensures { IfOk result (AnswersInput Command.Print input.now) }
{
    match read_model(alloc, input) {
        Ok(model) => Ok(Answer::Printed(print_model(alloc, &model)?)),
        Err(ReadError::Text(fault)) => Ok(Answer::RefusedModel(fault_line(
            alloc, b"model", fault,
        )?)),
        Err(ReadError::Memory) => Err(NoMemory),
    }
}
