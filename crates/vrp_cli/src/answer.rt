ghost use Rattle.std.specs.Prelude.{◌≡◌};
ghost use Rattle.vrp_cli.specs.Answer.{status_of, text_of};
ghost use Rattle.vrp_cli.specs.Headline.{status_alone};

use crate::status::{Kept, Status};
use certificate::Node;
use model_text::LineWriter;
use path_graph::List;
use solve_run::{Best, LabelWall};

/// What a run answers.
#[derive(Drop)]
pub(crate) enum Answer {
    /// A least plan, by the text of its certificate.
    Optimal(List<u8>),
    /// There is no solution, by the text of the certificate.
    Infeasible(List<u8>),
    /// The limit of labels, by its text, and why they were not enough.
    LabelLimit(LineWriter, LabelWall),
    /// The limit of nodes, by its text, with the nodes and the best plan.
    NodeLimit(LineWriter, List<Node>, Option<Best>),
    /// The printed text of a model.
    Printed(List<u8>),
    /// A plan is a solution, by the text of its cost.
    Fine(LineWriter),
    /// A certificate is accepted, by the text of its claim.
    Accepted(LineWriter),
    /// The words name no command.
    RefusedWords,
    /// The model text is refused, by the text of its fault.
    RefusedModel(LineWriter),
    /// The path text is refused, by the text of its fault.
    RefusedPaths(LineWriter),
    /// A plan is no solution, by the text of its fault.
    RefusedPlan(LineWriter),
    /// A text is no certificate, by the text of its fault.
    NoCertificate(LineWriter),
    /// A certificate is not accepted, by the text of its fault.
    RefusedCertificate(LineWriter),
    FailedRead,
    OutOfMemory,
    TooLong,
}

impl Answer {
    /// The status that a run ends with, if the answer is written.
    pub(crate) fn status(self) -> Status
        ensures { result ≡ status_of self }
    {
        match self {
            Answer::LabelLimit(_, wall) => Status {
                number: 5,
                kept: Kept::Label(wall),
            },
            Answer::NodeLimit(_, nodes, best) => Status {
                number: 6,
                kept: Kept::Nodes(nodes, best),
            },
            Answer::Optimal(_) | Answer::Printed(_) | Answer::Fine(_) | Answer::Accepted(_) =>
                status_alone(0),
            Answer::Infeasible(_) => status_alone(1),
            Answer::RefusedWords => status_alone(2),
            Answer::RefusedModel(_) => status_alone(3),
            Answer::RefusedPaths(_) | Answer::RefusedPlan(_) => status_alone(4),
            Answer::NoCertificate(_) | Answer::RefusedCertificate(_) => status_alone(4),
            Answer::FailedRead => status_alone(7),
            Answer::OutOfMemory => status_alone(9),
            Answer::TooLong => status_alone(10),
        }
    }

    /// The text that is written.
    pub(crate) fn text(&self) -> &[u8]
        ensures { result.now ≡ text_of self.now }
    {
        match self {
            Answer::Optimal(text) => text.as_slice(),
            Answer::Infeasible(text) => text.as_slice(),
            Answer::LabelLimit(text, _) => text.as_slice(),
            Answer::NodeLimit(text, _, _) => text.as_slice(),
            Answer::Printed(text) => text.as_slice(),
            Answer::Fine(text) => text.as_slice(),
            Answer::Accepted(text) => text.as_slice(),
            Answer::RefusedWords => b"refused words\n",
            Answer::RefusedModel(text) => text.as_slice(),
            Answer::RefusedPaths(text) => text.as_slice(),
            Answer::RefusedPlan(text) => text.as_slice(),
            Answer::NoCertificate(text) => text.as_slice(),
            Answer::RefusedCertificate(text) => text.as_slice(),
            Answer::FailedRead => b"fault read\n",
            Answer::OutOfMemory => b"fault memory\n",
            Answer::TooLong => b"refused input too long\n",
        }
    }
}

/// A status that keeps nothing.
pub(crate) fn status_alone(number: u8) -> Status
    ensures { result ≡ status_alone number }
{
    Status {
        number,
        kept: Kept::Nothing,
    }
}
