ghost use Rattle.model_text.specs.PrintedText.{PrintedModelLaw, PrintedAgainLaw, PrintedPlanLaw};

/// Of the texts of a model exactly one has the printed form, and so of the path texts of a plan: the printed text.
///
/// So what is printed, read and printed again is the same text. The function does nothing: its contract has these laws.
pub fn printed_text_laws()
    ensures models { PrintedModelLaw }
    ensures again { PrintedAgainLaw }
    ensures plans { PrintedPlanLaw }
{}
