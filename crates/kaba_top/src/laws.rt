//! The law of the answers. Code is written only in the law, which carries what is proved of definitions alone.
#![tactic(auto)]

ghost use Rattle.kaba_top.specs.OneAnswer.{HasOneAnswer, IsComplete};

/// For one list of words and one pair of files there is one answer: one status, one text for out and one for err; but
/// for which condition on names and which rule of types a refusal names.
/// And where the words say a command, its files are there with texts that are taken within the limits, and its script
/// is accepted, the status is 0, 4 or 5, and of `run` 0, 10 or 11.
pub fn one_answer()
    ensures answers { HasOneAnswer }
    ensures complete { IsComplete }
{}
