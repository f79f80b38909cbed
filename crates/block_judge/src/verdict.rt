ghost use Rattle.std.specs.Prelude.{◌≡◌, ◌<◌, ◌^◌};
ghost use Rattle.judge_spec.specs.Rules.{number_of};
ghost use Rattle.block_judge.specs.Verdicts.{told};
ghost use Rattle.judge_spec.specs.Judgement as judging;

use judge_spec::Rule;

/// What is found of a list of spends.
#[derive(Clone, Copy, Debug, PartialEq, Eq)]
pub enum Verdict {
    /// It breaks no rule. It has this cost, and this fee in mojos.
    Fine { cost: u64, fee: u128 },
    /// The first rule that it breaks, by its number, and where: the place of the spend, from 0; of the rules 20 and 21 the
    /// number of spends.
    Broken { rule: u8, place: u32 },
}

/// A rule that a list breaks, by its number, and where.
#[derive(Clone, Copy, Debug)]
pub(crate) struct Breach {
    pub(crate) rule: u8,
    pub(crate) place: u32,
}

impl Breach {
    pub(crate) fn new(rule: Rule, place: usize) -> Breach
        requires { place < 2 ^ 32 }
        ensures { result ≡ record { rule = number_of rule; place = place } }
    {
        Breach {
            rule: rule.number(),
            place: place as u32,
        }
    }

    pub(crate) fn verdict(self) -> Verdict
        ensures { told result ≡ judging.Broken self.rule self.place }
    {
        Verdict::Broken {
            rule: self.rule,
            place: self.place,
        }
    }
}
