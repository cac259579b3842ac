// What is proved of the rule by which a row is made anew: a function for each statement, whose contract it is.
ghost use Rattle.batch.specs.RuleLaws.{AnewRuled, RuledOnly, RuledCards, RuledKeeps, KeptIsRuled, AnewRound, SortedSo};

// If all cards come, they come by the rule.
#[tactic(auto, using(crate::proofs::RuleRows::anew_ruled))]
pub fn anew_ruled_stands() -> u8
    ensures { AnewRuled }
{
    0
}

// There is only one row by the rule.
#[tactic(auto, using(crate::proofs::RuleRows::ruled_only))]
pub fn ruled_only_stands() -> u8
    ensures { RuledOnly }
{
    0
}

// It has the cards of the given row, each once.
#[tactic(auto, using(crate::proofs::RuleRows::ruled_cards))]
pub fn ruled_cards_stands() -> u8
    ensures { RuledCards }
{
    0
}

// It keeps all links.
#[tactic(auto, using(crate::proofs::RuleRows::ruled_keeps))]
pub fn ruled_keeps_stands() -> u8
    ensures { RuledKeeps }
{
    0
}

// A row that keeps its links is left as it is.
pub fn kept_is_ruled_stands() -> u8
    ensures { KeptIsRuled }
{
    0
}

// Not all cards come just if the links go round among them.
#[tactic(auto, using(crate::proofs::RuleRounds::anew_round))]
pub fn anew_round_stands() -> u8
    ensures { AnewRound }
{
    0
}

// What is sorted has the same numbers, as often, and rises; there is only one such list.
pub fn sorted_so_stands() -> u8
    ensures { SortedSo }
{
    0
}
