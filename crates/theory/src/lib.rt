//! The theorems about games, each on the contract of a function that does nothing else.
#![tactic(auto)]

ghost use Rattle.theory.specs.Theorems.{ClaimsFold, ClaimsGiveRules, CountsBelow, LevelsGiveAttractor, LevelsGiveRules, MarksExist, RulesFold, RulesGiveClaims, RulesGiveLabels, RulesGiveLevels};

// A table that obeys the table rules makes true claims of whole plays.
pub fn rules_give_claims()
    ensures { RulesGiveClaims }
{
    ()
}

// A table whose claims are true obeys the table rules.
pub fn claims_give_rules()
    ensures { ClaimsGiveRules }
{
    ()
}

// The table rules carry over to every game that folds onto this one.
pub fn rules_fold()
    ensures { RulesFold }
{
    ()
}

// The claims carry over to every game that folds onto this one.
pub fn claims_fold()
    ensures { ClaimsFold }
{
    ()
}

// Marks by levels obey the table rules.
pub fn levels_give_rules()
    ensures { LevelsGiveRules }
{
    ()
}

// Marks that obey the table rules are by levels.
pub fn rules_give_levels()
    ensures { RulesGiveLevels }
{
    ()
}

// Marks that obey the table rules are the labels of the state digraph.
pub fn rules_give_labels()
    ensures { RulesGiveLabels }
{
    ()
}

// Of marks by levels, the counts are exactly the attractor.
pub fn levels_give_attractor()
    ensures { LevelsGiveAttractor }
{
    ()
}

// Among finitely many places, marks by levels exist.
pub fn marks_exist()
    ensures { MarksExist }
{
    ()
}

// Among N places, each count is below N.
pub fn counts_below()
    ensures { CountsBelow }
{
    ()
}
