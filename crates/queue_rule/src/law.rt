// The law of the rule.
ghost use Rattle.queue_rule.specs.Laws.{OpeningKept, StoreKept, ExchangeKept, NextLoadKept, LinkedLoadKept, SplitKept, JoinKept, FreshIsSound};

/// The law of the queue: a new table of zero words meets the rule, each kind of step keeps it
/// whatever other seats did before, and tells its seat what it did and what the rule has for it.
/// It does nothing: its clauses are the law.
pub fn steps_keep_the_rule()
    ensures opening { OpeningKept }
    ensures store { StoreKept }
    ensures exchange { ExchangeKept }
    ensures next_load { NextLoadKept }
    ensures linked_load { LinkedLoadKept }
    ensures split { SplitKept }
    ensures join { JoinKept }
    ensures fresh { FreshIsSound }
{}
