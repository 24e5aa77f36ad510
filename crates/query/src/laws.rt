// What answers and costs are: each function carries theorems, and does nothing else.
ghost use Rattle.query.specs.Laws.{AnswersAsModel, NeverRefused, LentIsSeen, CostsAreRows};
ghost use Rattle.query.specs.More.{OnlySeen, MoreSeen, AnswersAppend};

/// The code answers as the model does.
pub fn answers_stands()
    ensures model { AnswersAsModel }
    ensures always { NeverRefused }
{}

/// The cost is the number of rows.
pub fn costs_stands()
    ensures { CostsAreRows }
{}

/// Nothing but what is seen is lent or shows in an answer.
pub fn seen_stands()
    ensures only { OnlySeen }
    ensures lent { LentIsSeen }
{}

/// Who sees more is told no less.
pub fn more_stands()
    ensures more { MoreSeen }
    ensures append { AnswersAppend }
{}
