// What is proved of the definitions alone. At run time these calls do nothing.
ghost use Rattle.accounts.specs.States.{State};
ghost use Rattle.laws.specs.Examples.{WorkedDay, TighterTurnsBreachIntoKept, ExchangedPairs, DayByTheMilliseconds, MonthsByTheMilliseconds};
ghost use Rattle.laws.specs.Listing.{ObligedInOneOfSixteen, PhasesByNumber, ChangesListed, QualifiedListed, KeptDayEdges};
ghost use Rattle.laws.specs.Listing.{RangeEdges, CalendarListed, RefusalsInOrder, FramesListed};

// A day worked out, and an instance of each law that meets its premise and changes something.
pub fn instances_hold()
    ensures day { WorkedDay }
    ensures tighter { TighterTurnsBreachIntoKept }
    ensures order { ExchangedPairs }
    ensures time { DayByTheMilliseconds }
    ensures months { MonthsByTheMilliseconds }
{}

// What the calls and the laws share, listed a second time.
pub fn listings_agree()
    ensures obliged { ObligedInOneOfSixteen }
    ensures phases { PhasesByNumber }
    ensures changes { ChangesListed }
    ensures qualified { QualifiedListed }
    ensures days { KeptDayEdges }
    ensures ranges { RangeEdges }
    ensures calendar { CalendarListed }
    ensures refusals { (s : State) → RefusalsInOrder s }
    ensures frames { FramesListed }
{}
