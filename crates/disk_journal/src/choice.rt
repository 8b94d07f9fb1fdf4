ghost use Rattle.disk_journal.specs.Reading.{IsReading, IsWithin};
ghost use Rattle.disk_journal.specs.Opening.{IsChoice, IsChoiceWithin};
ghost use Rattle.host_api.specs.Host.{Files};
ghost use Rattle.host_api.specs.declared.host.FileId.TheVariants.{Zero, One};

use crate::reading::{Blank, Reading, Records};
use host_api::FileId;

/// Which of two files counts.
#[derive(Drop)]
pub(crate) enum Choice {
    /// Both are blank, file 0 in this way.
    Fresh(Blank),
    /// This one counts.
    Counting(FileId, Records),
    /// This is the first that is foreign.
    Foreign(FileId),
}

/// The file of the higher generation counts, and file 0 on a tie.
pub(crate) fn choose(zero: Reading, one: Reading) -> Choice
    ensures choice { (files : Files) → IsReading zero (files Zero) → IsReading one (files One)
        → IsChoice result files }
    ensures within { IsWithin zero → IsWithin one → IsChoiceWithin result }
{
    match (zero, one) {
        (Reading::Foreign, _) => Choice::Foreign(FileId::Zero),
        (_, Reading::Foreign) => Choice::Foreign(FileId::One),
        (Reading::Blank(blank), Reading::Blank(_)) => Choice::Fresh(blank),
        (Reading::Records(records), Reading::Blank(_)) => Choice::Counting(FileId::Zero, records),
        (Reading::Blank(_), Reading::Records(records)) => Choice::Counting(FileId::One, records),
        (Reading::Records(first), Reading::Records(second)) => {
            if second.generation <= first.generation {
                Choice::Counting(FileId::Zero, first)
            } else {
                Choice::Counting(FileId::One, second)
            }
        }
    }
}
