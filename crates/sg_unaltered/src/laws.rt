//! Laws of unaltered histories. These functions do nothing: what they ensure is the law.
ghost use Rattle.sg_unaltered.specs.GoingOn.{ClosedHistoriesGoOn, ElectionsBegin, ElectionsEnd, HistoriesGoOn, NumbersAreLeft, SetupsAreThere};
ghost use Rattle.sg_unaltered.specs.UnalteredHistories.{TrueAuditsAreTold, UnalteredHistoriesAreAccepted, UnalteredHistoriesTellSo};

/// The paper of an audit is that of its ballot exactly where the audit is answered so.
pub fn audits_law()
    ensures { TrueAuditsAreTold }
{}

/// The story of an unaltered history is that of an unaltered run.
pub fn unaltered_law()
    ensures { UnalteredHistoriesTellSo }
{}

/// What is posted of an unaltered history is accepted, with its totals.
pub fn accepted_law()
    ensures { UnalteredHistoriesAreAccepted }
{}

/// A history in voting whose papers are true goes on to an unaltered one, by its close and whatever draw fits.
pub fn going_on_law()
    ensures { HistoriesGoOn }
{}

/// A closed history whose papers are true goes on to an unaltered one, by whatever draw fits.
pub fn closed_law()
    ensures { ClosedHistoriesGoOn }
{}

/// In each lawful history each station has a number left.
pub fn numbers_law()
    ensures { NumbersAreLeft }
{}

/// So each history in voting whose papers are true does end unaltered, by whichever of its stations.
pub fn ending_law()
    ensures { ElectionsEnd }
{}

/// The history with no act is one in voting, of each setup.
pub fn beginning_law()
    ensures { ElectionsBegin }
{}

/// There is a setup of each version.
pub fn setups_law()
    ensures { SetupsAreThere }
{}
