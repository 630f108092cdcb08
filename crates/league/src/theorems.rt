ghost use Rattle.league.specs.Worked.{WorkedScores};

// The laws of league points and places, and the worked halves.
pub fn scores_stand() -> u8
    ensures { WorkedScores }
{
    0
}
