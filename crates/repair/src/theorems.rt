// What the plans do, for every field: each contract is a theorem, and the answer is only 0.
ghost use Rattle.repair.specs.Theorems.{HelpMakesSegments, PassMakesSegments, SettleMakesBlocks};

use field::Field;

// The rows of a box, by the help plan, make the segment of the segment rule.
pub fn help_makes_segments<F: Field>() -> u8
    ensures { HelpMakesSegments F.Field.ops }
{
    0
}

// The helpers' segments, by the pass plan, make the segment that is passed.
pub fn pass_makes_segments<F: Field>() -> u8
    ensures { PassMakesSegments F.Field.ops }
{
    0
}

// The segments that came, by the settle plan, make the newcomer's block.
pub fn settle_makes_blocks<F: Field>() -> u8
    ensures { SettleMakesBlocks F.Field.ops }
{
    0
}
