// What holds of plans and their application: each contract is a theorem, and the answer is only 0.
ghost use Rattle.coder.specs.Theorems.{PlansFit, ApplySumsRows};

use field::Field;

// The memory for the largest plan, and the room to work in, suffice for all numbers within the limits.
pub fn plans_fit() -> u8
    ensures { PlansFit }
{
    0
}

// Multiples of rows that are applied one after the other to a row of codes make the codes of the sums.
pub fn apply_sums_rows<F: Field>() -> u8
    ensures { ApplySumsRows F.Field.ops }
{
    0
}
