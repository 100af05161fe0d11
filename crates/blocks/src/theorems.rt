// What the plans do, for every field: each contract is a theorem, and the answer is only 0.
ghost use Rattle.blocks.specs.Theorems.{LoadMakesBlocks, BoxesMakeBlocks, ReadMakesData};

use field::Field;

// The data, by the load plan, make the lawful blocks.
pub fn load_makes_blocks<F: Field>() -> u8
    ensures { LoadMakesBlocks F.Field.ops }
{
    0
}

// Any k boxes, by the read plan, make the block of every box.
pub fn boxes_make_blocks<F: Field>() -> u8
    ensures { BoxesMakeBlocks F.Field.ops }
{
    0
}

// So they make the data.
pub fn read_makes_data<F: Field>() -> u8
    ensures { ReadMakesData F.Field.ops }
{
    0
}
