// What holds of the code rule, for every field: each contract is a theorem, and the answer is only 0.
ghost use Rattle.beehive.specs.Figures.{Figures};
ghost use Rattle.beehive.specs.Theorems.{OneLawfulList, OneLawfulListOfRows, AnyKFixTheData, SegmentsAlign, HelpersFixTheFirstPart, PassesFixTheSecondPart};

use field::Field;

// For every data there is exactly one lawful list of blocks.
pub fn one_lawful_list<F: Field>() -> u8
    ensures { OneLawfulList F.Field.ops }
{
    0
}

// So there is for data in rows of w symbols.
pub fn one_lawful_list_of_rows<F: Field>() -> u8
    ensures { OneLawfulListOfRows F.Field.ops }
{
    0
}

// Any k boxes of a lawful list, in any order, fix the data.
pub fn any_k_fix_the_data<F: Field>() -> u8
    ensures { AnyKFixTheData F.Field.ops }
{
    0
}

// Segments about one box are aligned: each tells of the same 2α unknowns.
pub fn segments_align<F: Field>() -> u8
    ensures { SegmentsAlign F.Field.ops }
{
    0
}

// d helpers' segments and the zero segments of the virtual nodes fix a newcomer's first part.
pub fn helpers_fix_the_first_part<F: Field>() -> u8
    ensures { HelpersFixTheFirstPart F.Field.ops }
{
    0
}

// The first part and the segments that the other newcomers pass fix the second part.
pub fn passes_fix_the_second_part<F: Field>() -> u8
    ensures { PassesFixTheSecondPart F.Field.ops }
{
    0
}

// The figures of the rule that are known from outside.
pub fn code_figures_stand() -> u8
    ensures { Figures }
{
    0
}
