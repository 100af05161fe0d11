// What holds after every list of calls from every making, over every field: each contract is a theorem, and the answer is only 0.
ghost use Rattle.ledger.specs.Laws.{TheFirstIsNamed, OneEncoder, AnyEncoderAlike, WholeBoxesHoldTheCode, ReadsAnswerTheData, WholeBoxesAreRead, OnlyLoadAndSettleMakeWhole, SettlesWhenAllCame, SegmentsAreTheRules, PartsAreKept, DataStay};
ghost use Rattle.ledger.specs.Example.{Sessions};

use field::Field;

// For every data there is a lawful list, and any two have the same blocks and segments.
pub fn one_encoder<F: Field>() -> u8
    ensures { OneEncoder F.Field.ops }
{
    0
}

// Whichever lawful lists the ledger goes by, its replies and its boxes are the same.
pub fn any_encoder_alike<F: Field>() -> u8
    ensures { AnyEncoderAlike F.Field.ops }
{
    0
}

// Every whole box holds exactly its block for the last data accepted; without an accepted load no box is whole.
pub fn whole_boxes_hold_the_code<F: Field>() -> u8
    ensures { WholeBoxesHoldTheCode F.Field.ops }
{
    0
}

// Any k distinct whole boxes, in any order, answer exactly the last data accepted; no other read answers data.
pub fn reads_answer_the_data<F: Field>() -> u8
    ensures { ReadsAnswerTheData F.Field.ops }
{
    0
}

// Reading any k whole boxes answers those data, or the refusal of a buffer's length.
pub fn whole_boxes_are_read<F: Field>() -> u8
    ensures { WholeBoxesAreRead F.Field.ops }
{
    0
}

// Besides load, only settle makes a box whole.
pub fn only_load_and_settle_make_whole<F: Field>() -> u8
    ensures { OnlyLoadAndSettleMakeWhole F.Field.ops }
{
    0
}

// A settle that nothing earlier refuses is accepted exactly when d + t − 1 segments came, one from each; its counts are d and t − 1.
pub fn settles_when_all_came<F: Field>() -> u8
    ensures { SettlesWhenAllCame F.Field.ops }
{
    0
}

// Each segment that came is the segment rule's for the last data accepted; its helper was whole when the repair was opened.
pub fn segments_are_the_rules<F: Field>() -> u8
    ensures { SegmentsAreTheRules F.Field.ops }
{
    0
}

// A repair's boxes keep their parts: helpers whole or dead, newcomers filling, whole or dead; nobody else is filling.
pub fn parts_are_kept<F: Field>() -> u8
    ensures { PartsAreKept F.Field.ops }
{
    0
}

// Nothing but load changes the data, no load is accepted while a repair is open, and a denied call changes nothing.
pub fn data_stay<F: Field>() -> u8
    ensures { DataStay F.Field.ops }
{
    0
}

// The first box in the order given that offends is named, and of boxes named twice the first repeat.
pub fn the_first_is_named() -> u8
    ensures { TheFirstIsNamed }
{
    0
}

// Two known sessions over the nibble field: one that loses a box, and one whole repair of two boxes with its segments.
pub fn known_sessions() -> u8
    ensures { Sessions }
{
    0
}
