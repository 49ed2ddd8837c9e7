//! What holds of items whose near jumps are shortened.
ghost use Rattle.ec_asm_near.specs.Laws as law;

use ec_asm::laws::near_jumps_stand;

/// Where the items stand shortened, each with all the words that it has, and the labels that they refer to have words,
/// the items stand. So what is proved of items holds of them shortened.
pub fn near_code_stands()
    ensures code { law.NearCodeStands }
    ensures words { law.UsedLabelsHaveWords }
{
    near_jumps_stand();
}

/// Each item that is near takes one word, each other branch that is within reach of RJMP two, and each other item as many
/// as before, so there are no more words than before.
/// The distances are those between the items as they come out.
pub fn near_items_are_short()
    ensures one { law.OneWordEach }
    ensures own { law.DistancesAreOwn }
    ensures less { law.NoMoreWords }
{}

/// What can be placed can be placed shortened: the fields of items stay in range, and the same labels stand as often.
pub fn near_items_are_valid()
    ensures labels { law.LabelsStay }
    ensures items { law.ItemsStayValid }
    ensures program { law.ProgramsStayValid }
{}
