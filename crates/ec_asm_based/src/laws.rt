//! What holds of items that go by Y.
ghost use Rattle.ec_asm_based.specs.Laws as law;

/// Where items that leave Y as it is stand by the base, they stand in an environment in which Y holds it. So what is
/// proved of items holds of them by the base.
pub fn based_code_stands()
    ensures { law.BasedCodeStands }
{}

/// There are no more words than before.
pub fn based_items_are_short()
    ensures { law.NoMoreWords }
{}

/// What can be placed can be placed so: the fields of items stay in range, and the same labels stand as often.
pub fn based_items_are_valid()
    ensures labels { law.LabelsStay }
    ensures items { law.ItemsStayValid }
    ensures program { law.ProgramsStayValid }
{}
