//! What the pieces of code do.
ghost use Rattle.ec_select_pointers.specs.AddressLaws.{AddressesAreRight, FieldsAreRight};
ghost use Rattle.ec_select_pointers.specs.AccessLaws.{DataIsLoaded, FlashIsLoaded, DataIsStored};
ghost use Rattle.ec_select_pointers.specs.AccessLaws.{DataIsLoadedByTag, FlashIsLoadedByTag};
ghost use Rattle.ec_select_pointers.specs.AccessLaws.{TableIsLoaded};
ghost use Rattle.ec_select_pointers.specs.Form.{PointersAreStraight, PointersTake, PointersHave};
ghost use Rattle.ec_select_pointers.specs.Form.{AddressesAreValid, AccessesAreValid, PointersHaveNoLabel};
ghost use Rattle.ec_select_pointers.specs.Form.{TablesAreShort, TablesAreValid, TablesHaveNoLabel};
ghost use Rattle.ec_select_pointers.specs.FarLaws.{FarFlashIsLoaded, FarTableIsLoaded, DataIsLoadedByTop};
ghost use Rattle.ec_select_pointers.specs.FarLaws.{FarFlashIsLoadedByTop, FarAddressesAreRight, FarFieldsAreRight};
ghost use Rattle.ec_select_pointers.specs.FarForm.{FarPointersAreStraight, FarPointersTake, FarPointersHave};
ghost use Rattle.ec_select_pointers.specs.FarForm.{FarAddressesAreValid, FarTablesAreValid, FarAccessesAreValid};
ghost use Rattle.ec_select_pointers.specs.FarForm.{FarPointersHaveNoLabel};
ghost use Rattle.ec_select_pointers.specs.FetchedLaws.{PointersAreFetched, ZIsSet, MembersAreLoaded, FetchesAreShort};
ghost use Rattle.ec_select_pointers.specs.FetchedLaws.{MembersAreShort, PointIsShort, FetchesAreValid, PointIsValid};
ghost use Rattle.ec_select_pointers.specs.FetchedLaws.{MembersAreValid, FetchesHaveNoLabel, FurtherIsLoaded};
ghost use Rattle.ec_select_pointers.specs.FetchedLaws.{DataIsLoadedFromZ, FlashIsLoadedFromZ, FurtherIsShort};
ghost use Rattle.ec_select_pointers.specs.FetchedLaws.{TaggedHas, FurtherIsValid, MembersKeepZ, MembersAreStored};
ghost use Rattle.ec_select_pointers.specs.FetchedLaws.{StoresAreShort, StoresAreValid};

use ec_asm::laws::{copies_are_right, jumps_go, parts_stand, runs_join, straight_code_goes};

/// The code of `address` puts the address of a place to a pointer, and keeps all else but R30 and R31.
pub fn addresses_are_right()
    ensures { AddressesAreRight }
{}

/// The code of `field` adds an offset to the address in a pointer, and keeps all else but R30, R31 and the flags.
pub fn fields_are_right()
    ensures { FieldsAreRight }
{}

/// The code of `load_data` and `load_flash` brings the bytes that a pointer points to from their bank, each by one
/// read, by rising address. All else is kept but R0, R30 and R31.
pub fn loads_are_right()
    ensures from_data { DataIsLoaded }
    ensures from_flash { FlashIsLoaded }
{
    copies_are_right();
}

/// The code of `load_table` brings the bytes of a place in the flash bank, each by one read, by
/// rising address. All else is kept but R0, R30 and R31.
pub fn tables_are_loaded()
    ensures { TableIsLoaded }
{}

/// It is straight, takes at least and at most so many steps and has at most so many words. Its
/// items can be placed, and have no labels.
pub fn tables_are_formed()
    ensures short { TablesAreShort }
    ensures valid { TablesAreValid }
    ensures labels { TablesHaveNoLabel }
{}

/// From its first word to its end the code of `load_any` does so from the bank that the pointer's third byte tells, in
/// at least and at most so many steps.
pub fn loads_by_tag_are_right()
    ensures from_data { DataIsLoadedByTag }
    ensures from_flash { FlashIsLoadedByTag }
{
    copies_are_right();
    parts_stand();
    straight_code_goes();
    runs_join();
    jumps_go();
}

/// The code of `store_data` brings a number to the bytes that a pointer points to, each by one write, by rising
/// address. All else is kept but R0, R30 and R31.
pub fn stores_are_right()
    ensures { DataIsStored }
{
    copies_are_right();
}

/// The code is straight but for that of `load_any`. It has at least and at most so many steps, and at most so many
/// words.
pub fn pointers_are_straight()
    ensures straight { PointersAreStraight }
    ensures steps { PointersTake }
    ensures words { PointersHave }
{}

/// Its items can be placed, and have no labels.
pub fn pointers_are_valid()
    ensures addresses { AddressesAreValid }
    ensures accesses { AccessesAreValid }
    ensures labels { PointersHaveNoLabel }
{}

/// The code of `load_far` and of `load_far_table` brings the bytes at a whole address from the flash bank, each by one
/// read, by rising address. All else is kept but R0, R30, R31 and RAMPZ.
pub fn far_loads_are_right()
    ensures by_pointer { FarFlashIsLoaded }
    ensures by_name { FarTableIsLoaded }
{
    copies_are_right();
}

/// From its first word to its end the code of `load_any_far` does so from the bank that the pointer's top bit tells, in
/// at least and at most so many steps.
pub fn far_loads_by_top_are_right()
    ensures from_data { DataIsLoadedByTop }
    ensures from_flash { FarFlashIsLoadedByTop }
{
    copies_are_right();
    parts_stand();
    straight_code_goes();
    runs_join();
    jumps_go();
}

/// The code of `far_address` puts the whole address of a place to a pointer of three bytes, and keeps all else but R30.
/// That of `far_field` adds an offset to all three bytes, and keeps all else but R30, R31 and the flags.
pub fn far_addresses_are_right()
    ensures addresses { FarAddressesAreRight }
    ensures fields { FarFieldsAreRight }
{}

/// The code for a core with RAMPZ is straight but for that of `load_any_far`. It has at least and at most so many steps,
/// and at most so many words.
pub fn far_pointers_are_straight()
    ensures straight { FarPointersAreStraight }
    ensures steps { FarPointersTake }
    ensures words { FarPointersHave }
{}

/// Its items can be placed, and have no labels.
pub fn far_pointers_are_valid()
    ensures addresses { FarAddressesAreValid }
    ensures tables { FarTablesAreValid }
    ensures accesses { FarAccessesAreValid }
    ensures labels { FarPointersHaveNoLabel }
{}

/// The code of `fetch` reads each byte of a pointer once and leaves its address in Z, and that of `point` sets Z without
/// being noted. All else is kept but R0, which has the third byte where that is the last one. The code of `load_member`
/// brings the bytes at a displacement from Z, each by one read, by rising address, and keeps Z; that of `load_further` brings
/// those of the flash bank, and that of `store_member` brings bytes to the data bank, each by one write.
pub fn pointers_stay_in_z()
    ensures fetched { PointersAreFetched }
    ensures set { ZIsSet }
    ensures loaded { MembersAreLoaded }
    ensures further { FurtherIsLoaded }
    ensures kept { MembersKeepZ }
    ensures stored { MembersAreStored }
{}

/// From its first word to its end the code of `load_tagged` does so from the bank that the tag in R0 tells, in at least and at
/// most so many steps.
pub fn loads_from_z_by_tag_are_right()
    ensures from_data { DataIsLoadedFromZ }
    ensures from_flash { FlashIsLoadedFromZ }
{
    copies_are_right();
    parts_stand();
    straight_code_goes();
    runs_join();
    jumps_go();
}

/// It is straight but for that of `load_tagged`, takes at least and at most so many steps and has at most so many words. Its
/// items can be placed, and have no labels.
pub fn pointers_in_z_are_formed()
    ensures fetches { FetchesAreShort }
    ensures members { MembersAreShort }
    ensures further { FurtherIsShort }
    ensures tagged { TaggedHas }
    ensures stores { StoresAreShort }
    ensures point { PointIsShort }
    ensures fetches_valid { FetchesAreValid }
    ensures point_valid { PointIsValid }
    ensures members_valid { MembersAreValid }
    ensures further_valid { FurtherIsValid }
    ensures stores_valid { StoresAreValid }
    ensures labels { FetchesHaveNoLabel }
{}
