//! What holds of every program that was placed.
ghost use Rattle.ec_locate.specs.Apart.{PlacedStandApart};
ghost use Rattle.ec_locate.specs.Calls.{ChainsAreCounted};
ghost use Rattle.ec_locate.specs.ChainNeed.{DataNeedIsOfChains};
ghost use Rattle.ec_locate.specs.DataBank.{DataStandsApart};
ghost use Rattle.ec_locate.specs.FlashBank.{FlashStandsApart};
ghost use Rattle.ec_locate.specs.Initial.{InitialValuesStand};
ghost use Rattle.ec_locate.specs.Placing.{StopsHaveCauses};
ghost use Rattle.ec_locate.specs.Stands.{CodeStands};

use ec_core::leaves_fill_their_types;
use ec_overlay::{frames_are_overlaid, overlaid_objects_stand_apart};

/// The code of a placed program stands in its image from word 0 on, with its labels and the places of objects put in.
/// So what `ec_asm` says of items that are placed holds of it.
pub fn code_stands()
    ensures { CodeStands }
{}

/// The initial values of each static object stand in the image of a placed program, as many bytes as the object has,
/// and nothing but these and the code is written there.
pub fn initial_values_stand()
    ensures { InitialValuesStand }
{
    leaves_fill_their_types();
}

/// What a placed program keeps stands apart: free static objects, the area of parameters and locals, that of scratch memory
/// and the work bytes in a row in region `data`, objects of home flash
/// and initial bytes in a row in `tables`, objects of home far in a row in `far`, the code in `code`, and what the map places
/// outside all of these.
/// The stack has room for each chain of calls from main.
pub fn placed_stand_apart()
    ensures { PlacedStandApart }
{}

/// What the numbers of items name in the data bank stands apart, where it can be live at one moment, and apart from the
/// stack: objects, the scratch memory of each function and the work bytes. The address of each byte is the one that the code
/// has.
pub fn data_stands_apart()
    ensures { DataStandsApart }
{
    frames_are_overlaid();
    overlaid_objects_stand_apart();
}

/// The objects of the flash bank stand apart, and none at address 0. The address of each byte is the one that the code
/// has.
pub fn flash_stands_apart()
    ensures { FlashStandsApart }
{}

/// The need of region `stack` counts the functions on the longest chain of calls from main: none is longer, and one is as
/// long.
pub fn chains_are_counted()
    ensures { ChainsAreCounted }
{}

/// The need of region `data` is the sum of the sizes of free static data objects, the greatest sum of parameter and local
/// bytes over any chain of calls, the greatest sum of scratch bytes over any chain, and the work bytes: 64 and one for each
/// dynamic group.
pub fn data_need_is_of_chains()
    ensures { DataNeedIsOfChains }
{
    frames_are_overlaid();
}

/// Where nothing stands against a program, it is refused for want of memory alone; and of several causes the first is
/// told: a region that is too small before a name without an object, and this before a clash.
pub fn stops_have_causes()
    ensures { StopsHaveCauses }
{}
