//! What holds of the view, of items of code and of runs through them.
ghost use Rattle.ec_asm.specs.Laws as law;
ghost use Rattle.ec_asm.specs.PieceLaws as piece;

use ec_avr::{one_bit_is_set, runs_are_steps, steps_are_of_instructions};

// ---- the view and the machine

/// An instruction that goes on and keeps the base does to the machine what it does to the view, where its accesses are
/// allowed.
pub fn instructions_follow()
    ensures { law.InstructionsFollow }
{
    one_bit_is_set();
}

/// The machine's run is that of the view, where all accesses are allowed.
pub fn machine_runs_as_view()
    ensures { law.MachineRunsAsView }
{
    one_bit_is_set();
    steps_are_of_instructions();
}

/// Where all accesses are allowed, every byte that a step pushes or pops is one of the stack's.
pub fn stack_stays_inside()
    ensures { law.StackStaysInside }
{
    one_bit_is_set();
    steps_are_of_instructions();
}

// ---- where items stand

/// Items whose bytes stand in the flash, with the words of labels and the addresses of objects put in, stand there.
pub fn placed_items_stand()
    ensures { law.PlacedItemsStand }
{
    steps_are_of_instructions();
}

/// Code in two parts stands in two parts.
pub fn parts_stand()
    ensures { law.PartsStand }
{}

/// A relative jump, call or branch to the word of a label stands for the one to the label.
pub fn near_jumps_stand()
    ensures jump { law.NearJumpsStand }
    ensures call { law.NearCallsStand }
    ensures branch { law.NearBranchesStand }
{}

/// A jump, call or branch that stands is to a label that has a word.
pub fn jumps_have_words()
    ensures jump { law.JumpsHaveWords }
    ensures call { law.CallsHaveWords }
    ensures branch { law.BranchesHaveWords }
{}

// ---- runs

/// Straight code is one change of the view, in as many steps as it has instructions, and of two parts it is one after
/// the other.
pub fn straight_code_goes()
    ensures goes { law.StraightCodeGoes }
    ensures joins { law.BlocksJoin }
{}

/// What holds before the first byte and is carried over each byte holds after the last. `I` are the cases in which it
/// holds.
pub fn chains_hold<I>()
    ensures { law.ChainsHold I }
{}

/// Runs are joined: those with a known number of steps, and those with a least and a greatest one. The former are among
/// the latter, and bounds may be widened.
pub fn runs_join()
    ensures goes { law.RunsJoin }
    ensures takes { law.TakesJoin }
    ensures known { law.RunsTake }
    ensures within { law.TakesWithin }
{}

/// A run that comes to a BREAK ends there.
pub fn runs_end()
    ensures { law.RunsEnd }
{}

/// Jumps and branches go to their labels, and a test of a bit passes over the next instruction or not.
pub fn jumps_go()
    ensures jump { law.JumpsGo }
    ensures taken { law.BranchesGo }
    ensures passed { law.BranchesPass }
    ensures clear { law.ClearBitSkips }
    ensures set { law.SetBitSkips }
{}

/// A loop that counts down takes at least and at most so many steps for each turn. `I` are the cases of what holds
/// before a turn.
pub fn loops_take<I>()
    ensures { law.LoopsTake I }
{}

/// A call pushes the address after it, a return goes to the address that it pops, and a routine that comes to a return
/// with the stack as it was goes on after its call.
pub fn calls_return()
    ensures call { law.CallsGo }
    ensures back { law.ReturnsGo }
    ensures whole { law.CallsReturn }
{}

/// A load of a port takes the next byte that it gives, and a store to it is noted.
pub fn ports_are_noted()
    ensures give { law.PortsGive }
    ensures take { law.PortsTake }
{}

// ---- both directions

/// What is noted of the machine's run is a run, and what the run of the view shows.
pub fn noted_runs_are_runs()
    ensures run { law.NotedRunsAreRuns }
    ensures on { law.NotedWhereItGoesOn }
    ensures end { law.NotedWhereItEnds }
{
    runs_are_steps();
}

/// Where what is noted of the machine's run reaches all that another run shows, it stays within it.
pub fn noted_stays_within<F>()
    ensures { law.NotedStaysWithin F }
{
    runs_are_steps();
}

// ---- pieces

/// A number of several bytes is below the power of 256 that they have, and tells its low parts and its bytes.
pub fn numbers_are_their_bytes()
    ensures below { piece.NumbersAreBelow }
    ensures low { piece.NumbersHaveLowParts }
    ensures byte { piece.NumbersHaveBytes }
    ensures same { piece.NumbersAreOfBytes }
    ensures front { piece.NumbersBegin }
{}

/// One byte is copied, combined by any instruction of two registers, or compared, wherever both stand.
pub fn bytes_are_right()
    ensures copied { piece.BytesAreCopied }
    ensures combined { piece.BytesAreCombined }
    ensures compared { piece.BytesAreCompared }
{}

/// The code of `copy` puts the bytes to their place, keeps all others, and the accesses of objects are read, written
/// for each byte.
pub fn copies_are_right()
    ensures { piece.CopiesAreRight }
{}

/// The code of `operate` puts the result to its place, and keeps all other bytes but R0 and R1.
pub fn operators_are_right()
    ensures sum { piece.SumsAreRight }
    ensures difference { piece.DifferencesAreRight }
    ensures bitwise { piece.BitwiseIsRight }
{}

/// The code of `compare` leaves in C whether the number at `to` is less than that at `from`, and in Z whether they are
/// equal. S tells whether it is less in two's complement.
pub fn comparisons_are_right()
    ensures less { piece.ComparisonsTellLess }
    ensures equal { piece.ComparisonsTellEqual }
    ensures signed { piece.ComparisonsTellSigned }
    ensures keep { piece.ComparisonsKeep }
{}

/// The code of `halve` halves the number and rounds it down, leaves in C the bit that fell out, and keeps all other
/// bytes but R0 and R1.
pub fn halves_are_right()
    ensures { piece.HalvesAreRight }
{}

/// The code of `copy`, `operate`, `compare` and `halve` is straight, and takes at most two, four, three and three steps
/// for each byte.
pub fn pieces_are_straight()
    ensures straight { piece.PiecesAreStraight }
    ensures steps { piece.PiecesTake }
{}
