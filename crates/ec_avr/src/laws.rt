//! What holds of all runs of the machine, and of the length of instructions.
ghost use Rattle.std.specs.Prelude.{◌≡◌, ℕ, ◌<◌};
ghost use Rattle.ec_isa.specs.Reading.{instruction_at as decoded};
ghost use Rattle.ec_avr.specs.Effects.{has_two_words};
ghost use Rattle.ec_avr.specs.Machine.{State, Inputs, machine};
ghost use Rattle.ec_avr.specs.Inputs.{AgreeOn, trace_of};
ghost use Rattle.ec_avr.specs.Laws as law;

use crate::machine::is_of_two_words;
use ec_isa::decode;

/// A run depends on its inputs only as far as it reads them: inputs that give each byte that a run reads alike give the
/// same run.
pub fn run_as_far_as_read()
    ensures { (m : ℕ) (s : State) (a b : Inputs) → AgreeOn (trace_of (machine m a s)) a b
        → machine m b s ≡ machine m a s }
{}

/// A step reads the port that the machine needs before it, and from it the byte that is answered.
pub fn step_reads_what_is_answered()
    ensures { law.ReadsWhatIsAnswered }
{}

/// An instruction whose bytes stand at the program counter is the one that the next step performs.
pub fn steps_are_of_instructions()
    ensures instruction { law.IsWhatStands }
    ensures whole { law.StandsWhole }
    ensures step { law.StepsByInstruction }
    ensures port { law.NeedsByInstruction }
    ensures keeps { law.StepKeeps }
{}

/// The program counter goes where a jump tells, without the modulo where that is a number of 16 bits.
pub fn jumps_arrive()
    ensures inside { law.JumpsInside }
    ensures forward { law.RelativeForward }
    ensures back { law.RelativeBack }
{}

/// Where a bit of a byte is set to a value, the other bits stay.
pub fn one_bit_is_set()
    ensures { law.SetsOneBit }
{}

/// `stack_bytes` tells the addresses of which a step pushes or pops the bytes, which the access does not tell.
pub fn stack_bytes_are_told()
    ensures inside { law.StackIsInside }
    ensures others { law.OthersLeaveTheStack }
    ensures alone { law.PushesThereAlone }
{}

/// Bytes stay bytes: no step stores a number that is none, nor moves the program counter past 65,535.
pub fn bytes_stay_bytes()
    ensures reset { law.ResetHoldsBytes }
    ensures step { law.StepHoldsBytes }
    ensures run { law.RunHoldsBytes }
    ensures left { law.LeftAreBytes }
{}

/// Runs are made of runs: more steps go on where the first ones stand, with what the ports give after the bytes that
/// were read.
pub fn runs_join()
    ensures machine { law.MachineJoins }
    ensures nowhere { law.LeadsNowhere }
    ensures on { law.LeadsOn }
    ensures through { law.LeadsThrough }
    ensures stands { law.LeadsToWhereItStands }
    ensures ends { law.LeadsToItsEnd }
    ensures faults { law.LeadsToItsFault }
    ensures lead { law.RunsLead }
{}

/// The machine's run is a run of a step function, so that all laws of `ec_runs` hold of it.
pub fn runs_are_steps()
    ensures steps { law.MachineIsSteps }
    ensures many { law.MachineIsMany }
    ensures run { law.MachineIsRun }
{}

/// Whether the instruction that begins with a word has two words. The word that follows does not matter.
pub fn begins_two_words(first: u16) -> bool
    ensures { (next : ℕ) → next < 0x1_0000 → has_two_words (decoded first next) ≡ result }
{
    is_of_two_words(decode(first, 0))
}
