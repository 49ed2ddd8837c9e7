//! Running the machine.
ghost use Rattle.std.specs.Prelude.{◌≡◌, ◌≤◌, ◌↔◌, ◌<◌, ℕ, List, length, is_some, unwrap_or, true, false, ◌&&◌, ◌||◌};
ghost use Rattle.ec_avr.specs.declared.machine.Access.{Access};
ghost use Rattle.ec_avr.specs.Machine.{step, needs_port, StaysUnlessRan, is_byte, byte_of};
ghost use Rattle.ec_emu.specs.declared.ask.Ask.{Ask};
ghost use Rattle.ec_emu.specs.Answers.{WereAsked, asks_of};
ghost use Rattle.ec_emu.specs.Emulation.{IsRun, IsPrinted, SinkCalm, RunCause};
ghost use Rattle.ec_emu.specs.Lines.{port_lines};
ghost use Rattle.ec_emu.specs.History.{IsAnsweredBy};
ghost use Rattle.ec_emu.specs.Stops.{is_stack, IsRunUntil};

use crate::answers::answer;
use crate::ask::Ports;
use crate::history::PortHistory;
use crate::print::print;
use crate::stop::Stop;
use ec_avr::{Access, FaultKind, Machine, PortAnswer, Stepped};
use ec_io::Sink;

/// How a run ended.
#[derive(Clone, Copy, Debug, PartialEq, Eq)]
pub enum EmuEnd {
    /// At BREAK, with R25:R24 as the result.
    Ended(i16),
    /// All steps were made and their lines written, and the machine still runs. A next step was not looked at.
    StepsOut,
    /// At a step that cannot be made, with the program counter.
    Fault(FaultKind, u16),
    /// The line of the last step was not written whole.
    WriteFault,
}

/// What a run did.
#[derive(Clone, Copy, Debug, PartialEq, Eq)]
pub struct EmuReport {
    pub end: EmuEnd,
    /// How often ports were read, also by a step whose line was not written whole.
    pub reads: u32,
    /// How often ports were written, also by such a step.
    pub writes: u32,
}

/// What a run did that a `Stop` may have stopped.
#[derive(Clone, Copy, Debug, PartialEq, Eq)]
pub struct UntilReport {
    /// Whether it was stopped.
    pub stopped: bool,
    /// What `emulate` reports of the run, for as many steps as were made where it was stopped.
    pub report: EmuReport,
}

/// Makes a step. The ports are asked once where it reads one.
fn make_step<P: Ports>(machine: &mut Machine, ports: &mut P, history: &PortHistory) -> Stepped
    requires { P.can_ask ports.old }
    ensures can { P.can_ask ports.new }
    ensures steps { (byte : ℕ) × ((result ≡ (step byte machine.old).stepped)
        × ((machine.new ≡ (step byte machine.old).state)
        × IsAnsweredBy (P.gives ports.old) (P.asked ports.old) (P.asked ports.new) history.now (needs_port machine.old)
        byte)) }
    ensures unless_ran { StaysUnlessRan result machine.old machine.new }
    ensures stays { (ask : Ask) (byte : ℕ) → P.gives ports.new ask byte ↔ P.gives ports.old ask byte }
    ensures passed_on { (ask : Ask) (byte : ℕ) → P.passed_on ports.new ask byte ↔ P.passed_on ports.old ask byte }
    ensures held { P.held ports.new ≡ P.held ports.old }
{
    let byte = answer(ports, history.next_ask(machine.needs_port()));
    machine.step(given(byte))
}

/// What a step is given, where ports answered a byte or were not asked.
fn given(byte: Option<u8>) -> PortAnswer
    ensures is { is_byte result ≡ is_some byte }
    ensures value { byte_of result ≡ unwrap_or byte 0 }
{
    match byte {
        Some(byte) => PortAnswer::Byte(byte),
        None => PortAnswer::Nothing,
    }
}

/// The report of a run.
fn report(history: &PortHistory, end: EmuEnd) -> EmuReport
    ensures end { result.end ≡ end }
    ensures reads { result.reads ≡ history.now.all_reads }
    ensures writes { result.writes ≡ history.now.all_writes }
{
    EmuReport {
        end,
        reads: history.all_reads,
        writes: history.all_writes,
    }
}

/// The report of a run that was not stopped.
fn went_on(history: &PortHistory, end: EmuEnd) -> UntilReport
    ensures on { result.stopped ≡ false }
    ensures end { result.report.end ≡ end }
    ensures reads { result.report.reads ≡ history.now.all_reads }
    ensures writes { result.report.writes ≡ history.now.all_writes }
{
    UntilReport {
        stopped: false,
        report: report(history, end),
    }
}

/// The report of a run that was stopped.
fn stopped(history: &PortHistory) -> UntilReport
    ensures off { result.stopped ≡ true }
    ensures end { result.report.end ≡ EmuEnd.StepsOut }
    ensures reads { result.report.reads ≡ history.now.all_reads }
    ensures writes { result.report.writes ≡ history.now.all_writes }
{
    UntilReport {
        stopped: true,
        report: report(history, EmuEnd::StepsOut),
    }
}

/// Whether an access, or one before it, is of the stack.
fn is_begun(begun: bool, access: Access) -> bool
    ensures { result ≡ (begun || is_stack access) }
{
    begun || matches!(access, Access::Stack)
}

/// Whether a run stops after a step with an access.
fn is_over<S: Stop>(begun: bool, stop: &S, access: Access, machine: &Machine) -> bool
    requires { S.can_stop stop.now }
    ensures { result ≡ (begun && S.stops stop.now access machine.now) }
{
    begun && stop.stops(access, machine)
}

/// Runs the machine for at most so many steps, and writes a line for each read and each write of a port, after its
/// step. The ports are asked at each read, once, and at no other step. It takes no memory.
///
/// The run is stopped after the first step, behind the first that pushes or pops, at which `stop` tells so.
pub fn emulate_until<P: Ports, O: Sink, S: Stop>(
    machine: &mut Machine,
    ports: &mut P,
    steps: u32,
    sink: &mut O,
    stop: &S,
) -> UntilReport
    requires asked { P.can_ask ports.old }
    requires stops { S.can_stop stop.now }
    ensures can { P.can_ask ports.new }
    ensures run { (trace : List Access)
        × (IsRunUntil (S.stops stop.now) (P.gives ports.old) steps machine.old machine.new result trace result.stopped
        × (length trace ≤ steps
        × (IsPrinted (O.written sink.old) (O.written sink.new) result.report.end trace
        × (((room : ℕ) → O.calm sink.old room → length (port_lines trace) ≤ room
        → SinkCalm (O.faults sink.old) (O.faults sink.new) (O.calm sink.new) room result.report.end trace)
        × WereAsked (P.asked ports.old) (P.asked ports.new) (asks_of trace))))) }
    ensures cause { RunCause (O.faults sink.old) (O.faults sink.new) result.report.end }
    ensures rest { O.rest sink.new ≡ O.rest sink.old }
    ensures stays { (ask : Ask) (byte : ℕ) → P.gives ports.new ask byte ↔ P.gives ports.old ask byte }
    ensures passed_on { (ask : Ask) (byte : ℕ) → P.passed_on ports.new ask byte ↔ P.passed_on ports.old ask byte }
    ensures held { P.held ports.new ≡ P.held ports.old }
{
    let mut history = PortHistory::new();
    let mut begun = false;
    'steps: for _made in 0..steps {
        match make_step(machine, ports, &history) {
            Stepped::Ran(access) => {
                history.note(access);
                match print(sink, access) {
                    Ok(()) => {}
                    Err(_) => return went_on(&history, EmuEnd::WriteFault),
                }
                if is_over(begun, stop, access, machine) {
                    return stopped(&history);
                }
                begun = is_begun(begun, access);
            }
            Stepped::Ended => return went_on(&history, EmuEnd::Ended(machine.result())),
            Stepped::Fault(kind, pc) => return went_on(&history, EmuEnd::Fault(kind, pc)),
        }
    }
    went_on(&history, EmuEnd::StepsOut)
}

/// Runs the machine for at most so many steps, and writes a line for each read and each write of a port, after its
/// step. The ports are asked at each read, once, and at no other step. It takes no memory.
pub fn emulate<P: Ports, O: Sink>(
    machine: &mut Machine,
    ports: &mut P,
    steps: u32,
    sink: &mut O,
) -> EmuReport
    requires { P.can_ask ports.old }
    ensures can { P.can_ask ports.new }
    ensures run { (trace : List Access) × (IsRun (P.gives ports.old) steps machine.old machine.new result trace
        × (IsPrinted (O.written sink.old) (O.written sink.new) result.end trace
        × (((room : ℕ) → O.calm sink.old room → length (port_lines trace) ≤ room
        → SinkCalm (O.faults sink.old) (O.faults sink.new) (O.calm sink.new) room result.end trace)
        × WereAsked (P.asked ports.old) (P.asked ports.new) (asks_of trace)))) }
    ensures cause { RunCause (O.faults sink.old) (O.faults sink.new) result.end }
    ensures rest { O.rest sink.new ≡ O.rest sink.old }
    ensures stays { (ask : Ask) (byte : ℕ) → P.gives ports.new ask byte ↔ P.gives ports.old ask byte }
    ensures passed_on { (ask : Ask) (byte : ℕ) → P.passed_on ports.new ask byte ↔ P.passed_on ports.old ask byte }
    ensures held { P.held ports.new ≡ P.held ports.old }
{
    let mut history = PortHistory::new();
    let mut made = machine.run_quietly(steps);
    'steps: while made < steps {
        match make_step(machine, ports, &history) {
            Stepped::Ran(access) => {
                history.note(access);
                match print(sink, access) {
                    Ok(()) => {}
                    Err(_) => return report(&history, EmuEnd::WriteFault),
                }
                made += 1;
                made += machine.run_quietly(steps - made);
            }
            Stepped::Ended => return report(&history, EmuEnd::Ended(machine.result())),
            Stepped::Fault(kind, pc) => return report(&history, EmuEnd::Fault(kind, pc)),
        }
    }
    report(&history, EmuEnd::StepsOut)
}
