// The report of a run: 12 bytes.
#![tactic(auto)]

ghost use Rattle.std.specs.Prelude.{◌++◌, ◌≡◌, ◌≤◌, drop, length};
ghost use Rattle.machine.specs.Answers.{ending_entered, ending_number};
ghost use Rattle.machine.specs.Flag.{flag_of};
ghost use Rattle.report.specs.Report as def;

use endian::{put_bytes, put_word};
use machine::{Ending, Finished};

// The layout of a report: the offset of each part, and its size in bytes.
pub const ENDING: usize = 0;

pub const NUMBER: usize = 1;

pub const STEPS: usize = 2;

pub const STATES: usize = 4;

pub const PC: usize = 8;

pub const FLAG: usize = 10;

pub const REPORT: usize = 12;

// The number that a report has for an ending. A function: neither `From` nor `Ending` is of this crate, and no other asks for it.
fn ending_number(ending: Ending) -> u8
    ensures { result ≡ ending_number ending }
{
    match ending {
        Ending::Spent => 0,
        Ending::Entered(_, _, _) => 1,
        Ending::Halted => 2,
        Ending::Lost => 3,
    }
}

// The number entered or FFh, PC and FLAG: the saved ones if the kernel was entered.
fn shown(ending: Ending, pc: u16, flag: u16) -> (u8, u16, u16)
    ensures { result ≡ (ending_entered ending, def.pc_shown ending pc, def.flag_shown ending flag) }
{
    match ending {
        Ending::Entered(number, saved_pc, saved_flag) => (number, saved_pc, saved_flag),
        Ending::Spent | Ending::Halted | Ending::Lost => (0xff, pc, flag),
    }
}

// A report written to the front of `report`, the bytes behind it kept. At least 12: an array of 12 would ask for
// exactly so many. For any words, too, where `write_run` takes those of a run.
pub fn write_report(report: &mut [u8], ending: Ending, pc: u16, flag: u16, steps: u16, states: u32)
    requires { 12 ≤ length report.old }
    ensures { report.new ≡ def.report_of ending pc flag steps states ++ drop 12 report.old }
{
    let (number, pc, flag) = shown(ending, pc, flag);
    report[ENDING] = ending_number(ending);
    report[NUMBER] = number;
    put_word(report, STEPS, steps);
    put_bytes(report, STATES, &states.to_be_bytes());
    put_word(report, PC, pc);
    put_word(report, FLAG, flag);
}

// The report of a run.
pub fn write_run(report: &mut [u8], run: Finished)
    requires { 12 ≤ length report.old }
    ensures { report.new ≡ def.report_of run.ending run.state.pc (flag_of run.state) run.steps run.states ++ drop 12 report.old }
{
    let flag = run.state.flags.word();
    write_report(
        report,
        run.ending,
        run.state.pc,
        flag,
        run.steps,
        run.states,
    );
}
