// What a card's commands do.
ghost use Rattle.std.specs.Prelude.{◌++◌, ◌≡◌, ◌*◌, ◌+◌, ◌≤◌, drop, length};
ghost use Rattle.command.specs.Card.{is_run};
ghost use Rattle.card.specs.Effect as def;
ghost use Rattle.card.specs.Inside.{card_effect, filled_of, replaced};
ghost use Rattle.report.specs.Layout.{report_size};
ghost use Rattle.report.specs.Report.{report_of_ran};
ghost use Rattle.machine.specs.Run.{run_of};

use command::{Command, Commands};
use machine::State;
use memory::Memory;
use report::REPORT;

// The state after some commands, and how many report bytes are filled. It is a value: memory and report stay with the caller, and are lent for a command.
#[derive(Clone, Copy)]
struct Progress {
    state: State,
    filled: usize,
}

impl Progress {
    // 04: a run, its report behind those that are filled.
    fn run(&mut self, memory: &mut Memory, allowance: u16, report: &mut [u8])
        requires { self.old.filled + report_size ≤ length report.old }
        ensures state { self.new ≡ record { state = (run_of allowance self.old.state memory.old).state; filled = self.old.filled + report_size } }
        ensures memory { memory.new ≡ (run_of allowance self.old.state memory.old).memory }
        ensures report { report.new ≡ replaced report.old self.old.filled report_size (report_of_ran (run_of allowance self.old.state memory.old)) }
    {
        // No map is kept from run to run.
        let finished = runner::run(self.state, memory, allowance, false, None);
        report::write_run(&mut report[self.filled..], finished);
        self.state = finished.state;
        self.filled += REPORT;
    }

    // What a command does, its report behind those that are filled. A match over the commands: each has operands of its own.
    fn execute(&mut self, command: Command, memory: &mut Memory, report: &mut [u8])
        requires { self.old.filled + report_size * is_run command ≤ length report.old }
        ensures answer { self.new ≡ record { state = (def.effect_of command self.old.state memory.old).state; filled = self.old.filled + report_size * is_run command } }
        ensures memory { memory.new ≡ (def.effect_of command self.old.state memory.old).memory }
        ensures report { report.new ≡ replaced report.old self.old.filled (report_size * is_run command) (def.effect_of command self.old.state memory.old).reports }
    {
        match command {
            Command::Byte(address, value) => memory[address as usize] = value,
            Command::Register(number, value) => {
                self.state = settings::assign_register(self.state, number, value);
            }
            Command::Lines(lines, byte) => {
                self.state = settings::add_lines(self.state, lines, byte);
            }
            Command::Run(allowance) => self.run(memory, allowance, report),
            Command::Entry(number, bits) => {
                self.state = settings::set_entry(self.state, number, bits);
            }
            Command::Mmu(on) => self.state = settings::set_mmu(self.state, on),
            Command::Flag(flag) => self.state = self.state.load_flag(flag),
            Command::Time(ms) => self.state = settings::pass_time(self.state, ms),
        }
    }
}

// The commands of a card, one after the other, to its end or to a bad one.
pub fn execute(
    first: State,
    memory: &mut Memory,
    commands: Commands<'_>,
    report: &mut [u8],
) -> State
    requires { filled_of commands ≤ length report.old }
    ensures state { result ≡ (card_effect commands.entry first memory.old).state }
    ensures memory { memory.new ≡ (card_effect commands.entry first memory.old).memory }
    ensures report { report.new ≡ (card_effect commands.entry first memory.old).reports ++ drop (filled_of commands.entry) report.old }
{
    let mut progress = Progress {
        state: first,
        filled: 0,
    };
    for command in commands {
        let Ok(command) = command else { break };
        progress.execute(command, memory, report);
    }
    progress.state
}
