// The kinds of commands, by their bytes.
ghost use Rattle.std.specs.Prelude.{◌≡◌, ◌<◌, length, MatchResult};
ghost use Rattle.command.specs.Command as def;
ghost use Rattle.command.specs.Kind.{kind_number};
ghost use Rattle.refusal.specs.declared.Cause.TheVariants.{CommandUnknown};

use crate::Command;
use refusal::Cause;

// What a command's byte says that it is.
#[derive(Clone, Copy)]
pub enum Kind {
    Byte = 1,
    Register,
    Lines,
    Run,
    Entry,
    Mmu,
    Flag,
    Time,
}

// The kind with this byte; a byte that is no command is refused as an unknown one.
impl TryFrom<u8> for Kind {
    type Error = Cause;

    ghost try_from_gives = { λ byte r. MatchResult r (λ k. kind_number k ≡ byte) (λ cause. (cause ≡ CommandUnknown) × (def.operands_of byte ≡ 0)) };

    #[tactic(auto, unfolding(crate::specs::Command::operands_of))]
    fn try_from(byte: u8) -> Result<Kind, Cause> {
        match byte {
            1 => Ok(Kind::Byte),
            2 => Ok(Kind::Register),
            3 => Ok(Kind::Lines),
            4 => Ok(Kind::Run),
            5 => Ok(Kind::Entry),
            6 => Ok(Kind::Mmu),
            7 => Ok(Kind::Flag),
            8 => Ok(Kind::Time),
            _ => Err(Cause::CommandUnknown),
        }
    }
}

impl Kind {
    // How many bytes of operands it has.
    #[tactic(auto, unfolding(crate::specs::Command::operands_of))]
    pub fn operands(self) -> usize
        ensures count { result ≡ def.operands_of (kind_number self) }
        ensures some { 0 < result }
    {
        match self {
            Kind::Byte => 3,
            Kind::Register => 3,
            Kind::Lines => 3,
            Kind::Run => 2,
            Kind::Entry => 4,
            Kind::Mmu => 1,
            Kind::Flag => 2,
            Kind::Time => 2,
        }
    }

    // Whether the operands are within their values; `rest` holds the command's byte first.
    #[tactic(auto, unfolding(crate::specs::Command::operands_of, crate::specs::Command::good_of))]
    pub fn good(self, rest: &[u8]) -> bool
        requires { def.operands_of (kind_number self) < length rest.now }
        ensures { result ≡ def.good_of (kind_number self) rest.now }
    {
        match self {
            Kind::Register => rest[1] < 16,
            Kind::Lines => layout::pending_good(endian::word_from(rest, 1)),
            Kind::Entry => (rest[1] < 8) & layout::zeros_good(rest[3]),
            Kind::Mmu => rest[1] < 2,
            Kind::Flag => layout::flag_good(endian::word_from(rest, 1)),
            Kind::Byte | Kind::Run | Kind::Time => true,
        }
    }

    // The command with its operands.
    #[tactic(auto, unfolding(crate::specs::Command::operands_of, crate::specs::Command::command_of))]
    pub fn command(self, rest: &[u8]) -> Command
        requires { def.operands_of (kind_number self) < length rest.now }
        ensures command { result ≡ def.command_of (kind_number self) rest.now }
        ensures numbered { def.command_number result ≡ kind_number self }
    {
        match self {
            Kind::Byte => Command::Byte(endian::word_from(rest, 1), rest[3]),
            Kind::Register => Command::Register(rest[1], endian::word_from(rest, 2)),
            Kind::Lines => Command::Lines(endian::word_from(rest, 1), rest[3]),
            Kind::Run => Command::Run(endian::word_from(rest, 1)),
            Kind::Entry => Command::Entry(rest[1], layout::entry_from(rest, 2)),
            Kind::Mmu => Command::Mmu(rest[1] == 1),
            Kind::Flag => Command::Flag(endian::word_from(rest, 1)),
            Kind::Time => Command::Time(endian::word_from(rest, 1)),
        }
    }
}
