// Operands: the address that one names, and the data access that an instruction needs.
ghost use Rattle.std.specs.Prelude.{◌≡◌};
ghost use Rattle.machine.specs.Flag.{flag_of};
ghost use Rattle.machine.specs.Register.{reg_of, sp_of};
ghost use Rattle.transfer.specs.Need as def;

use crate::State;
use decode::register::FP;
use decode::{DataAccess, Operand};
use transfer::{Need, store_need};
use word::{Width, minus, plus, to_word};

impl State {
    // The address that an operand names, `following` being that of the following instruction.
    #[tactic(auto, unfolding(transfer::specs::Need::address_of))]
    pub(crate) fn address(self, following: u16, operand: Operand) -> u16
        ensures { result ≡ def.address_of (reg_of self following) operand }
    {
        match operand {
            Operand::Direct(dsp) => dsp,
            Operand::Indexed(dsp, rx) => plus(dsp, self.register(following, rx)),
            Operand::Frame(d) => plus(self.register(following, FP), to_word(d)),
            Operand::Indirect(rx) | Operand::ByteIndirect(rx) => self.register(following, rx),
            Operand::Immediate(_) | Operand::Register(_) | Operand::Short(_) | Operand::Nothing =>
                0,
        }
    }

    // The source of LD and of ADD to SHRL.
    #[tactic(auto, unfolding(transfer::specs::Need::load_need))]
    fn load_need(self, following: u16, a: u16, operand: Operand) -> Need
        ensures { result ≡ def.load_need (reg_of self following) a operand }
    {
        match operand {
            Operand::Direct(_)
            | Operand::Indexed(_, _)
            | Operand::Frame(_)
            | Operand::Indirect(_) => Need::Read(Width::Word, a),
            Operand::ByteIndirect(_) => Need::Read(Width::Byte, a),
            Operand::Immediate(v) => Need::Value(v),
            Operand::Register(r) => Need::Value(self.register(following, r)),
            Operand::Short(v) => Need::Value(to_word(v)),
            Operand::Nothing => Need::Value(0),
        }
    }

    // The data access of an instruction, `a` being the operand's address.
    #[tactic(auto, unfolding(transfer::specs::Need::need_of))]
    pub(crate) fn need(self, access: DataAccess, following: u16, a: u16, operand: Operand) -> Need
        ensures { result ≡ def.need_of access (reg_of self following) (sp_of self) (flag_of self) a operand }
    {
        match access {
            DataAccess::None => Need::Value(0),
            DataAccess::Flag => Need::Value(self.flags.word()),
            DataAccess::Source => self.load_need(following, a, operand),
            DataAccess::Destination => store_need(a, operand),
            DataAccess::Push => Need::Write(Width::Word, minus(self.sp(), 2)),
            DataAccess::Pop => Need::Read(Width::Word, self.sp()),
            DataAccess::PopTwo => Need::ReadTwo(self.sp()),
        }
    }
}
