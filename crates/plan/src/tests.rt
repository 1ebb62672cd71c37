// The last tests of an instruction.
ghost use Rattle.std.specs.Prelude.{◌≡◌};
ghost use Rattle.plan.specs.End as def;

use crate::{Operation, Plan, Ready, Trap};
use decode::Flow;

// The instruction goes ahead.
fn performs(x: Ready, pc: u16, states: u16) -> Plan
    ensures { result ≡ def.performs x pc states }
{
    Plan::Perform(Operation {
        code: x.code,
        rd: x.rd,
        held: x.held,
        source: x.source,
        port: x.address,
        pc,
        states,
        store: x.store,
    })
}

// The plan of an instruction whose accesses are done. `pc` is its own address, and `jumps` says whether a jump is taken.
#[tactic(auto, unfolding(crate::specs::End::end_of))]
pub fn end(flow: Flow, x: Ready, pc: u16, jumps: bool) -> Plan
    ensures { result ≡ def.end_of flow x pc jumps }
{
    let cost = u16::from(x.cost);
    match flow {
        Flow::Next => performs(x, x.following, cost),
        Flow::Jump if jumps => performs(x, x.address, cost + 1),
        Flow::Jump => performs(x, x.following, cost),
        Flow::Call => performs(x, x.address, cost),
        Flow::Return => performs(x, x.source, cost),
        Flow::Resume => performs(x, x.second, cost),
        Flow::Trap => Plan::Trap(Trap::ServiceCall, x.following),
        Flow::Divide if x.source == 0 => Plan::Trap(Trap::ZeroDivisor, pc),
        Flow::Divide => performs(x, x.following, cost),
        Flow::Shift => performs(x, x.following, cost + x.source % 16),
    }
}
