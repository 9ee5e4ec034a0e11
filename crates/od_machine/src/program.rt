//! Programs of patterns.
ghost use Rattle.std.specs.Prelude.{◌^◌, ◌<◌, length};
ghost use Rattle.od_machine.specs.Points.{AreMeetingPoints};

use crate::instruction::Instruction;
use crate::points::Points;
use od_text::list::List;

/// The instructions of a pattern: of fewer than 2^31.
#[derive(Debug, Drop)]
pub struct Program {
    pub(crate) code: List<Instruction>,
    /// Where ways can meet.
    pub(crate) points: Points,
    pub ghost short: { length code < 2 ^ 31 },
    pub ghost meet: { AreMeetingPoints code points.slots },
}
