// Frame 07, a question: why it is refused, and what it is answered.

#![tactic(auto)]

ghost use Rattle.std.specs.Prelude.{◌≡◌, ◌+◌, ◌/◌, ◌%◌, ◌≤◌, length};
ghost use Rattle.frame.specs.Frame as F;
ghost use Rattle.building.specs.declared.Arrays.{Arrays};
ghost use Rattle.desk.specs.held.Holds.{service, Valid, Did, does};
ghost use Rattle.asking.specs.held.Asking.{QuestionRow};

use desk::Desk;
use service::Refusal;

// Why a question is refused.
fn of_question(d: Desk, p: usize) -> Result<(), Refusal>
    ensures { QuestionRow d p result }
{
    if !modes::is_holding(d.mode) {
        return Err(Refusal::Misplaced);
    }
    if d.held.polygons <= p {
        return Err(Refusal::Absent);
    }
    Ok(())
}

// The number of a finding as it is kept.
fn number_of(kept: u16) -> u8
    ensures { result ≡ kept % 16 }
{
    (kept % 16) as u8
}

// Its position.
fn position_of(kept: u16) -> usize
    ensures { result ≡ kept / 16 }
{
    usize::from(kept / 16)
}

// A question: the polygon's kept finding with its position, its stamp and its part.
pub fn ask(
    stamps: &[u32; 256],
    findings: &[u16; 256],
    parts: &[i64; 256],
    room: &mut [u8],
    d: Desk,
    p: usize,
) -> Desk
    requires { (d.at + 33 ≤ length room.old) × (d.held.polygons ≤ 256) }
    ensures { (a : Arrays) → a.stamps ≡ stamps.now → a.findings ≡ findings.now → a.parts ≡ parts.now → Valid a d → Did (does (service a d) (F.question p)) room.old d.at a room.new result }
{
    if let Err(refusal) = of_question(d, p) {
        return desk::refuse(room, d, refusal);
    }
    let kept = findings[p];
    let finding = number_of(kept);
    let position = position_of(kept);
    let at = answer::put_told(room, d.at, finding, position, stamps[p], parts[p]);
    Desk { at, ..d }
}
